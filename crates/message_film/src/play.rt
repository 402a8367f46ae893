//! A message of a sign in time.
ghost use Rattle.std.specs.Prelude.{◌≡◌, ◌∷◌, [], ◌++◌, ◌≤◌, ℕ, IfErr, IfOk, IfSome, OnOk, length, replicate};
ghost use Rattle.multi_meaning.specs.Times.{shown};
ghost use Rattle.page_picture.specs.Shown.{IsThere};
ghost use Rattle.message_film.specs.Film.{IsNoFilm, IsTooLong, IsUnmade, Lasts};
ghost use Rattle.message_film.specs.Moving.{IsFilmOf, moving, seen_points};

use crate::period::playing_time;
use crate::reel::Reel;
use multi_layout::{Checked, Shown};
use page_picture::draw_colours;
use sign_font::Sign;
use std::alloc::{AllocError, Global};
use thiserror::Error;

/// The most octets of a film: 64 MB.
pub const MOST_OCTETS: usize = 64_000_000;

/// The most tenths of a second that a film lasts: ten minutes.
pub const LONGEST_FILM: u16 = 6000;

/// Why there is no film (own).
#[derive(Clone, Copy, Debug, PartialEq, Eq, Error)]
pub enum FilmFault {
    /// Memory was refused.
    #[error("out of memory")]
    Memory,
    /// The file of a film of this many tenths of a second would have more than 64,000,000 octets.
    #[error("too large: a film of {tenths} tenths of a second has more than 64 MB")]
    TooLarge { tenths: u16 },
    /// The string begins anew after this many tenths of a second, and a film lasts for at most 6,000. `u32::MAX` stands for that long or
    /// longer.
    #[error("too long: it begins anew after {tenths} tenths of a second")]
    TooLong { tenths: u32 },
}

/// One moment of a string that this sign accepts, as a file in GIF with one picture, of a tenth of a second: what is shown, with `side` by
/// `side` points for each pixel. The error says that memory was refused.
pub fn still(
    alloc: Global,
    sign: &Sign,
    checked: &mut Checked<'_>,
    shown: Shown,
    side: u8,
) -> Result<Vec<u8>, AllocError>
    requires sign { checked.old.sign ≡ sign.now }
    requires there { IsThere checked.old.source.octets shown }
    requires side { side ≤ 16 }
    ensures { IfOk result (λ octets. IsFilmOf side sign.now (seen_points side sign.now checked.old.source.octets shown ∷ []) octets.items) }
{
    let mut reel = Reel::new(alloc, side, sign.width(), sign.height(), sign.classic())?;
    let colours = draw_colours(alloc, sign, checked, shown)?;
    reel.push(alloc, colours)?;
    let octets = reel.finish(alloc)?;
    Ok(octets)
}

/// Shows what a string shows at a clock in the next tenth of a second.
fn push_moment(
    alloc: Global,
    sign: &Sign,
    checked: &mut Checked<'_>,
    reel: &mut Reel,
    clock: u16,
) -> Result<(), AllocError>
    requires sign { checked.old.sign ≡ sign.now }
    requires size { (reel.old.width ≡ sign.now.width) × (reel.old.height ≡ sign.now.height) }
    ensures points { OnOk result (reel.new.points ≡ reel.old.points ++ replicate 10
        (seen_points reel.old.side sign.now checked.old.source.octets (shown sign.now checked.old.source.octets clock))) }
    ensures size { OnOk result ((reel.new.side ≡ reel.old.side) × (reel.new.width ≡ reel.old.width) × (reel.new.height ≡ reel.old.height)) }
    ensures palette { OnOk result (reel.new.palette ≡ reel.old.palette) }
    ensures kept { OnOk result ((checked.new.sign ≡ checked.old.sign) × (checked.new.source.octets ≡ checked.old.source.octets)) }
{
    let shown = checked.locate(u64::from(clock));
    let moment = draw_colours(alloc, sign, checked, shown)?;
    reel.push(alloc, moment)?;
    Ok(())
}

/// What a string that this sign accepts shows in its first tenths of a second, over and over, as a
/// file in GIF, with `side` by `side` points for each pixel. It has at most 64,000,000 octets.
pub fn film(
    alloc: Global,
    sign: &Sign,
    checked: &mut Checked<'_>,
    side: u8,
    tenths: u16,
) -> Result<Vec<u8>, FilmFault>
    requires sign { checked.old.sign ≡ sign.now }
    requires side { side ≤ 16 }
    requires some { 1 ≤ tenths }
    ensures film { IfOk result (λ octets. IsFilmOf side sign.now (moving side sign.now checked.old.source.octets tenths) octets.items) }
    ensures size { IfOk result (λ octets. length octets.items ≤ 64000000) }
    ensures fault { IfErr result (IsUnmade side sign.now checked.old.source.octets tenths) }
    ensures kept { OnOk result ((checked.new.sign ≡ checked.old.sign) × (checked.new.source.octets ≡ checked.old.source.octets)) }
{
    let Ok(mut reel) = Reel::new(alloc, side, sign.width(), sign.height(), sign.classic()) else {
        return Err(FilmFault::Memory);
    };
    for clock in 0..tenths {
        let Ok(()) = push_moment(alloc, sign, checked, &mut reel, clock) else {
            return Err(FilmFault::Memory);
        };
        if reel.len() > MOST_OCTETS {
            return Err(FilmFault::TooLarge { tenths });
        }
    }
    let Ok(octets) = reel.finish(alloc) else {
        return Err(FilmFault::Memory);
    };
    if octets.len() > MOST_OCTETS {
        return Err(FilmFault::TooLarge { tenths });
    }
    Ok(octets)
}

/// For how many tenths of a second a film lasts: for the seconds that are asked for, and else until the string begins anew.
fn tenths_of(
    sign: &Sign,
    checked: &Checked<'_>,
    octets: &[u8],
    seconds: Option<u16>,
) -> Result<u16, FilmFault>
    requires sign { checked.now.sign ≡ sign.now }
    requires octets { checked.now.source.octets ≡ octets.now }
    requires seconds { IfSome seconds (λ count. (1 ≤ count) × (count ≤ 600)) }
    ensures lasts { IfOk result (Lasts sign.now octets.now seconds) }
    ensures range { IfOk result (λ tenths. (1 ≤ tenths) × (tenths ≤ 6000)) }
    ensures fault { IfErr result (IsTooLong sign.now octets.now seconds) }
{
    if let Some(count) = seconds {
        return Ok(10 * count);
    }
    let tenths = playing_time(sign, checked, octets);
    if tenths > u32::from(LONGEST_FILM) {
        return Err(FilmFault::TooLong { tenths });
    }
    Ok(tenths as u16)
}

/// A string that this sign accepts, as it plays, over and over, as a file in GIF, with `side` by `side` points for each pixel: until it
/// begins anew ([`playing_time`]), or for its first seconds, 1 to 600, if these are asked for. The octets are those of the string. The film
/// lasts for at most 6,000 tenths of a second, and its file has at most 64,000,000 octets.
pub fn as_it_plays(
    alloc: Global,
    sign: &Sign,
    checked: &mut Checked<'_>,
    octets: &[u8],
    side: u8,
    seconds: Option<u16>,
) -> Result<Vec<u8>, FilmFault>
    requires sign { checked.old.sign ≡ sign.now }
    requires octets { checked.old.source.octets ≡ octets.now }
    requires side { side ≤ 16 }
    requires seconds { IfSome seconds (λ count. (1 ≤ count) × (count ≤ 600)) }
    ensures plays { IfOk result (λ file. (tenths : ℕ) × Lasts sign.now octets.now seconds tenths × (tenths ≤ 6000)
        × IsFilmOf side sign.now (moving side sign.now octets.now tenths) file.items) }
    ensures size { IfOk result (λ file. length file.items ≤ 64000000) }
    ensures fault { IfErr result (IsNoFilm side sign.now octets.now seconds) }
{
    let tenths = match tenths_of(sign, checked, octets, seconds) {
        Ok(tenths) => tenths,
        Err(fault) => return Err(fault),
    };
    film(alloc, sign, checked, side, tenths)
}
