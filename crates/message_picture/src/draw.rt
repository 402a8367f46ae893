//! A message, drawn.
ghost use Rattle.std.specs.Prelude.{◌≡◌, ◌<◌, ◌≤◌, ◌^◌, IfErr, IfOk, length};
ghost use Rattle.page_picture.specs.Shown.{IsThere};
ghost use Rattle.message_picture.specs.Drawn.{AllowsSeconds, HasPoints, IsDrawn, IsNoFilm, IsNoMoment, IsUndrawn, seen};

use crate::drawing::drawing_of;
use crate::view::{Moment, View};
use message_film::{FilmFault, as_it_plays, still};
use multi_layout::{Checked, Shown};
use page_picture::{PageColours, draw_colours};
use sign_font::Sign;
use std::alloc::{AllocError, Global};
use thiserror::Error;

/// Why a message isn't drawn (own).
#[derive(Clone, Copy, Debug, PartialEq, Eq, Error)]
pub enum DrawFault {
    /// Memory was refused.
    #[error("out of memory")]
    Memory,
    /// The message has no such page, but this many.
    #[error("no such page: the last is {pages}")]
    NoPage { pages: u8 },
    /// The file of a film of so many tenths of a second would have more than 64,000,000 octets.
    #[error("too large: a film of {tenths} tenths of a second has more than 64 MB")]
    TooLarge { tenths: u16 },
    /// The message begins anew after so many tenths of a second, and a film lasts for at most
    /// 6,000. `u32::MAX` stands for that long or longer.
    #[error("too long: it begins anew after {tenths} tenths of a second")]
    TooLong { tenths: u32 },
}

impl From<AllocError> for DrawFault {
    ghost use Rattle.std.specs.Prelude.{◌≡◌};
    ghost use Rattle.message_picture.specs.declared.draw.DrawFault.TheVariants.{Memory};

    ghost from_gives = { λ _ fault. fault ≡ Memory };

    fn from(_refused: AllocError) -> DrawFault {
        DrawFault::Memory
    }
}

/// What is shown of a string at a moment.
fn seen_at(checked: &mut Checked<'_>, moment: Moment) -> Result<Shown, DrawFault>
    requires { length checked.old.source.octets < 2 ^ 32 }
    ensures seen { IfOk result (λ shown. shown ≡ seen checked.old.sign checked.old.source.octets moment) }
    ensures there { IfOk result (IsThere checked.old.source.octets) }
    ensures missing { IfErr result (IsNoMoment checked.old.source.octets moment) }
    ensures kept { (checked.new.sign ≡ checked.old.sign) × (checked.new.source.octets ≡ checked.old.source.octets) }
{
    match moment {
        Moment::Page { page, phase } => {
            let pages = checked.pages();
            if page >= pages {
                return Err(DrawFault::NoPage { pages });
            }
            Ok(Shown::Page { page, phase })
        }
        Moment::Clock { clock } => Ok(checked.locate(clock)),
    }
}

/// A moment of a string, as a file in PPM.
fn draw_ppm(
    alloc: Global,
    sign: &Sign,
    checked: &mut Checked<'_>,
    moment: Moment,
    side: u8,
) -> Result<Vec<u8>, DrawFault>
    requires sign { checked.old.sign ≡ sign.now }
    requires short { length checked.old.source.octets < 2 ^ 32 }
    ensures drawn { IfOk result (λ file. IsDrawn side sign.now checked.old.source.octets (View.Ppm moment) file.items) }
    ensures fault { IfErr result (IsNoMoment checked.old.source.octets moment) }
{
    let shown = seen_at(checked, moment)?;
    let colours = PageColours::of_shown(alloc, sign, checked, shown)?;
    let mut file = Vec::new(alloc);
    colours.push_scaled_ppm(&mut file, sign.classic(), side)?;
    Ok(file)
}

/// A moment of a string, as a file in PNG.
fn draw_png(
    alloc: Global,
    sign: &Sign,
    checked: &mut Checked<'_>,
    moment: Moment,
    side: u8,
) -> Result<Vec<u8>, DrawFault>
    requires sign { checked.old.sign ≡ sign.now }
    requires short { length checked.old.source.octets < 2 ^ 32 }
    requires points { 1 ≤ side }
    requires side { side ≤ 16 }
    ensures drawn { IfOk result (λ file. IsDrawn side sign.now checked.old.source.octets (View.Png moment) file.items) }
    ensures fault { IfErr result (IsNoMoment checked.old.source.octets moment) }
{
    let shown = seen_at(checked, moment)?;
    let colours = draw_colours(alloc, sign, checked, shown)?;
    let file = drawing_of(
        alloc,
        side,
        sign.width(),
        sign.height(),
        sign.classic(),
        &colours,
    )?;
    Ok(file)
}

/// A string as it plays, as a file in GIF.
fn draw_film(
    alloc: Global,
    sign: &Sign,
    checked: &mut Checked<'_>,
    octets: &[u8],
    seconds: Option<u16>,
    side: u8,
) -> Result<Vec<u8>, DrawFault>
    requires sign { checked.old.sign ≡ sign.now }
    requires octets { checked.old.source.octets ≡ octets.now }
    requires side { side ≤ 16 }
    requires seconds { AllowsSeconds (View.Film seconds) }
    ensures drawn { IfOk result (λ file. IsDrawn side sign.now octets.now (View.Film seconds) file.items) }
    ensures fault { IfErr result (IsNoFilm side sign.now octets.now seconds) }
{
    match as_it_plays(alloc, sign, checked, octets, side, seconds) {
        Ok(file) => Ok(file),
        Err(FilmFault::Memory) => Err(DrawFault::Memory),
        Err(FilmFault::TooLarge { tenths }) => Err(DrawFault::TooLarge { tenths }),
        Err(FilmFault::TooLong { tenths }) => Err(DrawFault::TooLong { tenths }),
    }
}

/// Draws a string that this sign accepts, with `side` by `side` points for each pixel, 1 to 16, and
/// gives the octets of the file. The octets are those of the string.
///
/// The dot of a pixel is round from 4 points on. It has the pixel's colour: one of the ten classic colours, or
/// on a monochrome sign amber or dark. A file in PPM has three octets for each point, and at most 100,663,317.
/// One in PNG has one for each point, and at most 33,565,336. `side` isn't 0 for PNG, which has no empty files.
/// A film lasts for at most 6,000 tenths of a second, and its file has at most 64,000,000 octets.
pub fn draw_message(
    alloc: Global,
    sign: &Sign,
    checked: &mut Checked<'_>,
    octets: &[u8],
    view: View,
    side: u8,
) -> Result<Vec<u8>, DrawFault>
    requires sign { checked.old.sign ≡ sign.now }
    requires octets { checked.old.source.octets ≡ octets.now }
    requires short { length octets.now < 2 ^ 32 }
    requires side { side ≤ 16 }
    requires seconds { AllowsSeconds view }
    requires points { HasPoints side view }
    ensures drawn { IfOk result (λ file. IsDrawn side sign.now octets.now view file.items) }
    ensures fault { IfErr result (IsUndrawn side sign.now octets.now view) }
{
    match view {
        View::Ppm { moment } => draw_ppm(alloc, sign, checked, moment, side),
        View::Gif { moment } => {
            let shown = seen_at(checked, moment)?;
            Ok(still(alloc, sign, checked, shown, side)?)
        }
        View::Png { moment } => draw_png(alloc, sign, checked, moment, side),
        View::Film { seconds } => draw_film(alloc, sign, checked, octets, seconds, side),
    }
}
