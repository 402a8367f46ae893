//! What a sign says to a text in a record, and what it shows in a film.
ghost use Rattle.std.specs.Prelude.{◌≡◌, ◌≤◌, IfErr, IfOk};
ghost use Rattle.message_picture.specs.Drawn.{AllowsSeconds};
ghost use Rattle.latsefur_c.specs.Outcome.{HasNoSign};
ghost use Rattle.latsefur_c.specs.Recorded.{CountsFront, Explains, Films, IsExplained, IsFilmed, IsUnfilmed, seconds_of, why_unfilmed};

use crate::buffer::write_front;
use crate::outcome::{BAD_VALUE, LARGE_FILM, LONG_FILM, NO_MEMORY};
use crate::seen::accepted;
use crate::sign::{sign_and_room, sign_of};
use message_picture::{DrawFault, View, draw_message};
use message_report::{Explainer, Explanation, Format, Telling, USUAL_WARNINGS};
use std::alloc::Global;

/// Writes octets at the front of a buffer, if it has room for them, and tells how many there are.
pub(crate) fn count_front(buffer: &mut [u8], count: &mut usize, octets: &[u8]) -> u8
    ensures { CountsFront octets.now buffer.old buffer.new count.new result }
{
    *count = octets.len();
    write_front(buffer, octets)
}

/// The record of a text, or the number that says why there is none.
fn record_of(
    alloc: Global,
    sign_file: &[u8],
    text: &[u8],
    pictures: bool,
) -> Result<Explanation, u8>
    ensures ok { IfOk result (IsExplained sign_file.now text.now pictures) }
    ensures err { IfErr result (HasNoSign sign_file.now) }
{
    let (sign, room) = match sign_and_room(alloc, sign_file) {
        Ok(read) => read,
        Err(outcome) => return Err(outcome),
    };
    let telling = Telling {
        format: Format::Json,
        phase: 0,
        refused_only: false,
        pictures,
        warnings: USUAL_WARNINGS,
    };
    let explainer = Explainer::new(sign, room);
    let mut record = Explanation::new(alloc);
    match explainer.explain(alloc, telling, b"", 1, text, &mut record) {
        Ok(_) => Ok(record),
        Err(_) => Err(NO_MEMORY),
    }
}

/// Tells in a record, a line of JSON, what a sign says to a text and why, and how many octets that are.
#[unsafe(no_mangle)]
pub extern "C" fn latsefur_explain(
    alloc: Global,
    sign_file: &[u8],
    text: &[u8],
    pictures: u8,
    told: &mut [u8],
    count: &mut usize,
) -> u8
    ensures explained { Explains sign_file.now text.now pictures told.old told.new count.old count.new result }
{
    match record_of(alloc, sign_file, text, pictures != 0) {
        Ok(record) => count_front(told, count, record.octets()),
        Err(outcome) => outcome,
    }
}

/// The number that says why there is no film.
fn why_unfilmed(fault: DrawFault) -> u8
    ensures { result ≡ why_unfilmed fault }
{
    match fault {
        DrawFault::TooLarge { .. } => LARGE_FILM,
        DrawFault::TooLong { .. } => LONG_FILM,
        DrawFault::Memory | DrawFault::NoPage { .. } => NO_MEMORY,
    }
}

/// The film of a text, or the number that says why there is none.
fn film_of(
    alloc: Global,
    sign_file: &[u8],
    text: &[u8],
    side: u8,
    seconds: Option<u16>,
) -> Result<Vec<u8>, u8>
    requires side { side ≤ 16 }
    requires seconds { AllowsSeconds (View.Film seconds) }
    ensures ok { IfOk result (λ film. IsFilmed sign_file.now text.now side seconds film.items) }
    ensures err { IfErr result (IsUnfilmed sign_file.now text.now side seconds) }
{
    let sign = match sign_of(alloc, sign_file) {
        Ok(sign) => sign,
        Err(outcome) => return Err(outcome),
    };
    let mut checked = match accepted(&sign, text) {
        Ok(checked) => checked,
        Err(outcome) => return Err(outcome),
    };
    match draw_message(
        alloc,
        &sign,
        &mut checked,
        text,
        View::Film { seconds },
        side,
    ) {
        Ok(film) => Ok(film),
        Err(fault) => Err(why_unfilmed(fault)),
    }
}

/// The seconds of a film, 1 to 600; 0 stands for as long as the text plays.
fn seconds_of(seconds: u16) -> Option<u16>
    ensures { result ≡ seconds_of seconds }
{
    if seconds == 0 { None } else { Some(seconds) }
}

/// Draws what a text shows as it plays, in GIF, and tells how many octets that are.
#[unsafe(no_mangle)]
pub extern "C" fn latsefur_film(
    alloc: Global,
    sign_file: &[u8],
    text: &[u8],
    side: u8,
    seconds: u16,
    film: &mut [u8],
    count: &mut usize,
) -> u8
    ensures filmed { Films sign_file.now text.now side seconds film.old film.new count.old count.new result }
{
    if side == 0 || side > 16 || seconds > 600 {
        return BAD_VALUE;
    }
    match film_of(alloc, sign_file, text, side, seconds_of(seconds)) {
        Ok(drawn) => count_front(film, count, &drawn),
        Err(outcome) => outcome,
    }
}
