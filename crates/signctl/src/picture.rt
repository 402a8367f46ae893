//! `signctl picture`, which writes a message as a picture.
ghost use Rattle.std.specs.Prelude.{ℕ, ◌≤◌};
ghost use Rattle.message_picture.specs.Drawn.{AllowsSeconds, HasPoints};

use command_line::{LitChoice, PictureKind, PictureRequest, Shown};
use message_picture::{Moment, View};
use sign_aids::{Lit, PictureFault, draw_picture, run_picture};
use std::alloc::Global;
use std::fs;
use std::io::{Read, Write};
use std::rt::Files;
use tool_streams::{ToolFault, write_whole};

/// What is drawn, with 1 to 600 seconds of a film. The command line has no others.
fn view_of(shown: Shown, kind: PictureKind) -> View
    ensures seconds { AllowsSeconds result }
    ensures points { (side : ℕ) → 1 ≤ side → HasPoints side result }
{
    let moment = match shown {
        Shown::Film {
            seconds: Some(count),
        } => {
            return View::Film {
                seconds: Some(count.clamp(1, 600)),
            };
        }
        Shown::Film { seconds: None } => return View::Film { seconds: None },
        Shown::Clock { clock } => Moment::Clock {
            clock: u64::from(clock),
        },
        Shown::Page { page, phase } => Moment::Page {
            page,
            phase: u64::from(phase),
        },
    };
    match kind {
        PictureKind::Gif => View::Gif { moment },
        PictureKind::Png => View::Png { moment },
        PictureKind::Ppm => View::Ppm { moment },
    }
}

/// The colour of lit pixels.
fn lit_of(lit: LitChoice) -> Lit {
    match lit {
        LitChoice::Amber => Lit::Amber,
        LitChoice::White => Lit::White,
        LitChoice::Red => Lit::Red,
        LitChoice::Green => Lit::Green,
    }
}

/// Makes a file, in place of one that was there, and writes it.
fn write_file<P: Files>(files: &P, name: &str, octets: &[u8]) -> Result<(), ToolFault> {
    let Ok(mut file) = fs::create(files, name) else {
        return Err(ToolFault::Write);
    };
    write_whole(&mut file, octets)
}

/// Draws a message as it is asked for, to the output or into a file. The file is made once the message is drawn.
pub(crate) fn answer_picture<P: Files, R: Read, W: Write>(
    alloc: Global,
    files: &P,
    asked: &PictureRequest<'_>,
    reader: &mut R,
    writer: &mut W,
) -> Result<(), PictureFault> {
    let view = view_of(asked.shown, asked.kind);
    let side = asked.side.clamp(1, 16);
    let lit = match asked.lit {
        Some(lit) => Some(lit_of(lit)),
        None => None,
    };
    let sample = asked.sign.is_sample();
    let Some(name) = asked.file else {
        return run_picture(alloc, sample, view, side, lit, reader, writer);
    };
    let octets = match draw_picture(alloc, sample, view, side, lit, reader) {
        Ok(octets) => octets,
        Err(fault) => return Err(fault),
    };
    match write_file(files, name, &octets) {
        Ok(()) => Ok(()),
        Err(fault) => Err(PictureFault::Tool(fault)),
    }
}
