//! The answers that show pages, as rows of characters.
ghost use Rattle.std.specs.Prelude.{◌≡◌, ◌++◌, ◌∷◌, OnOk, IfOk, Some, codes, decimal, map, take};
ghost use Rattle.page_plane.specs.Plane.{is_lit};
ghost use Rattle.multi_layout.specs.Pages.{IsSized};
ghost use Rattle.sign_tool.specs.Frame.{frame_rows, head_text, show_answer};

use crate::answer::{Answer, LineAnswer};
use crate::ready::{Ready, make_room, push_number, push_octets, push_short};
use crate::reply::{push_refused, push_too_long};
use multi_layout::{AreaLines, Judge, Shown};
use multi_token::Source;
use page_picture::{Mark, write_rows};
use page_plane::Plane;
use sign_font::Sign;
use std::alloc::{AllocError, Global};
use std::marker::Model;
use tool_streams::MAX_STRING;

/// Answers each line by its verdict, and an accepted one by what the sign shows of it.
///
/// One plane is used for all lines, and so is the room for the lines of an area.
#[derive(Drop)]
pub(crate) struct Shower {
    sign: Sign,
    plane: Plane,
    lines: AreaLines,
    colour: u8,
    /// In tenths of a second.
    clock: u32,
}

impl Model for Shower {
    ghost use Rattle.multi_layout.specs.Pages.{IsSized};
    ghost use Rattle.sign_tool.specs.Frame.{ShowerData};

    ghost Value = { ShowerData };

    ghost view = { λ s. record { sign = s.sign; colour = s.colour; clock = s.clock } };

    ghost invariant = { λ s. IsSized s.plane s.sign };
}

impl Shower {
    /// With a plane of the sign's size.
    pub(crate) fn new(
        alloc: Global,
        sign: Sign,
        colour: u8,
        clock: u32,
    ) -> Result<Shower, AllocError>
        ensures { IfOk result (λ shower. shower ≡ record { sign = sign; colour = colour; clock = clock }) }
    {
        let Ok(plane) = Plane::new(alloc, sign.width(), sign.height()) else {
            return Err(AllocError);
        };
        Ok(Shower {
            sign,
            plane,
            lines: AreaLines::new(),
            colour,
            clock,
        })
    }
}

/// Appends the pixel rows from the top.
pub(crate) fn push_rows(text: &mut Ready, plane: &Plane) -> Result<(), AllocError>
    ensures text { OnOk result (text.new.begun ≡ text.old.begun ++ frame_rows (is_lit plane.now) plane.now.width plane.now.height) }
    ensures whole { text.new.whole ≡ text.old.whole }
{
    let end = text.len + (usize::from(plane.width()) + 1) * usize::from(plane.height());
    make_room(&mut text.octets, end + 8)?;
    write_rows(&mut text.octets[text.len..], plane, Mark::Hash);
    text.len = end;
    Ok(())
}

/// The first line of a frame by the digits of its page and phase, and an octet that nothing counts.
fn short_head(page: u8, phase: u8) -> [u8; 16]
    ensures { take 15 result ≡ codes "page " ++ page ∷ codes " phase " ++ phase ∷ codes "\n" }
{
    [
        b'p', b'a', b'g', b'e', b' ', page, b' ', b'p', b'h', b'a', b's', b'e', b' ', phase, b'\n',
        0,
    ]
}

/// Appends the first line of a frame. Most pages have a number and a phase of one digit.
#[inline(always)]
pub(crate) fn push_head(text: &mut Ready, shown: Shown) -> Result<(), AllocError>
    ensures text { OnOk result (text.new.begun ≡ text.old.begun ++ head_text shown) }
    ensures whole { text.new.whole ≡ text.old.whole }
{
    let Shown::Page { page, phase } = shown else {
        return push_octets(text, b"off\n");
    };
    if page < 10 && phase < 10 {
        return push_short(text, &short_head(b'0' + page, b'0' + phase as u8), 15);
    }
    push_long_head(text, page, phase)
}

/// Appends the first line of the frame of a page.
#[inline(never)]
fn push_long_head(text: &mut Ready, page: u8, phase: u64) -> Result<(), AllocError>
    ensures text { OnOk result (text.new.begun ≡ text.old.begun
        ++ (codes "page " ++ decimal page ++ codes " phase " ++ decimal phase ++ codes "\n")) }
    ensures whole { text.new.whole ≡ text.old.whole }
{
    push_octets(text, b"page ")?;
    push_number(text, u64::from(page))?;
    push_octets(text, b" phase ")?;
    push_number(text, phase)?;
    push_octets(text, b"\n")
}

/// Appends the frame of what a plane shows.
fn push_frame(text: &mut Ready, shown: Shown, plane: &Plane) -> Result<(), AllocError>
    ensures text { OnOk result (text.new.begun ≡ (text.old.begun ++ head_text shown)
        ++ frame_rows (is_lit plane.now) plane.now.width plane.now.height) }
    ensures whole { text.new.whole ≡ text.old.whole }
{
    push_head(text, shown)?;
    push_rows(text, plane)
}

/// Appends the answer to the line.
fn push_shown(
    sign: &Sign,
    clock: u32,
    colour: u8,
    line: &[u8],
    lines: &mut AreaLines,
    plane: &mut Plane,
    text: &mut Ready,
) -> Result<(), AllocError>
    requires size { IsSized plane.old sign.now }
    ensures ok { OnOk result (text.new.begun ≡ text.old.begun ++ show_answer sign.now colour clock line.now) }
    ensures size { IsSized plane.new sign.now }
    ensures whole { text.new.whole ≡ text.old.whole }
{
    if line.len() > MAX_STRING {
        return push_too_long(text);
    }
    let mut source = Source::new(line);
    match Judge::new(sign).draw_shown(&mut source, u64::from(clock), colour, lines, plane) {
        Ok(shown) => push_frame(text, shown, plane),
        Err(offence) => push_refused(text, offence.error.code(), offence.at),
    }
}

impl Answer for Shower {
    ghost answers = { λ s lines. map (λ line. Some (show_answer s.sign s.colour s.clock line)) lines };

    fn answer(&mut self, line: &[u8], text: &mut Ready) -> Result<LineAnswer, AllocError> {
        push_shown(
            &self.sign,
            self.clock,
            self.colour,
            line,
            &mut self.lines,
            &mut self.plane,
            text,
        )?;
        Ok(LineAnswer::Text)
    }
}
