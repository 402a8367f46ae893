//! The exports.
ghost use Rattle.std.specs.Prelude.{map};
ghost use Rattle.latsefur_c.specs.Drawn.{AreColours, Draws, IsPlane, TellsShown};
ghost use Rattle.latsefur_c.specs.Facts.{TellsSign};
ghost use Rattle.latsefur_c.specs.Judged.{Judges, JudgesAll};
ghost use Rattle.latsefur_c.specs.declared.seen.When.TheVariants as when;

use crate::buffer::write_front;
use crate::check::{LatsefurVerdict, judged};
use crate::draw::draw_plane;
use crate::facts::{LatsefurSign, facts_of};
use crate::outcome::{DONE, NO_MEMORY, NO_PAGE, TOO_SMALL};
use crate::seen::{When, accepted, seen};
use crate::shown::{LatsefurShown, told};
use crate::sign::sign_of;
use page_picture::draw_colours;
use std::alloc::Global;

/// Tells what the sign of a sign file is.
#[unsafe(no_mangle)]
pub extern "C" fn latsefur_sign(alloc: Global, sign_file: &[u8], facts: &mut LatsefurSign) -> u8
    ensures told { TellsSign sign_file.now facts.old facts.new result }
{
    match sign_of(alloc, sign_file) {
        Ok(sign) => {
            *facts = facts_of(&sign);
            DONE
        }
        Err(outcome) => outcome,
    }
}

/// Judges a text on the sign of a sign file. The number is that of the verdict, if there is one.
#[unsafe(no_mangle)]
pub extern "C" fn latsefur_check(
    alloc: Global,
    sign_file: &[u8],
    text: &[u8],
    verdict: &mut LatsefurVerdict,
) -> u8
    ensures judged { Judges sign_file.now text.now verdict.old verdict.new result }
{
    match sign_of(alloc, sign_file) {
        Ok(sign) => {
            *verdict = judged(&sign, text);
            verdict.outcome
        }
        Err(outcome) => outcome,
    }
}

/// Judges many texts on the sign of a sign file, which is read once. Each text has its verdict at its own place.
#[unsafe(no_mangle)]
pub extern "C" fn latsefur_check_all(
    alloc: Global,
    sign_file: &[u8],
    texts: &[&[u8]],
    verdicts: &mut [LatsefurVerdict],
) -> u8
    ensures judged { JudgesAll sign_file.now (map (λ text. text.now) texts.now) verdicts.old verdicts.new result }
{
    if verdicts.len() < texts.len() {
        return TOO_SMALL;
    }
    match sign_of(alloc, sign_file) {
        Ok(sign) => {
            for place in 0..texts.len() {
                verdicts[place] = judged(&sign, texts[place]);
            }
            DONE
        }
        Err(outcome) => outcome,
    }
}

/// Tells what a text shows at a clock.
#[unsafe(no_mangle)]
pub extern "C" fn latsefur_shown_at(
    alloc: Global,
    sign_file: &[u8],
    text: &[u8],
    clock: u64,
    shown: &mut LatsefurShown,
) -> u8
    ensures told { TellsShown sign_file.now text.now clock shown.old shown.new result }
{
    let sign = match sign_of(alloc, sign_file) {
        Ok(sign) => sign,
        Err(outcome) => return outcome,
    };
    match accepted(&sign, text) {
        Ok(mut checked) => {
            *shown = told(checked.locate(clock));
            DONE
        }
        Err(outcome) => outcome,
    }
}

/// Draws the plane of a colour of what is seen of a text.
fn draw_plane_into(
    alloc: Global,
    sign_file: &[u8],
    text: &[u8],
    when: When,
    colour: u8,
    plane: &mut [u8],
) -> u8
    ensures { Draws sign_file.now text.now when (IsPlane text.now when colour) plane.old plane.new result }
{
    let sign = match sign_of(alloc, sign_file) {
        Ok(sign) => sign,
        Err(outcome) => return outcome,
    };
    let mut checked = match accepted(&sign, text) {
        Ok(checked) => checked,
        Err(outcome) => return outcome,
    };
    let Some(shown) = seen(&mut checked, when) else {
        return NO_PAGE;
    };
    match draw_plane(alloc, &sign, &mut checked, shown, colour) {
        Ok(octets) => write_front(plane, &octets),
        Err(_) => NO_MEMORY,
    }
}

/// Draws what is seen of a text in all its colours.
fn draw_colours_into(
    alloc: Global,
    sign_file: &[u8],
    text: &[u8],
    when: When,
    colours: &mut [u8],
) -> u8
    ensures { Draws sign_file.now text.now when (AreColours text.now when) colours.old colours.new result }
{
    let sign = match sign_of(alloc, sign_file) {
        Ok(sign) => sign,
        Err(outcome) => return outcome,
    };
    let mut checked = match accepted(&sign, text) {
        Ok(checked) => checked,
        Err(outcome) => return outcome,
    };
    let Some(shown) = seen(&mut checked, when) else {
        return NO_PAGE;
    };
    match draw_colours(alloc, &sign, &mut checked, shown) {
        Ok(octets) => write_front(colours, &octets),
        Err(_) => NO_MEMORY,
    }
}

/// Draws the plane of a colour of what a text shows at a clock.
#[unsafe(no_mangle)]
pub extern "C" fn latsefur_plane_at(
    alloc: Global,
    sign_file: &[u8],
    text: &[u8],
    clock: u64,
    colour: u8,
    plane: &mut [u8],
) -> u8
    ensures drawn { Draws sign_file.now text.now (when.Clock clock) (IsPlane text.now (when.Clock clock) colour)
        plane.old plane.new result }
{
    draw_plane_into(alloc, sign_file, text, When::Clock(clock), colour, plane)
}

/// Draws the plane of a colour of a page of a text at a phase.
#[unsafe(no_mangle)]
pub extern "C" fn latsefur_plane_of_page(
    alloc: Global,
    sign_file: &[u8],
    text: &[u8],
    page: u8,
    phase: u64,
    colour: u8,
    plane: &mut [u8],
) -> u8
    ensures drawn { Draws sign_file.now text.now (when.Page page phase) (IsPlane text.now (when.Page page phase) colour)
        plane.old plane.new result }
{
    draw_plane_into(
        alloc,
        sign_file,
        text,
        When::Page { page, phase },
        colour,
        plane,
    )
}

/// Draws what a text shows at a clock in all its colours.
#[unsafe(no_mangle)]
pub extern "C" fn latsefur_colours_at(
    alloc: Global,
    sign_file: &[u8],
    text: &[u8],
    clock: u64,
    colours: &mut [u8],
) -> u8
    ensures drawn { Draws sign_file.now text.now (when.Clock clock) (AreColours text.now (when.Clock clock))
        colours.old colours.new result }
{
    draw_colours_into(alloc, sign_file, text, When::Clock(clock), colours)
}

/// Draws a page of a text at a phase in all its colours.
#[unsafe(no_mangle)]
pub extern "C" fn latsefur_colours_of_page(
    alloc: Global,
    sign_file: &[u8],
    text: &[u8],
    page: u8,
    phase: u64,
    colours: &mut [u8],
) -> u8
    ensures drawn { Draws sign_file.now text.now (when.Page page phase) (AreColours text.now (when.Page page phase))
        colours.old colours.new result }
{
    draw_colours_into(alloc, sign_file, text, When::Page { page, phase }, colours)
}
