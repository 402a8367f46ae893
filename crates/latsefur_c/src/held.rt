//! The exports that ask what sign a controller holds, and what this says to a text.
ghost use Rattle.latsefur_c.specs.Facts.{facts_of};
ghost use Rattle.latsefur_c.specs.HeldPage.{DrawsHeld, PaintsHeld};
ghost use Rattle.latsefur_c.specs.HeldSign.{FindsFont, JudgesHeld, table_of};
ghost use Rattle.latsefur_c.specs.Told.{Tells};

use crate::check::{LatsefurVerdict, judged_by};
use crate::facts::{LatsefurSign, facts_of};
use crate::font::{LatsefurFont, tell_font};
use crate::handle::LatsefurController;
use crate::outcome::{DONE, NO_CONTROLLER};
use crate::page::draw_page;
use crate::paint::paint_page;
use crate::table::{LatsefurTable, table_of};
use std::alloc::Global;

/// Tells what the sign is that the controller holds.
#[unsafe(no_mangle)]
pub extern "C" fn latsefur_held_sign(
    alloc: Global,
    handle: &mut LatsefurController,
    facts: &mut LatsefurSign,
) -> u8
    ensures told { Tells (λ held. facts_of held.sign) handle.old.slot.held handle.new.slot.held facts.old facts.new result }
{
    let Some(held) = handle.take(alloc) else {
        return NO_CONTROLLER;
    };
    *facts = facts_of(held.sign());
    *handle = LatsefurController::of(held);
    DONE
}

/// Tells the limits of the message table that the controller holds.
#[unsafe(no_mangle)]
pub extern "C" fn latsefur_held_table(
    alloc: Global,
    handle: &mut LatsefurController,
    table: &mut LatsefurTable,
) -> u8
    ensures told { Tells (λ held. table_of held.state.store) handle.old.slot.held handle.new.slot.held table.old table.new result }
{
    let Some(held) = handle.take(alloc) else {
        return NO_CONTROLLER;
    };
    *table = table_of(&held);
    *handle = LatsefurController::of(held);
    DONE
}

/// Tells the font of a number of the sign that the controller holds.
#[unsafe(no_mangle)]
pub extern "C" fn latsefur_held_font(
    alloc: Global,
    handle: &mut LatsefurController,
    number: u8,
    font: &mut LatsefurFont,
) -> u8
    ensures told { FindsFont handle.old.slot.held number handle.new.slot.held font.old font.new result }
{
    let Some(held) = handle.take(alloc) else {
        return NO_CONTROLLER;
    };
    let outcome = tell_font(held.sign(), number, font);
    *handle = LatsefurController::of(held);
    outcome
}

/// Judges a text on the sign that the controller holds, by the defaults in force. The number is that of the verdict.
#[unsafe(no_mangle)]
pub extern "C" fn latsefur_held_check(
    alloc: Global,
    handle: &mut LatsefurController,
    text: &[u8],
    verdict: &mut LatsefurVerdict,
) -> u8
    ensures judged { JudgesHeld handle.old.slot.held text.now handle.new.slot.held verdict.old verdict.new result }
{
    let Some(held) = handle.take(alloc) else {
        return NO_CONTROLLER;
    };
    *verdict = judged_by(held.sign(), held.defaults(), text);
    *handle = LatsefurController::of(held);
    verdict.outcome
}

/// Draws the plane of a colour of a page of a text at a phase, on the sign that the controller holds, by the defaults in force.
#[unsafe(no_mangle)]
pub extern "C" fn latsefur_held_plane_of_page(
    alloc: Global,
    handle: &mut LatsefurController,
    text: &[u8],
    page: u8,
    phase: u64,
    colour: u8,
    plane: &mut [u8],
) -> u8
    ensures drawn { DrawsHeld handle.old.slot.held text.now page phase colour handle.new.slot.held plane.old plane.new result }
{
    let Some(mut held) = handle.take(alloc) else {
        return NO_CONTROLLER;
    };
    let outcome = draw_page(&mut held, text, page, phase, colour, plane);
    *handle = LatsefurController::of(held);
    outcome
}

/// Draws a page of a text at a phase in all its colours, on the sign that the controller holds, by the defaults in force.
#[unsafe(no_mangle)]
pub extern "C" fn latsefur_held_colours_of_page(
    alloc: Global,
    handle: &mut LatsefurController,
    text: &[u8],
    page: u8,
    phase: u64,
    colours: &mut [u8],
) -> u8
    ensures drawn { PaintsHeld handle.old.slot.held text.now page phase handle.new.slot.held colours.old colours.new result }
{
    let Some(mut held) = handle.take(alloc) else {
        return NO_CONTROLLER;
    };
    let outcome = paint_page(&mut held, text, page, phase, colours);
    *handle = LatsefurController::of(held);
    outcome
}
