//! The answers of a served sign to lines with octets in hexadecimal, and its state as such octets.
ghost use Rattle.std.specs.Prelude.{◌≡◌, ◌≤◌, ◌++◌, None, OnOk, length};
ghost use Rattle.sign_control.specs.Saved.{restored, save_size, saved_octets};
ghost use Rattle.sign_font.specs.Defaults.{default_fault, under};
ghost use Rattle.sign_script.specs.Fields.{octets_of};
ghost use Rattle.sign_tool.specs.Reply.{check_answer};
ghost use Rattle.sign_tool.specs.Served.{answer_of, told_restore, told_restored};
ghost use Rattle.sign_tool.specs.ServedTexts.{crc_reply, octets_reply};

use crate::answers::{push_text_crc, push_verdict_by};
use crate::ready::{Ready, push_octets};
use crate::replies::{push_fault, push_hex};
use crate::reply::push_too_long;
use sign_control::Controller;
use sign_font::{Defaults, Sign};
use sign_script::{LineFault, octets_of};
use std::alloc::AllocError;

/// The most octets of a state that a line of 8,300 octets restores (own).
const MAX_SAVED: usize = 4_146;

/// Appends the verdict on the text that digits write, by these defaults. `octets` is room for the text.
pub(crate) fn push_verdict_of(
    text: &mut Ready,
    sign: &Sign,
    defaults: Defaults,
    octets: &mut Vec<u8>,
    digits: &[u8],
) -> Result<(), AllocError>
    requires taken { default_fault sign.now defaults ≡ None }
    ensures text { OnOk result (text.new.begun
        ≡ text.old.begun ++ answer_of (check_answer (under sign.now defaults)) (octets_of digits.now)) }
    ensures whole { text.new.whole ≡ text.old.whole }
{
    match octets_of(digits, octets) {
        Ok(line) => push_verdict_by(text, sign, defaults, line),
        Err(LineFault::Bad) => push_octets(text, b"bad line\n"),
        Err(LineFault::Memory) => Err(AllocError),
    }
}

/// Appends the CRC of a message with the text that digits write. `octets` is room for the text.
pub(crate) fn push_crc_of(
    text: &mut Ready,
    octets: &mut Vec<u8>,
    digits: &[u8],
) -> Result<(), AllocError>
    ensures text { OnOk result (text.new.begun ≡ text.old.begun ++ answer_of crc_reply (octets_of digits.now)) }
    ensures whole { text.new.whole ≡ text.old.whole }
{
    match octets_of(digits, octets) {
        Ok(line) => push_text_crc(text, line),
        Err(LineFault::Bad) => push_octets(text, b"bad line\n"),
        Err(LineFault::Memory) => Err(AllocError),
    }
}

/// Appends the octets of a state in hexadecimal, if they fit into a line that restores them.
fn push_saved_octets(text: &mut Ready, octets: &[u8]) -> Result<(), AllocError>
    ensures text { OnOk result (text.new.begun ≡ text.old.begun ++ octets_reply octets.now) }
    ensures whole { text.new.whole ≡ text.old.whole }
{
    if octets.len() > MAX_SAVED {
        return push_too_long(text);
    }
    push_octets(text, b"save ")?;
    push_hex(text, octets)?;
    push_octets(text, b"\n")
}

/// Appends the state of the sign in hexadecimal, by a buffer with room for every state.
fn push_saved_into(
    text: &mut Ready,
    controller: &Controller,
    buffer: &mut [u8],
) -> Result<(), AllocError>
    requires room { save_size controller.now.state.store.limits ≤ length buffer.old }
    ensures text { OnOk result (text.new.begun ≡ text.old.begun ++ octets_reply (saved_octets controller.now.state)) }
    ensures whole { text.new.whole ≡ text.old.whole }
{
    let Some(count) = controller.save(buffer) else {
        // There is as much room as any state needs.
        unreachable!();
    };
    push_saved_octets(text, &buffer[..count])
}

/// Appends the state of the sign in hexadecimal. `octets` is room for it.
pub(crate) fn push_saved(
    text: &mut Ready,
    controller: &Controller,
    octets: &mut Vec<u8>,
) -> Result<(), AllocError>
    ensures text { OnOk result (text.new.begun ≡ text.old.begun ++ octets_reply (saved_octets controller.now.state)) }
    ensures whole { text.new.whole ≡ text.old.whole }
{
    octets.resize(controller.save_size(), 0)?;
    push_saved_into(text, controller, octets)
}

/// Restores a state, and appends whether it was, or the number of the refusal.
fn push_restored_octets(
    text: &mut Ready,
    controller: &mut Controller,
    octets: &[u8],
) -> Result<(), AllocError>
    ensures text { OnOk result (text.new.begun ≡ text.old.begun
        ++ (told_restored controller.old.state (restored controller.old.sign controller.old.state.store octets.now)).text) }
    ensures state { controller.new.state
        ≡ (told_restored controller.old.state (restored controller.old.sign controller.old.state.store octets.now)).state }
    ensures sign { controller.new.sign ≡ controller.old.sign }
    ensures whole { text.new.whole ≡ text.old.whole }
{
    match controller.restore(octets) {
        Ok(()) => push_octets(text, b"done\n"),
        Err(fault) => push_fault(text, fault.code()),
    }
}

/// Restores the state that digits write, and appends whether it was, or the number of the refusal. `octets` is room for the state.
pub(crate) fn push_restored(
    text: &mut Ready,
    controller: &mut Controller,
    octets: &mut Vec<u8>,
    digits: &[u8],
) -> Result<(), AllocError>
    ensures text { OnOk result (text.new.begun
        ≡ text.old.begun ++ (told_restore controller.old.sign controller.old.state (octets_of digits.now)).text) }
    ensures state { OnOk result
        (controller.new.state ≡ (told_restore controller.old.sign controller.old.state (octets_of digits.now)).state) }
    ensures sign { controller.new.sign ≡ controller.old.sign }
    ensures whole { text.new.whole ≡ text.old.whole }
{
    match octets_of(digits, octets) {
        Ok(state) => push_restored_octets(text, controller, state),
        Err(LineFault::Bad) => push_octets(text, b"bad line\n"),
        Err(LineFault::Memory) => Err(AllocError),
    }
}
