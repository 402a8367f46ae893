//! The answers that a served sign gives and a script doesn't.
ghost use Rattle.std.specs.Prelude.{◌≡◌, ◌*◌, ◌≤◌, ◌++◌, None, OnOk, codes, length};
ghost use Rattle.std.specs.List.{All};
ghost use Rattle.sign_font.specs.Defaults.{default_fault, under};
ghost use Rattle.hex.specs.Hex.{encode_lower};
ghost use Rattle.sign_control.specs.Change.{next_change};
ghost use Rattle.sign_control.specs.Report.{row_shown};
ghost use Rattle.sign_tool.specs.Reply.{check_answer};
ghost use Rattle.sign_tool.specs.ServedTexts.{code_octets, code_reply, colours_text, crc_reply, digit_rows, digits_text, help_text, tenths_text};

use crate::ready::{Ready, push_number, push_octet, push_octets};
use crate::replies::{push_crc, push_fault, push_hex};
use crate::reply::{push_pages, push_refused, push_too_long};
use crate::show::push_head;
use message_store::{MsgRef, message_crc};
use multi_layout::check_with;
use multi_token::Source;
use sign_control::Controller;
use sign_font::{Defaults, Sign};
use std::alloc::AllocError;
use tool_streams::MAX_STRING;

/// Appends the digits of colours.
fn push_digits(text: &mut Ready, colours: &[u8]) -> Result<(), AllocError>
    requires small { All (λ colour. colour ≤ 9) colours.now }
    ensures text { OnOk result (text.new.begun ≡ text.old.begun ++ digits_text colours.now) }
    ensures whole { text.new.whole ≡ text.old.whole }
{
    for colour in colours {
        push_octet(text, b'0' + *colour)?;
    }
    Ok(())
}

/// Appends the rows of pixels, each by the digit of its colour, from the top.
fn push_digit_rows(
    text: &mut Ready,
    colours: &[u8],
    width: u16,
    height: u16,
) -> Result<(), AllocError>
    requires small { All (λ colour. colour ≤ 9) colours.now }
    requires all { length colours.now ≡ width * height }
    ensures text { OnOk result (text.new.begun ≡ text.old.begun ++ digit_rows width colours.now height) }
    ensures whole { text.new.whole ≡ text.old.whole }
{
    let width = usize::from(width);
    for row in 0..height {
        let start = width * usize::from(row);
        push_digits(text, &colours[start..start + width])?;
        push_octet(text, b'\n')?;
    }
    Ok(())
}

/// Appends the colours of all pixels of what the display shows. There is an octet of room for each pixel.
pub(crate) fn push_colours(
    text: &mut Ready,
    controller: &mut Controller,
    pixels: &mut Vec<u8>,
) -> Result<(), AllocError>
    requires room { length pixels.old.items ≡ controller.old.sign.width * controller.old.sign.height }
    ensures text { OnOk result (text.new.begun ≡ text.old.begun ++ colours_text controller.old.sign controller.old.state) }
    ensures whole { text.new.whole ≡ text.old.whole }
    ensures kept { (controller.new.sign ≡ controller.old.sign) × (controller.new.state ≡ controller.old.state) }
    ensures room { length pixels.new.items ≡ length pixels.old.items }
{
    let Some(shown) = controller.colours(pixels) else {
        // There is room for each pixel.
        unreachable!();
    };
    push_head(text, shown)?;
    let sign = controller.sign();
    push_digit_rows(text, pixels, sign.width(), sign.height())
}

/// Appends the verdict on a text by these defaults.
pub(crate) fn push_verdict_by(
    text: &mut Ready,
    sign: &Sign,
    defaults: Defaults,
    line: &[u8],
) -> Result<(), AllocError>
    requires taken { default_fault sign.now defaults ≡ None }
    ensures text { OnOk result (text.new.begun ≡ text.old.begun ++ check_answer (under sign.now defaults) line.now) }
    ensures whole { text.new.whole ≡ text.old.whole }
{
    if line.len() > MAX_STRING {
        return push_too_long(text);
    }
    match check_with(sign, defaults, Source::new(line)) {
        Ok(checked) => push_pages(text, checked.pages()),
        Err(fault) => push_refused(text, fault.code, fault.at),
    }
}

/// Appends the CRC of a message with this text.
pub(crate) fn push_text_crc(text: &mut Ready, line: &[u8]) -> Result<(), AllocError>
    ensures text { OnOk result (text.new.begun ≡ text.old.begun ++ crc_reply line.now) }
    ensures whole { text.new.whole ≡ text.old.whole }
{
    push_octets(text, b"crc ")?;
    push_crc(text, message_crc(line, 0, 0))?;
    push_octets(text, b"\n")
}

/// Appends a number of tenths of a second.
fn push_tenths(text: &mut Ready, tenths: u32) -> Result<(), AllocError>
    ensures text { OnOk result (text.new.begun ≡ text.old.begun ++ tenths_text tenths) }
    ensures whole { text.new.whole ≡ text.old.whole }
{
    if tenths == u32::MAX {
        return push_octets(text, b"next never\n");
    }
    push_octets(text, b"next ")?;
    push_number(text, u64::from(tenths))?;
    push_octets(text, b"\n")
}

/// Appends the tenths of a second until what the display shows changes.
pub(crate) fn push_next(text: &mut Ready, controller: &mut Controller) -> Result<(), AllocError>
    ensures text { OnOk result
        (text.new.begun ≡ text.old.begun ++ tenths_text (next_change controller.old.sign controller.old.state 4294967295)) }
    ensures whole { text.new.whole ≡ text.old.whole }
    ensures kept { (controller.new.sign ≡ controller.old.sign) × (controller.new.state ≡ controller.old.state) }
{
    push_tenths(text, controller.next_change(u32::MAX))
}

/// Appends an activation code, whose source address is 0.
fn push_code(
    text: &mut Ready,
    message: MsgRef,
    duration: u16,
    priority: u8,
    crc: u16,
) -> Result<(), AllocError>
    ensures text { OnOk result (text.new.begun ≡ text.old.begun
        ++ (codes "code " ++ encode_lower (code_octets message duration priority crc) ++ codes "\n")) }
    ensures whole { text.new.whole ≡ text.old.whole }
{
    push_octets(text, b"code ")?;
    push_hex(text, &duration.to_be_bytes())?;
    push_hex(text, &[priority, message.memory])?;
    push_hex(text, &message.number.to_be_bytes())?;
    push_hex(text, &crc.to_be_bytes())?;
    push_octets(text, b"00000000\n")
}

/// Appends the activation code of a message as it stands, or the refusal where there is no such message.
pub(crate) fn push_message_code(
    text: &mut Ready,
    controller: &Controller,
    message: MsgRef,
    duration: u16,
    priority: u8,
) -> Result<(), AllocError>
    ensures text { OnOk result
        (text.new.begun ≡ text.old.begun ++ code_reply message duration priority (row_shown controller.now.state message)) }
    ensures whole { text.new.whole ≡ text.old.whole }
{
    match controller.row(message) {
        Ok(row) => push_code(text, message, duration, priority, row.crc),
        Err(fault) => push_fault(text, fault.code()),
    }
}

/// Appends the lines that may be asked.
pub(crate) fn push_help(text: &mut Ready) -> Result<(), AllocError>
    ensures text { OnOk result (text.new.begun ≡ text.old.begun ++ help_text) }
    ensures whole { text.new.whole ≡ text.old.whole }
{
    push_octets(text, HELP_COMMANDS)?;
    push_octets(text, HELP_SCRIPT)?;
    push_octets(text, HELP_SERVED)
}

const HELP_COMMANDS: &[u8] =
    b"help: request M N C, multi M N TEXT, multix M N HEX, owner M N HEX, priority M N V, beacon M N V, pixel M N V, clear, work, ";

const HELP_SCRIPT: &[u8] =
    b"activate HEX, end HEX, tick T, default FIELD V, frame C, row M N, report, defaults, ";

const HELP_SERVED: &[u8] =
    b"colours, verdict TEXT, crc TEXT, next, code M N D P, verdictx HEX, crcx HEX, save, restore HEX, help\n";
