//! The texts of replies to a script's lines.
ghost use Rattle.std.specs.Prelude.{◌≡◌, ◌++◌, ◌∷◌, OnOk, codes, decimal, take};
ghost use Rattle.std.specs.Int.{to_be_bytes};
ghost use Rattle.hex.specs.Hex.{encode_lower};
ghost use Rattle.message_store.specs.Row.{data_of, row_result};
ghost use Rattle.sign_tool.specs.Replies.{asked_text, crc_text, defaults_text, errors_text, fault_text, fields_text, numbers_text, octets_text, reply_text, report_text, row_reply, shown_text, table_text};

use crate::hexadecimal::write_hex;
use crate::ready::{
    Ready, make_room, push_number, push_octet, push_octets, push_short, push_spaced,
};
use message_store::{MsgRef, Row, StoreFault};
use sign_control::{Reply, Report};
use sign_font::Defaults;
use std::alloc::AllocError;

/// Appends octets in hexadecimal.
pub(crate) fn push_hex(text: &mut Ready, octets: &[u8]) -> Result<(), AllocError>
    ensures text { OnOk result (text.new.begun ≡ text.old.begun ++ encode_lower octets.now) }
    ensures whole { text.new.whole ≡ text.old.whole }
{
    let end = text.len.saturating_add(2 * octets.len());
    make_room(&mut text.octets, end)?;
    write_hex(octets, &mut text.octets[text.len..end]);
    text.len = end;
    Ok(())
}

/// Appends a space and octets in hexadecimal, and no octets as `-`.
fn push_hex_or_dash(text: &mut Ready, octets: &[u8]) -> Result<(), AllocError>
    ensures text { OnOk result (text.new.begun ≡ text.old.begun ++ (codes " " ++ octets_text octets.now)) }
    ensures whole { text.new.whole ≡ text.old.whole }
{
    if octets.is_empty() {
        return push_short(text, b" -\0\0\0\0\0\0", 2);
    }
    push_octet(text, b' ')?;
    push_hex(text, octets)
}

/// Appends a CRC.
pub(crate) fn push_crc(text: &mut Ready, crc: u16) -> Result<(), AllocError>
    ensures text { OnOk result (text.new.begun ≡ text.old.begun ++ crc_text crc) }
    ensures whole { text.new.whole ≡ text.old.whole }
{
    push_hex(text, &crc.to_be_bytes())
}

/// Appends numbers in decimal, each after a space.
fn push_numbers(text: &mut Ready, numbers: &[u64]) -> Result<(), AllocError>
    ensures text { OnOk result (text.new.begun ≡ text.old.begun ++ numbers_text numbers.now) }
    ensures whole { text.new.whole ≡ text.old.whole }
{
    for number in numbers {
        push_spaced(text, *number)?;
    }
    Ok(())
}

/// Appends a label and a number in decimal.
fn push_labelled(text: &mut Ready, label: &[u8], number: u64) -> Result<(), AllocError>
    ensures text { OnOk result (text.new.begun ≡ text.old.begun ++ (label.now ++ decimal number)) }
    ensures whole { text.new.whole ≡ text.old.whole }
{
    push_octets(text, label)?;
    push_number(text, number)
}

/// The refusal of a fault by the digit of its number, and six octets that nothing counts.
fn short_fault(code: u8) -> [u8; 16]
    ensures { take 10 result ≡ codes "refused " ++ code ∷ codes "\n" }
{
    [
        b'r', b'e', b'f', b'u', b's', b'e', b'd', b' ', code, b'\n', 0, 0, 0, 0, 0, 0,
    ]
}

/// Appends the refusal of a fault.
pub(crate) fn push_fault(text: &mut Ready, code: u8) -> Result<(), AllocError>
    ensures text { OnOk result (text.new.begun ≡ text.old.begun ++ fault_text code) }
    ensures whole { text.new.whole ≡ text.old.whole }
{
    if code < 10 {
        return push_short(text, &short_fault(b'0' + code), 10);
    }
    push_labelled(text, b"refused ", u64::from(code))?;
    push_octet(text, b'\n')
}

/// Appends the reply to a command.
pub(crate) fn push_reply(text: &mut Ready, reply: Reply) -> Result<(), AllocError>
    ensures text { OnOk result (text.new.begun ≡ text.old.begun ++ reply_text reply) }
    ensures whole { text.new.whole ≡ text.old.whole }
{
    match reply {
        Reply::Done => push_short(text, b"done\n\0\0\0", 5),
        Reply::Refused(fault) => push_fault(text, fault.code()),
        Reply::Idle => push_short(text, b"idle\n\0\0\0", 5),
        Reply::Worked {
            number,
            status,
            validate_error,
            multi_error,
            multi_position,
        } => {
            push_octets(text, b"worked")?;
            push_numbers(
                text,
                &[
                    u64::from(number),
                    u64::from(status),
                    u64::from(validate_error),
                    u64::from(multi_error),
                    u64::from(multi_position),
                ],
            )?;
            push_octet(text, b'\n')
        }
        Reply::Shown => push_short(text, b"shown\n\0\0", 6),
        Reply::NotShown(error) => {
            push_labelled(text, b"not shown ", u64::from(error))?;
            push_octet(text, b'\n')
        }
        Reply::NotSet(fault) => push_fault(text, fault.code()),
        Reply::Ticked => push_short(text, b"ticked\n\0", 7),
        Reply::Ended => push_short(text, b"ended\n\0\0", 6),
    }
}

/// Appends the row of a message that there is.
fn push_fields(text: &mut Ready, message: MsgRef, row: &Row<'_>) -> Result<(), AllocError>
    ensures text { OnOk result (text.new.begun ≡ text.old.begun ++ fields_text message (data_of row.now)) }
    ensures whole { text.new.whole ≡ text.old.whole }
{
    push_octets(text, b"row")?;
    push_numbers(
        text,
        &[
            u64::from(message.memory),
            u64::from(message.number),
            u64::from(row.status),
            u64::from(row.priority),
            u64::from(row.beacon),
            u64::from(row.pixel),
        ],
    )?;
    push_octet(text, b' ')?;
    push_crc(text, row.crc)?;
    push_hex_or_dash(text, row.owner)?;
    push_hex_or_dash(text, row.multi)?;
    push_octet(text, b'\n')
}

/// Appends the row of a message, or its refusal.
pub(crate) fn push_row(
    text: &mut Ready,
    message: MsgRef,
    row: &Result<Row<'_>, StoreFault>,
) -> Result<(), AllocError>
    ensures text { OnOk result (text.new.begun ≡ text.old.begun ++ row_reply message (row_result row.now)) }
    ensures whole { text.new.whole ≡ text.old.whole }
{
    match row {
        Ok(row) => push_fields(text, message, row),
        Err(fault) => push_fault(text, fault.code()),
    }
}

/// Appends the part of a report on the message table.
fn push_table(text: &mut Ready, report: &Report) -> Result<(), AllocError>
    ensures text { OnOk result (text.new.begun ≡ text.old.begun ++ table_text report.now) }
    ensures whole { text.new.whole ≡ text.old.whole }
{
    push_labelled(text, b" used=", u64::from(report.used))?;
    push_labelled(text, b" free=", u64::from(report.free))
}

/// Appends the part of a report on what is shown.
fn push_shown(text: &mut Ready, report: &Report) -> Result<(), AllocError>
    ensures text { OnOk result (text.new.begun ≡ text.old.begun ++ shown_text report.now) }
    ensures whole { text.new.whole ≡ text.old.whole }
{
    push_labelled(text, b" mode=", u64::from(report.mode))?;
    push_labelled(text, b" shown=", u64::from(report.shown_memory))?;
    push_labelled(text, b"/", u64::from(report.shown_number))?;
    push_octets(text, b" crc=")?;
    push_crc(text, report.crc)
}

/// Appends the part of a report on time and who asked.
fn push_asked(text: &mut Ready, report: &Report) -> Result<(), AllocError>
    ensures text { OnOk result (text.new.begun ≡ text.old.begun ++ asked_text report.now) }
    ensures whole { text.new.whole ≡ text.old.whole }
{
    push_labelled(text, b" priority=", u64::from(report.priority))?;
    push_labelled(text, b" remaining=", u64::from(report.remaining))?;
    push_octets(text, b" requester=")?;
    push_hex(text, &report.requester.to_be_bytes())
}

/// Appends the part of a report on errors, and the clock.
fn push_errors(text: &mut Ready, report: &Report) -> Result<(), AllocError>
    ensures text { OnOk result (text.new.begun ≡ text.old.begun ++ errors_text report.now) }
    ensures whole { text.new.whole ≡ text.old.whole }
{
    push_labelled(text, b" activate=", u64::from(report.activate))?;
    push_labelled(text, b" validate=", u64::from(report.validate))?;
    push_labelled(text, b" multi=", u64::from(report.multi))?;
    push_labelled(text, b" position=", u64::from(report.position))?;
    push_labelled(text, b" clock=", report.clock)?;
    push_octet(text, b'\n')
}

/// Appends a report.
pub(crate) fn push_report(text: &mut Ready, report: &Report) -> Result<(), AllocError>
    ensures text { OnOk result (text.new.begun ≡ text.old.begun ++ report_text report.now) }
    ensures whole { text.new.whole ≡ text.old.whole }
{
    push_octets(text, b"report")?;
    push_table(text, report)?;
    push_shown(text, report)?;
    push_asked(text, report)?;
    push_errors(text, report)
}

/// Appends the defaults in force.
pub(crate) fn push_defaults(text: &mut Ready, defaults: Defaults) -> Result<(), AllocError>
    ensures text { OnOk result (text.new.begun ≡ text.old.begun ++ defaults_text defaults) }
    ensures whole { text.new.whole ≡ text.old.whole }
{
    push_octets(text, b"defaults")?;
    push_numbers(
        text,
        &[
            u64::from(defaults.font),
            u64::from(defaults.line),
            u64::from(defaults.page),
            u64::from(defaults.page_on),
            u64::from(defaults.page_off),
            u64::from(defaults.flash_on),
            u64::from(defaults.flash_off),
            u64::from(defaults.fore),
            u64::from(defaults.back),
        ],
    )?;
    push_octet(text, b'\n')
}
