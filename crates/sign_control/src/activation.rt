//! The message that an activation names, and the checks before it is shown.

ghost use Rattle.std.specs.Prelude.{◌≡◌, ◌≤◌, ◌*◌, None, length, IfOk, IfSome};
ghost use Rattle.std.specs.Option.{option_copied, unwrap_or};
ghost use Rattle.std.specs.Vec.{vec_capacity};
ghost use Rattle.sign_font.specs.Defaults.{default_fault};
ghost use Rattle.message_store.specs.Ranged.{AreRanged};
ghost use Rattle.sign_control.specs.Activation.{blank_one, found, is_crc, missing, named, or_blank, remaining_of, swapped, text_of};
ghost use Rattle.sign_control.specs.internal.Answered.{candidate_of, candidate_result, IsOneOf};
ghost use Rattle.sign_control.specs.Counts.{end_text, text_steps};

use crate::code::{ActivateError, IdCode};
use crate::display::Display;
use message_store::{MsgRef, Store, StoreFault, judge_text};
use sign_font::{Defaults, Sign};

/// A message that may be shown.
#[derive(Clone, Copy)]
pub(crate) struct Candidate<'a> {
    pub(crate) source: MsgRef,
    /// None stands for the text that is shown now.
    pub(crate) text: Option<&'a [u8]>,
    pub(crate) priority: u8,
    pub(crate) beacon: u8,
    pub(crate) pixel: u8,
    pub(crate) crc: u16,
    pub(crate) status: u8,
    /// The defaults by which its text is judged.
    pub(crate) defaults: Defaults,
}

/// Blank 1, which is shown by these defaults.
pub(crate) fn blank_one(defaults: Defaults) -> Candidate<'static>
    ensures blank { candidate_of result ≡ blank_one defaults }
    ensures text { IfSome result.text (λ text. length text.now ≡ 0) }
    ensures ranged { AreRanged result.priority result.beacon result.pixel }
{
    Candidate {
        source: MsgRef {
            memory: 7,
            number: 1,
        },
        text: Some(&[]),
        priority: 1,
        beacon: 0,
        pixel: 0,
        crc: 0,
        status: 4,
        defaults,
    }
}

fn missing(fault: StoreFault) -> ActivateError
    ensures { result ≡ missing fault }
{
    match fault {
        StoreFault::MemoryType => ActivateError::MessageMemoryType,
        _ => ActivateError::MessageNumber,
    }
}

/// The message of a memory type and a number, or why there is none.
fn found<'a>(
    store: &'a Store,
    display: &Display,
    defaults: Defaults,
    message: MsgRef,
) -> Result<Candidate<'a>, ActivateError>
    requires { AreRanged display.now.priority display.now.beacon display.now.pixel }
    ensures ranged { IfOk result (λ c. AreRanged c.priority c.beacon c.pixel) }
    ensures found { candidate_result result ≡ found store.now display.now defaults message }
    ensures within { IfOk result (λ c. IfSome c.text (λ t. length t.now ≤ store.now.limits.max_string)) }
    ensures short { IfOk result (λ c. IfSome c.text (λ t. length t.now ≤ 4096)) }
    ensures defaults { IfOk result (λ c. IsOneOf c.defaults display.now.defaults defaults) }
{
    if message.memory == 5 {
        if message.number != 1 {
            return Err(ActivateError::MessageNumber);
        }
        return Ok(Candidate {
            source: display.source,
            text: None,
            priority: display.priority,
            beacon: display.beacon,
            pixel: display.pixel,
            crc: display.crc,
            status: 4,
            defaults: display.defaults,
        });
    }
    match store.row(message) {
        Err(fault) => Err(missing(fault)),
        Ok(row) => Ok(Candidate {
            source: message,
            text: Some(row.multi),
            priority: row.priority,
            beacon: row.beacon,
            pixel: row.pixel,
            crc: row.crc,
            status: row.status,
            defaults,
        }),
    }
}

fn swapped(crc: u16) -> u16
    ensures { result ≡ swapped crc }
{
    crc % 256 * 256 + crc / 256
}

/// Whether a CRC is a message's.
fn is_crc(message: &Candidate<'_>, crc: u16) -> bool
    ensures { result ≡ is_crc (candidate_of message.now) crc }
{
    if message.source.memory == 7 {
        crc == 0 || crc == 0x0f47 || crc == 0x470f
    } else {
        crc == message.crc || crc == swapped(message.crc)
    }
}

/// The message of an identity code, or why it isn't shown.
pub(crate) fn named<'a>(
    store: &'a Store,
    display: &Display,
    defaults: Defaults,
    code: IdCode,
) -> Result<Candidate<'a>, ActivateError>
    requires { AreRanged display.now.priority display.now.beacon display.now.pixel }
    ensures ranged { IfOk result (λ c. AreRanged c.priority c.beacon c.pixel) }
    ensures named { candidate_result result ≡ named store.now display.now defaults code }
    ensures within { IfOk result (λ c. IfSome c.text (λ t. length t.now ≤ store.now.limits.max_string)) }
    ensures short { IfOk result (λ c. IfSome c.text (λ t. length t.now ≤ 4096)) }
    ensures defaults { IfOk result (λ c. IsOneOf c.defaults display.now.defaults defaults) }
{
    let message = found(store, display, defaults, code.message)?;
    if message.status != 4 {
        Err(ActivateError::MessageStatus)
    } else if !is_crc(&message, code.crc) {
        Err(ActivateError::MessageCrc)
    } else {
        Ok(message)
    }
}

/// The text of a message.
pub(crate) fn text_of<'a>(shown: &'a [u8], message: &Candidate<'a>) -> &'a [u8]
    requires shown { length shown.now ≤ 4096 }
    requires own { IfSome message.now.text (λ t. length t.now ≤ 4096) }
    ensures text { result.now ≡ text_of shown.now (candidate_of message.now) }
    ensures short { length result.now ≤ 4096 }
{
    match message.text {
        Some(text) => text,
        None => shown,
    }
}

/// The message that follows a duration, blank 1 where a check fails, and the steps of judging its text.
pub(crate) fn end_message<'a>(
    sign: &Sign,
    store: &'a Store,
    shown: &[u8],
    display: &Display,
    defaults: Defaults,
    code: IdCode,
) -> (Candidate<'a>, u64)
    requires taken { default_fault sign.now defaults ≡ None }
    requires shown_taken { default_fault sign.now display.now.defaults ≡ None }
    requires short { length shown.now ≤ 4096 }
    requires ranged { AreRanged display.now.priority display.now.beacon display.now.pixel }
    ensures ranged { AreRanged result.0.priority result.0.beacon result.0.pixel }
    ensures message { candidate_of result.0 ≡ or_blank sign.now shown.now defaults (named store.now display.now defaults code) }
    ensures steps { result.1 ≡ text_steps (end_text sign.now shown.now (named store.now display.now defaults code)) }
    ensures within { IfSome result.0.text (λ t. length t.now ≤ store.now.limits.max_string) }
    ensures text_short { IfSome result.0.text (λ t. length t.now ≤ 4096) }
    ensures taken { default_fault sign.now result.0.defaults ≡ None }
{
    match named(store, display, defaults, code) {
        Err(_) => (blank_one(defaults), 0),
        Ok(message) => {
            let judged = judge_text(sign, message.defaults, text_of(shown, &message));
            if judged.accepted {
                (message, judged.steps)
            } else {
                (blank_one(defaults), judged.steps)
            }
        }
    }
}

/// The duration in tenths of a second; none where it has no end.
pub(crate) fn remaining_of(minutes: u16) -> Option<u32>
    ensures remaining { result ≡ remaining_of minutes }
    ensures limited { IfSome result (λ tenths. tenths ≤ 65534 * 600) }
{
    match minutes {
        65535 => None,
        minutes => Some(u32::from(minutes) * 600),
    }
}

/// Replaces the display's text within the memory that is there. Without a text the old one stays.
pub(crate) fn replace_text(shown: &mut Vec<u8>, text: Option<&[u8]>)
    requires room { IfSome text (λ t. length t.now ≤ vec_capacity shown.old) }
    requires short { IfSome text (λ t. length t.now ≤ 4096) }
    requires shown { length shown.old.items ≤ 4096 }
    ensures items { shown.new.items ≡ unwrap_or (option_copied text.entry) shown.old.items }
    ensures capacity { vec_capacity shown.old ≤ vec_capacity shown.new }
    ensures short { length shown.new.items ≤ 4096 }
{
    let Some(text) = text else {
        return;
    };
    shown.clear();
    let Ok(()) = shown.extend_from_slice(text) else {
        unreachable!();
    };
}
