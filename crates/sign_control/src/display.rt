//! What the display shows beside its text, and the registers.

ghost use Rattle.std.specs.Prelude.{◌≡◌};
ghost use Rattle.sign_control.specs.Activation.{blank_one, displayed};
ghost use Rattle.sign_control.specs.internal.Answered.{candidate_of};
ghost use Rattle.sign_control.specs.State.{start};

use crate::activation::{Candidate, blank_one};
use crate::code::{ActivateError, SourceMode};
use message_store::MsgRef;
use sign_font::Defaults;

/// What the display shows, beside its text.
#[derive(Clone, Copy)]
pub(crate) struct Display {
    /// The message that it is a copy of (NTCIP 1203 v03, dmsMsgTableSource).
    pub(crate) source: MsgRef,
    pub(crate) priority: u8,
    pub(crate) beacon: u8,
    pub(crate) pixel: u8,
    pub(crate) crc: u16,
    /// The defaults by which its text was accepted.
    pub(crate) defaults: Defaults,
    /// Tenths of a second since it is shown.
    pub(crate) clock: u64,
    /// Tenths of a second until its duration ends; none where it is endless.
    pub(crate) remaining: Option<u32>,
    /// The address of who asked for it (NTCIP 1203 v03, dmsMsgRequesterID).
    pub(crate) requester: u32,
    pub(crate) mode: SourceMode,
}

/// The errors of the last activation, of the last validation, and of the last text that was judged.
#[derive(Clone, Copy)]
pub(crate) struct Registers {
    /// NTCIP 1203 v03, dmsActivateMsgError.
    pub(crate) activate: ActivateError,
    /// NTCIP 1203 v03, dmsValidateMessageError.
    pub(crate) validate: u8,
    /// NTCIP 1203 v03, dmsMultiSyntaxError.
    pub(crate) multi: u8,
    /// In octets from 0 (NTCIP 1203 v03, dmsMultiSyntaxErrorPosition).
    pub(crate) position: u16,
}

/// No error yet.
pub(crate) const NO_ERRORS: Registers = Registers {
    activate: ActivateError::None,
    validate: 2,
    multi: 2,
    position: 0,
};

/// For how long, since when, for whom and why a message is shown.
#[derive(Clone, Copy)]
pub(crate) struct Showing {
    pub(crate) clock: u64,
    pub(crate) remaining: Option<u32>,
    pub(crate) requester: u32,
    pub(crate) mode: SourceMode,
}

/// The display of a message.
pub(crate) fn displayed(message: &Candidate<'_>, showing: Showing) -> Display
    ensures { result ≡ displayed (candidate_of message.now) showing }
{
    Display {
        source: message.source,
        priority: message.priority,
        beacon: message.beacon,
        pixel: message.pixel,
        crc: message.crc,
        defaults: message.defaults,
        clock: showing.clock,
        remaining: showing.remaining,
        requester: showing.requester,
        mode: showing.mode,
    }
}

/// What is shown at the start: blank 1, without end.
pub(crate) fn start(defaults: Defaults) -> Display
    ensures { result ≡ start defaults }
{
    displayed(
        &blank_one(defaults),
        Showing {
            clock: 0,
            remaining: None,
            requester: 0,
            mode: SourceMode::Other,
        },
    )
}
