//! Commands and replies.

ghost use Rattle.std.specs.Prelude.{◌≡◌};
ghost use Rattle.sign_control.specs.Step.{with_default};

use message_store::{MsgRef, StoreFault};
use sign_font::{DefaultFault, Defaults};

/// What a traffic centre, or the host's clock, asks of a controller.
///
/// The first six are the calls of the store, with their arguments.
#[derive(Clone, Copy, Debug, PartialEq, Eq)]
pub enum Command<'a> {
    /// Asks for a status of a message: 6 modifyReq, 7 validateReq or 8 notUsedReq (NTCIP 1203 v03, dmsMessageStatus).
    Request(MsgRef, u8),
    /// Replaces the text of a message (NTCIP 1203 v03, dmsMessageMultiString).
    SetMulti(MsgRef, &'a [u8]),
    /// Replaces the owner of a message (NTCIP 1203 v03, dmsMessageOwner).
    SetOwner(MsgRef, &'a [u8]),
    /// Sets the run-time priority of a message, 1 to 255 (NTCIP 1203 v03, dmsMessageRunTimePriority).
    SetPriority(MsgRef, u8),
    /// Sets whether a message asks for the beacons, 0 or 1 (NTCIP 1203 v03, dmsMessageBeacon).
    SetBeacon(MsgRef, u8),
    /// Sets whether a message asks for the pixel service, 0 or 1 (NTCIP 1203 v03, dmsMessagePixelService).
    SetPixelService(MsgRef, u8),
    /// Makes every changeable message one that isn't used (NTCIP 1203 v03, dmsMemoryMgmt).
    Clear,
    /// Judges the validating message with the lowest number.
    Work,
    /// Shows a message: duration in minutes, priority, memory type, number, CRC and source address, numbers with the high
    /// octet first (NTCIP 1203 v03, dmsActivateMessage).
    Activate([u8; 12]),
    /// Names the message that follows a duration: memory type, number and CRC, numbers with the high octet first. It is
    /// judged when the duration ends (NTCIP 1203 v03, dmsEndDurationMessage).
    SetEnd([u8; 5]),
    /// Some tenths of a second pass.
    Tick(u32),
    /// Sets one of the defaults (NTCIP 1203 v03, group multiCfg).
    SetDefault(DefaultField, u8),
}

/// One of the defaults (NTCIP 1203 v03, group multiCfg).
#[derive(Clone, Copy, Debug, PartialEq, Eq)]
pub enum DefaultField {
    /// The number of the font.
    Font,
    /// The line justification: 2 left, 3 centre, 4 right, 5 full.
    Line,
    /// The page justification: 2 top, 3 middle, 4 bottom.
    Page,
    /// The on time of a page, in tenths of a second.
    PageOn,
    /// The off time of a page, in tenths of a second.
    PageOff,
    /// The on time of a flash, in tenths of a second.
    FlashOn,
    /// The off time of a flash, in tenths of a second.
    FlashOff,
    /// The foreground colour, 0 to 9.
    Fore,
    /// The background colour, 0 to 9.
    Back,
}

/// The answer to a command.
#[derive(Clone, Copy, Debug, PartialEq, Eq)]
pub enum Reply {
    /// It is done.
    Done,
    /// The store refuses it. Nothing has changed.
    Refused(StoreFault),
    /// No message waits to be judged.
    Idle,
    /// A message was judged.
    Worked {
        /// The message's number.
        number: u16,
        /// 4 valid or 5 error (NTCIP 1203 v03, dmsMessageStatus).
        status: u8,
        /// 2 none, 3 beacons, 4 pixelService or 5 syntaxMULTI (NTCIP 1203 v03, dmsValidateMessageError).
        validate_error: u8,
        /// The register after the call (NTCIP 1203 v03, dmsMultiSyntaxError).
        multi_error: u8,
        /// The register after the call, in octets from 0 (NTCIP 1203 v03, dmsMultiSyntaxErrorPosition).
        multi_position: u16,
    },
    /// The message is shown.
    Shown,
    /// The message isn't shown: 3 priority, 4 messageStatus, 5 messageMemoryType, 6 messageNumber, 7 messageCRC or
    /// 8 syntaxMULTI (NTCIP 1203 v03, dmsActivateMsgError).
    NotShown(u8),
    /// The sign refuses the default. Nothing has changed.
    NotSet(DefaultFault),
    /// Time has passed.
    Ticked,
    /// Time has passed, and a duration has ended.
    Ended,
}

/// The defaults with one of them changed.
pub(crate) fn with_default(defaults: Defaults, field: DefaultField, value: u8) -> Defaults
    ensures { result ≡ with_default defaults field value }
{
    match field {
        DefaultField::Font => Defaults {
            font: value,
            ..defaults
        },
        DefaultField::Line => Defaults {
            line: value,
            ..defaults
        },
        DefaultField::Page => Defaults {
            page: value,
            ..defaults
        },
        DefaultField::PageOn => Defaults {
            page_on: value,
            ..defaults
        },
        DefaultField::PageOff => Defaults {
            page_off: value,
            ..defaults
        },
        DefaultField::FlashOn => Defaults {
            flash_on: value,
            ..defaults
        },
        DefaultField::FlashOff => Defaults {
            flash_off: value,
            ..defaults
        },
        DefaultField::Fore => Defaults {
            fore: value,
            ..defaults
        },
        DefaultField::Back => Defaults {
            back: value,
            ..defaults
        },
    }
}
