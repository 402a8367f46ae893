//! The codes by which messages are named, and the numbers of errors and source modes.

ghost use Rattle.std.specs.Prelude.{◌≡◌, ◌≤◌, length};
ghost use Rattle.sign_control.specs.Code.{activation_code, error_code, id_code, mode_code};

use byteorder::{BigEndian, ByteOrder};
use message_store::MsgRef;

/// A message and the CRC that it must have (NTCIP 1203 v03, MessageIDCode).
#[derive(Clone, Copy)]
pub(crate) struct IdCode {
    pub(crate) message: MsgRef,
    pub(crate) crc: u16,
}

/// What a traffic centre asks to be shown (NTCIP 1203 v03, MessageActivationCode).
#[derive(Clone, Copy)]
pub(crate) struct ActivationCode {
    /// In minutes; 65535 is without end.
    pub(crate) duration: u16,
    pub(crate) priority: u8,
    pub(crate) id: IdCode,
    /// The address of who asks.
    pub(crate) requester: u32,
}

/// Why a message isn't shown (NTCIP 1203 v03, dmsActivateMsgError; the numbers and their order are own).
#[derive(Clone, Copy)]
pub(crate) enum ActivateError {
    /// It is shown.
    None,
    /// The activation's priority is less than that of what is shown.
    Priority,
    /// The message isn't valid.
    MessageStatus,
    /// The memory type has no messages.
    MessageMemoryType,
    /// There is no message of this number.
    MessageNumber,
    /// The CRC isn't the message's.
    MessageCrc,
    /// The sign doesn't accept the text.
    SyntaxMulti,
}

/// Why the display shows what it shows (NTCIP 1203 v03, dmsMsgSourceMode).
#[derive(Clone, Copy)]
pub(crate) enum SourceMode {
    /// The controller was made.
    Other,
    /// A traffic centre activated it.
    Central,
    /// A duration has ended.
    EndDuration,
}

impl ActivateError {
    ghost use Rattle.sign_control.specs.Saved.{error_numbered};

    /// The error of a number (NTCIP 1203 v03, dmsActivateMsgError).
    pub(crate) fn numbered(number: u8) -> Option<ActivateError>
        ensures { result ≡ error_numbered number }
    {
        match number {
            2 => Some(ActivateError::None),
            3 => Some(ActivateError::Priority),
            4 => Some(ActivateError::MessageStatus),
            5 => Some(ActivateError::MessageMemoryType),
            6 => Some(ActivateError::MessageNumber),
            7 => Some(ActivateError::MessageCrc),
            8 => Some(ActivateError::SyntaxMulti),
            _ => None,
        }
    }

    /// Its number (NTCIP 1203 v03, dmsActivateMsgError).
    pub(crate) fn code(self) -> u8
        ensures { result ≡ error_code self }
    {
        match self {
            ActivateError::None => 2,
            ActivateError::Priority => 3,
            ActivateError::MessageStatus => 4,
            ActivateError::MessageMemoryType => 5,
            ActivateError::MessageNumber => 6,
            ActivateError::MessageCrc => 7,
            ActivateError::SyntaxMulti => 8,
        }
    }
}

impl SourceMode {
    ghost use Rattle.sign_control.specs.Saved.{mode_numbered};

    /// The source mode of a number (NTCIP 1203 v03, dmsMsgSourceMode).
    pub(crate) fn numbered(number: u8) -> Option<SourceMode>
        ensures { result ≡ mode_numbered number }
    {
        match number {
            1 => Some(SourceMode::Other),
            8 => Some(SourceMode::Central),
            14 => Some(SourceMode::EndDuration),
            _ => None,
        }
    }

    /// Its number (NTCIP 1203 v03, dmsMsgSourceMode).
    pub(crate) fn code(self) -> u8
        ensures { result ≡ mode_code self }
    {
        match self {
            SourceMode::Other => 1,
            SourceMode::Central => 8,
            SourceMode::EndDuration => 14,
        }
    }
}

/// The message and the CRC in five octets.
pub(crate) fn id_code(octets: &[u8]) -> IdCode
    requires { 5 ≤ length octets.now }
    ensures { result ≡ id_code octets.now }
{
    IdCode {
        message: MsgRef {
            memory: octets[0],
            number: BigEndian::read_u16(&octets[1..]),
        },
        crc: BigEndian::read_u16(&octets[3..]),
    }
}

/// What twelve octets ask for.
pub(crate) fn activation_code(octets: &[u8]) -> ActivationCode
    requires { 12 ≤ length octets.now }
    ensures { result ≡ activation_code octets.now }
{
    ActivationCode {
        duration: BigEndian::read_u16(octets),
        priority: octets[2],
        id: id_code(&octets[3..]),
        requester: BigEndian::read_u32(&octets[8..]),
    }
}
