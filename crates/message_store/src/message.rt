//! What names a message, and what a permanent one is made of.

ghost use Rattle.std.specs.Prelude.{◌≡◌};

/// The memory type and the number of a message (NTCIP 1203 v03, dmsMessageMemoryType and dmsMessageNumber).
#[derive(Clone, Copy, Debug, PartialEq, Eq)]
pub struct MsgRef {
    /// 2 permanent, 3 changeable, 5 currentBuffer or 7 blank; no other type has messages here.
    pub memory: u8,
    /// Counted from 1: up to the number of permanent messages, to the store's slots, to 1 and to 255.
    pub number: u16,
}

/// A message of permanent memory, which is valid and is never written (NTCIP 1203 v03, dmsMessageMemoryType).
#[derive(Debug, Drop)]
pub struct Permanent {
    /// Its MULTI text, at most the store's `max_string` octets.
    pub multi: Vec<u8>,
    /// Its run-time priority, 1 to 255.
    pub priority: u8,
    /// Whether it asks for the beacons: 0 no, 1 yes.
    pub beacon: u8,
    /// Whether it asks for the pixel service: 0 no, 1 yes.
    pub pixel: u8,
}

/// The memory types that have messages here (NTCIP 1203 v03, dmsMessageMemoryType).
#[derive(Clone, Copy)]
pub(crate) enum MemoryType {
    Permanent,
    Changeable,
    CurrentBuffer,
    Blank,
}

impl MemoryType {
    ghost use Rattle.message_store.specs.Codes.{memory_numbered};

    /// The memory type of a number, if it has messages here.
    pub(crate) fn numbered(number: u8) -> Option<MemoryType>
        ensures { result ≡ memory_numbered number }
    {
        match number {
            2 => Some(MemoryType::Permanent),
            3 => Some(MemoryType::Changeable),
            5 => Some(MemoryType::CurrentBuffer),
            7 => Some(MemoryType::Blank),
            _ => None,
        }
    }
}
