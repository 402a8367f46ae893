//! Why a store refuses a call.

use thiserror::Error;

/// The first reason, in this order, why a call is refused. Nothing changes then (own).
#[derive(Clone, Copy, Debug, PartialEq, Eq, Error)]
pub enum StoreFault {
    /// The memory type isn't 2, 3, 5 or 7.
    #[error("no such memory type")]
    MemoryType,
    /// There is no message of this number.
    #[error("no such message")]
    Number,
    /// The message can't be written.
    #[error("the message can't be written")]
    ReadOnly,
    /// The message's status doesn't take the call.
    #[error("the message's status doesn't take this")]
    WrongState,
    /// The value is outside its range.
    #[error("the value is outside its range")]
    BadValue,
    /// The text is longer than a text of its kind may be.
    #[error("the text is too long")]
    TooLong,
    /// The octets of all texts would pass the budget.
    #[error("the texts would pass the budget")]
    NoSpace,
}

/// Why a store isn't made (own).
#[derive(Clone, Copy, Debug, PartialEq, Eq, Error)]
pub enum StoreMade {
    /// A limit or a permanent message is outside its range.
    #[error("a limit or a permanent message is outside its range")]
    BadLimit,
    /// Memory was wanted and refused.
    #[error("memory was refused")]
    Memory,
}

impl StoreFault {
    ghost use Rattle.std.specs.Prelude.{◌≡◌};
    ghost use Rattle.message_store.specs.Fault.{fault_code};

    /// The number by which the refusal is known outside: 1 to 7 in the order above.
    pub fn code(self) -> u8
        ensures { result ≡ fault_code self }
    {
        match self {
            StoreFault::MemoryType => 1,
            StoreFault::Number => 2,
            StoreFault::ReadOnly => 3,
            StoreFault::WrongState => 4,
            StoreFault::BadValue => 5,
            StoreFault::TooLong => 6,
            StoreFault::NoSpace => 7,
        }
    }
}
