//! Why saved octets are refused.

ghost use Rattle.std.specs.Prelude.{◌≡◌};
ghost use Rattle.saved_octets.specs.Fault.{fault_code};

use thiserror::Error;

/// The first reason, from the front of the octets on, why they are refused (own).
#[derive(Clone, Copy, Debug, PartialEq, Eq, Error)]
pub enum StateFault {
    /// There are fewer or more octets than there should be.
    #[error("there are fewer or more octets than there should be")]
    Length,
    /// The octets are of another version.
    #[error("the octets are of another version")]
    Version,
    /// The CRC-32 isn't that of the octets.
    #[error("the octets have changed since they were saved")]
    Checksum,
    /// A number is outside its range.
    #[error("a number is outside its range")]
    Value,
    /// A text is longer than it may be.
    #[error("a text is too long")]
    TooLong,
    /// The texts would pass the budget.
    #[error("the texts would pass the budget")]
    NoSpace,
    /// The message table has another number of changeable messages.
    #[error("the message table has another number of changeable messages")]
    Slots,
    /// The sign refuses the defaults in force, or those of the display.
    #[error("the sign refuses the defaults")]
    Defaults,
    /// The sign refuses the text of the display.
    #[error("the sign refuses the text of the display")]
    Text,
}

impl StateFault {
    /// The number by which the refusal is known outside: 1 to 9 in the order above.
    pub fn code(self) -> u8
        ensures { result ≡ fault_code self }
    {
        match self {
            StateFault::Length => 1,
            StateFault::Version => 2,
            StateFault::Checksum => 3,
            StateFault::Value => 4,
            StateFault::TooLong => 5,
            StateFault::NoSpace => 6,
            StateFault::Slots => 7,
            StateFault::Defaults => 8,
            StateFault::Text => 9,
        }
    }
}
