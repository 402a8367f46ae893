//! Why a sign is refused.

ghost use Rattle.std.specs.Prelude.{◌≡◌};
ghost use Rattle.sign_font.specs.Fault.{default_code, code_of};

use thiserror::Error;

/// Why a sign is refused: the first limit that it is outside, in this order over the whole sign, or refused memory (own).
#[derive(Clone, Copy, Debug, PartialEq, Eq, Error)]
pub enum SignFault {
    /// The width isn't 1 to 1,024 pixels, or the height isn't 1 to 128.
    #[error("the sign's width or height is outside its limits")]
    BadSize,
    /// There are fewer than 1 or more than 16 fonts, or a font's number is 0, or the numbers don't rise strictly, or a
    /// font's height isn't 1 to 64 pixels.
    #[error("the number of fonts, or a font's number, order or height, is outside its limits")]
    BadFont,
    /// A font has more than 255 cells, or a cell's number is 0, or the numbers of a font's cells don't rise strictly, or
    /// a cell's width isn't 1 to 64 pixels, or a cell has more or fewer octets than its pixels need, or a spare bit is
    /// set.
    #[error("the number, order, width or bits of a cell are outside their limits")]
    BadCell,
    /// The default font isn't defined, or the default line justification isn't 2 to 5, or the default page
    /// justification isn't 2 to 4, or a default colour is above 9.
    #[error("a default is outside its limits")]
    BadDefault,
    /// The largest number of pages of a message is 0.
    #[error("a message has at least one page")]
    BadLimit,
    /// Memory was refused. The sign is within its limits.
    #[error("memory was refused")]
    Memory,
}

impl SignFault {
    /// The number of the fault, as the program says it: 1 to 6 in the order above.
    pub fn code(self) -> u8
        ensures { result ≡ code_of self }
    {
        match self {
            SignFault::BadSize => 1,
            SignFault::BadFont => 2,
            SignFault::BadCell => 3,
            SignFault::BadDefault => 4,
            SignFault::BadLimit => 5,
            SignFault::Memory => 6,
        }
    }
}

/// Why a sign refuses defaults, in this order (own).
#[derive(Clone, Copy, Debug, PartialEq, Eq, Error)]
pub enum DefaultFault {
    /// The font's number is 0, or the line justification isn't 2 to 5, or the page justification isn't 2 to 4, or a
    /// colour is above 9.
    #[error("a default is outside its values")]
    Value,
    /// The sign has no font of that number.
    #[error("the default font isn't defined")]
    FontUnknown,
}

impl DefaultFault {
    /// The number by which the refusal is known outside: 9 and 10 in the order above.
    pub fn code(self) -> u8
        ensures { result ≡ default_code self }
    {
        match self {
            DefaultFault::Value => 9,
            DefaultFault::FontUnknown => 10,
        }
    }
}
