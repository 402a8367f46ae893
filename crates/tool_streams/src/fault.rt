//! Why a run ends before the end of its input.

use std::alloc::AllocError;
use thiserror::Error;

/// Why a run ended before the end of its input (own). Lines are counted from 1.
#[derive(Clone, Copy, Debug, PartialEq, Eq, Error)]
pub enum ToolFault {
    /// The reader failed.
    #[error("read failed")]
    Read,
    /// The writer failed, or took no octet.
    #[error("write failed")]
    Write,
    /// The line has more than 8,300 octets before its end.
    #[error("line {line}: too long")]
    LineTooLong { line: u32 },
    /// The input ends within the line, or the line is none of a script where each line has to be one.
    #[error("line {line}: bad line")]
    BadLine { line: u32 },
    /// The input has more than 16,777,216 octets.
    #[error("input too long")]
    InputTooLong,
    /// The input doesn't begin with a sign file and the line `%%`: no line is `%%`, or what stands before it isn't TOML,
    /// or a key is missing, is of another kind, or has a number outside its type.
    #[error("sign not read")]
    BadSign,
    /// The sign of the sign file is outside a limit, whose number is 1 to 5, as by `SignFault::code`, or its message store
    /// is, which is 5 too.
    #[error("sign fault {number}")]
    SignRefused { number: u8 },
    /// There was no memory for the sign or its file, the message store, the controller, the plane, a line or its answer.
    #[error("out of memory")]
    Memory,
}

impl From<AllocError> for ToolFault {
    ghost use Rattle.std.specs.Prelude.{◌≡◌};
    ghost use Rattle.tool_streams.specs.declared.fault.ToolFault.TheVariants.{Memory};

    ghost from_gives = { λ _ fault. fault ≡ Memory };

    fn from(_refused: AllocError) -> ToolFault {
        ToolFault::Memory
    }
}
