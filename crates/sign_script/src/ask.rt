//! What a line of a script asks for.

use message_store::MsgRef;
use sign_control::Command;
use thiserror::Error;

/// What a line of a script asks for (own).
#[derive(Clone, Copy, Debug, PartialEq, Eq)]
pub enum Ask<'a> {
    /// Nothing: the line is empty, or begins with `#`. It gets no reply.
    Nothing,
    /// A command for the controller.
    Command(Command<'a>),
    /// The frame of a colour: its number, 0 to 255.
    Frame(u8),
    /// The row of a message.
    Row(MsgRef),
    /// The state of the sign.
    Report,
    /// The defaults in force.
    Defaults,
}

/// Why a line isn't read (own).
#[derive(Clone, Copy, Debug, PartialEq, Eq, Error)]
pub enum LineFault {
    /// It is no line of a script.
    #[error("bad line")]
    Bad,
    /// Memory was refused for the octets that it writes in hexadecimal.
    #[error("out of memory")]
    Memory,
}
