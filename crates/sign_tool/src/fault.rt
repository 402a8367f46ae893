//! Why a run has no sign.

ghost use Rattle.std.specs.Prelude.{◌≡◌};
ghost use Rattle.sign_tool.specs.Faults.{refusal, unmade, unread};

use message_store::StoreMade;
use sign_file::FileFault;
use sign_font::SignFault;
use tool_streams::ToolFault;

/// The fault of a run whose sign file isn't read.
pub(crate) fn unread(fault: FileFault) -> ToolFault
    ensures { result ≡ unread fault }
{
    match fault {
        FileFault::Bad => ToolFault::BadSign,
        FileFault::Memory => ToolFault::Memory,
    }
}

/// The fault of a run whose sign is refused, or has no memory.
pub(crate) fn refusal(fault: SignFault) -> ToolFault
    ensures { result ≡ refusal fault }
{
    match fault {
        SignFault::Memory => ToolFault::Memory,
        fault => ToolFault::SignRefused {
            number: fault.code(),
        },
    }
}

/// The fault of a run whose message store isn't made.
pub(crate) fn unmade(fault: StoreMade) -> ToolFault
    ensures { result ≡ unmade fault }
{
    match fault {
        StoreMade::BadLimit => refusal(SignFault::BadLimit),
        StoreMade::Memory => ToolFault::Memory,
    }
}
