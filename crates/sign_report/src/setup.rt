//! What a sign file sets up.

ghost use Rattle.std.specs.Prelude.{◌≡◌, ◌≢◌, IfOk, IfSome, OnOk, is_some};
ghost use Rattle.sign_report.specs.Setup.{SetsUp, is_made};

use message_store::{Store, StoreMade};
use sign_file::{FileFault, SignFile, read_sign_file};
use sign_font::{Sign, SignFault};
use sign_words::Setup;
use std::alloc::{AllocError, Global};

/// Passes over each fault but that memory was refused.
fn unless_memory(fault: SignFault) -> Result<(), AllocError>
    ensures { OnOk result (fault ≢ SignFault.Memory) }
{
    match fault {
        SignFault::Memory => Err(AllocError),
        _ => Ok(()),
    }
}

/// What these octets set up, or `None` if they are no sign file whose sign and message table can be made.
pub(crate) fn setup_of(alloc: Global, octets: &[u8]) -> Result<Option<Setup>, AllocError>
    ensures taken { IfOk result (λ setup. is_some setup ≡ is_made octets.now) }
    ensures set_up { IfOk result (λ setup. IfSome setup (λ s. SetsUp octets.now s.sign s.store)) }
{
    let file = match read_sign_file(alloc, octets) {
        Ok(file) => file,
        Err(FileFault::Bad) => return Ok(None),
        Err(FileFault::Memory) => return Err(AllocError),
    };
    let SignFile {
        sign,
        limits,
        permanents,
    } = file;
    let sign = match Sign::new(alloc, sign) {
        Ok(sign) => sign,
        Err(fault) => {
            unless_memory(fault)?;
            return Ok(None);
        }
    };
    match Store::new(alloc, limits, permanents) {
        Ok(store) => Ok(Some(Setup { sign, store })),
        Err(StoreMade::BadLimit) => Ok(None),
        Err(StoreMade::Memory) => Err(AllocError),
    }
}
