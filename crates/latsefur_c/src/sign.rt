//! The sign of a sign file.
ghost use Rattle.std.specs.Prelude.{◌≡◌, IfOk, IfErr, Some};
ghost use Rattle.latsefur_c.specs.Outcome.{HasNoSign, sign_of_file, why_unmade};

use crate::outcome::{NO_MEMORY, NO_SIGN_FILE, SIGN_FAULT};
use sign_file::{FileFault, read_sign_file};
use sign_font::{Sign, SignFault};
use std::alloc::Global;

/// The number for a sign that isn't made.
pub(crate) fn why_unmade(fault: SignFault) -> u8
    ensures { result ≡ why_unmade fault }
{
    match fault {
        SignFault::Memory => NO_MEMORY,
        _ => SIGN_FAULT,
    }
}

/// The sign that these octets describe, or the number that says why there is none.
pub(crate) fn sign_of(alloc: Global, octets: &[u8]) -> Result<Sign, u8>
    ensures ok { IfOk result (λ sign. sign_of_file octets.now ≡ Some sign) }
    ensures err { IfErr result (HasNoSign octets.now) }
{
    match sign_and_room(alloc, octets) {
        Ok((sign, _room)) => Ok(sign),
        Err(outcome) => Err(outcome),
    }
}

/// The same with the most octets of a text that the message table of the file takes.
pub(crate) fn sign_and_room(alloc: Global, octets: &[u8]) -> Result<(Sign, u16), u8>
    ensures ok { IfOk result (λ read. sign_of_file octets.now ≡ Some read.0) }
    ensures err { IfErr result (HasNoSign octets.now) }
{
    let file = match read_sign_file(alloc, octets) {
        Ok(file) => file,
        Err(FileFault::Memory) => return Err(NO_MEMORY),
        Err(FileFault::Bad) => return Err(NO_SIGN_FILE),
    };
    let room = file.limits.max_string;
    match Sign::new(alloc, file.sign) {
        Ok(sign) => Ok((sign, room)),
        Err(fault) => Err(why_unmade(fault)),
    }
}
