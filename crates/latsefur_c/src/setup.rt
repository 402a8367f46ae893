//! The controller of a sign file.
ghost use Rattle.std.specs.Prelude.{◌≡◌, ◌⊎◌, map, true, false, IfOk, IfErr};
ghost use Rattle.message_store.specs.Limits.{can_be_made, made};
ghost use Rattle.message_store.specs.Slot.{permanent_of};
ghost use Rattle.latsefur_c.specs.Held.{LacksController, SetsUp};

use crate::outcome::{NO_MEMORY, NO_SIGN_FILE, TABLE_FAULT};
use crate::sign::why_unmade;
use message_store::{Permanent, Store, StoreLimits, StoreMade};
use sign_control::Controller;
use sign_file::{FileFault, SignFile, read_sign_file};
use sign_font::Sign;
use std::alloc::Global;

/// The store of a sign file, or the number that says why there is none.
fn store_of(alloc: Global, limits: StoreLimits, permanents: Vec<Permanent>) -> Result<Store, u8>
    ensures made { IfOk result (λ store. store ≡ made limits (map permanent_of permanents.items)) }
    ensures sound { IfOk result (λ store. can_be_made limits (map permanent_of permanents.items) ≡ true) }
    ensures err { IfErr result
        (λ outcome. (outcome ≡ 2) ⊎ ((outcome ≡ 8) × (can_be_made limits (map permanent_of permanents.items) ≡ false))) }
{
    match Store::new(alloc, limits, permanents) {
        Ok(store) => Ok(store),
        Err(StoreMade::BadLimit) => Err(TABLE_FAULT),
        Err(StoreMade::Memory) => Err(NO_MEMORY),
    }
}

/// The controller of a sign file, or the number that says why there is none.
pub(crate) fn controller_of(alloc: Global, octets: &[u8]) -> Result<Controller, u8>
    ensures ok { IfOk result (SetsUp octets.now) }
    ensures err { IfErr result (LacksController octets.now) }
{
    let file = match read_sign_file(alloc, octets) {
        Ok(file) => file,
        Err(FileFault::Memory) => return Err(NO_MEMORY),
        Err(FileFault::Bad) => return Err(NO_SIGN_FILE),
    };
    let SignFile {
        sign,
        limits,
        permanents,
    } = file;
    let sign = match Sign::new(alloc, sign) {
        Ok(sign) => sign,
        Err(fault) => return Err(why_unmade(fault)),
    };
    let store = match store_of(alloc, limits, permanents) {
        Ok(store) => store,
        Err(outcome) => return Err(outcome),
    };
    match Controller::new(alloc, sign, store) {
        Ok(controller) => Ok(controller),
        Err(_) => Err(NO_MEMORY),
    }
}
