//! What a run stands on: a sign and its message store.

ghost use Rattle.std.specs.Prelude.{◌≡◌, IfOk};
ghost use Rattle.sign_tool.specs.SampleSetup.{sample_setup};

use message_store::{Permanent, Store, StoreLimits, StoreMade};
use sign_font::{Sign, SignFault, sample_sign};
use std::alloc::{AllocError, Global};

/// A sign and its message store, in which no slot is used when a run begins (own).
#[derive(Drop)]
pub struct Setup {
    /// The sign.
    pub sign: Sign,
    /// Its message store.
    pub store: Store,
}

/// The limits of the sample sign's store.
const SAMPLE_LIMITS: StoreLimits = StoreLimits {
    slots: 1,
    bytes: 4,
    max_string: 64,
};

/// The sample sign. It has no fault, so an error says that memory was refused.
fn make_sign(alloc: Global) -> Result<Sign, AllocError>
    ensures { IfOk result (λ sign. sign ≡ sample_setup.sign) }
{
    let parts = sample_sign(alloc)?;
    match Sign::new(alloc, parts) {
        Ok(sign) => Ok(sign),
        Err(SignFault::Memory) => Err(AllocError),
        Err(_) => unreachable!(),
    }
}

/// The sample sign's store. Its limits are those of a store, so an error says that memory was refused.
fn make_store(alloc: Global) -> Result<Store, AllocError>
    ensures { IfOk result (λ store. store ≡ sample_setup.store) }
{
    let message = Permanent {
        multi: b"AAAI".to_vec(alloc)?,
        priority: 5,
        beacon: 0,
        pixel: 0,
    };
    let mut messages = Vec::new(alloc);
    messages.push(message)?;
    match Store::new(alloc, SAMPLE_LIMITS, messages) {
        Ok(store) => Ok(store),
        Err(StoreMade::Memory) => Err(AllocError),
        Err(StoreMade::BadLimit) => unreachable!(),
    }
}

/// The sample sign with its message store.
pub(crate) fn make_sample(alloc: Global) -> Result<Setup, AllocError>
    ensures { IfOk result (λ setup. setup ≡ sample_setup) }
{
    let sign = make_sign(alloc)?;
    let store = make_store(alloc)?;
    Ok(Setup { sign, store })
}
