//! The permanent messages that their sign refuses.

ghost use Rattle.std.specs.Prelude.{◌≡◌, ◌++◌, ◌<◌, ◌^◌, length, IfOk, OnOk};
ghost use Rattle.multi_meaning.specs.Verdict.{verdict};
ghost use Rattle.message_store.specs.Limits.{IsKept};
ghost use Rattle.sign_report.specs.Permanents.{as_list, refusal_of, refusals_from};

use message_store::Store;
use multi_layout::check;
use multi_token::Source;
use sign_font::Sign;
use sign_words::PermanentRefusal;
use std::alloc::{AllocError, Global};

/// Why the sign refuses the permanent message of this number, or `None` if it accepts the text.
fn refusal_of(sign: &Sign, number: u16, multi: &[u8]) -> Option<PermanentRefusal>
    requires { length multi.now < 2 ^ 32 }
    ensures { result ≡ refusal_of number (verdict sign.now multi.now) }
{
    match check(sign, Source::new(multi)) {
        Ok(_) => None,
        Err(fault) => Some(PermanentRefusal {
            number,
            code: fault.code,
            at: fault.at,
        }),
    }
}

/// Adds a refusal, if it is one.
fn push_refusal(
    refusals: &mut Vec<PermanentRefusal>,
    refusal: Option<PermanentRefusal>,
) -> Result<(), AllocError>
    ensures { OnOk result (refusals.new.items ≡ refusals.old.items ++ as_list refusal) }
{
    if let Some(refusal) = refusal {
        refusals.push(refusal)?;
    }
    Ok(())
}

/// The permanent messages of a store that the sign refuses, in the order of their numbers.
pub(crate) fn refusals_of(
    alloc: Global,
    sign: &Sign,
    store: &Store,
) -> Result<Vec<PermanentRefusal>, AllocError>
    requires { IsKept store.now }
    ensures { IfOk result (λ refusals. refusals.items ≡ refusals_from sign.now 1 store.now.permanent) }
{
    let mut refusals = Vec::new(alloc);
    let mut number = 0;
    for permanent in store.permanents() {
        number += 1;
        push_refusal(&mut refusals, refusal_of(sign, number, &permanent.multi))?;
    }
    Ok(refusals)
}
