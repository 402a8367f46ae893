//! What a sign file sets up, with its permanent messages judged.

ghost use Rattle.std.specs.Prelude.{◌≡◌, [], None, IfOk, is_some};
ghost use Rattle.sign_report.specs.Permanents.{refusals_of};
ghost use Rattle.sign_report.specs.Setup.{is_taken, sign_of, sign_taken};

use crate::lines::has_file_lines;
use crate::permanents::refusals_of;
use crate::setup::setup_of;
use sign_words::{PermanentRefusal, Setup};
use std::alloc::{AllocError, Global};

/// What a sign file sets up, and the permanent messages that its sign refuses.
#[derive(Drop)]
pub(crate) struct Judged {
    /// What it sets up, or `None` if the program doesn't take it.
    pub(crate) setup: Option<Setup>,
    /// The refusals, in the order of their numbers.
    pub(crate) refusals: Vec<PermanentRefusal>,
}

/// What octets set up that the program doesn't take.
fn untaken(alloc: Global) -> Judged
    ensures setup { result.setup ≡ None }
    ensures refusals { result.refusals.items ≡ [] }
{
    Judged {
        setup: None,
        refusals: Vec::new(alloc),
    }
}

/// What these octets set up, with the permanent messages that the sign refuses.
pub(crate) fn judged_of(alloc: Global, octets: &[u8]) -> Result<Judged, AllocError>
    ensures taken { IfOk result (λ judged. is_some judged.setup ≡ is_taken octets.now) }
    ensures sign { IfOk result (λ judged. sign_of judged.setup ≡ sign_taken octets.now) }
    ensures refusals { IfOk result (λ judged. judged.refusals.items ≡ refusals_of octets.now) }
{
    let Some(setup) = setup_of(alloc, octets)? else {
        return Ok(untaken(alloc));
    };
    if !has_file_lines(octets) {
        return Ok(untaken(alloc));
    }
    let refusals = refusals_of(alloc, &setup.sign, &setup.store)?;
    Ok(Judged {
        setup: Some(setup),
        refusals,
    })
}
