//! By what a host sees that there is something to save.

ghost use Rattle.std.specs.Prelude.{◌≡◌};
ghost use Rattle.sign_control.specs.Revision.{is_change, revised};

use crate::command::Reply;
use crate::controller::Controller;
use step_count::raised;

/// Whether a command with this reply may have changed more than the time.
fn is_change(reply: Reply) -> bool
    ensures { result ≡ is_change reply }
{
    match reply {
        Reply::Done | Reply::Worked { .. } | Reply::Shown | Reply::NotShown(_) | Reply::Ended =>
            true,
        Reply::Refused(_) | Reply::Idle | Reply::NotSet(_) | Reply::Ticked => false,
    }
}

/// The revision after a command with this reply.
pub(crate) fn revised(revision: u64, reply: Reply) -> u64
    ensures { result ≡ revised revision reply }
{
    if is_change(reply) {
        raised(revision, 1)
    } else {
        revision
    }
}

impl Controller {
    /// A number that rises by one with each command that is done, judges a message, shows one or doesn't, or ends a duration, and with
    /// each restore: so whatever [`Controller::save`] saves has changed since, if it is another number, and else only time may have
    /// passed. `u64::MAX` may stand for more.
    pub fn revision(&self) -> u64
        ensures { result ≡ self.now.revision }
    {
        self.revision
    }
}
