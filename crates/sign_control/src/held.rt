//! What a controller holds: its sign, and the limits and the permanent messages of its store.

ghost use Rattle.std.specs.Prelude.{◌≡◌, ◌≤◌, length, map};
ghost use Rattle.message_store.specs.Slot.{permanent_of};
ghost use Rattle.sign_control.specs.Restored.{IsTaken};

use crate::controller::Controller;
use message_store::{Permanent, StoreLimits};
use sign_font::Sign;

impl Controller {
    /// The sign, as it was handed in.
    pub fn sign(&self) -> &Sign
        ensures sign { result.now ≡ self.now.sign }
    {
        &self.sign
    }

    /// The limits of the message table, as they were handed in. Whatever was asked of the controller, and whatever octets were restored,
    /// its messages are within them, and the sign takes its defaults and accepts what the display shows.
    pub fn limits(&self) -> StoreLimits
        ensures limits { result ≡ self.now.state.store.limits }
        ensures taken { IsTaken self.now.sign self.now.state }
    {
        self.store.limits()
    }

    /// The permanent messages, in the order of their numbers from 1 on; at most 255 (NTCIP 1203 v03, dmsNumPermanentMsg).
    pub fn permanents(&self) -> &[Permanent]
        ensures permanents { map permanent_of result.now ≡ self.now.state.store.permanent }
        ensures few { length result.now ≤ 255 }
    {
        self.store.permanents()
    }
}
