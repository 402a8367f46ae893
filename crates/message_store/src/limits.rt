//! The limits of a store.

ghost use Rattle.std.specs.Prelude.{◌≡◌, map};
ghost use Rattle.std.specs.List.{list_all};
ghost use Rattle.message_store.specs.Limits.{are_limits, can_be_made, is_permanent};
ghost use Rattle.message_store.specs.Slot.{permanent_of};

use crate::message::Permanent;

/// How many changeable messages a store has, and how many octets their texts may have (own).
#[derive(Clone, Copy, Debug, PartialEq, Eq)]
pub struct StoreLimits {
    /// Changeable messages, 1 to 1,000. They are numbered from 1.
    pub slots: u16,
    /// The budget: octets of all their texts and owners together, 0 to 1,000,000.
    pub bytes: u32,
    /// Octets of one MULTI text, at most; 1 to 4,096.
    pub max_string: u16,
}

/// Whether a store can be made with these limits and permanent messages.
pub(crate) fn can_be_made(limits: StoreLimits, permanent: &[Permanent]) -> bool
    ensures { result ≡ can_be_made limits (map permanent_of permanent.now) }
{
    are_limits(limits) && permanent.len() <= 255 && are_permanent(limits, permanent)
}

fn are_limits(limits: StoreLimits) -> bool
    ensures { result ≡ are_limits limits }
{
    (1..=1000).contains(&limits.slots)
        && limits.bytes <= 1_000_000
        && (1..=4096).contains(&limits.max_string)
}

fn are_permanent(limits: StoreLimits, permanent: &[Permanent]) -> bool
    ensures { result ≡ list_all (is_permanent limits) (map permanent_of permanent.now) }
{
    permanent
        .iter()
        .all(|message| is_permanent(limits, message))
}

fn is_permanent(limits: StoreLimits, message: &Permanent) -> bool
    ensures { result ≡ is_permanent limits (permanent_of message.now) }
{
    message.multi.len() <= usize::from(limits.max_string)
        && message.priority != 0
        && message.beacon <= 1
        && message.pixel <= 1
}
