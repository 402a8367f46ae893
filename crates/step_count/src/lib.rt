//! Counts of steps that never fall and never pass what 64 bits hold.
//!
//! What is read, probed or drawn is counted in steps. A count that has come to `u64::MAX` stays there, so counting can't
//! overflow, whatever is counted.
#![tactic(auto)]

ghost use Rattle.std.specs.Prelude.{◌≡◌};
ghost use Rattle.step_count.specs.Count.{raised};

/// A count `k` steps later (own). It stays at `u64::MAX`, which may stand for more.
pub fn raised(steps: u64, k: u64) -> u64
    ensures { result ≡ raised steps k }
{
    steps.saturating_add(k)
}
