//! The buffers of a host.
ghost use Rattle.std.specs.Prelude.{◌≡◌, ◌+◌, ◌++◌, ◌⊎◌, ◌<◌, ◌≤◌, drop, length, take};

use crate::outcome::{DONE, TOO_SMALL};

/// Writes octets at the front of a buffer, if it has room for them. The number says whether it had.
pub(crate) fn write_front(buffer: &mut [u8], octets: &[u8]) -> u8
    ensures { ((result ≡ 5) × (length buffer.old < length octets.now) × (buffer.new ≡ buffer.old))
        ⊎ ((result ≡ 0) × (buffer.new ≡ octets.now ++ drop (length octets.now) buffer.old)) }
{
    if octets.len() > buffer.len() {
        return TOO_SMALL;
    }
    buffer[..octets.len()].copy_from_slice(octets);
    DONE
}

/// Writes octets at a place of a buffer, which has room for them.
pub(crate) fn write_at(buffer: &mut [u8], at: usize, octets: &[u8])
    requires room { at + length octets.now ≤ length buffer.old }
    ensures { buffer.new ≡ take at buffer.old ++ octets.now ++ drop (at + length octets.now) buffer.old }
{
    buffer[at..at + octets.len()].copy_from_slice(octets);
}
