//! Fields of saved octets.

ghost use Rattle.std.specs.Prelude.{◌≡◌, ◌+◌, ◌<◌, ◌≤◌, ◌^◌, length, IfOk};
ghost use Rattle.saved_octets.specs.Field.{Gives, placed, text_in, text_octets};

use crate::fault::StateFault;
use byteorder::{BigEndian, ByteOrder};

/// Puts octets at a place of a buffer, which has room for them.
pub fn put(buffer: &mut [u8], at: usize, octets: &[u8])
    requires room { at + length octets.now ≤ length buffer.old }
    ensures put { buffer.new ≡ placed buffer.old at octets.now }
{
    buffer[at..at + octets.len()].copy_from_slice(octets);
}

/// Puts a text of at most 65,535 octets after its length at a place of a buffer, which has room for both.
pub fn put_text(buffer: &mut [u8], at: usize, text: &[u8])
    requires short { length text.now < 2 ^ 16 }
    requires room { at + length text.now + 2 ≤ length buffer.old }
    ensures put { buffer.new ≡ placed buffer.old at (text_octets text.now) }
{
    put(buffer, at, &(text.len() as u16).to_be_bytes());
    put(buffer, at + 2, text);
}

/// The text at the front of octets, of at most so many octets, and the octets after it.
#[tactic(auto, unfolding(crate::specs::Field::text_in))]
pub fn text_of(octets: &[u8], most: usize) -> Result<(&[u8], &[u8]), StateFault>
    ensures text { Gives (λ x. (x.0.now, x.1.now)) result (text_in most octets.now) }
    ensures short { IfOk result (λ x. length x.0.now ≤ most) }
{
    if octets.len() < 2 {
        return Err(StateFault::Length);
    }
    let count = usize::from(BigEndian::read_u16(octets));
    if most < count {
        return Err(StateFault::TooLong);
    }
    let rest = &octets[2..];
    if rest.len() < count {
        return Err(StateFault::Length);
    }
    Ok((&rest[..count], &rest[count..]))
}
