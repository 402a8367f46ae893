//! The version, the length and the CRC-32 around saved octets.

ghost use Rattle.std.specs.Prelude.{◌≡◌, ◌+◌, ◌-◌, ◌<◌, ◌≤◌, ◌^◌, ◌++◌, take, length, ℕ};
ghost use Rattle.byteorder.specs.Endian.{big_bytes};
ghost use Rattle.saved_octets.specs.Checksum.{crc32};
ghost use Rattle.saved_octets.specs.Field.{Gives, placed};
ghost use Rattle.saved_octets.specs.Seal.{head_octets, sealed, unsealed};

use crate::checksum::crc32;
use crate::fault::StateFault;
use crate::field::put;
use byteorder::{BigEndian, ByteOrder};

/// The octets around a body: a version, a length and a CRC-32.
pub const AROUND: usize = 9;

/// Puts the head of a body of so many octets at the front of a buffer: the version, 1, and the number of all octets.
pub fn put_head(buffer: &mut [u8], count: usize)
    requires short { count + 9 < 2 ^ 32 }
    requires room { 5 ≤ length buffer.old }
    ensures put { buffer.new ≡ placed buffer.old 0 (head_octets count) }
{
    let all = ((count + AROUND) as u32).to_be_bytes();
    put(buffer, 0, &[1, all[0], all[1], all[2], all[3]]);
}

/// Puts the CRC-32 of the first octets of a buffer after them, which has room for it.
pub fn put_seal(buffer: &mut [u8], count: usize)
    requires room { count + 4 ≤ length buffer.old }
    ensures put { buffer.new ≡ placed buffer.old count (big_bytes 4 (crc32 (take count buffer.old))) }
    ensures fits { crc32 (take count buffer.old) < 2 ^ 32 }
{
    let crc = crc32(&buffer[..count]);
    put(buffer, count, &crc.to_be_bytes());
}

/// The body of sealed octets.
#[tactic(auto, unfolding(crate::specs::Seal::unsealed))]
pub fn open_seal(octets: &[u8]) -> Result<&[u8], StateFault>
    ensures opened { Gives (λ body. body.now) result (unsealed octets.now) }
{
    if octets.len() < AROUND {
        return Err(StateFault::Length);
    }
    if octets[0] != 1 {
        return Err(StateFault::Version);
    }
    if BigEndian::read_u32(&octets[1..]) as usize != octets.len() {
        return Err(StateFault::Length);
    }
    let end = octets.len() - 4;
    if BigEndian::read_u32(&octets[end..]) != crc32(&octets[..end]) {
        return Err(StateFault::Checksum);
    }
    Ok(&octets[5..end])
}
