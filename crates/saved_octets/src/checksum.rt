//! The CRC-32 of octets.

ghost use Rattle.std.specs.Prelude.{◌≡◌};
ghost use Rattle.saved_octets.specs.Checksum.{bit_step, crc32, four_steps, octet_step};

/// One bit.
fn bit_step(register: u32) -> u32
    ensures { result ≡ bit_step register }
{
    if register % 2 == 1 {
        (register / 2) ^ 0xedb8_8320
    } else {
        register / 2
    }
}

/// Four bits.
#[tactic(auto, unfolding(crate::specs::Checksum::four_steps))]
fn four_steps(register: u32) -> u32
    ensures { result ≡ four_steps register }
{
    bit_step(bit_step(bit_step(bit_step(register))))
}

/// One octet.
#[tactic(auto, unfolding(crate::specs::Checksum::octet_step))]
fn with_octet(register: u32, octet: u8) -> u32
    ensures { result ≡ octet_step register octet }
{
    four_steps(four_steps(register ^ u32::from(octet)))
}

/// The CRC-32 of octets (ISO/IEC 3309, 32 bits).
#[tactic(auto, unfolding(crate::specs::Checksum::crc32))]
pub fn crc32(octets: &[u8]) -> u32
    ensures { result ≡ crc32 octets.now }
{
    let mut register = 0xffff_ffff;
    for octet in octets {
        register = with_octet(register, *octet);
    }
    register ^ 0xffff_ffff
}
