//! Octets in hexadecimal.

ghost use Rattle.std.specs.Prelude.{◌≡◌, ◌+◌, ◌*◌, ◌≤◌, if◌then◌else◌, Some, None, length};
ghost use Rattle.hex.specs.Hex.{decode_sized};
ghost use Rattle.sign_script.specs.Fields.{if_decoded, last_octets, left};
ghost use Rattle.sign_script.specs.internal.Hexadecimal.{digit_value};

use crate::fields::left;

/// What each octet writes as a digit, in either case, and 256 where it is none, so that one test tells of both digits of an octet.
const VALUES: &[u32; 256] = &[
    256, 256, 256, 256, 256, 256, 256, 256, 256, 256, 256, 256, 256, 256, 256, 256, 256, 256, 256,
    256, 256, 256, 256, 256, 256, 256, 256, 256, 256, 256, 256, 256, 256, 256, 256, 256, 256, 256,
    256, 256, 256, 256, 256, 256, 256, 256, 256, 256, 0, 1, 2, 3, 4, 5, 6, 7, 8, 9, 256, 256, 256,
    256, 256, 256, 256, 10, 11, 12, 13, 14, 15, 256, 256, 256, 256, 256, 256, 256, 256, 256, 256,
    256, 256, 256, 256, 256, 256, 256, 256, 256, 256, 256, 256, 256, 256, 256, 256, 10, 11, 12, 13,
    14, 15, 256, 256, 256, 256, 256, 256, 256, 256, 256, 256, 256, 256, 256, 256, 256, 256, 256,
    256, 256, 256, 256, 256, 256, 256, 256, 256, 256, 256, 256, 256, 256, 256, 256, 256, 256, 256,
    256, 256, 256, 256, 256, 256, 256, 256, 256, 256, 256, 256, 256, 256, 256, 256, 256, 256, 256,
    256, 256, 256, 256, 256, 256, 256, 256, 256, 256, 256, 256, 256, 256, 256, 256, 256, 256, 256,
    256, 256, 256, 256, 256, 256, 256, 256, 256, 256, 256, 256, 256, 256, 256, 256, 256, 256, 256,
    256, 256, 256, 256, 256, 256, 256, 256, 256, 256, 256, 256, 256, 256, 256, 256, 256, 256, 256,
    256, 256, 256, 256, 256, 256, 256, 256, 256, 256, 256, 256, 256, 256, 256, 256, 256, 256, 256,
    256, 256, 256, 256, 256, 256, 256, 256, 256, 256, 256, 256, 256, 256, 256, 256, 256, 256, 256,
    256, 256, 256,
];

/// What an octet writes as a digit.
fn digit_value(digit: u8) -> u32
    ensures value { result ≡ digit_value digit }
    ensures small { result ≤ 256 }
{
    VALUES[usize::from(digit)]
}

/// The octet that two digits write, or a larger number.
fn pair_value(high: u8, low: u8) -> u32
    ensures { result ≡ digit_value high * 16 + digit_value low }
{
    digit_value(high) * 16 + digit_value(low)
}

/// Reads as many octets as there is room for, where the digits write just these. It answers whether they do. One test after all pairs
/// tells whether each is an octet, for speed.
pub(crate) fn read_octets(digits: &[u8], octets: &mut [u8]) -> bool
    ensures { if_decoded (decode_sized digits.now (length octets.old)) ≡ (if result then Some octets.new else None) }
{
    if digits.len() / 2 != octets.len() || digits.len() % 2 == 1 {
        return false;
    }
    let mut seen = 0;
    for index in 0..octets.len() {
        let value = pair_value(digits[2 * index], digits[2 * index + 1]);
        octets[index] = (value % 256) as u8;
        seen |= value;
    }
    seen < 256
}

/// The `N` octets, in hexadecimal, that are all that is left of a line.
pub(crate) fn last_octets<const N: usize>(rest: &[u8]) -> Option<[u8; N]>
    ensures { result ≡ last_octets N (left rest.now) }
{
    let mut octets = [0; N];
    if read_octets(left(rest)?, &mut octets) {
        Some(octets)
    } else {
        None
    }
}
