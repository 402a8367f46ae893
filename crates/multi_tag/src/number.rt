//! Numbers of a few digits.

ghost use Rattle.std.specs.Prelude.{◌≡◌, ◌≤◌};
ghost use Rattle.std.specs.Char.{to_ascii_lowercase};
ghost use Rattle.std.specs.Str.{str_to_ascii_lowercase};
ghost use Rattle.multi_tag.specs.Part.{IsCut, digit_of, in_range};

/// The number that the digits at the front of octets write, at most `most` digits of a base, or `None` where there is no
/// digit, and the octets after those digits.
///
/// It stands in its callers' code, so that the base is known where digits are read.
#[inline(always)]
pub fn read_numeral(octets: &[u8], base: u32, most: u32) -> (Option<u32>, &[u8])
    requires least { 2 ≤ base }
    requires base { base ≤ 16 }
    // eight hexadecimal digits fill 32 bits
    requires most { most ≤ 8 }
    ensures { IsCut base most (str_to_ascii_lowercase octets.now) result.0 (str_to_ascii_lowercase result.1.now) }
{
    let mut value = None;
    let mut rest = octets;
    for _ in 0..most {
        let [octet, behind @ ..] = rest else {
            return (value, rest);
        };
        let Some(digit) = digit_of(*octet, base) else {
            return (value, rest);
        };
        value = Some(value.unwrap_or(0) * base + digit);
        rest = behind;
    }
    (value, rest)
}

/// The value of an octet as a digit of a base, if it is one: a letter is the same digit in either case.
#[inline(always)]
fn digit_of(octet: u8, base: u32) -> Option<u32>
    requires least { 2 ≤ base }
    requires base { base ≤ 16 }
    ensures { result ≡ digit_of base (to_ascii_lowercase octet) }
{
    let value = match octet {
        b'0'..=b'9' => octet - b'0',
        b'A'..=b'Z' => octet - b'A' + 10,
        b'a'..=b'z' => octet - b'a' + 10,
        _ => return None,
    };
    let value = u32::from(value);
    if value < base { Some(value) } else { None }
}

/// A number as one from `low` to `high`, or `None` where it is out of that range. No number stays none.
#[inline(always)]
pub fn in_range(number: Option<u32>, low: u8, high: u8) -> Option<Option<u8>>
    ensures { result ≡ in_range low high number }
{
    let Some(number) = number else {
        return Some(None);
    };
    if number < u32::from(low) || number > u32::from(high) {
        return None;
    }
    Some(Some(number as u8))
}
