//! Numbers that are written in decimal.

ghost use Rattle.std.specs.Prelude.{◌≡◌, ◌<◌, ◌≤◌, ◌^◌, IfSome, if◌then◌else◌, Some, None, length};
ghost use Rattle.std.specs.List.{list_all};
ghost use Rattle.std.specs.Str.Parse.{digits_value};
ghost use Rattle.octet_text.specs.Digits.{is_digit};

/// The number that at most 10 decimal digits write, 0 without any, or `None` if an octet is no digit.
pub fn digits_number(digits: &[u8]) -> Option<u64>
    requires short { length digits.now ≤ 10 }
    ensures number { result ≡ (if list_all is_digit digits.now then Some (digits_value 10 digits.now) else None) }
    ensures small { IfSome result (λ number. number < 10 ^ length digits.now) }
{
    let mut number = 0;
    for octet in digits {
        let octet = *octet;
        if octet < b'0' || octet > b'9' {
            return None;
        }
        number = number * 10 + u64::from(octet - b'0');
    }
    Some(number)
}
