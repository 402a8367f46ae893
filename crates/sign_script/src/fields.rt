//! The fields of a line, which are parted by one space each.

ghost use Rattle.std.specs.Prelude.{◌≡◌, ◌==◌, ◌≤◌, IfSome, Some, position};
ghost use Rattle.std.specs.Option.{option_copied};
ghost use Rattle.sign_script.specs.Fields.{at_end, is_ended, left, last_message, last_number, message_value, next_message, next_number, parted, seen, text_of};
ghost use Rattle.sign_script.specs.internal.Leading.{IsLeading};

use message_store::MsgRef;

/// Where the first space of a text stands, counted from 0.
fn first_space(text: &[u8]) -> Option<usize>
    ensures { result ≡ position (λ octet. octet == 32) text.now }
{
    text.iter().position(|octet| *octet == b' ')
}

/// Whether a field has ended before these octets: they begin with a space, or there are none.
pub(crate) fn is_ended(rest: &[u8]) -> bool
    ensures { result ≡ is_ended rest.now }
{
    match rest {
        [] => true,
        [octet, ..] => *octet == b' ',
    }
}

/// What is left of a line after the space that stands first; nothing is left where there are no octets.
pub(crate) fn left(rest: &[u8]) -> Option<&[u8]>
    ensures { option_copied result ≡ left rest.now }
{
    if rest.is_empty() {
        None
    } else {
        Some(&rest[1..])
    }
}

/// The first field of a text, and what is left from the space on that ends it.
#[tactic(auto, using(crate::proofs::PartedLemmas::parted_some, crate::proofs::PartedLemmas::parted_none))]
pub(crate) fn parted(text: &[u8]) -> (&[u8], &[u8])
    ensures field { result.0.now ≡ (parted text.now).field }
    ensures rest { left result.1.now ≡ (parted text.now).rest }
{
    match first_space(text) {
        Some(at) => (&text[..at], &text[at..]),
        None => (text, &[]),
    }
}

/// The number that the decimal digits at the front of a text write, and how many these are, up to 10.
fn leading_number(text: &[u8]) -> (u64, usize)
    ensures { IsLeading text.now result.0 result.1 }
{
    let mut number = 0;
    let end = text.len().min(10);
    for index in 0..end {
        // what is below `0` wraps to a large number: one test tells digits
        let digit = u64::from(text[index]).wrapping_sub(48);
        if digit > 9 {
            return (number, index);
        }
        number = number * 10 + digit;
    }
    (number, end)
}

/// The number that the next field is if it is one digit, at most `most`, and what is left after it.
fn next_digit(most: u32, rest: &[u8]) -> Option<(u32, &[u8])>
    ensures number { IfSome result (λ found. seen (Some found) ≡ next_number most (left rest.now)) }
    ensures within { IfSome result (λ found. found.0 ≤ most) }
{
    let [_, octet, behind @ ..] = rest else {
        return None;
    };
    // what is below `0` wraps to a large number: one test tells digits
    let digit = u32::from(*octet).wrapping_sub(48);
    if digit <= 9 && digit <= most && is_ended(behind) {
        Some((digit, behind))
    } else {
        None
    }
}

/// The number that the next field is, at most `most`, and what is left after it.
fn next_digits(most: u32, rest: &[u8]) -> Option<(u32, &[u8])>
    ensures number { seen result ≡ next_number most (left rest.now) }
    ensures within { IfSome result (λ found. found.0 ≤ most) }
{
    let [_, text @ ..] = rest else {
        return None;
    };
    let (number, count) = leading_number(text);
    let rest = &text[count..];
    if count > 0 && is_ended(rest) && number <= u64::from(most) {
        Some((number as u32, rest))
    } else {
        None
    }
}

/// The number that the next field is, at most `most`, and what is left after it. Most numbers are one digit, which is read first, for
/// speed.
pub(crate) fn next_number(most: u32, rest: &[u8]) -> Option<(u32, &[u8])>
    ensures number { seen result ≡ next_number most (left rest.now) }
    ensures within { IfSome result (λ found. found.0 ≤ most) }
{
    match next_digit(most, rest) {
        Some(found) => Some(found),
        None => next_digits(most, rest),
    }
}

/// What was read, where nothing is left after it.
pub(crate) fn at_end<T: Drop>(read: T, rest: &[u8]) -> Option<T>
    ensures { result ≡ at_end read (left rest.now) }
{
    match left(rest) {
        None => Some(read),
        Some(_) => None,
    }
}

/// The number that the last field is, at most `most`.
pub(crate) fn last_number(most: u32, rest: &[u8]) -> Option<u32>
    ensures number { result ≡ last_number most (left rest.now) }
    ensures within { IfSome result (λ number. number ≤ most) }
{
    let (number, rest) = next_number(most, rest)?;
    at_end(number, rest)
}

/// The octet that the last field is, 0 to 255.
pub(crate) fn last_octet(rest: &[u8]) -> Option<u8>
    ensures { result ≡ last_number 255 (left rest.now) }
{
    Some(last_number(255, rest)? as u8)
}

/// The message that the next two fields name, and what is left after them.
pub(crate) fn next_message(rest: &[u8]) -> Option<(MsgRef, &[u8])>
    ensures { seen result ≡ next_message (left rest.now) }
{
    let (memory, rest) = next_number(255, rest)?;
    let (number, rest) = next_number(65535, rest)?;
    let message = MsgRef {
        memory: memory as u8,
        number: number as u16,
    };
    Some((message, rest))
}

/// The message that the last two fields name.
pub(crate) fn last_message(rest: &[u8]) -> Option<MsgRef>
    ensures { result ≡ last_message (left rest.now) }
{
    let (message, rest) = next_message(rest)?;
    at_end(message, rest)
}

/// The message of the next two fields, and the number of the last one, 0 to 255.
pub(crate) fn message_value(rest: &[u8]) -> Option<(MsgRef, u8)>
    ensures { result ≡ message_value (left rest.now) }
{
    let (message, rest) = next_message(rest)?;
    Some((message, last_octet(rest)?))
}

/// All that is left of a line is text; where nothing is left, the text is empty.
pub(crate) fn text_of(rest: &[u8]) -> &[u8]
    ensures { result.now ≡ text_of (left rest.now) }
{
    match left(rest) {
        None => &[],
        Some(text) => text,
    }
}
