//! Where a proposal differs from a message.

ghost use Rattle.std.specs.Prelude.{◌≡◌, ◌+◌, ◌≤◌, ◌<◌, IfOk, length, take};
ghost use Rattle.message_cures.specs.Edits.{IsEdited};

use std::alloc::{AllocError, Global};

/// Octets that stand in place of those from one offset of a message to another (own).
#[derive(Drop)]
pub struct Edit {
    /// Where the first octet stands that is replaced, counted from 0.
    pub from: usize,
    /// Where the first one after them stands.
    pub to: usize,
    /// What stands in their place.
    pub octets: Vec<u8>,
}

/// How many equal octets show that two texts go on alike (own).
const ALIKE: usize = 3;

/// How far after a difference it is looked for where the texts go on alike (own).
const REACH: usize = 12;

/// With how many equal octets two texts begin.
fn common(one: &[u8], other: &[u8]) -> usize
    ensures one { result ≤ length one.now }
    ensures other { result ≤ length other.now }
    ensures same { take result one.now ≡ take result other.now }
{
    let mut count = 0;
    while count < one.len() && count < other.len() {
        if one[count] != other[count] {
            break;
        }
        count += 1;
    }
    count
}

/// Whether two texts begin alike, or both are at their end.
fn is_alike(one: &[u8], other: &[u8]) -> bool {
    let least = ALIKE.min(one.len()).min(other.len());
    if least < ALIKE && one.len() != other.len() {
        return false;
    }
    common(one, other) >= least
}

/// How many octets of each text stand before the place where they go on alike, or all of them.
fn apart(one: &[u8], other: &[u8]) -> (usize, usize)
    requires some { 0 < length one.now + length other.now }
    ensures one { result.0 ≤ length one.now }
    ensures other { result.1 ≤ length other.now }
    ensures some { 0 < result.0 + result.1 }
{
    for sum in 1..=2 * REACH {
        for left in 0..=sum {
            let right = sum - left;
            if left > one.len() || right > other.len() {
                continue;
            }
            if is_alike(&one[left..], &other[right..]) {
                return (left, right);
            }
        }
    }
    (one.len(), other.len())
}

/// The edits that make a proposal of a message, from its front to its end. The error says that memory was refused.
pub fn edits_of(alloc: Global, text: &[u8], other: &[u8]) -> Result<Vec<Edit>, AllocError>
    ensures { IfOk result (λ edits. IsEdited text.now edits.items other.now) }
{
    let mut edits = Vec::new(alloc);
    let mut from = common(text, other);
    let mut place = from;
    while from < text.len() || place < other.len() {
        let (left, right) = apart(&text[from..], &other[place..]);
        let to = from + left;
        let behind = place + right;
        let mut octets = Vec::new(alloc);
        octets.extend_from_slice(&other[place..behind])?;
        edits.push(Edit { from, to, octets })?;
        let more = common(&text[to..], &other[behind..]);
        from = to + more;
        place = behind + more;
    }
    Ok(edits)
}
