//! Answers that wait to be written.
ghost use Rattle.std.specs.Prelude.{◌≡◌, ◌<◌, ◌≤◌, ◌++◌, ◌∷◌, [], IfOk, OnOk, decimal, length, take};

use crate::few::put_few;
use crate::output::MAX_READY;
use itoa::Buffer;
use std::alloc::{AllocError, Global};
use std::marker::Model;

/// How many octets of room are made beyond what is asked for (own).
const SPARE: usize = 1_024;

/// The answers to whole lines that aren't written yet, and what there is of the answer to the line after them (own).
///
/// If memory is refused for an answer, the answers to the lines before it are still there. Room that was made once stays, so that an answer
/// is put into it with nothing moved.
#[derive(Drop)]
pub(crate) struct Ready {
    /// All of these answers, and room after them.
    pub(crate) octets: Vec<u8>,
    /// Where the answers to whole lines end.
    end: usize,
    /// Where the answer that was begun ends.
    pub(crate) len: usize,
}

impl Model for Ready {
    ghost use Rattle.std.specs.Prelude.{◌≤◌, length, take, drop};
    ghost use Rattle.sign_tool.specs.internal.Ready.{ReadyData};

    ghost Value = { ReadyData };

    ghost view = { λ r. record { whole = take r.end (take r.len r.octets.items); begun = drop r.end (take r.len r.octets.items) } };

    ghost invariant = { λ r. (r.end ≤ r.len) × (r.len ≤ length r.octets.items) };
}

impl Ready {
    /// With no answers.
    pub(crate) fn new(alloc: Global) -> Ready
        ensures { result ≡ record { whole = []; begun = [] } }
    {
        Ready {
            octets: Vec::new(alloc),
            end: 0,
            len: 0,
        }
    }

    /// With no answers, and room for this many octets. The error says that memory was refused.
    pub(crate) fn with_room(alloc: Global, room: usize) -> Result<Ready, AllocError>
        ensures { IfOk result (λ ready. ready ≡ record { whole = []; begun = [] }) }
    {
        let octets = Vec::with_capacity(alloc, room.saturating_add(2 * SPARE))?;
        Ok(Ready {
            octets,
            end: 0,
            len: 0,
        })
    }

    /// The answers to whole lines.
    pub(crate) fn whole(&self) -> &[u8]
        ensures { result.now ≡ self.now.whole }
    {
        &self.octets[..self.end]
    }

    /// Takes the answer that was begun for whole.
    pub(crate) fn end_answer(&mut self)
        ensures { self.new ≡ record { whole = self.old.whole ++ self.old.begun; begun = [] } }
    {
        self.end = self.len;
    }

    /// Forgets all.
    pub(crate) fn clear(&mut self)
        ensures { self.new ≡ record { whole = []; begun = [] } }
    {
        self.end = 0;
        self.len = 0;
    }
}

/// Adds octets until there are this many, and some to spare. It is a function of its own, so that the calls which find enough octets save
/// nothing for it. The error says that memory was refused.
#[inline(never)]
fn add_room(octets: &mut Vec<u8>, count: usize) -> Result<(), AllocError>
    requires { length octets.old.items < count }
    ensures room { OnOk result (count ≤ length octets.new.items) }
    ensures len { length octets.old.items ≤ length octets.new.items }
    ensures kept { take (length octets.old.items) octets.new.items ≡ octets.old.items }
{
    let wanted = count.saturating_add(SPARE);
    if wanted > octets.capacity() {
        octets.reserve(MAX_READY)?;
    }
    octets.resize(wanted, 0)?;
    Ok(())
}

/// Makes sure that there are this many octets. Those that there are stay. The error says that memory was refused.
#[inline(always)]
pub(crate) fn make_room(octets: &mut Vec<u8>, count: usize) -> Result<(), AllocError>
    ensures room { OnOk result (count ≤ length octets.new.items) }
    ensures len { length octets.old.items ≤ length octets.new.items }
    ensures kept { take (length octets.old.items) octets.new.items ≡ octets.old.items }
{
    if count > octets.len() {
        add_room(octets, count)?;
    }
    Ok(())
}

/// Appends an octet to the answer that was begun. The error says that memory was refused.
pub(crate) fn push_octet(text: &mut Ready, octet: u8) -> Result<(), AllocError>
    ensures text { OnOk result (text.new.begun ≡ text.old.begun ++ octet ∷ []) }
    ensures whole { text.new.whole ≡ text.old.whole }
{
    make_room(&mut text.octets, text.len + 1)?;
    text.octets[text.len] = octet;
    text.len += 1;
    Ok(())
}

/// Appends octets to the answer that was begun. The error says that memory was refused.
pub(crate) fn push_octets(text: &mut Ready, octets: &[u8]) -> Result<(), AllocError>
    ensures text { OnOk result (text.new.begun ≡ text.old.begun ++ octets.now) }
    ensures whole { text.new.whole ≡ text.old.whole }
{
    let end = text.len + octets.len();
    make_room(&mut text.octets, end)?;
    text.octets[text.len..end].copy_from_slice(octets);
    text.len = end;
    Ok(())
}

/// Appends the first `count` of a few octets to the answer that was begun. The others are written after it, where nothing counts yet, so
/// that a short text takes one look at the room and one write. The error says that memory was refused.
#[inline(always)]
pub(crate) fn push_short<const N: usize>(
    text: &mut Ready,
    octets: &[u8; N],
    count: usize,
) -> Result<(), AllocError>
    requires few { N ≤ 16 }
    requires count { count ≤ N }
    ensures text { OnOk result (text.new.begun ≡ text.old.begun ++ take count octets.now) }
    ensures whole { text.new.whole ≡ text.old.whole }
{
    if text.octets.len() - text.len < N {
        return push_far(text, *octets, count);
    }
    put_few(&mut text.octets[text.len..], octets);
    text.len += count;
    Ok(())
}

/// The same where there may be too little room.
#[inline(never)]
fn push_far<const N: usize>(
    text: &mut Ready,
    octets: [u8; N],
    count: usize,
) -> Result<(), AllocError>
    requires few { N ≤ 16 }
    requires count { count ≤ N }
    ensures text { OnOk result (text.new.begun ≡ text.old.begun ++ take count octets.entry) }
    ensures whole { text.new.whole ≡ text.old.whole }
{
    make_room(&mut text.octets, text.len + N)?;
    put_few(&mut text.octets[text.len..], &octets);
    text.len += count;
    Ok(())
}

/// The two digits of a number below 100, and six octets that nothing counts.
fn two_digits(number: u64) -> [u8; 8]
    requires two { (10 ≤ number) × (number < 100) }
    ensures { take 2 result ≡ decimal number }
{
    let tens = b'0' + (number / 10) as u8;
    let ones = b'0' + (number % 10) as u8;
    [tens, ones, 0, 0, 0, 0, 0, 0]
}

/// Appends a number of more digits than one. It is a function of its own, so that the calls for one digit save nothing for it.
#[inline(never)]
fn push_long_number(text: &mut Ready, number: u64) -> Result<(), AllocError>
    requires long { 10 ≤ number }
    ensures text { OnOk result (text.new.begun ≡ text.old.begun ++ decimal number) }
    ensures whole { text.new.whole ≡ text.old.whole }
{
    if number < 100 {
        return push_short(text, &two_digits(number), 2);
    }
    push_octets(text, Buffer::new().format(number).as_bytes())
}

/// Appends a number in decimal to the answer that was begun. Most numbers have one digit, which is written as part of the call. The error
/// says that memory was refused.
#[inline(always)]
pub(crate) fn push_number(text: &mut Ready, number: u64) -> Result<(), AllocError>
    ensures text { OnOk result (text.new.begun ≡ text.old.begun ++ decimal number) }
    ensures whole { text.new.whole ≡ text.old.whole }
{
    if number < 10 {
        return push_short(text, &[b'0' + number as u8, 0, 0, 0, 0, 0, 0, 0], 1);
    }
    push_long_number(text, number)
}

/// Appends a space and a number in decimal, which are written at once where the number has one digit, as part of the call. The error says
/// that memory was refused.
#[inline(always)]
pub(crate) fn push_spaced(text: &mut Ready, number: u64) -> Result<(), AllocError>
    ensures text { OnOk result (text.new.begun ≡ text.old.begun ++ 32 ∷ decimal number) }
    ensures whole { text.new.whole ≡ text.old.whole }
{
    if number < 10 {
        return push_short(text, &[b' ', b'0' + number as u8, 0, 0, 0, 0, 0, 0], 2);
    }
    push_octet(text, b' ')?;
    push_long_number(text, number)
}
