//! What is told of messages, as it grows: each call appends to what is there, or memory was refused.
ghost use Rattle.std.specs.Prelude.{◌≡◌, ◌<◌, ◌≤◌, ◌++◌, ◌∷◌, [], OnOk, decimal, length, take};
ghost use Rattle.std.specs.List.{flat_map};
ghost use Rattle.message_report.specs.Pieces.{piece_text};

use itoa::Buffer;
use std::alloc::{AllocError, Global};
use std::marker::Model;

/// How many octets of room are made beyond what is asked for (own).
const SPARE: usize = 4_096;

/// What is told of messages (own). Room that was made once stays, so that what is told next is written into it with nothing moved.
#[derive(Drop)]
pub struct Explanation {
    /// All of it, and room after it.
    pub(crate) octets: Vec<u8>,
    /// How many octets it has.
    pub(crate) len: usize,
}

impl Model for Explanation {
    ghost use Rattle.std.specs.Prelude.{◌≤◌, ℕ, List, length, take};

    ghost Value = { List ℕ };

    ghost view = { λ e. take e.len e.octets.items };

    ghost invariant = { λ e. e.len ≤ length e.octets.items };
}

impl Explanation {
    /// With nothing told.
    pub fn new(alloc: Global) -> Explanation
        ensures { result ≡ [] }
    {
        Explanation {
            octets: Vec::new(alloc),
            len: 0,
        }
    }

    /// Its octets.
    pub fn octets(&self) -> &[u8]
        ensures { result.now ≡ self.now }
    {
        &self.octets[..self.len]
    }

    /// Its octets, with no room after them.
    pub(crate) fn into_octets(self) -> Vec<u8>
        ensures { result.items ≡ self }
    {
        let mut octets = self.octets;
        octets.truncate(self.len);
        octets
    }

    /// Forgets what is told, and keeps its room.
    pub fn clear(&mut self)
        ensures { self.new ≡ [] }
    {
        self.len = 0;
    }
}

/// Adds octets until there are this many, and some to spare. It is a function of its own, so that the calls which find enough octets save
/// nothing for it. The error says that memory was refused.
#[inline(never)]
fn add_room(octets: &mut Vec<u8>, count: usize) -> Result<(), AllocError>
    requires { length octets.old.items < count }
    ensures room { OnOk result (count ≤ length octets.new.items) }
    ensures len { length octets.old.items ≤ length octets.new.items }
    ensures kept { take (length octets.old.items) octets.new.items ≡ octets.old.items }
{
    octets.resize(count.saturating_add(SPARE), 0)?;
    Ok(())
}

/// Makes sure that there are this many octets. Those that there are stay. The error says that memory was refused.
#[inline(always)]
pub(crate) fn make_room(octets: &mut Vec<u8>, count: usize) -> Result<(), AllocError>
    ensures room { OnOk result (count ≤ length octets.new.items) }
    ensures len { length octets.old.items ≤ length octets.new.items }
    ensures kept { take (length octets.old.items) octets.new.items ≡ octets.old.items }
{
    if count > octets.len() {
        add_room(octets, count)?;
    }
    Ok(())
}

/// Appends octets. The error says that memory was refused.
#[inline(always)]
pub(crate) fn push_octets(text: &mut Explanation, octets: &[u8]) -> Result<(), AllocError>
    ensures { OnOk result (text.new ≡ text.old ++ octets.now) }
{
    let end = text.len + octets.len();
    make_room(&mut text.octets, end)?;
    text.octets[text.len..end].copy_from_slice(octets);
    text.len = end;
    Ok(())
}

/// Appends an octet. The error says that memory was refused.
#[inline(always)]
pub(crate) fn push_octet(text: &mut Explanation, octet: u8) -> Result<(), AllocError>
    ensures { OnOk result (text.new ≡ text.old ++ octet ∷ []) }
{
    make_room(&mut text.octets, text.len + 1)?;
    text.octets[text.len] = octet;
    text.len += 1;
    Ok(())
}

/// Appends a number in decimal. The error says that memory was refused.
#[inline(always)]
pub(crate) fn push_number(text: &mut Explanation, number: u64) -> Result<(), AllocError>
    ensures { OnOk result (text.new ≡ text.old ++ decimal number) }
{
    if number < 10 {
        return push_octet(text, b'0' + number as u8);
    }
    push_digits(text, number)
}

/// The same by room for all digits that there can be. Most numbers have one.
#[inline(never)]
fn push_digits(text: &mut Explanation, number: u64) -> Result<(), AllocError>
    ensures { OnOk result (text.new ≡ text.old ++ decimal number) }
{
    push_octets(text, Buffer::new().format(number).as_bytes())
}

/// A piece of what is told.
#[derive(Clone, Copy)]
pub(crate) enum Piece<'a> {
    /// Octets as they are.
    Octets(&'a [u8]),
    /// A number in decimal.
    Number(u64),
}

/// Appends a piece.
fn push_piece(text: &mut Explanation, piece: Piece<'_>) -> Result<(), AllocError>
    ensures { OnOk result (text.new ≡ text.old ++ piece_text piece.entry) }
{
    match piece {
        Piece::Octets(octets) => push_octets(text, octets),
        Piece::Number(number) => push_number(text, number),
    }
}

/// Appends pieces, one after the other.
pub(crate) fn push_all(text: &mut Explanation, pieces: &[Piece<'_>]) -> Result<(), AllocError>
    ensures { OnOk result (text.new ≡ text.old ++ flat_map piece_text pieces.now) }
{
    for piece in pieces {
        push_piece(text, *piece)?;
    }
    Ok(())
}
