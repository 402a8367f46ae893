//! Texts that stand one after the other in one pool of octets, which is reserved once.

ghost use Rattle.std.specs.Prelude.{◌≡◌, ◌+◌, ◌<◌, ◌≤◌, ◌^◌, ◌++◌, [], map, take, drop, length, replicate, slice_set, slice_index_or, IfOk};
ghost use Rattle.message_store.specs.internal.Pool.{ArePlaced, Pool, moved, register_behind, span_at, text_in, used};

use crate::crc::text_register;
use crate::places::{Places, Span};
use crate::reserved::Reserved;
use std::alloc::{AllocError, Global};
use std::marker::Model;

/// Texts, one after the other in one pool of octets (own). They stand in any order, and leave no gap.
#[derive(Drop)]
pub(crate) struct Texts {
    places: Places,
    pool: Reserved,
    /// The register of the CRC after each text, where it is kept.
    registers: Vec<Option<u16>>,
}

impl Model for Texts {
    ghost use Rattle.std.specs.Prelude.{map};
    ghost use Rattle.message_store.specs.internal.Pool.{AreTexts, Pool, text_in};

    ghost Value = { Pool };

    ghost view = { λ t. record { texts = map (text_in t.pool.octets) t.places; room = t.pool.room } };

    ghost invariant = { λ t. AreTexts t.places t.pool t.registers.items };
}

/// Takes a text out of the pool, and closes its gap.
fn take_out(places: &mut Places, pool: &mut Reserved, span: Span)
    requires within { span.start + span.len ≤ length pool.old.octets }
    requires narrow { length pool.old.octets < 2 ^ 32 }
    ensures places { places.new ≡ map (moved (span.start + span.len) span.len) places.old }
    ensures octets { pool.new.octets ≡ take span.start pool.old.octets ++ drop (span.start + span.len) pool.old.octets }
    ensures room { pool.new.room ≡ pool.old.room }
{
    if span.len == 0 {
        return;
    }
    places.move_up(span.start + span.len, span.len);
    pool.take_out(span.start, span.len);
}

/// Puts a text in after the others, and answers its place.
fn put_in(pool: &mut Reserved, text: &[u8]) -> Span
    requires room { length pool.old.octets + length text.now ≤ pool.old.room }
    ensures place { result ≡ record { start = length pool.old.octets; len = length text.now } }
    ensures octets { pool.new.octets ≡ pool.old.octets ++ text.now }
    ensures room { pool.new.room ≡ pool.old.room }
{
    let start = pool.len();
    pool.put_in(text);
    Span {
        start,
        len: text.len(),
    }
}

/// Replaces the text of an index.
fn replace_at(places: &mut Places, pool: &mut Reserved, index: usize, text: &[u8])
    requires index { index < length places.old }
    requires placed { ArePlaced places.old (length pool.old.octets) }
    requires held { (length pool.old.octets ≤ pool.old.room) × (pool.old.room < 2 ^ 32) }
    requires room { length pool.old.octets + length text.now ≤ pool.old.room + (span_at places.old index).len }
    ensures texts { map (text_in pool.new.octets) places.new ≡ slice_set (map (text_in pool.old.octets) places.old) index text.now }
    ensures placed { ArePlaced places.new (length pool.new.octets) }
    ensures count { length pool.new.octets + (span_at places.old index).len ≡ length pool.old.octets + length text.now }
    ensures room { pool.new.room ≡ pool.old.room }
{
    let span = places.get(index);
    if span.len == text.len() {
        pool.put_over(span.start, text);
        return;
    }
    take_out(places, pool, span);
    let span = put_in(pool, text);
    places.put(index, span);
}

impl Texts {
    /// This many empty texts, with room for this many octets.
    pub(crate) fn new(alloc: Global, count: usize, room: usize) -> Result<Texts, AllocError>
        requires { room < 2 ^ 32 }
        ensures { IfOk result (λ texts. texts ≡ record { texts = replicate count []; room = room }) }
    {
        Ok(Texts {
            places: Places::new(alloc, count)?,
            pool: Reserved::new(alloc, room)?,
            registers: Vec::from_elem(alloc, None, count)?,
        })
    }

    /// The octets of all texts together.
    pub(crate) fn used(&self) -> usize
        ensures used { result ≡ used self.now }
        ensures within { used self.now ≤ self.now.room }
    {
        self.pool.len()
    }

    /// The text of an index.
    pub(crate) fn get(&self, index: usize) -> &[u8]
        requires { index < length self.now.texts }
        ensures { result.now ≡ slice_index_or self.now.texts index [] }
    {
        let Span { start, len } = self.places.get(index);
        self.pool.part(start, len)
    }

    /// The register of the CRC after a text.
    pub(crate) fn register(&self, index: usize) -> u16
        requires { index < length self.now.texts }
        ensures { result ≡ register_behind (slice_index_or self.now.texts index []) }
    {
        match self.registers[index] {
            Some(register) => register,
            None => text_register(self.get(index)),
        }
    }

    /// Keeps the register of the CRC after a text until the text is replaced.
    pub(crate) fn keep_register(&mut self, index: usize)
        requires { index < length self.old.texts }
        ensures { self.new ≡ self.old }
    {
        let register = self.register(index);
        self.registers[index] = Some(register);
    }

    /// Makes every text empty.
    pub(crate) fn clear(&mut self)
        ensures { self.new ≡ record self.old { texts = replicate (length self.old.texts) [] } }
    {
        self.places.clear();
        self.pool.clear();
        self.registers.fill(None);
    }

    /// Replaces a text. Every other one is kept.
    pub(crate) fn replace(&mut self, index: usize, text: &[u8])
        requires index { index < length self.old.texts }
        requires room { used self.old + length text.now ≤ self.old.room + length (slice_index_or self.old.texts index []) }
        ensures { self.new ≡ record self.old { texts = slice_set self.old.texts index text.now } }
    {
        self.registers[index] = None;
        replace_at(&mut self.places, &mut self.pool, index, text);
    }
}
