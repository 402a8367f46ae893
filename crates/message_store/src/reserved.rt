//! Octets in memory that is reserved once.

ghost use Rattle.std.specs.Prelude.{◌≡◌, ◌+◌, ◌-◌, ◌≤◌, ◌++◌, [], take, drop, length, IfOk};
ghost use Rattle.std.specs.Vec.{vec_capacity};
ghost use Rattle.message_store.specs.internal.Pool.{Reserve};

use crate::moves::{move_back, move_up};
use std::alloc::{AllocError, Global};
use std::marker::Model;

/// The octets of the longest text there is.
const LONGEST: usize = 4096;

/// Octets, one after the other in memory that is reserved once (own). They may begin anywhere in it, so that a gap can be
/// closed from its nearer end.
#[derive(Drop)]
pub(crate) struct Reserved {
    /// The octets from `front` on.
    memory: Vec<u8>,
    front: usize,
    room: usize,
}

impl Model for Reserved {
    ghost use Rattle.std.specs.Prelude.{◌≤◌, drop, length};
    ghost use Rattle.std.specs.Vec.{vec_capacity};
    ghost use Rattle.message_store.specs.internal.Pool.{Reserve};

    ghost Value = { Reserve };

    ghost view = { λ r. record { octets = drop r.front r.memory.items; room = r.room } };

    ghost invariant = { λ r. (r.front ≤ length r.memory.items) × (length r.memory.items ≤ r.room) × (r.room ≤ vec_capacity r.memory) };
}

/// Closes a gap of `len` octets, `start` octets after the front: what stands before it moves back.
fn close_from_front(memory: &mut Vec<u8>, front: usize, start: usize, len: usize)
    requires within { front + start + len ≤ length memory.old.items }
    ensures octets { drop (front + len) memory.new.items
        ≡ take start (drop front memory.old.items) ++ drop (start + len) (drop front memory.old.items) }
    ensures count { length memory.new.items ≡ length memory.old.items }
    ensures capacity { vec_capacity memory.new ≡ vec_capacity memory.old }
{
    move_back(memory.as_mut_slice(), front, front + len, start);
}

/// Takes out the `len` octets from `start` on. What stands after them moves up.
fn close_gap(octets: &mut Vec<u8>, start: usize, len: usize)
    requires within { start + len ≤ length octets.old.items }
    ensures items { octets.new.items ≡ take start octets.old.items ++ drop (start + len) octets.old.items }
    ensures capacity { vec_capacity octets.new ≡ vec_capacity octets.old }
{
    let behind = start + len;
    let count = octets.len() - behind;
    move_up(octets.as_mut_slice(), behind, start, count);
    octets.truncate(start + count);
}

/// Closes a gap of `len` octets, `start` octets after the front: what stands after it moves up.
fn close_from_back(memory: &mut Vec<u8>, front: usize, start: usize, len: usize)
    requires within { front + start + len ≤ length memory.old.items }
    ensures octets { drop front memory.new.items
        ≡ take start (drop front memory.old.items) ++ drop (start + len) (drop front memory.old.items) }
    ensures count { length memory.new.items + len ≡ length memory.old.items }
    ensures capacity { vec_capacity memory.new ≡ vec_capacity memory.old }
{
    close_gap(memory, front + start, len);
}

/// Moves the octets from `front` on to the beginning.
fn settle(memory: &mut Vec<u8>, front: usize)
    requires within { front ≤ length memory.old.items }
    ensures octets { memory.new.items ≡ drop front memory.old.items }
    ensures capacity { vec_capacity memory.new ≡ vec_capacity memory.old }
{
    let count = memory.len() - front;
    move_up(memory.as_mut_slice(), front, 0, count);
    memory.truncate(count);
}

/// Appends a text, within the memory that is there.
fn append(memory: &mut Vec<u8>, text: &[u8])
    requires room { length memory.old.items + length text.now ≤ vec_capacity memory.old }
    ensures octets { memory.new.items ≡ memory.old.items ++ text.now }
    ensures capacity { vec_capacity memory.old ≤ vec_capacity memory.new }
{
    let Ok(()) = memory.extend_from_slice(text) else {
        unreachable!();
    };
}

/// Appends a text to the octets from `front` on, and answers their front. They move if there is no room after them.
fn put_behind(memory: &mut Vec<u8>, front: usize, room: usize, text: &[u8]) -> usize
    requires front { front ≤ length memory.old.items }
    requires held { (length memory.old.items ≤ room) × (room ≤ vec_capacity memory.old) }
    requires room { length memory.old.items + length text.now ≤ room + front }
    ensures octets { drop result memory.new.items ≡ drop front memory.old.items ++ text.now }
    ensures front { result ≤ length memory.new.items }
    ensures held { (length memory.new.items ≤ room) × (room ≤ vec_capacity memory.new) }
{
    if room - memory.len() < text.len() {
        settle(memory, front);
        append(memory, text);
        0
    } else {
        append(memory, text);
        front
    }
}

impl Reserved {
    /// No octets, with room for this many.
    pub(crate) fn new(alloc: Global, room: usize) -> Result<Reserved, AllocError>
        ensures { IfOk result (λ reserved. reserved ≡ record { octets = []; room = room }) }
    {
        Ok(Reserved {
            memory: Vec::with_capacity(alloc, room)?,
            front: 0,
            room,
        })
    }

    /// How many octets there are.
    pub(crate) fn len(&self) -> usize
        ensures { result ≡ length self.now.octets }
    {
        self.memory.len() - self.front
    }

    /// The `len` octets from `start` on.
    pub(crate) fn part(&self, start: usize, len: usize) -> &[u8]
        requires { start + len ≤ length self.now.octets }
        ensures { result.now ≡ take len (drop start self.now.octets) }
    {
        let from = self.front + start;
        &self.memory[from..from + len]
    }

    /// Takes out all octets.
    pub(crate) fn clear(&mut self)
        ensures { self.new ≡ record self.old { octets = [] } }
    {
        self.memory.clear();
        self.front = 0;
    }

    /// Puts a text where another of the same length stood from `start` on.
    pub(crate) fn put_over(&mut self, start: usize, text: &[u8])
        requires { start + length text.now ≤ length self.old.octets }
        ensures { self.new ≡ record self.old {
          octets = take start self.old.octets ++ (text.now ++ drop (start + length text.now) self.old.octets);
        } }
    {
        let from = self.front + start;
        self.memory
            .slice_mut(from..from + text.len())
            .copy_from_slice(text);
    }

    /// Takes out the `len` octets from `start` on, and closes the gap.
    ///
    /// It is closed from the front if less stands there, and if the longest text still fits after the others afterwards.
    pub(crate) fn take_out(&mut self, start: usize, len: usize)
        requires { start + len ≤ length self.old.octets }
        ensures { self.new ≡ record self.old { octets = take start self.old.octets ++ drop (start + len) self.old.octets } }
    {
        let behind = self.memory.len() - (self.front + start + len);
        if start < behind && LONGEST <= self.room - self.memory.len() {
            close_from_front(&mut self.memory, self.front, start, len);
            self.front += len;
        } else {
            close_from_back(&mut self.memory, self.front, start, len);
        }
    }

    /// Puts a text in after the others.
    pub(crate) fn put_in(&mut self, text: &[u8])
        requires { length self.old.octets + length text.now ≤ self.old.room }
        ensures { self.new ≡ record self.old { octets = self.old.octets ++ text.now } }
    {
        self.front = put_behind(&mut self.memory, self.front, self.room, text);
    }
}
