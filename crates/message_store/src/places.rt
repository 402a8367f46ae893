//! Where texts stand among octets.

ghost use Rattle.std.specs.Prelude.{◌≡◌, ◌<◌, ◌≤◌, ◌^◌, map, length, replicate, slice_set, IfOk};
ghost use Rattle.message_store.specs.internal.Pool.{moved, moved_start, no_span, span_at};

use std::alloc::{AllocError, Global};
use std::marker::Model;

/// Where a text stands: its first octet, counted from 0, and how many octets it has.
#[derive(Clone, Copy)]
pub(crate) struct Span {
    pub(crate) start: usize,
    pub(crate) len: usize,
}

/// Where texts stand. The beginnings are kept apart, in 32 bits each, since all of them may move at once.
#[derive(Drop)]
pub(crate) struct Places {
    starts: Vec<u32>,
    lens: Vec<u32>,
}

impl Model for Places {
    ghost use Rattle.std.specs.Prelude.{◌≡◌, List, length};
    ghost use Rattle.message_store.specs.declared.places.Span.{Span};
    ghost use Rattle.message_store.specs.internal.Pool.{spans_of};

    ghost Value = { List Span };

    ghost view = { λ p. spans_of p.starts.items p.lens.items };

    ghost invariant = { λ p. length p.lens.items ≡ length p.starts.items };
}

/// Where a text begins once a gap of `len` octets before `end` is closed.
fn moved_start(end: u32, len: u32, start: u32) -> u32
    requires { len ≤ end }
    ensures { result ≡ moved_start end len start }
{
    if end <= start { start - len } else { start }
}

/// Moves the beginnings of texts where a gap of `len` octets before `end` was closed.
fn move_starts(starts: &mut [u32], end: u32, len: u32)
    requires { len ≤ end }
    ensures { starts.new ≡ map (moved_start end len) starts.old }
{
    for index in 0..starts.len() {
        starts[index] = moved_start(end, len, starts[index]);
    }
}

impl Places {
    /// The places of this many empty texts.
    pub(crate) fn new(alloc: Global, count: usize) -> Result<Places, AllocError>
        ensures { IfOk result (λ places. places ≡ replicate count no_span) }
    {
        Ok(Places {
            starts: Vec::from_elem(alloc, 0, count)?,
            lens: Vec::from_elem(alloc, 0, count)?,
        })
    }

    /// The place of a text.
    pub(crate) fn get(&self, index: usize) -> Span
        requires { index < length self.now }
        ensures { result ≡ span_at self.now index }
    {
        Span {
            start: self.starts[index] as usize,
            len: self.lens[index] as usize,
        }
    }

    /// Replaces the place of a text.
    pub(crate) fn put(&mut self, index: usize, span: Span)
        requires index { index < length self.old }
        requires start { span.start < 2 ^ 32 }
        requires len { span.len < 2 ^ 32 }
        ensures { self.new ≡ slice_set self.old index span }
    {
        self.starts[index] = span.start as u32;
        self.lens[index] = span.len as u32;
    }

    /// Moves what stands after a gap of `len` octets before `end` that was closed.
    pub(crate) fn move_up(&mut self, end: usize, len: usize)
        requires gap { len ≤ end }
        requires end { end < 2 ^ 32 }
        ensures { self.new ≡ map (moved end len) self.old }
    {
        move_starts(&mut self.starts, end as u32, len as u32);
    }

    /// Makes every text empty.
    pub(crate) fn clear(&mut self)
        ensures { self.new ≡ replicate (length self.old) no_span }
    {
        self.starts.fill(0);
        self.lens.fill(0);
    }
}
