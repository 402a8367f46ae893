//! Octets that are reached by counted reads alone.

ghost use Rattle.std.specs.Prelude.{◌≡◌, ℕ, ◌+◌, ◌-◌, ◌*◌, ◌^◌, ◌<◌, ◌≤◌, ◌⊎◌, IfNone, IfSome, length, min, slice_get, slice_index, slice_range, take, drop, None, option_map};
ghost use Rattle.std.specs.List.{All};
ghost use Rattle.multi_token.specs.Counted.{charged};
ghost use Rattle.multi_token.specs.Run.{IsLastSpace, IsRun, entry_of, look_steps, taken};
ghost use Rattle.multi_token.specs.Spelling.{IsPlain, is_bracket};
ghost use Rattle.multi_token.specs.Tokens.{IsEndedBy};

use crate::advances::Advances;
use std::marker::Model;

/// The octets of a string, and how many steps were taken over them (own).
///
/// A step is one read of one octet, also a read past the end, or a step that was taken elsewhere and charged here. At
/// `u64::MAX` the count stays as it is. A source can't be cloned, so no step is lost.
#[derive(Drop)]
pub struct Source<'a> {
    octets: &'a [u8],
    /// How many steps more can be counted. It goes down, since that stops at 0 by two instructions.
    left: u64,
}

/// An octet, with what a table has for it.
#[derive(Clone, Copy, Debug, PartialEq, Eq)]
pub struct Entry {
    pub octet: u8,
    /// What it takes of a room.
    pub advance: u16,
}

/// The longest front of octets that goes into a room.
#[derive(Clone, Copy, Debug, PartialEq, Eq)]
pub struct Run {
    /// The number of its octets.
    pub len: usize,
    /// What is taken with it.
    pub width: u32,
    /// The octet that ends it, or `None` at the end.
    pub next: Option<Entry>,
}

/// The last space of a run.
#[derive(Clone, Copy, Debug, PartialEq, Eq)]
pub struct Space {
    /// The number of the run's octets before it.
    pub at: usize,
    /// What these take, and what they take with the space.
    pub before: u32,
    pub through: u32,
}

impl<'a> Model for Source<'a> {
    ghost use Rattle.std.specs.Prelude.{◌-◌, ◌^◌};
    ghost use Rattle.multi_token.specs.Counted.{Counted};

    ghost Value = { Counted };

    ghost view = { λ s. record { octets = s.octets.now; steps = 2 ^ 64 - 1 - s.left } };
}

impl<'a> Source<'a> {
    ghost use Rattle.std.specs.Borrow.{sem};
    ghost use Rattle.std.specs.Io.BufRead.{Rests};
    ghost use Rattle.std.specs.Prelude.{[]};
    ghost use mir.Syntax.{named};
    ghost use Rattle.multi_token.specs.contracts.source.Source.{the_row};

    /// A source of these octets, with no step taken.
    pub fn new(octets: &'a [u8]) -> Source<'a>
        ensures { result ≡ record { octets = octets.now; steps = 0 } }
    {
        Source {
            octets,
            left: u64::MAX,
        }
    }

    /// The octet at an offset, or `None` at the end and past it. Either way this takes one step.
    pub fn read(&mut self, at: usize) -> Option<u8>
        ensures octet { result ≡ slice_get self.old.octets at }
        ensures step { self.new ≡ charged self.old 1 }
        // a slice is no longer than this
        ensures room { length self.old.octets < 2 ^ 63 }
    {
        // one step more, without a branch: reads are many
        self.left -= u64::from(self.left != 0);
        self.octets.get(at).copied()
    }

    /// The octets without brackets from an offset on, at most `most` of them, and the octet that ends them: a bracket, or
    /// `None` at the end. Each octet that is handed out takes one step, and so does the octet or the end that ends them.
    /// Where there are `most`, nothing after them is read, and the answer is `None`.
    pub(crate) fn read_plain(&mut self, from: usize, most: usize) -> (&'a [u8], Option<u8>)
        requires start { from ≤ length self.old.octets }
        ensures few { length result.0.now ≤ most }
        ensures within { from + length result.0.now ≤ length self.old.octets }
        ensures octets { result.0.now ≡ slice_range self.old.octets from (from + length result.0.now) }
        ensures plain { All IsPlain result.0.now }
        ensures ended { length result.0.now < most → IsEndedBy self.old.octets (from + length result.0.now) result.1
            × (self.new ≡ charged self.old (length result.0.now + 1)) }
        ensures whole { length result.0.now ≡ most → (result.1 ≡ None) × (self.new ≡ charged self.old most) }
        // a slice is no longer than this
        ensures room { length self.old.octets < 2 ^ 63 }
    {
        let behind = &self.octets[from..];
        let len = plain_front(behind, most);
        if len == most {
            self.charge(most as u64);
            return (&behind[..len], None);
        }
        self.charge(len as u64 + 1);
        (&behind[..len], behind.get(len).copied())
    }

    /// The octet at an offset, with what a table has for it, or `None` at the end. An octet takes two steps, a read and a look at
    /// the table; the end takes one.
    pub fn look(&mut self, at: usize, table: &Advances) -> Option<Entry>
        requires within { at ≤ length self.old.octets }
        ensures entry { result ≡ option_map (entry_of table.now) (slice_get self.old.octets at) }
        ensures steps { self.new ≡ charged self.old (look_steps (length self.old.octets) at) }
        // what is in a slice of octets
        ensures octets { (at : ℕ) → slice_index self.old.octets at < 2 ^ 8 }
        // a slice is no longer than this
        ensures space { length self.old.octets < 2 ^ 63 }
    {
        self.charge(1 + u64::from(at < self.octets.len()));
        entry_at(self.octets, at, table)
    }

    /// The longest front of the octets from an offset on that goes into a room: an octet takes a gap and its number in the table.
    /// Each octet of the front takes two steps, a read and a look at the table, and so does the octet that ends it; the end takes
    /// one. No octet is given but the one that ends the front.
    #[inline(always)]
    pub fn read_run(&mut self, from: usize, table: &Advances, gap: u32, room: u32) -> Run
        requires start { from ≤ length self.old.octets }
        requires small { gap + room < 2 ^ 31 }
        ensures run { IsRun table.now gap room (drop from self.old.octets) result.len }
        ensures width { result.width ≡ taken table.now gap (take result.len (drop from self.old.octets)) }
        ensures next { result.next ≡ option_map (entry_of table.now) (slice_get self.old.octets (from + result.len)) }
        ensures steps { self.new ≡ charged self.old (2 * result.len + look_steps (length self.old.octets) (from + result.len)) }
        // what is in a slice of octets
        ensures octets { (at : ℕ) → slice_index (drop from self.old.octets) at < 2 ^ 8 }
        // a slice is no longer than this
        ensures space { length self.old.octets < 2 ^ 63 }
    {
        let behind = &self.octets[from..];
        let (len, width) = run_front(behind, &table.of, gap, room);
        self.count_run(len, behind.len());
        run_at(behind, len, width, table)
    }

    /// The same, with the last space of the front, if it has one.
    pub fn read_words(
        &mut self,
        from: usize,
        table: &Advances,
        gap: u32,
        room: u32,
    ) -> (Run, Option<Space>)
        requires start { from ≤ length self.old.octets }
        requires small { gap + room < 2 ^ 31 }
        ensures run { IsRun table.now gap room (drop from self.old.octets) result.0.len }
        ensures width { result.0.width ≡ taken table.now gap (take result.0.len (drop from self.old.octets)) }
        ensures space { IsLastSpace table.now gap (take result.0.len (drop from self.old.octets)) result.1 }
        ensures next { result.0.next ≡ option_map (entry_of table.now) (slice_get self.old.octets (from + result.0.len)) }
        ensures steps { self.new ≡ charged self.old (2 * result.0.len + look_steps (length self.old.octets) (from + result.0.len)) }
        // what is in a slice of octets
        ensures octets { (at : ℕ) → slice_index (drop from self.old.octets) at < 2 ^ 8 }
        // a slice is no longer than this
        ensures short { length self.old.octets < 2 ^ 63 }
    {
        let behind = &self.octets[from..];
        let (len, width, space) = words_front(behind, &table.of, gap, room);
        self.count_run(len, behind.len());
        (run_at(behind, len, width, table), space)
    }

    /// Counts a run of so many octets, out of `most`, and what ends it.
    #[inline(always)]
    fn count_run(&mut self, len: usize, most: usize)
        requires within { len ≤ most }
        requires short { most < 2 ^ 63 }
        ensures { self.new ≡ charged self.old (2 * len + look_steps most len) }
    {
        self.charge(2 * len as u64 + 1 + u64::from(len < most));
    }

    /// The octets from an offset on, at most `most` of them: 26 serve for a tag. Each takes one step. They are lent, and gone before the
    /// source is used again.
    pub fn ahead(&mut self, from: usize, most: usize) -> &[u8]
        requires start { from ≤ length self.old.octets }
        // a few at a time, and no whole string
        requires few { most ≤ 26 }
        ensures octets { result.now ≡ take most (drop from self.old.octets) }
        // the source, once what it lends is given back
        ensures* steps { sem 𝓛 (Rests (the_row (record { mir = named 0; lft = [] })) self.entry
            (λ new. new ≡ charged self.old (length result.now))) }
        // a slice is no longer than this
        ensures space { length self.old.octets < 2 ^ 63 }
    {
        let len = (self.octets.len() - from).min(most);
        self.charge(len as u64);
        &self.octets[from..from + len]
    }

    /// The number of octets.
    pub fn len(&self) -> usize
        ensures { result ≡ length self.now.octets }
    {
        self.octets.len()
    }

    /// The number of steps so far. It never falls, and `u64::MAX` means that many or more.
    pub fn steps(&self) -> u64
        ensures { result ≡ self.now.steps }
    {
        u64::MAX - self.left
    }

    /// Adds `k` steps that were taken over this string elsewhere.
    pub fn charge(&mut self, k: u64)
        ensures { self.new ≡ charged self.old k }
    {
        self.left = self.left.saturating_sub(k);
    }
}

/// How many octets at the front are no brackets, at most `most`. Whoever calls this counts the octets that it looks at.
fn plain_front(octets: &[u8], most: usize) -> usize
    ensures within { result ≤ length octets.now }
    ensures few { result ≤ most }
    ensures plain { All IsPlain (take result octets.now) }
    ensures ended { result < most → IsEndedBy octets.now result (slice_get octets.now result) }
{
    let end = octets.len().min(most);
    let mut len = 0;
    // by four, each with a way out of its own, since tags at fault are long
    while end - len >= 4 {
        if is_bracket(octets[len]) {
            return len;
        }
        if is_bracket(octets[len + 1]) {
            return len + 1;
        }
        if is_bracket(octets[len + 2]) {
            return len + 2;
        }
        if is_bracket(octets[len + 3]) {
            return len + 3;
        }
        len += 4;
    }
    while len < end && !is_bracket(octets[len]) {
        len += 1;
    }
    len
}

/// The octet at a place, with what a table has for it. Whoever calls this counts the read and the look.
#[inline(always)]
fn entry_at(octets: &[u8], at: usize, table: &Advances) -> Option<Entry>
    ensures entry { result ≡ option_map (entry_of table.now) (slice_get octets.now at) }
    ensures octets { (at : ℕ) → slice_index octets.now at < 2 ^ 8 }
{
    let octet = *octets.get(at)?;
    let advance = table.of[usize::from(octet)];
    Some(Entry { octet, advance })
}

/// A run of so many octets, of this width, with what ends it. Whoever calls this counts the read and the look.
#[inline(always)]
fn run_at(octets: &[u8], len: usize, width: u32, table: &Advances) -> Run
    ensures { result ≡ record { len = len; width = width; next = option_map (entry_of table.now) (slice_get octets.now len) } }
{
    let next = entry_at(octets, len, table);
    Run { len, width, next }
}

/// What an octet leaves of what is left of a room, or `None` where that is too little for it.
#[inline(always)]
fn left_behind(octet: u8, table: &[u16; 256], gap: u32, left: u32) -> Option<u32>
    requires small { gap < 2 ^ 31 }
    ensures some { IfSome result (λ rest. rest + (gap + slice_index table.now octet) ≡ left) }
    ensures none { IfNone result (left < gap + slice_index table.now octet) }
{
    left.checked_sub(gap + u32::from(table[usize::from(octet)]))
}

/// The longest front that goes into a room, and what is taken with it. Whoever calls this counts the octets that it looks at.
#[inline(always)]
fn run_front(octets: &[u8], table: &[u16; 256], gap: u32, room: u32) -> (usize, u32)
    requires small { gap + room < 2 ^ 31 }
    ensures run { IsRun table.now gap room octets.now result.0 }
    ensures width { result.1 ≡ taken table.now gap (take result.0 octets.now) }
    ensures octets { (at : ℕ) → slice_index octets.now at < 2 ^ 8 }
{
    let mut len = 0;
    let mut left = room;
    // by four, each with a way out of its own, since runs are long
    while octets.len() - len >= 4 {
        let Some(one) = left_behind(octets[len], table, gap, left) else {
            return (len, room - left);
        };
        let Some(two) = left_behind(octets[len + 1], table, gap, one) else {
            return (len + 1, room - one);
        };
        let Some(three) = left_behind(octets[len + 2], table, gap, two) else {
            return (len + 2, room - two);
        };
        let Some(four) = left_behind(octets[len + 3], table, gap, three) else {
            return (len + 3, room - three);
        };
        left = four;
        len += 4;
    }
    while len < octets.len() {
        let Some(rest) = left_behind(octets[len], table, gap, left) else {
            return (len, room - left);
        };
        left = rest;
        len += 1;
    }
    (len, room - left)
}

/// The longest front that goes into a room, what is taken with it, and its last space. Whoever calls this counts the octets that it
/// looks at.
fn words_front(
    octets: &[u8],
    table: &[u16; 256],
    gap: u32,
    room: u32,
) -> (usize, u32, Option<Space>)
    requires small { gap + room < 2 ^ 31 }
    ensures run { IsRun table.now gap room octets.now result.0 }
    ensures width { result.1 ≡ taken table.now gap (take result.0 octets.now) }
    ensures space { IsLastSpace table.now gap (take result.0 octets.now) result.2 }
    ensures octets { (at : ℕ) → slice_index octets.now at < 2 ^ 8 }
{
    let mut len = 0;
    let mut left = room;
    let mut space = None;
    while len < octets.len() {
        let octet = octets[len];
        let advance = gap + u32::from(table[usize::from(octet)]);
        if left < advance {
            break;
        }
        if octet == b' ' {
            let before = room - left;
            space = Some(Space {
                at: len,
                before,
                through: before + advance,
            });
        }
        left -= advance;
        len += 1;
    }
    (len, room - left, space)
}

/// Whether an octet is a bracket.
#[inline(always)]
fn is_bracket(octet: u8) -> bool
    ensures { result ≡ is_bracket octet }
{
    // without a branch between the two: octets are many
    (octet == b'[') | (octet == b']')
}
