//! The octets of an input that were read and aren't answered yet.
ghost use Rattle.std.specs.Prelude.{◌≡◌, ◌^◌, ◌<◌, ◌≤◌, [], length, take, drop};
ghost use Rattle.tool_streams.specs.Blocks.{ReadsMore};

use crate::fault::ToolFault;
use std::io::Read;
use std::marker::Model;

/// How many octets a block has room for (own). A line that fills it is too long.
pub const BLOCK: usize = 16_384;

/// The octets of an input that were read and aren't answered yet (own). It asks for no memory.
#[derive(Drop)]
pub struct Block {
    octets: [u8; BLOCK],
    /// Where the octets begin that aren't answered yet.
    start: usize,
    /// Where they end.
    end: usize,
}

impl Model for Block {
    ghost use Rattle.std.specs.Prelude.{ℕ, List, slice_range, ◌≤◌};

    ghost Value = { List ℕ };

    ghost view = { λ b. slice_range b.octets b.start b.end };

    ghost invariant = { λ b. (b.start ≤ b.end) × (b.end ≤ 16384) };
}

impl Block {
    /// With no octets.
    pub fn new() -> Block
        ensures { result ≡ [] }
    {
        Block {
            octets: [0; BLOCK],
            start: 0,
            end: 0,
        }
    }

    /// How many octets wait.
    pub fn len(&self) -> usize
        ensures value { result ≡ length self.now }
        ensures bound { result ≤ 16384 }
    {
        self.end - self.start
    }

    /// All octets that wait.
    pub fn all(&self) -> &[u8]
        ensures { result.now ≡ self.now }
    {
        &self.octets[self.start..self.end]
    }

    /// The first octets that wait, at most `most`.
    pub fn first(&self, most: usize) -> &[u8]
        ensures { result.now ≡ take most self.now }
    {
        let all = &self.octets[..];
        &all[self.start..self.end.min(self.start.saturating_add(most))]
    }

    /// Passes over the first octets, which are answered.
    pub fn pass(&mut self, count: usize)
        requires { count ≤ length self.old }
        ensures { self.new ≡ drop count self.old }
    {
        self.start += count;
    }

    /// Reads once, at most `most` octets, and says how many were read: none only at the end. The error is `Read`.
    pub fn read_more<R: Read>(&mut self, reader: &mut R, most: usize) -> Result<usize, ToolFault>
        requires most { (0 < most) × (most ≤ 2 ^ 32) }
        requires room { length self.old < 16384 }
        ensures reads { ReadsMore (R.remaining reader.old) (R.remaining reader.new) self.old self.new most result }
    {
        if self.end == BLOCK {
            // There is no room after the octets that wait, so they move to the front.
            self.octets.copy_within(self.start.., 0);
            self.end -= self.start;
            self.start = 0;
        }
        let end = BLOCK.min(self.end + most);
        match reader.read(&mut self.octets[self.end..end]) {
            Ok(count) => {
                self.end += count;
                Ok(count)
            }
            Err(_) => Err(ToolFault::Read),
        }
    }
}
