//! What a served sign talks to.
ghost use Rattle.std.specs.Prelude.{◌≡◌, ◌<◌, ◌++◌, ◌∷◌, [], List, ℕ, Option, length};
ghost use Rattle.tool_streams.specs.Blocks.{ReadsMore};
ghost use Rattle.tool_streams.specs.Streams.{WritesWhole};
ghost use Rattle.sign_tool.specs.Talk.{Event, Hears, Says};

use std::io::{Read, Write};
use tool_streams::{BLOCK, Block, ToolFault, write_whole};

/// What a served sign reads from and writes to, in an order that is told (own).
pub trait Talk {
    // What may still be read, if it is known.
    ghost remaining: { Self → Option (List ℕ) };

    // What was written, if it is known.
    ghost contents: { Self → Option (List ℕ) };

    // What happened between two states, in order.
    ghost did: { Self → Self → List Event → Type 0 };

    // The ghost name of the reference by which it reads, if it holds one.
    ghost reads_by: { Self → ℕ };

    // The ghost name of the reference by which it writes, if it holds one.
    ghost writes_by: { Self → ℕ };

    /// Reads once, as much as the block has room for, and says how many octets were read: none only at the end. The error is `Read`.
    fn hear(&mut self, block: &mut Block) -> Result<usize, ToolFault>
        requires room { length block.old < 16384 }
        ensures reads { ReadsMore (remaining self.old) (remaining self.new) block.old block.new 16384 result }
        ensures kept { contents self.new ≡ contents self.old }
        ensures hears { Hears (did self.old self.new) block.old block.new result }
        ensures same { (reads_by self.new ≡ reads_by self.old) × (writes_by self.new ≡ writes_by self.old) };

    /// Writes all octets. After an `Err`, which is `Write`, a beginning of them was written.
    fn say(&mut self, octets: &[u8]) -> Result<(), ToolFault>
        ensures writes { WritesWhole (contents self.old) (contents self.new) octets.now result }
        ensures kept { remaining self.new ≡ remaining self.old }
        ensures says { Says (did self.old self.new) octets.now result }
        ensures same { (reads_by self.new ≡ reads_by self.old) × (writes_by self.new ≡ writes_by self.old) };

    // Nothing happens where nothing is done.
    ghost rests: { (s : Self) → did s s [] };

    // What happens goes on.
    ghost goes_on: { (a b c : Self) (first second : List Event) → did a b first → did b c second → did a c (first ++ second) };
}

/// A reader and a writer.
#[derive(Drop)]
pub(crate) struct Streams<'a, R, W> {
    pub(crate) reader: &'a mut R,
    pub(crate) writer: &'a mut W,
}

impl<'a, R: Read, W: Write> Talk for Streams<'a, R, W> {
    ghost use Rattle.sign_tool.specs.internal.Streams.{Did, did_nothing, did_both};

    ghost remaining = { λ s. R.remaining s.reader.now };

    ghost contents = { λ s. W.contents s.writer.now };

    ghost did = { λ a b events. Did (R.remaining a.reader.now) (R.remaining b.reader.now)
        (W.contents a.writer.now) (W.contents b.writer.now) events };

    ghost reads_by = { λ s. s.reader.ghost_name };

    ghost writes_by = { λ s. s.writer.ghost_name };

    ghost rests = { λ s. did_nothing (R.remaining s.reader.now) (W.contents s.writer.now) };

    ghost goes_on = { λ a b c first second. did_both (R.remaining a.reader.now) (R.remaining b.reader.now) (R.remaining c.reader.now)
        (W.contents a.writer.now) (W.contents b.writer.now) (W.contents c.writer.now) first second };

    fn hear(&mut self, block: &mut Block) -> Result<usize, ToolFault> {
        block.read_more(self.reader, BLOCK)
    }

    fn say(&mut self, octets: &[u8]) -> Result<(), ToolFault> {
        write_whole(self.writer, octets)
    }
}
