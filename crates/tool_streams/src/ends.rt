//! Where a line ends among octets.
ghost use Rattle.std.specs.Prelude.{◌≤◌, length, take};
ghost use Rattle.tool_streams.specs.Blocks.{IsLineEnd};
ghost use Rattle.tool_streams.specs.Lines.{IsOneLine};

use memchr::memchr_iter;

/// Where the first line feed is, if there is one. The first `seen` octets have none.
#[inline(always)]
pub fn line_end(octets: &[u8], seen: usize) -> Option<usize>
    requires seen { seen ≤ length octets.now }
    requires none { IsOneLine (take seen octets.now) }
    ensures { IsLineEnd octets.now result }
{
    // Most lines are short, and an iterator looks near first.
    match memchr_iter(b'\n', &octets[seen..]).next() {
        Some(end) => Some(seen + end),
        None => None,
    }
}
