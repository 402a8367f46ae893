//! The lines of a sign file.

ghost use Rattle.std.specs.Prelude.{◌≡◌};
ghost use Rattle.sign_report.specs.Lines.{has_file_lines, may_stand};

use tool_streams::{MAX_LINE, is_mark, text_of};

/// Whether a line may stand in a sign file before a mark.
fn may_stand(line: &[u8]) -> bool
    ensures { result ≡ may_stand line.now }
{
    !is_mark(line) && text_of(line).len() <= MAX_LINE
}

/// Whether each line of a file may stand in it before a mark.
#[tactic(auto, unfolding(crate::specs::Lines::has_file_lines))]
pub(crate) fn has_file_lines(octets: &[u8]) -> bool
    ensures { result ≡ has_file_lines octets.now }
{
    octets
        .split(|octet| *octet == b'\n')
        .all(|line| may_stand(line))
}
