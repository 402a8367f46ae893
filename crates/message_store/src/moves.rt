//! Moves of octets within memory.

ghost use Rattle.std.specs.Prelude.{◌≡◌, ◌+◌, ◌≤◌, length};
ghost use Rattle.std.specs.List.{copy_within};

/// The octets that are moved at once, at most: a longer `memmove` to the front can go octet by octet.
const PART: usize = 4096;

/// Copies a part to another place, which it may overlap.
///
/// It goes through an array that the compiler leaves out: both copies become one `memmove`, for speed.
fn move_part(memory: &mut [u8], from: usize, to: usize, len: usize)
    requires short { len ≤ 4096 }
    requires within { (from + len ≤ length memory.old) × (to + len ≤ length memory.old) }
    ensures { memory.new ≡ copy_within memory.old from (from + len) to }
{
    let mut part = [0; PART];
    part[..len].copy_from_slice(&memory[from..from + len]);
    memory[to..to + len].copy_from_slice(&part[..len]);
}

/// Copies octets to a place before theirs, or to theirs.
pub(crate) fn move_up(memory: &mut [u8], from: usize, to: usize, len: usize)
    requires before { to ≤ from }
    requires within { from + len ≤ length memory.old }
    ensures { memory.new ≡ copy_within memory.old from (from + len) to }
{
    let mut moved = 0;
    while len - moved > PART {
        move_part(memory, from + moved, to + moved, PART);
        moved += PART;
    }
    move_part(memory, from + moved, to + moved, len - moved);
}

/// Copies octets to a place after theirs, or to theirs.
pub(crate) fn move_back(memory: &mut [u8], from: usize, to: usize, len: usize)
    requires behind { from ≤ to }
    requires within { to + len ≤ length memory.old }
    ensures { memory.new ≡ copy_within memory.old from (from + len) to }
{
    let mut left = len;
    while left > PART {
        left -= PART;
        move_part(memory, from + left, to + left, PART);
    }
    move_part(memory, from, to, left);
}
