//! The dot of a pixel.
ghost use Rattle.std.specs.Prelude.{◌≡◌, ◌+◌, ◌<◌, ◌≤◌};
ghost use Rattle.page_picture.specs.Dots.{is_in_dot, off_middle, point_of};

/// How far the middle of a point lies from that of its pixel, in halves of a point.
fn off_middle(side: u8, point: u8) -> u32
    ensures value { result ≡ off_middle side point }
    ensures range { result ≤ 511 }
{
    let side = u32::from(side);
    let middle = 2 * u32::from(point) + 1;
    if middle < side {
        side - middle
    } else {
        middle - side
    }
}

/// Whether a point of a pixel is in its dot.
#[tactic(auto, unfolding(crate::specs::Dots::is_in_dot))]
fn is_in_dot(side: u8, line: u8, point: u8) -> bool
    ensures { result ≡ is_in_dot side line point }
{
    let across = off_middle(side, point);
    let down = off_middle(side, line);
    let side = u32::from(side);
    side < 4 || 4 * (down * down + across * across) <= 3 * (side * side)
}

/// A point of a pixel of a colour, by its number in the palette.
pub(crate) fn point_of(side: u8, colour: u8, line: u8, point: u8) -> u8
    requires { colour < 15 }
    ensures number { result ≡ point_of side colour line point }
    ensures range { result ≤ colour + 1 }
{
    if is_in_dot(side, line, point) {
        colour + 1
    } else {
        0
    }
}
