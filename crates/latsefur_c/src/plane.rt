//! The plane of a colour of what the display shows.
ghost use Rattle.std.specs.Prelude.{◌≡◌};
ghost use Rattle.latsefur_c.specs.Framed.{DrawsFrame, WritesPlane};

use crate::buffer::write_at;
use crate::outcome::{DONE, TOO_SMALL};
use crate::shown::{LatsefurShown, told};
use page_plane::Plane;
use sign_control::Controller;

/// Writes the octets of a plane at the front of a buffer, if it has room for them. The number says whether it had.
pub(crate) fn write_plane(plane: &Plane, buffer: &mut [u8]) -> u8
    ensures { WritesPlane plane.now buffer.old buffer.new result }
{
    let len = (usize::from(plane.width()) + 7) / 8;
    let count = len * usize::from(plane.height());
    if buffer.len() < count {
        return TOO_SMALL;
    }
    for row in 0..plane.height() {
        write_at(buffer, len * usize::from(row), plane.row(row));
    }
    DONE
}

/// Draws the plane of a colour of what the display shows, and tells which page that is.
pub(crate) fn draw_frame(
    controller: &mut Controller,
    colour: u8,
    shown: &mut LatsefurShown,
    buffer: &mut [u8],
) -> u8
    ensures drawn { DrawsFrame controller.old colour shown.old shown.new buffer.old buffer.new result }
    ensures state { controller.new.state ≡ controller.old.state }
    ensures sign { controller.new.sign ≡ controller.old.sign }
    ensures revision { controller.new.revision ≡ controller.old.revision }
{
    let frame = controller.frame(colour);
    let outcome = write_plane(frame.plane, buffer);
    if outcome == DONE {
        *shown = told(frame.shown);
    }
    outcome
}
