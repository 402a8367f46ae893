//! The pixels of one colour of what is shown of a text.

ghost use Rattle.std.specs.Prelude.{◌≡◌, ◌+◌, ◌*◌, ◌≤◌, length};
ghost use Rattle.multi_token.specs.Counted.{RisesBetween};
ghost use Rattle.multi_meaning.specs.Picture.{Lights, pixel_at};
ghost use Rattle.multi_meaning.specs.Meaning.{meanings};
ghost use Rattle.multi_layout.specs.Limits.{plane_limit, reading_limit};
ghost use Rattle.multi_layout.specs.Pages.{IsSized};
ghost use Rattle.page_picture.specs.Painted.{TakesSteps};
ghost use Rattle.page_picture.specs.Shown.{IsThere};

use multi_layout::{Checked, Shown};
use page_plane::Plane;

/// Draws what is shown of a string, as [`Checked::locate`] tells it of a clock: a plane gets the pixels that have a colour, 0 to 255. In
/// an off time all have colour 0.
///
/// The plane must have the sign's size, and what is shown must be a page of the string or an off time. This takes no memory, and at most
/// the steps of [`Checked::draw`], over the string and over the plane.
pub fn show(checked: &mut Checked<'_>, shown: Shown, colour: u8, plane: &mut Plane)
    requires size { IsSized plane.old checked.old.sign }
    requires there { IsThere checked.old.source.octets shown }
    ensures drawn { Lights plane.new (pixel_at checked.old.sign (meanings checked.old.source.octets) shown colour) }
    ensures kept { checked.new.sign ≡ checked.old.sign }
    ensures size { (plane.new.width ≡ plane.old.width) × (plane.new.height ≡ plane.old.height) }
    ensures steps { RisesBetween checked.old.source checked.new.source 0 (reading_limit (length checked.old.source.octets)) }
    ensures plane_steps { TakesSteps plane.old plane.new (plane_limit checked.old.sign (length checked.old.source.octets)) }
{
    match shown {
        Shown::Page { page, phase } => {
            checked.draw(page, phase, colour, plane);
        }
        Shown::Off => plane.fill(colour == 0),
    }
}
