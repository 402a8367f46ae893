//! What is seen of a text, drawn.
ghost use Rattle.std.specs.Prelude.{◌≡◌, IfOk};
ghost use Rattle.page_plane.specs.Plane.{is_lit};
ghost use Rattle.multi_meaning.specs.Meaning.{meanings};
ghost use Rattle.multi_meaning.specs.Picture.{pixel_at};
ghost use Rattle.page_picture.specs.Shown.{IsThere};
ghost use Rattle.latsefur_c.specs.Drawn.{HoldsPlane};

use multi_layout::{Checked, Shown};
use page_picture::show;
use page_plane::Plane;
use sign_font::Sign;
use std::alloc::{AllocError, Global};

/// The octets of a plane, row by row.
fn octets_of(alloc: Global, plane: &Plane) -> Result<Vec<u8>, AllocError>
    ensures { IfOk result (λ octets. HoldsPlane plane.now.width plane.now.height (is_lit plane.now) octets.items) }
{
    let mut octets = Vec::new(alloc);
    for row in 0..plane.height() {
        octets.extend_from_slice(plane.row(row))?;
    }
    Ok(octets)
}

/// The plane of a colour of what is seen of a text.
pub(crate) fn draw_plane(
    alloc: Global,
    sign: &Sign,
    checked: &mut Checked<'_>,
    shown: Shown,
    colour: u8,
) -> Result<Vec<u8>, AllocError>
    requires sign { checked.old.sign ≡ sign.now }
    requires there { IsThere checked.old.source.octets shown }
    ensures { IfOk result (λ octets. HoldsPlane sign.now.width sign.now.height
        (pixel_at sign.now (meanings checked.old.source.octets) shown colour) octets.items) }
{
    let Ok(mut plane) = Plane::new(alloc, sign.width(), sign.height()) else {
        return Err(AllocError);
    };
    show(checked, shown, colour, &mut plane);
    octets_of(alloc, &plane)
}
