//! The colours of what is shown of a text.
ghost use Rattle.std.specs.Prelude.{◌≡◌, ◌*◌, ◌≤◌, IfOk, length};
ghost use Rattle.std.specs.List.{All};
ghost use Rattle.page_picture.specs.Shown.{IsThere, colours};

use crate::write::write_colours;
use multi_layout::{Checked, Shown};
use page_plane::Plane;
use sign_font::Sign;
use std::alloc::{AllocError, Global};

/// The colours of all pixels of what is shown of a string that this sign accepts, 0 to 9, an octet each, row by row from the top, and each
/// row from the left. In an off time all are 0. The error says that memory was refused.
pub fn draw_colours(
    alloc: Global,
    sign: &Sign,
    checked: &mut Checked<'_>,
    shown: Shown,
) -> Result<Vec<u8>, AllocError>
    requires sign { checked.old.sign ≡ sign.now }
    requires there { IsThere checked.old.source.octets shown }
    ensures colours { IfOk result (λ octets. octets.items ≡ colours sign.now checked.old.source.octets shown) }
    ensures range { IfOk result (λ octets. All (λ colour. colour ≤ 9) octets.items) }
    ensures count { IfOk result (λ octets. length octets.items ≡ sign.now.width * sign.now.height) }
    ensures kept { (checked.new.sign ≡ checked.old.sign) × (checked.new.source.octets ≡ checked.old.source.octets) }
{
    let Ok(mut plane) = Plane::new(alloc, sign.width(), sign.height()) else {
        return Err(AllocError);
    };
    let count = usize::from(sign.width()) * usize::from(sign.height());
    let mut octets = Vec::from_elem(alloc, 0u8, count)?;
    if !write_colours(checked, sign.classic(), shown, &mut plane, &mut octets) {
        // There is an octet for each pixel.
        unreachable!();
    }
    Ok(octets)
}
