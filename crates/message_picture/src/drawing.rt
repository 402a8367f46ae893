//! One picture of a sign, as a file in PNG.
ghost use Rattle.std.specs.Prelude.{◌≡◌, ◌*◌, ◌≤◌, IfOk, Some};
ghost use Rattle.page_picture.specs.Palette.{palette};
ghost use Rattle.png.specs.Reader.{picture_of};
ghost use Rattle.message_film.specs.Looks.{AreColours, points_of};

use page_picture::{dot_points, palette_of};
use png::png_file;
use std::alloc::{AllocError, Global};

/// The colours of all pixels, 0 to 9, row by row, as a file in PNG, with `side` by `side` points for each pixel.
pub(crate) fn drawing_of(
    alloc: Global,
    side: u8,
    width: u16,
    height: u16,
    classic: bool,
    colours: &[u8],
) -> Result<Vec<u8>, AllocError>
    requires side { (1 ≤ side) × (side ≤ 16) }
    requires width { (1 ≤ width) × (width ≤ 1024) }
    requires height { (1 ≤ height) × (height ≤ 128) }
    requires colours { AreColours width height colours.now }
    ensures { IfOk result (λ file. picture_of file.items ≡ Some (record {
      width = side * width;
      height = side * height;
      palette = palette classic;
      pixels = points_of side width height colours.now;
    })) }
{
    let points = dot_points(alloc, colours, width, height, side)?;
    let palette = palette_of(alloc, classic)?;
    let scale = u16::from(side);
    let file = png_file(alloc, scale * width, scale * height, &palette, &points)?;
    Ok(file)
}
