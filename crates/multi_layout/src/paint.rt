//! What a plane shows of a page: the pixels of one colour at one phase.

ghost use Rattle.std.specs.Prelude.{◌≡◌, ◌==◌};
ghost use Rattle.multi_layout.specs.Prelude.{IsSound, IsSoundSize, is_lit_at, shown_colour, IsCountedBy, DrawsCharacter};

use multi_judge::{Attributes, Terms};
use multi_meaning::{FlashTimes, Place};
use page_plane::Plane;
use sign_font::Cell;

/// What is drawn: the plane of a colour, at a phase of its page in tenths of a second.
#[derive(Clone, Copy)]
pub(crate) struct Layer {
    pub(crate) phase: u64,
    pub(crate) colour: u8,
}

impl Layer {
    /// Whether the pixels that a thing of this colour covers are in the plane.
    pub(crate) fn has(&self, sign: &Terms<'_>, colour: u8) -> bool
        ensures colour { result ≡ (shown_colour sign.now colour == self.now.colour) }
        ensures sound { IsSound sign.now }
    {
        let classic = sign.bare.classic();
        let shown = if classic { colour } else { colour.min(1) };
        shown == self.colour
    }

    /// Whether a character with this flash is lit.
    pub(crate) fn is_lit(&self, flash: Option<FlashTimes>) -> bool
        ensures { result ≡ is_lit_at self.now.phase flash }
    {
        let Some(flash) = flash else {
            return true;
        };
        let (on, off) = (u64::from(flash.on), u64::from(flash.off));
        if on + off == 0 {
            return true;
        }
        let time = self.phase % (on + off);
        if flash.off_first {
            time >= off
        } else {
            time < on
        }
    }
}

/// Puts the cell of a character with these attributes at its place, if it is lit: where a bit of the cell is set the pixel becomes on or
/// off by the colour, and every other stays. What would lie beside the plane is cut off. It takes at most one step for each row.
pub(crate) fn put_character(
    sign: &Terms<'_>,
    attributes: &Attributes,
    cell: &Cell<'_>,
    place: Place,
    layer: Layer,
    plane: &mut Plane,
)
    requires size { IsSoundSize cell.now }
    ensures drawn { DrawsCharacter sign.now layer attributes.now cell.now place plane.old plane.new }
    ensures counted { IsCountedBy plane.old plane.new cell.now.height }
{
    if !layer.is_lit(attributes.flash) {
        return;
    }
    let on = layer.has(sign, attributes.fore);
    let (column, row) = (place.column, place.row);
    let (columns, rows) = (u64::from(plane.width()), u64::from(plane.height()));
    if column >= columns || row >= rows {
        return;
    }
    let width = u64::from(cell.width()).min(columns - column) as u8;
    let all = cell.rows();
    let height = all.len().min((rows - row) as usize);
    plane.put_rows(column as u16, row as u16, width, &all[..height], on);
}
