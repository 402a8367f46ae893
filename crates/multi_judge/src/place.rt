//! Where each character of an accepted string stands (NTCIP 1203 v03, MULTI tags 'jl' and 'jp').

ghost use Rattle.std.specs.Prelude.{◌≡◌, ℕ, ◌+◌, ◌-◌, ◌^◌, ◌<◌, ◌≤◌, ◌==◌, if◌then◌else◌, length, [], ◌∷◌, ◌++◌, Some, slice_get};
ghost use Rattle.multi_judge.specs.Prelude.{start, spread, CountedLine, PlacesCharacter, TellsEnd};

use crate::area::Area;
use crate::attributes::Attributes;
use crate::table::CountedLine;
use multi_meaning::{Place, Rectangle};

/// Where a character with these attributes in force stands whose cell has this width in pixels, the last item of its area so far;
/// `lines` are the counted lines of its group.
pub fn place_at(attributes: &Attributes, area: &Area, lines: &[CountedLine], width: u8) -> Place
    ensures place { PlacesCharacter attributes.now area.now lines.now width result }
    ensures low { (result.column < 2 ^ 33) × (result.row < 2 ^ 33) }
{
    let just = attributes.line_just.number();
    let Rectangle { top, height, .. } = attributes.rectangle;
    let line = line_at(lines, area.group.ended);
    let part = &area.group.line.part;
    let size = line.width(just);
    let spare = attributes.rectangle.width.saturating_sub(size);
    // the part so far is no wider than the whole, nor has it more characters
    let before = (part.count.min(u64::from(line.characters)) as u16).saturating_sub(1);
    let right = u64::from(part.width.min(u32::from(size)));
    let bottom = lines.last().copied().unwrap_or_default().bottom;
    Place {
        column: u64::from(attributes.rectangle.left)
            + u64::from(start(just, attributes.rectangle.width, size))
            + right.saturating_sub(u64::from(width))
            + u64::from(moved(just, before, line.characters, spare)),
        row: u64::from(top)
            + u64::from(start(attributes.page_just.number(), height, bottom))
            + u64::from(line.bottom).saturating_sub(u64::from(attributes.font.height)),
    }
}

/// Whether the present line of the group in force has all its characters, so that one more piece ends it; `lines` are the counted
/// lines of the group.
pub fn is_full(attributes: &Attributes, area: &Area, lines: &[CountedLine]) -> bool
    ensures full { TellsEnd attributes.now area.now lines.now result }
{
    let just = attributes.line_just.number();
    let group = area.group_for(attributes.page_just);
    let line = line_at(lines, group.ended);
    group.line.width(just) == u32::from(line.width(just))
}

/// The counted line after so many ended ones.
fn line_at(lines: &[CountedLine], ended: u64) -> CountedLine
    ensures line { (line : CountedLine) → slice_get lines.now ended ≡ Some line → result ≡ line }
{
    lines.get(ended as usize).copied().unwrap_or_default()
}

/// Where a part of this size begins within a length, in pixels.
fn start(just: u8, length: u16, size: u16) -> u16
    ensures place { result ≡ start just length size }
{
    let spare = length.saturating_sub(size);
    match just {
        3 => spare / 2,
        4 => spare,
        _ => 0,
    }
}

/// How far a character with so many before it moves right on a line of so many characters, in pixels: on a full
/// line the spare pixels are spread.
fn moved(just: u8, before: u16, characters: u16, spare: u16) -> u32
    ensures pixels { result ≡ if just == 5 then spread before characters spare else 0 }
{
    if just != 5 || characters <= 1 {
        return 0;
    }
    u32::from(before) * u32::from(spare) / u32::from(characters - 1)
}
