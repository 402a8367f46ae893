//! The drawing of a page into one plane: each area is read for the table of its lines, and then to put its cells.

ghost use Rattle.std.specs.Prelude.{◌≡◌, ℕ, ◌+◌, ◌-◌, ◌*◌, ◌≤◌};
ghost use Rattle.multi_layout.specs.Prelude.{RisesBetween, Full, Lights, picture, IsSized, IsFilledFew, IsPagePassed, IsPageStart, IsReadTwice, IsAreaDrawn, IsPageDrawn, next_steps, IsFilledBy, DrawsNext, IsNextDrawn};

use crate::cursor::{Cursor, read_item};
use crate::paint::{Layer, put_character};
use crate::read::{AreaLines, read_lines};
use multi_judge::{KnownItem, NextItem, Terms, is_full, place_at};
use multi_meaning::Place;
use multi_tag::{LineJust, Tag};
use multi_token::Source;
use page_plane::Plane;
use sign_font::LineFill;

/// Draws the page that begins at a cursor, with room for the lines of its areas, and goes past it. Each area is read, and then drawn.
pub(crate) fn draw_page(
    sign: &Terms<'_>,
    source: &mut Source<'_>,
    cursor: &mut Cursor,
    layer: Layer,
    read: &mut AreaLines,
    plane: &mut Plane,
)
    requires begins { IsPageStart sign.now source.old.octets cursor.old }
    requires size { IsSized plane.old sign.now }
    ensures drawn { Lights plane.new (picture sign.now source.old.octets (cursor.old.state.pages - 1) layer.phase layer.colour) }
    ensures passed { IsPagePassed sign.now source.old.octets cursor.old cursor.new }
    ensures size { (plane.new.width ≡ plane.old.width) × (plane.new.height ≡ plane.old.height) }
    ensures kept { source.new.octets ≡ source.old.octets }
    ensures steps { IsReadTwice source.old source.new cursor.old cursor.new }
    ensures fills { IsFilledFew sign.now plane.old plane.new cursor.old cursor.new }
{
    plane.fill(layer.has(sign, cursor.state.attributes.back));
    loop {
        draw_area(sign, source, cursor, layer, read, plane);
        let Some(next) = read.next else {
            return;
        };
        cursor.pass_tag(sign, source, next);
        if next.item.ends_page() {
            return;
        }
    }
}

/// Draws the area that begins at a cursor, and goes past its last item: it is read for its lines, and then once more to put its cells.
fn draw_area(
    sign: &Terms<'_>,
    source: &mut Source<'_>,
    cursor: &mut Cursor,
    layer: Layer,
    read: &mut AreaLines,
    plane: &mut Plane,
)
    requires begins { (page : ℕ) × IsPageDrawn sign.now source.old.octets layer page cursor.old plane.old }
    requires size { IsSized plane.old sign.now }
    ensures drawn { (page : ℕ) → IsPageDrawn sign.now source.old.octets layer page cursor.old plane.old
        → IsAreaDrawn sign.now source.old.octets layer page read.new cursor.new plane.new }
    ensures at { (cursor.new.at ≡ read.new.end) × (cursor.old.at ≤ cursor.new.at) }
    ensures steps { RisesBetween source.old source.new 0 (18 * (cursor.new.at - cursor.old.at) + 1 + next_steps read.new.next) }
    ensures fills { IsFilledBy sign.now plane.old plane.new (cursor.new.at - cursor.old.at) }
{
    let fill = sign.bare.line_fill();
    match fill {
        LineFill::Off => read_lines::<false>(sign, source, cursor, read),
        LineFill::Words => read_lines::<true>(sign, source, cursor, read),
    }
    let mut beside = None;
    while cursor.at < read.end {
        let Some(first) = source.read(cursor.at) else {
            // The area goes on.
            unreachable!();
        };
        let mut next = read_item(source, cursor.at, first);
        if let (LineFill::Words, KnownItem::Char(_)) = (fill, next.item) {
            let state = &cursor.state;
            let lines = read.lines.group(state.attributes.page_just);
            if is_full(&state.attributes, &state.area, lines) {
                // A space that is dropped is the end of its line.
                next.item = KnownItem::Tag(Tag::NewLine(None));
            }
        }
        beside = draw_item(sign, source, cursor, next, beside, read, layer, plane);
    }
}

/// Draws what the next item puts, and goes past it. A character stands beside the one before it, at the place given, or where its line
/// says if there is none. It gives the place beside this one, if that is known.
#[inline(always)]
fn draw_item(
    sign: &Terms<'_>,
    source: &mut Source<'_>,
    cursor: &mut Cursor,
    next: NextItem,
    beside: Option<Place>,
    read: &AreaLines,
    layer: Layer,
    plane: &mut Plane,
) -> Option<Place>
    requires known { (page : ℕ) × IsNextDrawn sign.now source.old.octets layer page read.now next beside cursor.old plane.old }
    requires size { IsSized plane.old sign.now }
    ensures drawn { DrawsNext sign.now source.old.octets layer read.now next beside result cursor.old cursor.new plane.old plane.new }
    ensures at { cursor.new.at ≡ cursor.old.at + next.len }
    ensures steps { RisesBetween source.old source.new 0 8 }
    ensures fills { IsFilledBy sign.now plane.old plane.new next.len }
{
    match next.item {
        KnownItem::Char(number) => {
            let state = &mut cursor.state;
            let Some(cell) = sign.bare.cell(source, state.attributes.font.number, number) else {
                // Each character of an accepted string has a cell.
                unreachable!();
            };
            let width = cell.width();
            let advance = u32::from(width) + u32::from(state.attributes.gap());
            cursor.at += next.len;
            let mut place = match beside {
                Some(place) => {
                    state.lengthen(advance, 1);
                    place
                }
                None => {
                    state.put_character(width);
                    let lines = read.lines.group(state.attributes.page_just);
                    place_at(&state.attributes, &state.area, lines, width)
                }
            };
            let attributes = &state.attributes;
            put_character(sign, attributes, &cell, place, layer, plane);
            if let LineJust::Full = attributes.line_just {
                return None;
            }
            place.column += u64::from(advance);
            Some(place)
        }
        KnownItem::Tag(tag) => {
            cursor.pass_tag(sign, source, next);
            if let Tag::Back(colour) = tag {
                let colour = colour.unwrap_or(sign.defaults.back);
                plane.fill(layer.has(sign, colour));
            }
            None
        }
    }
}
