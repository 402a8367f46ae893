//! The verdict on a string, in one reading from the left with running sums.

ghost use Rattle.std.specs.Prelude.{◌≡◌, ◌+◌, ◌-◌, ◌≤◌, ◌==◌, if◌then◌else◌, length, IfSome, IfNone, OnOk, Some, None, [], ◌∷◌, ◌++◌, ◌^◌};
ghost use Rattle.multi_judge.specs.Prelude.{charged, AreWidthsOf, Does, looks, JudgesTag, IsLimited, IsReady, IsSmall, Judges, is_inside, rectangle};

use crate::area::Area;
use crate::state::State;
use crate::terms::Terms;
use multi_meaning::{Rectangle, SyntaxError};
use multi_tag::{FontPick, Tag};
use multi_token::Source;
use sign_font::FontCells;

/// Judges what a tag says, and goes on with the cells of the font in force.
#[inline(always)]
pub fn judge_tag<'a>(
    sign: &Terms<'a>,
    state: &mut State,
    cells: &mut FontCells<'a>,
    source: &mut Source<'_>,
    tag: Tag,
) -> Result<(), SyntaxError>
    requires ready { IsReady state.old }
    ensures judged { JudgesTag sign.now state.old (Does tag) result state.new }
    ensures limited { IsLimited state.old → IsLimited state.new }
    ensures cells { AreWidthsOf sign.now state.old.attributes.font.number cells.old
        → OnOk result (AreWidthsOf sign.now state.new.attributes.font.number cells.new) }
    ensures steps { source.new ≡ charged source.old (looks (Does tag)) }
{
    match tag {
        Tag::NewPage => {
            if state.pages >= sign.bare.max_pages() {
                return Err(SyntaxError::TooManyPages);
            }
            state.pages += 1;
            state.cycle += u32::from(state.attributes.on) + u32::from(state.attributes.off);
            // a new page has the whole sign
            state.attributes.rectangle = sign.start.rectangle;
            state.area = Area::default();
            Ok(())
        }
        Tag::NewLine(gap) => {
            if !state.put_break(gap) {
                return Err(SyntaxError::TagConflict);
            }
            if state.area.group.closed <= state.limits.height {
                Ok(())
            } else {
                Err(SyntaxError::TextTooBig)
            }
        }
        Tag::Font(pick) => judge_font(sign, state, cells, source, pick),
        Tag::Rect { x, y, w, h } => {
            let Some(inside) = rectangle(sign, x, y, w, h) else {
                return Err(SyntaxError::UnsupportedTagValue);
            };
            state.attributes.rectangle = inside;
            state.area = Area::default();
            Ok(())
        }
        _ => {
            state.attributes.set(sign, tag);
            Ok(())
        }
    }
}

/// Judges a font that a tag asks for, and the version that it must have; without a number it is the default.
fn judge_font<'a>(
    sign: &Terms<'a>,
    state: &mut State,
    cells: &mut FontCells<'a>,
    source: &mut Source<'_>,
    pick: Option<FontPick>,
) -> Result<(), SyntaxError>
    ensures judged { Judges sign.now state.old (Does (Tag.Font pick)) result state.new }
    ensures limited { IsLimited state.old → IsLimited state.new }
    ensures cells { AreWidthsOf sign.now state.old.attributes.font.number cells.old
        → OnOk result (AreWidthsOf sign.now state.new.attributes.font.number cells.new) }
    ensures steps { source.new ≡ charged source.old (looks (Does (Tag.Font pick))) }
{
    let Some(pick) = pick else {
        state.attributes.font = sign.font;
        *cells = sign.cells.same();
        return Ok(());
    };
    let Some(found) = sign.bare.cells(source, pick.number) else {
        return Err(SyntaxError::FontNotDefined);
    };
    let font = found.info();
    if pick.version.unwrap_or(font.version) != font.version {
        return Err(SyntaxError::FontVersionId);
    }
    state.attributes.font = font;
    *cells = found;
    Ok(())
}

/// The rectangle of a tag, whose upper left pixel is counted from 1, if it is inside the sign.
fn rectangle(sign: &Terms<'_>, x: u32, y: u32, w: u32, h: u32) -> Option<Rectangle>
    ensures inside { result ≡ if is_inside sign.now x y w h then Some (rectangle sign.now x y w h) else None }
    ensures small { IfSome result IsSmall }
{
    let (left, width) = part_of(sign.bare.width(), x, w)?;
    let (top, height) = part_of(sign.bare.height(), y, h)?;
    Some(Rectangle {
        left,
        top,
        width,
        height,
    })
}

/// A part of the sign's width or height, which begins at a pixel counted from 1: its first pixel, counted from
/// 0, and its pixels; a length of 0 reaches to the end. None where the part isn't inside.
fn part_of(whole: u16, from: u32, length: u32) -> Option<(u16, u16)>
    ensures inside { IfSome result (λ part. (1 ≤ from) × (from ≤ whole) × (from - 1 + length ≤ whole) × (part.0 ≡ from - 1)
        × (part.1 ≡ (if length == 0 then whole - (from - 1) else length))) }
    ensures outside { IfNone result (1 ≤ from → from ≤ whole → from - 1 + length ≤ whole → ⊥) }
{
    let first = u64::from(from).checked_sub(1)?;
    let rest = u64::from(whole).saturating_sub(first);
    if rest == 0 || u64::from(length) > rest {
        return None;
    }
    let length = if length == 0 { rest } else { u64::from(length) };
    Some((first as u16, length as u16))
}
