//! Items that begin with a bracket, each judged where it is read.

ghost use Rattle.std.specs.Prelude.{◌≡◌, ◌^◌, ◌<◌, ◌⊎◌, OnOk, IfSome, Some, length, slice_get};
ghost use Rattle.multi_layout.specs.Prelude.{AreWidthsOf, IsPassReady, JudgesAhead, JudgesBracketed, JudgesRead};

use crate::bracket::fault_of;
use multi_judge::{KnownItem, Pass, Terms};
use multi_meaning::SyntaxError;
use multi_tag::{Name, Tag, read_name, read_named};
use multi_token::Source;
use sign_font::FontCells;

/// Reads and judges the item that begins with this bracket at an offset, which was read: the number of octets that spell it.
///
/// The octet after the bracket is read, and for a tag at most 26 from there on, since no tag with a value has more. Only what has
/// none is read to its last bracket.
#[inline(always)]
pub(crate) fn judge_bracketed<'a, const WORDS: bool>(
    sign: &Terms<'a>,
    pass: &mut Pass,
    cells: &mut FontCells<'a>,
    source: &mut Source<'_>,
    at: usize,
    bracket: u8,
) -> Result<usize, SyntaxError>
    requires bracket { (bracket ≡ 91) ⊎ (bracket ≡ 93) }
    requires stands { slice_get source.old.octets at ≡ Some bracket }
    // whoever read the bracket knows this of the source
    requires room { length source.old.octets < 2 ^ 63 }
    requires ready { IsPassReady WORDS pass.old }
    ensures judged { JudgesBracketed WORDS sign.now source.old at pass.old result pass.new source.new }
    ensures cells { AreWidthsOf sign.now pass.old.state.attributes.font.number cells.old
        → OnOk result (AreWidthsOf sign.now pass.new.state.attributes.font.number cells.new) }
{
    if source.read(at + 1) == Some(bracket) {
        let item = KnownItem::Char(u16::from(bracket));
        return match pass.judge_item::<WORDS>(sign, cells, source, item) {
            Ok(_) => Ok(2),
            Err(error) => Err(error),
        };
    }
    if bracket == b']' {
        return Err(SyntaxError::UnsupportedTag);
    }
    match judge_ahead::<WORDS>(sign, pass, cells, source, at) {
        Some(Ok(len)) => Ok(len + 1),
        Some(Err(error)) => Err(error),
        None => Err(fault_of(source, at)),
    }
}

/// Reads and judges the tag that begins with the opening bracket at an offset: the number of octets after that bracket that spell it, or
/// `None` where none stands there that has a value.
///
/// Each name has a copy of what reads and judges its tags, so that one jump serves for both.
#[inline(always)]
fn judge_ahead<'a, const WORDS: bool>(
    sign: &Terms<'a>,
    pass: &mut Pass,
    cells: &mut FontCells<'a>,
    source: &mut Source<'_>,
    at: usize,
) -> Option<Result<usize, SyntaxError>>
    requires stands { slice_get source.old.octets at ≡ Some 91 }
    requires room { length source.old.octets < 2 ^ 63 }
    requires ready { IsPassReady WORDS pass.old }
    ensures judged { JudgesAhead WORDS sign.now source.old at pass.old result pass.new source.new }
    ensures cells { AreWidthsOf sign.now pass.old.state.attributes.font.number cells.old
        → IfSome result (λ judged. OnOk judged (AreWidthsOf sign.now pass.new.state.attributes.font.number cells.new)) }
{
    let octets = source.ahead(at + 1, 26);
    let (name, rest) = read_name(octets)?;
    match name {
        Name::NewPage => {
            let read = read_named(octets, rest, Name::NewPage);
            judge_read::<WORDS>(sign, pass, cells, source, read)
        }
        Name::NewLine => {
            let read = read_named(octets, rest, Name::NewLine);
            judge_read::<WORDS>(sign, pass, cells, source, read)
        }
        Name::LineJust => {
            let read = read_named(octets, rest, Name::LineJust);
            judge_read::<WORDS>(sign, pass, cells, source, read)
        }
        Name::PageJust => {
            let read = read_named(octets, rest, Name::PageJust);
            judge_read::<WORDS>(sign, pass, cells, source, read)
        }
        Name::Font => {
            let read = read_named(octets, rest, Name::Font);
            judge_read::<WORDS>(sign, pass, cells, source, read)
        }
        Name::CharSpacing => {
            let read = read_named(octets, rest, Name::CharSpacing);
            judge_read::<WORDS>(sign, pass, cells, source, read)
        }
        Name::CharSpacingEnd => {
            let read = read_named(octets, rest, Name::CharSpacingEnd);
            judge_read::<WORDS>(sign, pass, cells, source, read)
        }
        Name::PageTime => {
            let read = read_named(octets, rest, Name::PageTime);
            judge_read::<WORDS>(sign, pass, cells, source, read)
        }
        Name::Flash => {
            let read = read_named(octets, rest, Name::Flash);
            judge_read::<WORDS>(sign, pass, cells, source, read)
        }
        Name::FlashEnd => {
            let read = read_named(octets, rest, Name::FlashEnd);
            judge_read::<WORDS>(sign, pass, cells, source, read)
        }
        Name::Fore => {
            let read = read_named(octets, rest, Name::Fore);
            judge_read::<WORDS>(sign, pass, cells, source, read)
        }
        Name::Back => {
            let read = read_named(octets, rest, Name::Back);
            judge_read::<WORDS>(sign, pass, cells, source, read)
        }
        Name::Rect => {
            let read = read_named(octets, rest, Name::Rect);
            judge_read::<WORDS>(sign, pass, cells, source, read)
        }
        Name::HexChar => {
            let read = read_named(octets, rest, Name::HexChar);
            judge_read::<WORDS>(sign, pass, cells, source, read)
        }
    }
}

/// Judges a tag that was read, with the number of its octets, if there is one.
#[inline(always)]
fn judge_read<'a, const WORDS: bool>(
    sign: &Terms<'a>,
    pass: &mut Pass,
    cells: &mut FontCells<'a>,
    source: &mut Source<'_>,
    read: Option<(Tag, usize)>,
) -> Option<Result<usize, SyntaxError>>
    requires ready { IsPassReady WORDS pass.old }
    ensures judged { JudgesRead WORDS sign.now pass.old source.old read result pass.new source.new }
    ensures cells { AreWidthsOf sign.now pass.old.state.attributes.font.number cells.old
        → IfSome result (λ judged. OnOk judged (AreWidthsOf sign.now pass.new.state.attributes.font.number cells.new)) }
{
    let (tag, len) = read?;
    let judged = match tag {
        Tag::HexChar(number) => pass.judge_number::<WORDS>(sign, cells, source, number),
        tag => pass.pass_tag::<WORDS>(sign, cells, source, tag),
    };
    match judged {
        Ok(_) => Some(Ok(len)),
        Err(error) => Some(Err(error)),
    }
}
