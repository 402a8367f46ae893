//! Items that begin with a bracket, each read once.

ghost use Rattle.std.specs.Prelude.{◌≡◌, ◌≢◌, ℕ, ◌+◌, ◌-◌, ◌^◌, ◌<◌, ◌⊎◌, min, IfOk, IfErr, Some, length, slice_get};
ghost use Rattle.multi_layout.specs.Prelude.{charged, is_bracket, HasNoTagAt, code_of, IsFaultRead, IsBracketedRead, meant_by};

use multi_judge::{KnownItem, NextItem};
use multi_meaning::SyntaxError;
use multi_tag::{Tag, TagFault, read_ahead, read_fault};
use multi_token::{Bracketed, Kind, Source, Token, read_bracket};

/// Whether an octet is a bracket.
pub(crate) fn is_bracket(octet: u8) -> bool
    ensures { result ≡ is_bracket octet }
{
    (octet == b'[') | (octet == b']')
}

/// The item that begins with this bracket at an offset, which was read, or the error of a bracket with which none begins and of a
/// tag that has no value.
///
/// The octet after the bracket is read, and for a tag at most 26 from there on, since no tag with a value has more. Only what has
/// none is read to its last bracket.
#[inline(always)]
pub(crate) fn read_spelled(
    source: &mut Source<'_>,
    at: usize,
    bracket: u8,
) -> Result<NextItem, SyntaxError>
    requires bracket { (bracket ≡ 91) ⊎ (bracket ≡ 93) }
    requires stands { slice_get source.old.octets at ≡ Some bracket }
    // whoever read the bracket knows this of the source
    requires room { length source.old.octets < 2 ^ 63 }
    ensures item { IfOk result (λ spelled. (steps : ℕ) × (source.new ≡ charged source.old steps)
        × IsBracketedRead source.old.octets at spelled.len (meant_by spelled.item) steps) }
    ensures fault { IfErr result (λ error. (steps : ℕ) × (source.new ≡ charged source.old steps)
        × IsFaultRead source.old.octets at (code_of error) steps) }
{
    if source.read(at + 1) == Some(bracket) {
        let item = KnownItem::Char(u16::from(bracket));
        return Ok(NextItem { item, len: 2 });
    }
    if bracket == b']' {
        return Err(SyntaxError::UnsupportedTag);
    }
    let Some((tag, len)) = read_ahead(source, at) else {
        return Err(fault_of(source, at));
    };
    let item = match tag {
        Tag::HexChar(number) => KnownItem::Char(number),
        tag => KnownItem::Tag(tag),
    };
    Ok(NextItem { item, len })
}

/// The error of a single opening bracket at an offset with which no tag begins that has a value.
#[inline(never)]
pub(crate) fn fault_of(source: &mut Source<'_>, at: usize) -> SyntaxError
    requires stands { slice_get source.old.octets at ≡ Some 91 }
    requires single { slice_get source.old.octets (at + 1) ≢ Some 91 }
    requires none { HasNoTagAt source.old.octets at }
    requires room { length source.old.octets < 2 ^ 63 }
    ensures fault { (steps : ℕ) × (source.new ≡ charged source.old steps)
        × IsFaultRead source.old.octets at (code_of result) (1 + min 26 (length source.old.octets - (at + 1)) + steps) }
{
    let Ok(Bracketed::Tag(len)) = read_bracket(source, at, b'[') else {
        return SyntaxError::UnsupportedTag;
    };
    let (len, kind) = (len + 2, Kind::Tag);
    match read_fault(source, &Token { at, len, kind }) {
        TagFault::Value => SyntaxError::UnsupportedTagValue,
        TagFault::Unsupported => SyntaxError::UnsupportedTag,
    }
}
