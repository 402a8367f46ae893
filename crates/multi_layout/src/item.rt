//! The items of a string, one after the other, for whoever asks what a message sets.
ghost use Rattle.std.specs.Prelude.{◌≡◌, ◌+◌, ◌-◌, ◌*◌, ◌≤◌, [], drop, length, IfNone, IfSome};
ghost use Rattle.multi_token.specs.Counted.{RisesBetween};
ghost use Rattle.multi_token.specs.Reading.{reading};
ghost use Rattle.multi_token.specs.Tokens.{IsTokenOf, item_of};
ghost use Rattle.multi_meaning.specs.Meaning.{meaning};
ghost use Rattle.multi_layout.specs.Items.{IsNext, IsSaid};

use multi_tag::{Tag, read_tag};
use multi_token::{Kind, Source, Token, next_token};

/// An item of a string (own): the tag that says the same, if it isn't a tag at fault, and how many octets spell it. A character says what
/// the tag 'hc' with its number does.
#[derive(Clone, Copy)]
pub struct StringItem {
    pub tag: Option<Tag>,
    pub len: usize,
}

/// What a token says, if its tag isn't at fault.
fn said_by(source: &mut Source<'_>, token: &Token) -> Option<Tag>
    requires { IsTokenOf source.old.octets token.now }
    ensures said { IsSaid (meaning (item_of source.old.octets token.now)) result }
    ensures steps { RisesBetween source.old source.new 0 (token.now.len - 1) }
{
    match token.kind {
        Kind::Char(octet) => Some(Tag::HexChar(u16::from(octet))),
        Kind::Tag => match read_tag(source, token) {
            Ok(tag) => Some(tag),
            Err(_) => None,
        },
    }
}

/// The item at an offset of a string, or `None` where no item stands: at the end, and at a bracket that begins none. The string need not be
/// accepted. Each octet takes at most two steps.
pub fn item_at(source: &mut Source<'_>, at: usize) -> Option<StringItem>
    requires { at ≤ length source.old.octets }
    ensures next { IfSome result (IsNext source.old.octets at) }
    ensures end { IfNone result ((reading (drop at source.old.octets)).items ≡ []) }
    ensures steps { IfSome result (λ item. RisesBetween source.old source.new 0 (2 * item.len - 1)) }
    ensures end_steps { IfNone result (RisesBetween source.old source.new 0 (length source.old.octets - at + 1)) }
{
    match next_token(source, at) {
        Ok(Some(token)) => Some(StringItem {
            tag: said_by(source, &token),
            len: token.len,
        }),
        Ok(None) => None,
        Err(_) => None,
    }
}
