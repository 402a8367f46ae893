//! The value of a tag of a counted source.

ghost use Rattle.std.specs.Prelude.{◌≡◌, ◌↔◌, ◌-◌, min, IfOk, OnOk, OnErr, Err};
ghost use Rattle.multi_token.specs.Counted.{charged, RisesBetween};
ghost use Rattle.multi_token.specs.Tokens.{IsTagOf, body_of};
ghost use Rattle.multi_tag.specs.Body.{Spells, HasName};
ghost use Rattle.multi_tag.specs.Read.{SpellsNoTag, IsReadOf};

use crate::closed::read_closed;
use crate::name::read_name;
use crate::tag::{Tag, TagFault};
use multi_token::{Source, Token};

/// Reads the value of a tag, whose token was read from this source.
///
/// The fault is [`TagFault::Unsupported`] if no name of the table begins the body, and [`TagFault::Value`] if one does but
/// what follows the name has none of its forms, or a number is outside its range.
///
/// It takes no more steps than the token has octets after its first; a tag that is read takes exactly as many.
// called, so that the code of whoever goes from item to item stays small
#[inline(never)]
pub fn read_tag(source: &mut Source<'_>, token: &Token) -> Result<Tag, TagFault>
    requires { IsTagOf source.old.octets token.now }
    // what is read is in the table, and what is in the table is read
    ensures spelled { IfOk result (Spells (body_of source.old.octets token.now)) }
    ensures read { IsReadOf (body_of source.old.octets token.now) result }
    ensures unsupported { (result ≡ Err TagFault.Unsupported) ↔
        (¬ (HasName (body_of source.old.octets token.now))) }
    ensures value { (result ≡ Err TagFault.Value) ↔
        (HasName (body_of source.old.octets token.now)
        × SpellsNoTag (body_of source.old.octets token.now)) }

    // a step for each octet that is read: of a value all of the body's and the last bracket, of a fault at least one
    ensures steps { RisesBetween source.old source.new 0 (token.now.len - 1) }
    ensures value_steps { OnOk result (source.new ≡ charged source.old (token.now.len - 1)) }
    ensures fault_steps { OnErr result (RisesBetween source.old source.new 1 (token.now.len - 1)) }
{
    // no tag that has a value has more than 26 octets after its first, and a name stands in the first three of these
    let octets = source.ahead(token.at + 1, (token.len - 1).min(26));
    let Some((tag, _)) = read_closed(octets) else {
        return Err(fault(octets));
    };
    Ok(tag)
}

/// Why a tag of a source has no value, by its name alone: the fault of [`read_tag`] where the body spells no tag.
#[inline(always)]
pub fn read_fault(source: &mut Source<'_>, token: &Token) -> TagFault
    requires { IsTagOf source.old.octets token.now }
    ensures unsupported { (result ≡ TagFault.Unsupported) ↔ (¬ (HasName (body_of source.old.octets token.now))) }
    ensures value { (result ≡ TagFault.Value) ↔ HasName (body_of source.old.octets token.now) }
    ensures steps { source.new ≡ charged source.old (min 3 (token.now.len - 2)) }
{
    // a name stands in the first three octets of the body
    fault(source.ahead(token.at + 1, (token.len - 2).min(3)))
}

/// Why octets after an opening bracket, which begin with no tag that has a value, have none.
#[inline(always)]
fn fault(octets: &[u8]) -> TagFault
    ensures unsupported { result ≡ TagFault.Unsupported → ¬ (HasName octets.now) }
    ensures value { result ≡ TagFault.Value → HasName octets.now }
{
    match read_name(octets) {
        Some(_) => TagFault::Value,
        None => TagFault::Unsupported,
    }
}
