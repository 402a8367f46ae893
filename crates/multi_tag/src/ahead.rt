//! Tags of a counted source, in one reading.

ghost use Rattle.std.specs.Prelude.{◌≡◌, ◌+◌, ◌-◌, ◌^◌, ◌<◌, Some, IfSome, IfNone, length, min, slice_get};
ghost use Rattle.multi_token.specs.Counted.{charged};
ghost use Rattle.multi_tag.specs.Closed.{IsTagAt, HasNoTagAt};

use crate::closed::read_closed;
use crate::tag::Tag;
use multi_token::Source;

/// The tag that begins with the opening bracket at an offset, which was read already, and the number of octets that spell it; or
/// `None` where no tag begins there, or one that has no value.
///
/// The octets after the bracket are read, 26 of them or as many as there are: no tag with a value has more.
#[inline(always)]
pub fn read_ahead(source: &mut Source<'_>, at: usize) -> Option<(Tag, usize)>
    requires stands { slice_get source.old.octets at ≡ Some 91 }
    // whoever read the bracket knows this of the source
    requires room { length source.old.octets < 2 ^ 63 }
    ensures some { IfSome result (λ (tag, len). IsTagAt source.old.octets at tag len) }
    ensures none { IfNone result (HasNoTagAt source.old.octets at) }
    ensures steps { source.new ≡ charged source.old (min 26 (length source.old.octets - (at + 1))) }
{
    let (tag, len) = read_closed(source.ahead(at + 1, 26))?;
    Some((tag, len + 1))
}
