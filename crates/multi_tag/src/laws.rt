//! What holds of every body.

ghost use Rattle.multi_tag.specs.Read.{OneTagAtMost};
ghost use Rattle.multi_tag.specs.Closed.{NoLongBody};
ghost use Rattle.multi_tag.specs.TagOf.{TagOfIsTheTable};

/// A law of the definitions: a body spells at most one tag.
pub fn one_tag_at_most()
    ensures { OneTagAtMost }
{}

/// A law of the definitions: the table as a function gives the tag that a body spells, and says that a
/// body is unsupported where no listed name begins it.
pub fn tag_of_is_the_table()
    ensures { TagOfIsTheTable }
{}

/// A law of the definitions: a body that spells a tag has at most 25 octets.
pub fn no_long_body()
    ensures { NoLongBody }
{}
