//! The items of a string, as they are read.

ghost use Rattle.std.specs.Prelude.{◌≡◌, true};
ghost use Rattle.multi_judge.specs.Prelude.{begins_area, has_place, is_new_page, IsOctet, is_setting, meant_by};

use multi_tag::Tag;

/// An item of a string: a character by its number, or what a tag says (NTCIP 1203 v03, MULTI).
#[derive(Clone, Copy)]
pub enum KnownItem {
    Char(u16),
    Tag(Tag),
}

/// What is read of an item: the item, and the number of octets that spell it, its brackets with them.
#[derive(Clone, Copy)]
pub struct NextItem {
    pub item: KnownItem,
    pub len: usize,
}

impl KnownItem {
    /// Whether a page ends before the item.
    pub fn ends_page(self) -> bool
        ensures { result ≡ is_new_page (meant_by self) }
    {
        matches!(self, KnownItem::Tag(Tag::NewPage))
    }

    /// Whether an area begins after the item.
    pub fn begins_area(self) -> bool
        ensures { result ≡ begins_area (meant_by self) }
    {
        matches!(self, KnownItem::Tag(Tag::NewPage | Tag::Rect { .. }))
    }

    /// Whether the item has a place in a group: a character or the end of a line.
    pub fn has_place(self) -> bool
        ensures { result ≡ has_place (meant_by self) }
    {
        matches!(self, KnownItem::Char(_) | KnownItem::Tag(Tag::NewLine(_)))
    }

    /// Whether the item only sets values that are in force after it: a tag that puts nothing and begins nothing.
    pub fn is_setting(self) -> bool
        ensures { result ≡ is_setting (meant_by self) }
    {
        !self.has_place() && !self.begins_area() && !matches!(self, KnownItem::Tag(Tag::Back(_)))
    }

    /// Whether the item is a character whose number is that of an octet.
    pub fn is_octet(self) -> bool
        ensures octet { result ≡ true → IsOctet self }
        ensures all { IsOctet self → result ≡ true }
    {
        matches!(self, KnownItem::Char(number) if number <= 255)
    }
}
