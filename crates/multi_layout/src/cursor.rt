//! The way through an accepted string, from item to item.

ghost use Rattle.std.specs.Prelude.{◌≡◌, None, Some, true, ℕ, ◌+◌, ◌-◌, ◌*◌, ◌<◌, ◌≤◌, ◌==◌, if◌then◌else◌, ◌^◌, List, slice_get};
ghost use Rattle.multi_layout.specs.Prelude.{RisesBetween, charged, IsSound, Meaning, meanings, looks, unsized_offence, meant_by, IsReady, IsStateOf, PassesTag, IsAtPage, IsAtStart, IsPageSkipped, IsItemAt, IsRestRead, IsWithin};
ghost use Rattle.multi_layout.specs.Change.{flashes_left, page_flashes};
ghost use Rattle.multi_layout.specs.Finding.{page_steps};

use crate::bracket::{is_bracket, read_spelled};
use crate::flash::sooner_with;
use multi_judge::{KnownItem, NextItem, State, Terms, judge_tag};
use multi_tag::Tag;
use multi_token::Source;

/// A place between two items of an accepted string: the offset of the next, and the state after those before it.
#[derive(Clone, Copy)]
pub(crate) struct Cursor {
    pub(crate) at: usize,
    pub(crate) state: State,
}

impl Cursor {
    /// The cursor before the first item.
    pub(crate) fn new(sign: &Terms<'_>) -> Cursor
        ensures start { IsAtStart sign.now result }
        ensures sound { IsSound sign.now }
    {
        Cursor {
            at: 0,
            state: State::new(sign),
        }
    }

    /// Goes past the page that begins here, and lays nothing out: after the `np` that ends it, or to the end of the string.
    ///
    /// Where flashes are asked for, it tells the tenths of a second from a phase of the page to the next change of one of its flashes, if
    /// one changes.
    pub(crate) fn pass_page<const FLASHES: bool>(
        &mut self,
        sign: &Terms<'_>,
        source: &mut Source<'_>,
        phase: u64,
    ) -> Option<u64>
        requires begins { IsAtPage sign.now source.old.octets self.old }
        ensures passed { IsPageSkipped sign.now source.old.octets self.old self.new }
        ensures on { self.old.at ≤ self.new.at }
        ensures steps { RisesBetween source.old source.new 0
            (9 * (self.new.at - self.old.at) + (if self.new.state.pages == self.old.state.pages then 1 else 0)) }
        ensures counted { source.new ≡ charged source.old (page_steps source.old.octets (self.old.state.pages - 1)) }
        ensures soonest { FLASHES ≡ true
            → result ≡ flashes_left phase (page_flashes sign.now (meanings source.old.octets) (self.old.state.pages - 1)) }
    {
        let mut soonest = None;
        while let Some(first) = source.read(self.at) {
            let next = read_item(source, self.at, first);
            soonest = sooner_with::<FLASHES>(
                soonest,
                next.item,
                phase,
                self.state.attributes.flash,
            );
            if next.item.has_place() {
                self.at += next.len;
                continue;
            }
            self.pass_tag(sign, source, next);
            if next.item.ends_page() {
                return soonest;
            }
        }
        soonest
    }

    /// Goes past the next item, a tag that was read, and puts what it says into force. It isn't put into its callers' code, since
    /// characters are many more.
    #[inline(never)]
    pub(crate) fn pass_tag(&mut self, sign: &Terms<'_>, source: &mut Source<'_>, next: NextItem)
        requires ready { IsReady self.old.state }
        requires tag { (tag : Tag) × (next.item ≡ KnownItem.Tag tag) }
        requires fine { (items : List Meaning) × IsStateOf sign.now items self.old.state
            × (unsized_offence sign.now items (meant_by next.item) ≡ None) }
        requires room { self.old.at + next.len < 2 ^ 64 }
        ensures passed { PassesTag sign.now (meant_by next.item) self.old.state self.new.state }
        ensures at { self.new.at ≡ self.old.at + next.len }
        ensures steps { RisesBetween source.old source.new 0 1 }
        ensures looks { source.new ≡ charged source.old (looks (meant_by next.item)) }
    {
        let KnownItem::Tag(tag) = next.item else {
            unreachable!();
        };
        self.at += next.len;
        if let Tag::NewLine(gap) = tag {
            self.state.put_break(gap);
            return;
        }
        let mut cells = sign.cells.same();
        let Ok(()) = judge_tag(sign, &mut self.state, &mut cells, source, tag) else {
            // No item of an accepted string offends.
            unreachable!();
        };
    }
}

/// Reads the item of an accepted string that begins with this octet, which was read at an offset.
///
/// It takes at most 9 steps for each octet after that one. It is put into its callers' code, since most items are characters.
#[inline(always)]
pub(crate) fn read_item(source: &mut Source<'_>, at: usize, first: u8) -> NextItem
    requires within { IsWithin source.old.octets at }
    requires stands { slice_get source.old.octets at ≡ Some first }
    ensures item { IsItemAt source.old.octets at result.len (meant_by result.item) }
    ensures some { 1 ≤ result.len }
    ensures steps { RisesBetween source.old source.new 0 (9 * result.len - 9) }
    ensures rest { IsRestRead source.old at source.new }
{
    if !is_bracket(first) {
        let item = KnownItem::Char(u16::from(first));
        return NextItem { item, len: 1 };
    }
    let Ok(next) = read_spelled(source, at, first) else {
        // An accepted string has no broken bracket and no tag with an error.
        unreachable!();
    };
    next
}
