//! An accepted string: what is told of it, what it shows at a clock, and its pages, drawn one after the other with what a caller lends for
//! each.

ghost use Rattle.std.specs.Prelude.{◌≡◌, ℕ, ◌+◌, ◌<◌, length};
ghost use Rattle.multi_layout.specs.Finding.{change_steps, finding_steps};
ghost use Rattle.multi_layout.specs.Change.{change_at};
ghost use Rattle.multi_layout.specs.Prelude.{RisesBetween, charged, meanings, Lights, picture, shown, Accepted, IsVerdict, IsCycle, check_limit, reading_limit, IsNextPage, IsReadOn, IsSized, TakesFew, page_count, IsFilledFew, IsStartOf, IsAtStart, IsToldOf, CheckedData};

use crate::cursor::Cursor;
use crate::draw::draw_page;
use crate::paint::Layer;
use crate::read::AreaLines;
use crate::turn::find_turn;
use multi_judge::Terms;
use multi_meaning::Shown;
use multi_token::Source;
use page_plane::Plane;
use std::marker::Model;

/// What is told of an accepted string: its pages, and the times of all of them together, in tenths of a second.
#[derive(Clone, Copy)]
pub(crate) struct Told {
    pub(crate) pages: u8,
    pub(crate) cycle: u32,
}

/// A string that a sign accepts. Only `check` makes one.
#[derive(Drop)]
pub struct Checked<'a> {
    pub(crate) terms: Terms<'a>,
    pub(crate) source: Source<'a>,
    pub(crate) told: Told,
}

/// Where the page begins that is drawn next of a string, which alone it serves (own).
#[derive(Drop)]
pub struct NextPage {
    pub(crate) cursor: Cursor,
}

impl<'a> Model for Checked<'a> {
    ghost Value = { CheckedData };

    ghost view = { λ c. record { sign = c.terms; source = c.source } };

    ghost invariant = { λ c. IsToldOf c.terms c.source.octets c.told };
}

impl<'a> Checked<'a> {
    /// The number of pages, from 1 to the sign's limit.
    pub fn pages(&self) -> u8
        ensures { IsVerdict self.now.sign self.now.source.octets (Accepted result) }
    {
        self.told.pages
    }

    /// The cycle: the sum of the on times and off times of all pages, in tenths of a second.
    pub fn cycle(&self) -> u32
        ensures { IsCycle self.now.sign self.now.source.octets result }
    {
        self.told.cycle
    }

    /// The number of steps that were taken over the string so far; `u64::MAX` means that many or more.
    pub fn steps(&self) -> u64
        ensures { result ≡ self.now.source.steps }
    {
        self.source.steps()
    }

    /// What the string shows at a clock, in tenths of a second since it began to be shown.
    ///
    /// A string with one page or a cycle of 0 always shows page 0, with the clock as its phase. Otherwise the clock is taken
    /// modulo the cycle: each page in turn is shown for its on time, and then nothing for its off time, over and over. Where it is page
    /// 0 always this takes no step; else the pages up to that one are passed, in at most 9n + 1 steps for n octets.
    pub fn locate(&mut self, clock: u64) -> Shown
        ensures shown { result ≡ shown self.old.sign self.old.source.octets clock }
        ensures kept { self.new.sign ≡ self.old.sign }
        ensures steps { self.new.source ≡ charged self.old.source (finding_steps self.old.sign self.old.source.octets clock) }
        ensures most { RisesBetween self.old.source self.new.source 0 (check_limit (length self.old.source.octets)) }
        ensures one { page_count self.old ≡ 1 → self.new.source ≡ self.old.source }
    {
        let mut start = Cursor::new(&self.terms);
        find_shown(&self.terms, &mut self.source, self.told, clock, &mut start)
    }

    /// For how many tenths of a second from a clock on what the string shows stays as it is: up to the end of the page's on time or of its
    /// off time, or to the next change of one of its flashes, whichever comes first. `None` if it never changes.
    ///
    /// The pages up to the one at the clock are passed, in at most 9n + 1 steps for n octets. Nothing is drawn.
    pub fn next_change(&mut self, clock: u64) -> Option<u64>
        ensures change { result ≡ change_at self.old.sign (meanings self.old.source.octets) clock }
        ensures kept { self.new.sign ≡ self.old.sign }
        ensures steps { self.new.source ≡ charged self.old.source (change_steps self.old.sign self.old.source.octets clock) }
        ensures most { RisesBetween self.old.source self.new.source 0 (check_limit (length self.old.source.octets)) }
    {
        let (sign, source, told) = (&self.terms, &mut self.source, self.told);
        let mut start = Cursor::new(sign);
        if told.pages == 1 || told.cycle == 0 {
            return start.pass_page::<true>(sign, source, clock);
        }
        find_turn::<true>(sign, source, told, clock, &mut start).left()
    }

    /// The first page of the string, which [`Checked::draw_next`] draws. This takes no step.
    pub fn first_page(&self) -> NextPage
        ensures { IsNextPage self.now result 0 }
    {
        let cursor = Cursor::new(&self.terms);
        NextPage { cursor }
    }

    /// Draws the next page as [`Checked::draw`] does, and goes on to the one after it. The room for the lines of an area is lent. The
    /// plane must have the sign's size.
    ///
    /// Reading goes on where the page before ended, so that all pages together take no more steps over the string than [`Checked::draw`]
    /// may take for one.
    pub fn draw_next(
        &mut self,
        next: &mut NextPage,
        phase: u64,
        colour: u8,
        lines: &mut AreaLines,
        plane: &mut Plane,
    )
        requires page { (page : ℕ) × (page < page_count self.old) × IsNextPage self.old next.old page }
        requires size { IsSized plane.old self.old.sign }
        ensures drawn { (page : ℕ) → page < page_count self.old → IsNextPage self.old next.old page
            → Lights plane.new (picture self.old.sign self.old.source.octets page phase colour) }
        ensures next { (page : ℕ) → IsNextPage self.old next.old page → IsNextPage self.new next.new (page + 1) }
        ensures kept { self.new.sign ≡ self.old.sign }
        ensures size { (plane.new.width ≡ plane.old.width) × (plane.new.height ≡ plane.old.height) }
        ensures on { IsReadOn self.old.source self.new.source next.old next.new }
        ensures steps { RisesBetween self.old.source self.new.source 0 (reading_limit (length self.old.source.octets)) }
        ensures plane_steps { TakesFew self.old.sign (length self.old.source.octets) plane.old plane.new }
        ensures fills { IsFilledFew self.old.sign plane.old plane.new next.old.cursor next.new.cursor }
    {
        let layer = Layer { phase, colour };
        let cursor = &mut next.cursor;
        draw_page(&self.terms, &mut self.source, cursor, layer, lines, plane);
    }
}

/// What an accepted string shows at a clock, by what is told of it. The cursor, which stands before its first item, goes to where a page
/// that is shown begins.
pub(crate) fn find_shown(
    sign: &Terms<'_>,
    source: &mut Source<'_>,
    told: Told,
    clock: u64,
    start: &mut Cursor,
) -> Shown
    requires known { IsToldOf sign.now source.old.octets told }
    requires start { IsAtStart sign.now start.old }
    ensures shown { result ≡ shown sign.now source.old.octets clock }
    ensures begins { IsStartOf sign.now source.old.octets result start.new }
    ensures steps { RisesBetween source.old source.new 0 (check_limit (length source.old.octets)) }
    ensures counted { source.new ≡ charged source.old (finding_steps sign.now source.old.octets clock) }
    ensures one { told.pages ≡ 1 → source.new ≡ source.old }
{
    if told.pages == 1 || told.cycle == 0 {
        return Shown::Page {
            page: 0,
            phase: clock,
        };
    }
    let turn = find_turn::<false>(sign, source, told, clock, start);
    if turn.phase >= u64::from(turn.on) {
        return Shown::Off;
    }
    Shown::Page {
        page: start.state.pages - 1,
        phase: turn.phase,
    }
}
