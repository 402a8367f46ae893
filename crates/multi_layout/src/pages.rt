//! The drawing of one page of an accepted string, or of all its pages in order into one plane.

ghost use Rattle.std.specs.Prelude.{◌≡◌, ◌+◌, ◌-◌, ◌*◌, ◌<◌, ◌≤◌, true, false, nat_lt, length, IfSome, MatchOption};
ghost use Rattle.multi_layout.specs.Finding.{finding_steps};
ghost use Rattle.multi_layout.specs.Prelude.{sem, RisesBetween, charged, Lights, meanings, picture, pixel_at, shown, check_limit, drawing_limit, reading_limit, IsSized, ShowsAt, TakesFew, page_count, IsToldOf, IsDrawnFew, IsReadFew, IsUnderWay, PagesState, pages_state};

use crate::checked::{Checked, NextPage, Told, find_shown};
use crate::cursor::Cursor;
use crate::draw::draw_page;
use crate::paint::Layer;
use crate::read::AreaLines;
use multi_judge::Terms;
use multi_meaning::Shown;
use multi_token::Source;
use page_plane::Plane;
use std::marker::Model;

/// One page, as the plane shows it until the next is asked for.
#[derive(Clone, Copy)]
pub struct PageView<'a> {
    /// The number of the page, from 0.
    pub page: u8,
    /// The plane, with the pixels of that page.
    pub plane: &'a Plane,
}

/// The pages of a string in order, each drawn into the same plane.
#[derive(Drop)]
pub struct Pages<'a> {
    string: Checked<'a>,
    plane: Plane,
    lines: AreaLines,
    layer: Layer,
    /// Where the next page begins, or the end of the string.
    start: NextPage,
    /// The number of the next page, or of all pages.
    next: u8,
    /// The count of the string at the start.
    string_started: u64,
    /// The count of the plane at the start.
    plane_started: u64,
}

impl<'a> Model for Pages<'a> {
    ghost Value = { PagesState };

    ghost view = { λ p. pages_state p.string p.plane p.layer.phase p.layer.colour p.next p.string_started p.plane_started };

    ghost invariant = { λ p. IsUnderWay
        (pages_state p.string p.plane p.layer.phase p.layer.colour p.next p.string_started p.plane_started) p.start.cursor };
}

impl<'a> Checked<'a> {
    /// Draws one page in one colour at a phase: the plane gets the pixels of the page that have the colour then.
    ///
    /// Pages are counted from 0. The phase is the time since the page began, in tenths of a second. A colour is 0 to 255. The
    /// answer is false if there is no such page, and then nothing changes. The plane must have the sign's size.
    ///
    /// For a string of n octets this takes at most 18n + 2 steps over the string and R * n + B * (n / 4 + 1) over the plane.
    /// R is the height of the tallest font, and B the number of octets of the plane.
    pub fn draw(&mut self, page: u8, phase: u64, colour: u8, plane: &mut Plane) -> bool
        requires size { IsSized plane.old self.old.sign }
        ensures exists { result ≡ nat_lt page (page_count self.old) }
        ensures drawn { result ≡ true → Lights plane.new (picture self.old.sign self.old.source.octets page phase colour) }
        ensures undrawn { result ≡ false → (self.new ≡ self.old) × (plane.new ≡ plane.old) }
        ensures kept { self.new.sign ≡ self.old.sign }
        ensures size { (plane.new.width ≡ plane.old.width) × (plane.new.height ≡ plane.old.height) }
        ensures steps { RisesBetween self.old.source self.new.source 0 (reading_limit (length self.old.source.octets)) }
        ensures plane_steps { TakesFew self.old.sign (length self.old.source.octets) plane.old plane.new }
    {
        if page >= self.told.pages {
            return false;
        }
        let (sign, source) = (&self.terms, &mut self.source);
        let mut cursor = Cursor::new(sign);
        while cursor.state.pages <= page {
            cursor.pass_page::<false>(sign, source, 0);
        }
        let mut next = NextPage { cursor };
        self.draw_next(&mut next, phase, colour, &mut AreaLines::new(), plane);
        true
    }

    /// Draws what the string shows at a clock, and tells it as [`Checked::locate`] does: the plane gets the pixels that have the colour
    /// then. In an off time all have colour 0. The room for the lines of an area is lent. The plane must have the sign's size.
    ///
    /// This takes the steps of [`Checked::locate`], and at most those that [`Checked::draw`] may take.
    pub fn draw_shown(
        &mut self,
        clock: u64,
        colour: u8,
        lines: &mut AreaLines,
        plane: &mut Plane,
    ) -> Shown
        requires size { IsSized plane.old self.old.sign }
        ensures shown { result ≡ shown self.old.sign self.old.source.octets clock }
        ensures drawn { Lights plane.new (pixel_at self.old.sign (meanings self.old.source.octets) result colour) }
        ensures kept { self.new.sign ≡ self.old.sign }
        ensures size { (plane.new.width ≡ plane.old.width) × (plane.new.height ≡ plane.old.height) }
        ensures steps { RisesBetween self.old.source self.new.source 0
            (check_limit (length self.old.source.octets) + reading_limit (length self.old.source.octets)) }
        ensures found { RisesBetween (charged self.old.source (finding_steps self.old.sign self.old.source.octets clock))
            self.new.source 0 (reading_limit (length self.old.source.octets)) }
        ensures plane_steps { TakesFew self.old.sign (length self.old.source.octets) plane.old plane.new }
    {
        let (sign, source) = (&self.terms, &mut self.source);
        draw_told(sign, source, self.told, clock, colour, lines, plane)
    }

    /// Takes the plane, to draw one page after another into it from page 0 on, each at this phase and in this colour as
    /// [`Checked::draw`] does. The plane must have the sign's size. This takes no step.
    pub fn each_page(self, phase: u64, colour: u8, plane: Plane) -> Pages<'a>
        requires size { IsSized plane self.sign }
        ensures { result ≡ pages_state self.entry plane phase colour 0 self.entry.source.steps plane.steps }
    {
        Pages {
            start: NextPage {
                cursor: Cursor::new(&self.terms),
            },
            layer: Layer { phase, colour },
            lines: AreaLines::new(),
            next: 0,
            string_started: self.source.steps(),
            plane_started: plane.steps(),
            string: self,
            plane,
        }
    }
}

/// Draws what an accepted string shows at a clock, by what is told of the string, and tells it.
pub(crate) fn draw_told(
    sign: &Terms<'_>,
    source: &mut Source<'_>,
    told: Told,
    clock: u64,
    colour: u8,
    lines: &mut AreaLines,
    plane: &mut Plane,
) -> Shown
    requires known { IsToldOf sign.now source.old.octets told }
    requires size { IsSized plane.old sign.now }
    ensures shown { ShowsAt sign.now source.old.octets clock colour plane.new result }
    ensures size { (plane.new.width ≡ plane.old.width) × (plane.new.height ≡ plane.old.height) }
    ensures steps { RisesBetween source.old source.new 0
        (check_limit (length source.old.octets) + reading_limit (length source.old.octets)) }
    ensures found { RisesBetween (charged source.old (finding_steps sign.now source.old.octets clock)) source.new 0
        (reading_limit (length source.old.octets)) }
    ensures plane_steps { TakesFew sign.now (length source.old.octets) plane.old plane.new }
{
    let mut start = Cursor::new(sign);
    let shown = find_shown(sign, source, told, clock, &mut start);
    match shown {
        Shown::Page { phase, .. } => {
            let layer = Layer { phase, colour };
            draw_page(sign, source, &mut start, layer, lines, plane);
        }
        Shown::Off => plane.fill(colour == 0),
    }
    shown
}

impl<'a> Pages<'a> {
    ghost use Rattle.multi_layout.specs.Lending.{TurnedAfter};

    /// Draws the next page and lends it. After the last page the answer is `None`, and nothing changes. Reading goes on
    /// where the page before ended, so all pages together take no more steps than [`Checked::draw`] may take for one.
    pub fn next_page(&mut self) -> Option<PageView<'_>>
        ensures* after { sem 𝓛 (TurnedAfter self.entry result) }
        ensures page { MatchOption result (self.old.next ≡ page_count self.old.string)
            (λ view. (self.old.next < page_count self.old.string) × (view.page ≡ self.old.next)
            × Lights view.plane.now
            (picture self.old.string.sign self.old.string.source.octets self.old.next self.old.phase self.old.colour)) }
        ensures size { IfSome result (λ view. IsSized view.plane.now self.old.string.sign) }
    {
        let page = self.next;
        if page >= self.string.pages() {
            return None;
        }
        let Layer { phase, colour } = self.layer;
        let (start, lines, plane) = (&mut self.start, &mut self.lines, &mut self.plane);
        self.string.draw_next(start, phase, colour, lines, plane);
        self.next = page + 1;
        Some(PageView {
            page,
            plane: &self.plane,
        })
    }

    /// How much the counts of the string and of the plane have risen since the start, added up.
    pub fn steps(&self) -> u64
        ensures risen { result
            ≡ (self.now.string.source.steps - self.now.string_started) + (self.now.plane.steps - self.now.plane_started) }
        ensures most { result ≤ drawing_limit self.now.string.sign (length self.now.string.source.octets) }
        ensures read { IsReadFew self.now }
        ensures drawn { IsDrawnFew self.now }
    {
        (self.string.steps() - self.string_started) + (self.plane.steps() - self.plane_started)
    }

    /// Gives back the string and the plane, as they are.
    pub fn finish(self) -> (Checked<'a>, Plane)
        ensures given_back { result ≡ (self.entry.string, self.entry.plane) }
        ensures size { IsSized self.entry.plane self.entry.string.sign }
        ensures read { IsReadFew self.entry }
        ensures drawn { IsDrawnFew self.entry }
    {
        (self.string, self.plane)
    }
}
