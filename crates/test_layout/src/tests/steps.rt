//! The steps of judging a string, finding its page and drawing it, beside those of the same reads and looks, which are made here
//! one by one by the calls of the crates below.

use crate::tests::so;
use multi_layout::{Shown, check};
use multi_tag::{Tag, read_ahead};
use multi_token::Source;
use page_plane::Plane;
use sign_font::{LineFill, Sign, sample_sign};
use std::alloc::Global;
use std::process::Abort;
use std::test::Fail;

/// How far a string is read.
#[derive(Clone, Copy)]
struct Walk {
    /// The offset of the next item.
    at: usize,
    /// The number of the font in force.
    font: u8,
}

impl Walk {
    /// That before the first item.
    fn new(sign: &Sign) -> Walk {
        Walk {
            at: 0,
            font: sign.default_font().number,
        }
    }

    /// Reads the next item, a character as the tag of its number: its first octet, the octet after a bracket, and those ahead of a
    /// tag. At the end the answer is `None`.
    fn read(&mut self, source: &mut Source<'_>) -> Option<Tag> {
        let at = self.at.min(source.len());
        let first = source.read(at)?;
        let (item, len) = if first != b'[' && first != b']' {
            (Tag::HexChar(u16::from(first)), 1)
        } else if source.read(at + 1) == Some(first) {
            (Tag::HexChar(u16::from(first)), 2)
        } else if first == b'[' {
            read_ahead(source, at)?
        } else {
            return None;
        };
        self.at = at.saturating_add(len);
        Some(item)
    }

    /// Looks up the cell of a character, or the font that a tag names.
    fn look(&mut self, sign: &Sign, source: &mut Source<'_>, item: Tag) {
        match item {
            Tag::HexChar(number) => {
                sign.cell_width(source, self.font, number);
            }
            Tag::Font(Some(pick)) => {
                sign.font(source, pick.number);
                self.font = pick.number;
            }
            Tag::Font(None) => self.font = sign.default_font().number,
            _ => {}
        }
    }

    /// Puts an item into force that was read on the way to a page, and looks up no cell.
    fn pass_by(&mut self, sign: &Sign, source: &mut Source<'_>, item: Tag) {
        if let Tag::Font(_) = item {
            self.look(sign, source, item);
        }
    }

    /// Goes past a page, and looks up no cell: after the tag that begins the next one, or to the end of the string.
    fn pass_page(&mut self, sign: &Sign, source: &mut Source<'_>) {
        for _ in 0..=source.len() {
            let Some(item) = self.read(source) else {
                return;
            };
            self.pass_by(sign, source, item);
            if let Tag::NewPage = item {
                return;
            }
        }
    }

    /// Goes past so many pages.
    fn pass_pages(&mut self, sign: &Sign, source: &mut Source<'_>, pages: u8) {
        for _ in 0..pages {
            self.pass_page(sign, source);
        }
    }

    /// Goes past the settings from here on. What stands after them is read with its area.
    fn pass_settings(&mut self, sign: &Sign, source: &mut Source<'_>, octets: &[u8]) {
        for _ in 0..=octets.len() {
            let mut next = *self;
            match next.read(&mut Source::new(octets)) {
                Some(item) if is_setting(item) => {
                    self.read(source);
                    self.look(sign, source, item);
                }
                _ => return,
            }
        }
    }

    /// Goes over the items of an area up to an offset, and looks up their cells. The item that ends the area is read, and not
    /// passed.
    fn pass_area(&mut self, sign: &Sign, source: &mut Source<'_>, end: usize) {
        for _ in 0..=source.len() {
            if self.at >= end {
                return;
            }
            let here = self.at;
            let Some(item) = self.read(source) else {
                return;
            };
            if let Tag::NewPage | Tag::Rect { .. } = item {
                self.at = here;
                return;
            }
            self.look(sign, source, item);
        }
    }

    /// Goes over the items of an area for the first time. Where lines aren't filled, a run begins after each character that is an octet:
    /// it looks up its font, and looks at the octet that ends it.
    fn pass_lines(&mut self, sign: &Sign, source: &mut Source<'_>, octets: &[u8]) {
        let mut in_run = false;
        for _ in 0..=source.len() {
            let here = self.at;
            let Some(item) = self.read(source) else {
                return;
            };
            let alone = self.at.saturating_sub(here) == 1;
            if let Tag::NewPage | Tag::Rect { .. } = item {
                self.at = here;
                return;
            }
            self.look(sign, source, item);
            let begins = matches!(item, Tag::HexChar(number) if number < 256) && !(in_run && alone);
            in_run = begins || (in_run && alone);
            if begins && sign.line_fill() == LineFill::Off {
                let plain = octets
                    .iter()
                    .skip(self.at)
                    .all(|octet| *octet != b'[' && *octet != b']');
                source.charge(1 + u64::from(!plain));
            }
        }
    }
}

/// Whether an item is a tag that puts nothing and begins nothing.
fn is_setting(item: Tag) -> bool {
    !matches!(
        item,
        Tag::NewPage | Tag::NewLine(_) | Tag::Rect { .. } | Tag::Back(_) | Tag::HexChar(_)
    )
}

/// The steps of judging a string: of each item the first octet is read and looked up, which is all for an octet that stands for
/// itself; the octet after each bracket is read, with each tag 26 octets more or as many as there are, and each cell and font is
/// looked up once. The end is read.
fn judged(sign: &Sign, octets: &[u8]) -> u64 {
    let mut source = Source::new(octets);
    let mut walk = Walk::new(sign);
    for _ in 0..=octets.len() {
        let here = walk.at;
        let Some(item) = walk.read(&mut source) else {
            break;
        };
        source.charge(1);
        if walk.at.saturating_sub(here) > 1 {
            walk.look(sign, &mut source, item);
        }
    }
    source.steps()
}

/// Whether an octet is a bracket.
fn is_bracket(octet: u8) -> bool {
    octet == b'[' || octet == b']'
}

/// The octets of what begins at an offset, and the steps of judging it: two for an octet that stands for itself, and two more for a
/// doubled bracket; three for any other bracket. For an opening one also 26 octets ahead, or as many as there are: for a tag its looks
/// then, and where it is at fault its body and its bracket once more, and up to three octets for its name. A broken one goes on to the
/// next bracket or the end.
fn item(octets: &[u8], at: usize) -> (usize, u64) {
    let Some(first) = octets.get(at).copied() else {
        return (0, 1);
    };
    if !is_bracket(first) {
        return (1, 2);
    }
    let behind = at.saturating_add(1);
    if octets.get(behind) == Some(&first) {
        return (2, 4);
    }
    if first != b'[' {
        return (1, 3);
    }
    let left = octets.len().saturating_sub(behind) as u64;
    let ahead = 3u64.saturating_add(left.min(26));
    let mut end = behind;
    for octet in octets.iter().skip(behind) {
        if is_bracket(*octet) {
            break;
        }
        end = end.saturating_add(1);
    }
    let body = end.saturating_sub(behind) as u64;
    if body == 0 || octets.get(end) != Some(&b']') {
        return (1, ahead.saturating_add(body).saturating_add(1));
    }
    let more = match read_ahead(&mut Source::new(octets), at) {
        None => body.saturating_add(1).saturating_add(body.min(3)),
        Some((Tag::HexChar(number), _)) if number > 255 => 8,
        Some((Tag::HexChar(_), _)) | Some((Tag::Font(Some(_)), _)) => 1,
        Some(_) => 0,
    };
    let len = end.saturating_sub(at).saturating_add(1);
    (len, ahead.saturating_add(more))
}

/// The steps of judging a string up to the item at which it is refused, or to its end.
fn up_to(octets: &[u8], offence: Option<usize>) -> u64 {
    let (mut at, mut steps) = (0usize, 0u64);
    for _ in 0..=octets.len() {
        let (len, taken) = item(octets, at);
        steps = steps.saturating_add(taken);
        if len == 0 || offence == Some(at) {
            break;
        }
        at = at.saturating_add(len);
    }
    steps
}

/// A row of a string, the offset at which the sample sign refuses it, and the steps of judging it.
type Judging = (&'static [u8], Option<usize>, u64);

#[test]
fn each_item_takes_its_steps_up_to_the_first_offence(rt: HostRuntime) -> Result<(), Fail> {
    let rows: [Judging; 26] = [
        (b"", None, 1),
        (b"A", None, 3),
        (b"AAI", None, 7),
        (b"AAAA", Some(3), 8),
        (b"AAAAA", Some(3), 8),
        (b"B", Some(0), 2),
        (b"[[[[", None, 9),
        (b"]]", None, 5),
        (b"]", Some(0), 3),
        (b"A]A", Some(1), 5),
        (b"[", Some(0), 4),
        (b"A[", Some(1), 6),
        (b"[nl", Some(0), 8),
        (b"[nl[", Some(0), 9),
        (b"[]A", Some(0), 6),
        (b"[nx]", Some(0), 11),
        (b"[nlx]", Some(0), 14),
        (b"[hc41]", None, 10),
        (b"[hcffff]", Some(0), 18),
        (b"[fo2]A", None, 12),
        (b"[fo9]A", Some(0), 9),
        (b"[fo2,0001]", Some(0), 13),
        (b"[fo]A", None, 10),
        (b"[np]AAA", None, 16),
        (b"[np]AAA[np]A", Some(7), 27),
        (b"[cf1][cf1][cf1][cf1][cf1][cf1]", None, 115),
    ];
    let sign = Sign::new(rt.alloc(), sample_sign(rt.alloc())?)?;
    for (octets, offence, steps) in rows {
        assert!(rt; octets.len() <= 100);
        let found = match check(&sign, Source::new(octets)) {
            Ok(checked) => (None, checked.steps()),
            Err(fault) => (Some(fault.at), fault.source.steps()),
        };
        assert!(rt; found == (offence, steps), "{octets:?}: {found:?}");
        assert!(rt; up_to(octets, offence) == steps, "{octets:?}");
    }
    Ok(())
}

/// The steps of finding this page by the clock: the items are read up to its end.
fn found(sign: &Sign, octets: &[u8], page: u8) -> u64 {
    let mut source = Source::new(octets);
    Walk::new(sign).pass_pages(sign, &mut source, page.saturating_add(1));
    source.steps()
}

/// The steps of drawing this page over the string: the items before it are read, and then each of its areas is, twice, but for the
/// settings with which it begins and the item that ends it, which are read once.
fn drawn(sign: &Sign, octets: &[u8], page: u8) -> u64 {
    let mut source = Source::new(octets);
    let mut walk = Walk::new(sign);
    walk.pass_pages(sign, &mut source, page);
    for _ in 0..=octets.len() {
        walk.pass_settings(sign, &mut source, octets);
        let mut first = walk;
        first.pass_lines(sign, &mut source, octets);
        walk.pass_area(sign, &mut source, first.at);
        match walk.read(&mut Source::new(octets)) {
            None | Some(Tag::NewPage) => break,
            Some(_) => {}
        }
    }
    source.steps()
}

/// A string, the clock at which a page of it is shown, and that page.
#[derive(Clone, Copy)]
struct Row {
    octets: &'static [u8],
    clock: u64,
    page: u8,
    /// The spaces of the page that are dropped: to draw them no cell is looked up.
    dropped: u64,
}

/// Asserts that a string takes as many steps as the same reads and looks.
fn assert_row(rt: &impl Abort, alloc: Global, sign: &Sign, row: &Row) -> Result<(), Fail> {
    let Row {
        octets,
        clock,
        page,
        dropped,
    } = *row;
    let mut plane = Plane::new(alloc, sign.width(), sign.height())?;
    assert!(rt; octets.len() <= 100);
    let Ok(mut checked) = check(sign, Source::new(octets)) else {
        panic!(rt; "{octets:?} is accepted");
    };
    let judging = checked.steps();
    let want = judged(sign, octets);
    assert!(rt;
        judging == want,
        "{octets:?} is judged in {judging} steps, not {want}"
    );

    let shown = checked.locate(clock);
    so(
        rt,
        matches!(shown, Shown::Page { page: number, .. } if number == page),
        "that page is shown",
    );
    let finding = checked.steps().saturating_sub(judging);
    let want = if checked.pages() == 1 || checked.cycle() == 0 {
        0
    } else {
        found(sign, octets, page)
    };
    assert!(rt;
        finding == want,
        "page {page} of {octets:?} is found in {finding} steps, not {want}"
    );

    let before = checked.steps();
    so(
        rt,
        checked.draw(page, 0, 1, &mut plane),
        "the page is there",
    );
    let drawing = checked.steps().saturating_sub(before);
    let want = drawn(sign, octets, page).saturating_sub(dropped);
    assert!(rt;
        drawing == want,
        "page {page} of {octets:?} is drawn in {drawing} steps, not {want}"
    );
    Ok(())
}

/// A row of a string without breaks of filling.
fn plain(octets: &'static [u8], clock: u64, page: u8) -> Row {
    filled(octets, clock, page, 0)
}

/// A row of a string with breaks of filling.
fn filled(octets: &'static [u8], clock: u64, page: u8, dropped: u64) -> Row {
    Row {
        octets,
        clock,
        page,
        dropped,
    }
}

#[test]
fn each_step_is_a_read_or_a_look(rt: HostRuntime) -> Result<(), Fail> {
    let rows = [
        plain(b"", 0, 0),
        plain(b"A", 0, 0),
        plain(b"[sc0]AAAA", 0, 0),
        plain(b"[[I]]", 0, 0),
        plain(b"[hc5B][hC5D]", 0, 0),
        plain(b"[fo1,1a2B]A", 0, 0),
        plain(b"[fo2]A[fo1]A", 0, 0),
        plain(b"A[nl0]A", 0, 0),
        plain(b"[jl4]A[nl][jl2]", 0, 0),
        plain(b"[jp2]A[jp4]A", 0, 0),
        plain(b"[cf3]A[pb1]", 0, 0),
        plain(b"[flt5o5][hc41][/fl]", 0, 0),
        plain(b"[tr1,1,3,3]A[tr10,5,3,3]A", 0, 0),
        plain(b"[tr1,1,3,3][np]A", 30, 1),
        plain(b"A[np]A[pt10]", 0, 0),
        plain(b"A[np]A[pt10]", 30, 1),
        plain(b"[pt10o5]A[np]A", 15, 1),
        plain(b"[pt0o0]A[np]A", 42, 0),
    ];
    let mut parts = sample_sign(rt.alloc())?;
    let sign = Sign::new(rt.alloc(), sample_sign(rt.alloc())?)?;
    for row in &rows {
        assert_row(&rt, rt.alloc(), &sign, row)?;
    }

    let rows = [
        filled(b"AA AA", 0, 0, 1),
        filled(b"A A A", 0, 0, 1),
        filled(b" AAA", 0, 0, 1),
        filled(b"AA[hc20]AA", 0, 0, 1),
        filled(b"[jl2]A A[jl4]AA", 0, 0, 1),
        filled(b"[jp2]AAA [jp4]A", 0, 0, 1),
        filled(b"[tr1,1,3,0]A A[np]AA AA", 30, 1, 1),
        plain(b"AAA[nl] A", 0, 0),
    ];
    parts.line_fill = LineFill::Words;
    let sign = Sign::new(rt.alloc(), parts)?;
    for row in &rows {
        assert_row(&rt, rt.alloc(), &sign, row)?;
    }
    Ok(())
}

#[test]
fn a_change_is_found_by_passing_the_pages_up_to_the_one_that_is_shown(
    rt: HostRuntime,
) -> Result<(), Fail> {
    let rows: [(&[u8], u64, Option<u64>, u64); 8] = [
        (b"A", 0, None, 2),
        (b"[[I]]", 0, None, 6),
        (b"[fo2]A", 0, None, 10),
        (b"[flt5o5]A", 0, Some(5), 12),
        (b"[flt5o5]A", 7, Some(3), 12),
        (b"A[np]A", 0, Some(30), 7),
        (b"A[np]A", 31, Some(29), 9),
        (b"[pt10o5]A[np]A", 12, Some(3), 22),
    ];
    let sign = Sign::new(rt.alloc(), sample_sign(rt.alloc())?)?;
    for (octets, clock, left, steps) in rows {
        let Ok(mut checked) = check(&sign, Source::new(octets)) else {
            panic!(rt; "{octets:?} is accepted");
        };
        let judging = checked.steps();
        let told = checked.next_change(clock);
        let took = checked.steps().saturating_sub(judging);
        assert!(rt;
            told == left && took == steps,
            "{octets:?}: {told:?} in {took}"
        );
    }
    Ok(())
}
