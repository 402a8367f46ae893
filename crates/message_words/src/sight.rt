//! Whether text on the pages of an accepted message is seen.

use crate::piece::{Piece, count_of_spaces, piece_at};
use crate::plain::Plain;
use crate::sentence::Value::Number;
use crate::sentence::{between, joined, sentence_of};
use multi_layout::check;
use multi_tag::Tag;
use multi_token::Source;
use page_picture::PageColours;
use sign_font::Sign;
use std::alloc::{AllocError, Global};

/// The most moments of a page that are looked at (own).
const MOMENTS: usize = 6;

/// The most runs of text of a message that are looked at (own).
const RUNS: usize = 48;

/// The most octets of a message with tags added.
const LONGEST: usize = 8_192;

/// The number of the space.
const SPACE: u16 = 32;

/// A flash.
#[derive(Clone, Copy)]
struct Flash {
    off_first: bool,
    on: u8,
    off: u8,
}

/// What is in force where characters stand.
#[derive(Clone, Copy)]
struct Look {
    /// The page, counted from 0.
    page: u8,
    flash: Option<Flash>,
    fore: u8,
    back: u8,
}

/// Characters without a tag between them, or one that is written by its number.
#[derive(Clone, Copy)]
pub(crate) struct Run {
    /// The octet where they begin, and the octet after them.
    pub(crate) from: usize,
    end: usize,
    look: Look,
}

impl Run {
    /// The page that they stand on, counted from 0.
    pub(crate) fn page(&self) -> u8 {
        self.look.page
    }

    /// Whether they have a flash that never lights.
    pub(crate) fn is_never_lit(&self) -> bool {
        match self.look.flash {
            Some(flash) => flash.on == 0 && flash.off > 0,
            None => false,
        }
    }

    /// The moment at which they begin to be lit, in tenths of a second since their page began.
    fn first_lit(&self) -> u64 {
        match self.look.flash {
            Some(flash) if flash.off_first && flash.on > 0 => u64::from(flash.off),
            _ => 0,
        }
    }
}

impl Look {
    /// What is in force after a tag.
    fn behind(self, sign: &Sign, tag: Tag) -> Look {
        let defaults = sign.defaults();
        match tag {
            Tag::NewPage => Look {
                page: self.page.saturating_add(1),
                ..self
            },
            Tag::Flash { off_first, on, off } => Look {
                flash: Some(Flash {
                    off_first,
                    on: on.unwrap_or(defaults.flash_on),
                    off: off.unwrap_or(defaults.flash_off),
                }),
                ..self
            },
            Tag::FlashEnd => Look {
                flash: None,
                ..self
            },
            Tag::Fore(colour) => Look {
                fore: colour.unwrap_or(defaults.fore),
                ..self
            },
            Tag::Back(colour) => Look {
                back: colour.unwrap_or(defaults.back),
                ..self
            },
            _ => self,
        }
    }
}

/// What a sign has in force before the first item.
fn first_look(sign: &Sign) -> Look {
    let defaults = sign.defaults();
    Look {
        page: 0,
        flash: None,
        fore: defaults.fore,
        back: defaults.back,
    }
}

/// The first moments of a page at which something of it begins to be lit, in tenths of a second since it began.
#[derive(Clone, Copy)]
struct Moments {
    moments: [u64; MOMENTS],
    count: usize,
}

impl Moments {
    /// The beginning of the page alone.
    fn new() -> Moments {
        Moments {
            moments: [0; MOMENTS],
            count: 1,
        }
    }

    /// Those that there are.
    fn all(&self) -> &[u64] {
        self.moments.get(..self.count).unwrap_or(&self.moments[..])
    }

    /// Adds one, unless it is there.
    fn add(&mut self, moment: u64) {
        if self.all().contains(&moment) {
            return;
        }
        if let Some(place) = self.moments.get_mut(self.count) {
            *place = moment;
            self.count = self.count.saturating_add(1);
        }
    }
}

/// Whether all pixels are black.
fn is_dark(colours: &[u8]) -> bool {
    for colour in colours {
        if *colour > 0 {
            return false;
        }
    }
    true
}

/// A message with its text.
#[derive(Drop)]
pub(crate) struct Sight<'a> {
    alloc: Global,
    sign: &'a Sign,
    message: &'a [u8],
    /// What is in force after the items so far.
    look: Look,
    /// The first runs of its characters.
    pub(crate) runs: Vec<Run>,
    /// What its tags tell, so that pages are drawn only where text can be hidden.
    plain: Plain,
}

/// A message with one tag before a run and another after it.
fn tagged(
    alloc: Global,
    message: &[u8],
    run: Run,
    before: &str,
    behind: &str,
) -> Result<Vec<u8>, AllocError> {
    joined(
        alloc,
        &[
            between(message, 0, run.from),
            before.as_bytes(),
            between(message, run.from, run.end),
            behind.as_bytes(),
            between(message, run.end, message.len()),
        ],
    )
}

impl<'a> Sight<'a> {
    /// A message that a sign accepts.
    pub(crate) fn of(
        alloc: Global,
        sign: &'a Sign,
        message: &'a [u8],
    ) -> Result<Sight<'a>, AllocError> {
        let mut sight = Sight {
            alloc,
            sign,
            message,
            look: first_look(sign),
            runs: Vec::new(alloc),
            plain: Plain::new(alloc, sign),
        };
        let mut at = 0;
        for _ in 0..message.len() {
            let Some((piece, behind)) = piece_at(message, at) else {
                break;
            };
            sight.see(piece, at, behind)?;
            at = behind;
        }
        Ok(sight)
    }

    /// Passes what stands from one offset to another.
    fn see(&mut self, piece: Piece<'_>, at: usize, end: usize) -> Result<(), AllocError> {
        match piece {
            Piece::Text(text) => self.pass_text(text, at, end),
            Piece::Tag(Tag::HexChar(number)) => {
                self.pass((number != SPACE).then_some(at), at, end)
            }
            Piece::Tag(tag) => {
                self.look = self.look.behind(self.sign, tag);
                self.plain.see(self.sign, tag)
            }
            Piece::Unknown => Ok(()),
        }
    }

    /// Adds characters that aren't written by their numbers.
    fn pass_text(&mut self, text: &[u8], at: usize, end: usize) -> Result<(), AllocError> {
        let spaces = count_of_spaces(text);
        let first = at.saturating_add(spaces);
        self.pass((spaces < text.len()).then_some(first), at, end)
    }

    /// Adds characters that stand from one offset to another, with the offset of the first that is no space.
    fn pass(&mut self, first: Option<usize>, at: usize, end: usize) -> Result<(), AllocError> {
        let look = self.look;
        if first.is_some() {
            self.plain.pass(look.fore);
        }
        if let Some(last) = self.runs.last_mut() {
            if last.end == at {
                last.end = end;
                return Ok(());
            }
        }
        match first {
            Some(from) if self.runs.len() < RUNS => Ok(self.runs.push(Run { from, end, look })?),
            _ => Ok(()),
        }
    }

    /// The colours of a page of a message with added tags at a moment, or nothing if there are none.
    fn colours(&self, octets: &[u8], page: u8, moment: u64) -> Result<Vec<u8>, AllocError> {
        if octets.len() > LONGEST {
            return Ok(Vec::new(self.alloc));
        }
        let Ok(mut checked) = check(self.sign, Source::new(octets)) else {
            return Ok(Vec::new(self.alloc));
        };
        if page >= checked.pages() {
            return Ok(Vec::new(self.alloc));
        }
        PageColours::new(self.alloc, self.sign, &mut checked, page, moment)?.octets(self.alloc)
    }

    /// A message in which a run is never lit, so that nothing of it covers what is below it.
    fn without(&self, message: &[u8], run: Run) -> Result<Vec<u8>, AllocError> {
        let (tag, first, second) = match run.look.flash {
            Some(flash) if flash.off_first => ("[flo{}t{}]", flash.off, flash.on),
            Some(flash) => ("[flt{}o{}]", flash.on, flash.off),
            None => ("[/fl]", 0, 0),
        };
        let times = [Number(first.into()), Number(second.into())];
        let behind = sentence_of(self.alloc, tag, &times)?;
        tagged(self.alloc, message, run, "[flt0o1]", &behind)
    }

    /// A message in which a run has the colour of a tag.
    fn coloured(&self, message: &[u8], run: Run, tag: &str) -> Result<Vec<u8>, AllocError> {
        let fore = Number(run.look.fore.into());
        let behind = sentence_of(self.alloc, "[cf{}]", &[fore])?;
        tagged(self.alloc, message, run, tag, &behind)
    }

    /// The moments of a page at which something of it begins to be lit.
    fn moments(&self, page: u8) -> Moments {
        let mut moments = Moments::new();
        for run in &self.runs {
            if run.look.page == page {
                moments.add(run.first_lit());
            }
        }
        moments
    }

    /// Whether a page looks the same at a moment in two messages.
    fn is_alike(
        &self,
        one: &[u8],
        other: &[u8],
        page: u8,
        moment: u64,
    ) -> Result<bool, AllocError> {
        let first = self.colours(one, page, moment)?;
        let second = self.colours(other, page, moment)?;
        Ok(!first.is_empty() && first.as_slice() == second.as_slice())
    }

    /// Whether a page looks the same at all these moments in two messages.
    fn are_alike(&self, one: &[u8], other: &[u8], page: u8) -> Result<bool, AllocError> {
        for moment in self.moments(page).all() {
            if !self.is_alike(one, other, page, *moment)? {
                return Ok(false);
            }
        }
        Ok(true)
    }

    /// Whether something of a run is seen.
    pub(crate) fn is_seen(&self, run: Run) -> Result<bool, AllocError> {
        if self.plain.shows_text() {
            return Ok(true);
        }
        let without = self.without(self.message, run)?;
        Ok(!self.are_alike(self.message, &without, run.look.page)?)
    }

    /// Whether what stands after a run covers all of it.
    pub(crate) fn is_covered(&self, run: Run) -> Result<bool, AllocError> {
        let dark = self.coloured(self.message, run, "[cf0]")?;
        let lit = self.coloured(self.message, run, "[cf1]")?;
        self.are_alike(&dark, &lit, run.look.page)
    }

    /// How many pixels of a run are seen in a message when it begins to be lit.
    fn pixels_seen(&self, message: &[u8], run: Run) -> Result<usize, AllocError> {
        let dark = self.coloured(message, run, "[cf0]")?;
        let lit = self.coloured(message, run, "[cf1]")?;
        let (page, moment) = (run.look.page, run.first_lit());
        let first = self.colours(&dark, page, moment)?;
        let second = self.colours(&lit, page, moment)?;
        let mut count: usize = 0;
        for (pixel, colour) in first.iter().enumerate() {
            if second.get(pixel).is_some_and(|other| *other != *colour) {
                count = count.saturating_add(1);
            }
        }
        Ok(count)
    }

    /// The message in which the text of a page that stands after a run is never lit.
    fn without_later(&self, run: Run) -> Result<Vec<u8>, AllocError> {
        let mut message = self.message.to_vec(self.alloc)?;
        for other in self.runs.iter().rev() {
            if other.from > run.from && other.look.page == run.look.page {
                message = self.without(&message, *other)?;
            }
        }
        Ok(message)
    }

    /// Whether text that stands after a run covers a part of it.
    pub(crate) fn is_partly_covered(&self, run: Run) -> Result<bool, AllocError> {
        if self.plain.shows_text() {
            return Ok(false);
        }
        let without = self.without_later(run)?;
        let alone = self.pixels_seen(&without, run)?;
        Ok(self.pixels_seen(self.message, run)? < alone)
    }

    /// The pages among so many first ones, counted from 0, on which nothing is lit.
    pub(crate) fn dark_pages(&self, pages: u8) -> Result<Vec<u8>, AllocError> {
        let mut dark = Vec::new(self.alloc);
        for page in 0..pages {
            if !self.is_lit(page)? {
                dark.push(page)?;
            }
        }
        Ok(dark)
    }

    /// Whether a pixel of a page is lit at one of its moments.
    fn is_lit(&self, page: u8) -> Result<bool, AllocError> {
        let has_text = self.has_text(page);
        if self.plain.shows_text() && (has_text || self.plain.is_dark_without_text()) {
            return Ok(has_text);
        }
        for moment in self.moments(page).all() {
            if self.is_lit_at(page, *moment)? {
                return Ok(true);
            }
        }
        Ok(false)
    }

    /// Whether a page has text, as far as runs were looked at.
    fn has_text(&self, page: u8) -> bool {
        for run in &self.runs {
            if run.look.page == page {
                return true;
            }
        }
        self.runs.len() >= RUNS
    }

    /// Whether a pixel of a page is lit at a moment, as far as it can be told.
    fn is_lit_at(&self, page: u8, moment: u64) -> Result<bool, AllocError> {
        let colours = self.colours(self.message, page, moment)?;
        Ok(colours.is_empty() || !is_dark(&colours))
    }
}
