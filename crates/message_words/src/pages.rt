//! Which pages of a message are too short to be read.
ghost use Rattle.std.specs.Prelude.{◌≡◌, IfOk, map};
ghost use Rattle.message_words.specs.PageTimes.{times_data};
ghost use Rattle.message_words.specs.OnPages.{is_short, is_shown_always, page_texts, short_pages, short_places};

use crate::items::{is_letter, is_page};
use crate::said::Said;
use crate::times::Times;
use std::alloc::{AllocError, Global};

/// The least time for which a page is shown without a warning, in tenths of a second (own).
const LEAST: u8 = 5;

/// How many characters are read in a second (own).
const LETTERS: usize = 4;

/// The text of a page (own).
#[derive(Clone, Copy)]
pub(crate) struct PageText {
    /// The octet where the page begins, counted from 0.
    pub(crate) begin: usize,
    /// How many characters it shows that are no spaces.
    pub(crate) letters: usize,
}

/// The pages of a message, the items of which say this. The error says that memory was refused.
pub(crate) fn page_texts(alloc: Global, said: &[Said]) -> Result<Vec<PageText>, AllocError>
    ensures { IfOk result (λ pages. pages.items ≡ page_texts said.now) }
{
    let mut pages = Vec::new(alloc);
    let mut begin = 0;
    let mut letters = 0;
    for one in said {
        if is_page(one.tag) {
            pages.push(PageText { begin, letters })?;
            begin = one.end;
            letters = 0;
        } else if is_letter(one.tag) {
            letters += 1;
        }
    }
    pages.push(PageText { begin, letters })?;
    Ok(pages)
}

/// Whether a page is shown for too short a time, which is given in tenths of a second.
pub(crate) fn is_short(on: u8, letters: usize) -> bool
    ensures { result ≡ is_short on letters }
{
    on < LEAST || usize::from(on / 10) < letters / LETTERS
}

/// Whether one page is shown all the time.
fn is_shown_always(times: &[Times]) -> bool
    ensures { result ≡ is_shown_always (map times_data times.now) }
{
    if times.len() == 1 {
        return true;
    }
    for one in times {
        if one.on > 0 || one.off > 0 {
            return false;
        }
    }
    true
}

/// Where the pages begin that are too short, by the times of each. The error says that memory was refused.
fn short_places(
    alloc: Global,
    times: &[Times],
    pages: &[PageText],
) -> Result<Vec<usize>, AllocError>
    ensures { IfOk result (λ places. places.items ≡ short_places (map times_data times.now) pages.now) }
{
    let mut places = Vec::new(alloc);
    let count = times.len().min(pages.len());
    for page in 0..count {
        let one = times[page];
        let text = pages[page];
        if is_short(one.on, text.letters) {
            places.push(text.begin)?;
        }
    }
    Ok(places)
}

/// Where the pages of a message begin that are too short. The error says that memory was refused.
pub(crate) fn short_pages(
    alloc: Global,
    times: &[Times],
    said: &[Said],
) -> Result<Vec<usize>, AllocError>
    ensures { IfOk result (λ places. places.items ≡ short_pages (map times_data times.now) (page_texts said.now)) }
{
    if is_shown_always(times) {
        return Ok(Vec::new(alloc));
    }
    let pages = page_texts(alloc, said)?;
    short_places(alloc, times, &pages)
}
