//! The first lines of an explanation.
ghost use Rattle.std.specs.Prelude.{◌≡◌, ◌++◌, ◌<◌, ◌≤◌, ◌^◌, OnOk};
ghost use Rattle.message_report.specs.Phrases.{accepted_text, error_text, head_text, line_head, place_text, refused_text, too_long_text};
ghost use Rattle.message_report.specs.Names.{name_of};

use crate::explanation::Piece::{Number, Octets};
use crate::explanation::{Explanation, push_all, push_number, push_octets};
use std::alloc::AllocError;

/// The name of an error (NTCIP 1203 v03, dmsMultiSyntaxError).
#[tactic(auto, unfolding(crate::specs::Names::name_of))]
pub(crate) fn name_of(code: u8) -> &'static str
    ensures { result.now ≡ name_of code }
{
    match code {
        3 => "unsupportedTag",
        4 => "unsupportedTagValue",
        5 => "textTooBig",
        6 => "fontNotDefined",
        7 => "characterNotDefined",
        11 => "tagConflict",
        12 => "tooManyPages",
        _ => "fontVersionID",
    }
}

/// Appends the number of the line of a message.
#[tactic(auto, unfolding(crate::specs::Phrases::line_head))]
#[inline(always)]
pub(crate) fn push_line_head(text: &mut Explanation, line: u32) -> Result<(), AllocError>
    ensures { OnOk result (text.new ≡ text.old ++ line_head line) }
{
    push_octets(text, b"line ")?;
    push_number(text, u64::from(line))?;
    push_octets(text, b": ")
}

/// Appends a place: the name of a file, a line, and the column of an octet, which is counted from 0 here.
#[tactic(auto, unfolding(crate::specs::Phrases::place_text))]
pub(crate) fn push_place(
    text: &mut Explanation,
    name: &[u8],
    line: u32,
    at: usize,
) -> Result<(), AllocError>
    requires small { at < 2 ^ 63 }
    ensures { OnOk result (text.new ≡ text.old ++ place_text name.now line at) }
{
    push_all(
        text,
        &[
            Octets(name),
            Octets(b":"),
            Number(u64::from(line)),
            Octets(b":"),
            Number(at as u64 + 1),
            Octets(b": "),
        ],
    )
}

/// Appends the name and the number of an error.
#[tactic(auto, unfolding(crate::specs::Phrases::error_text))]
pub(crate) fn push_error(text: &mut Explanation, code: u8) -> Result<(), AllocError>
    ensures { OnOk result (text.new ≡ text.old ++ error_text code) }
{
    push_all(
        text,
        &[
            Octets(name_of(code).as_bytes()),
            Octets(b" ("),
            Number(u64::from(code)),
            Octets(b")"),
        ],
    )
}

/// Appends that a message is refused, with its error and the octet where that stands.
#[tactic(auto, unfolding(crate::specs::Phrases::refused_text))]
pub(crate) fn push_refused(text: &mut Explanation, code: u8, at: usize) -> Result<(), AllocError>
    ensures { OnOk result (text.new ≡ text.old ++ refused_text code at) }
{
    push_octets(text, b"refused: ")?;
    push_error(text, code)?;
    push_all(
        text,
        &[Octets(b" at octet "), Number(at as u64), Octets(b"\n")],
    )
}

/// Appends that a message is accepted, with the number of its pages.
#[inline(always)]
pub(crate) fn push_accepted(text: &mut Explanation, pages: u8) -> Result<(), AllocError>
    ensures { OnOk result (text.new ≡ text.old ++ accepted_text pages) }
{
    if pages == 1 {
        return push_octets(text, b"accepted: 1 page\n");
    }
    if pages >= 10 {
        return push_many_pages(text, pages);
    }
    let mut words = *b"accepted: 0 pages\n";
    words[10] = b'0' + pages;
    push_octets(text, &words)
}

/// The same where the number has more digits than one.
#[tactic(auto, unfolding(crate::specs::Phrases::accepted_text))]
#[inline(never)]
fn push_many_pages(text: &mut Explanation, pages: u8) -> Result<(), AllocError>
    requires many { 10 ≤ pages }
    ensures { OnOk result (text.new ≡ text.old ++ accepted_text pages) }
{
    push_all(
        text,
        &[
            Octets(b"accepted: "),
            Number(u64::from(pages)),
            Octets(b" pages\n"),
        ],
    )
}

/// Appends that a message has too many octets.
#[tactic(auto, unfolding(crate::specs::Phrases::too_long_text))]
pub(crate) fn push_too_long(text: &mut Explanation) -> Result<(), AllocError>
    ensures { OnOk result (text.new ≡ text.old ++ too_long_text) }
{
    push_octets(text, b"too long: a message has at most 4096 octets\n")
}

/// Appends the number of a page, which is counted from 0, among the pages.
#[inline(always)]
pub(crate) fn push_head(text: &mut Explanation, page: u8, pages: u8) -> Result<(), AllocError>
    ensures { OnOk result (text.new ≡ text.old ++ head_text page pages) }
{
    if page >= 9 || pages >= 10 {
        return push_long_head(text, page, pages);
    }
    let mut head = *b"page 1 of 1, ";
    head[5] = b'1' + page;
    head[10] = b'0' + pages;
    push_octets(text, &head)
}

/// The same where a number may have more digits than one.
#[tactic(auto, unfolding(crate::specs::Phrases::head_text))]
#[inline(never)]
fn push_long_head(text: &mut Explanation, page: u8, pages: u8) -> Result<(), AllocError>
    ensures { OnOk result (text.new ≡ text.old ++ head_text page pages) }
{
    push_all(
        text,
        &[
            Octets(b"page "),
            Number(u64::from(page) + 1),
            Octets(b" of "),
            Number(u64::from(pages)),
            Octets(b", "),
        ],
    )
}
