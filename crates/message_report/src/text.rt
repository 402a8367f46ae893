//! Words for people that are appended.
ghost use Rattle.std.specs.Prelude.{◌≡◌, ◌≢◌, ◌∷◌, ◌++◌, [], List, ℕ, codes, OnOk, if◌then◌else◌};
ghost use Rattle.message_report.specs.Notes.{AreWarned, flash_text, flashing_text, legend_text, marks_text, still_text, warned_text};
ghost use Rattle.message_words.specs.Codes.{code_text};
ghost use Rattle.message_report.specs.Words.{GrowsBy, GrowsByLine, GrowsByLineOf, GrowsInLine, IsLineOf, IsOneLine, is_head};

use crate::accepted::AcceptedMessage;
use crate::explanation::Piece::{Number, Octets};
use crate::explanation::{Explanation, push_all, push_number, push_octet, push_octets};
use crate::picture::Picture;
use message_words::{
    COLOUR_MARKS, FLASHING, MORE, MessageLine, NO_TIMES, PIXEL_MARKS, Times, Warning, WarningCode,
    page_times,
};
use sign_font::Sign;
use std::alloc::{AllocError, Global};

/// An octet of a line: a question mark stands in place of a line feed.
fn in_line(octet: u8) -> u8
    ensures { result ≢ 10 }
{
    if octet == b'\n' { b'?' } else { octet }
}

/// Appends octets, with a question mark in place of a line feed. Few have one.
fn push_in_line(text: &mut Explanation, octets: &[u8]) -> Result<(), AllocError>
    ensures { OnOk result (GrowsInLine text.old text.new) }
{
    if !octets.contains(&b'\n') {
        return push_octets(text, octets);
    }
    for octet in octets {
        push_octet(text, in_line(*octet))?;
    }
    Ok(())
}

/// Appends words as one line, with a question mark in place of a line feed.
pub(crate) fn push_line(text: &mut Explanation, words: &[u8]) -> Result<(), AllocError>
    ensures { OnOk result (GrowsByLine text.old text.new) }
{
    push_in_line(text, words)?;
    push_octet(text, b'\n')
}

/// Whether octets begin as the line of a verdict does.
fn is_head(octets: &[u8]) -> bool
    ensures { result ≡ is_head octets.now }
{
    let [l, i, n, e, space, digit, ..] = octets else {
        return false;
    };
    *l == b'l'
        && *i == b'i'
        && *n == b'n'
        && *e == b'e'
        && *space == b' '
        && *digit >= b'0'
        && *digit <= b'9'
}

/// Appends a line but for its line feed, with a space before it if it begins as that of a verdict does and these octets don't.
fn push_set_off(text: &mut Explanation, octets: &[u8], line: &[u8]) -> Result<(), AllocError>
    requires line { IsOneLine line.now }
    ensures { OnOk result ((words : List ℕ) × IsLineOf octets.now words × (text.new ≡ text.old ++ words)) }
{
    if is_head(line) && !is_head(octets) {
        push_octet(text, b' ')?;
        return push_octets(text, line);
    }
    push_octets(text, line)
}

/// Appends words on octets as one line, with a question mark in place of a line feed. If they begin as the line of a verdict does and the
/// octets don't, a space comes before them.
pub(crate) fn push_line_of(
    text: &mut Explanation,
    alloc: Global,
    octets: &[u8],
    words: &[u8],
) -> Result<(), AllocError>
    ensures { OnOk result (GrowsByLineOf octets.now text.old text.new) }
{
    let mut line = Explanation::new(alloc);
    push_in_line(&mut line, words)?;
    push_set_off(text, octets, line.octets())?;
    push_octet(text, b'\n')?;
    Ok(())
}

/// Appends that more octets of a message stand after those that are shown, if they do.
#[inline(always)]
fn push_more(text: &mut Explanation, more: bool) -> Result<(), AllocError>
    ensures { OnOk result (text.new ≡ text.old ++ (if more then codes " .." else [])) }
{
    if more {
        push_octets(text, MORE.as_bytes())
    } else {
        Ok(())
    }
}

/// Appends a message as a line.
#[inline(always)]
pub(crate) fn push_message(
    text: &mut Explanation,
    alloc: Global,
    message: &[u8],
) -> Result<(), AllocError>
    ensures { OnOk result (GrowsByLineOf message.now text.old text.new) }
{
    let line = MessageLine(message);
    let Some((front, more)) = line.as_plain() else {
        let words = line.to_string(alloc)?;
        return push_line_of(text, alloc, message, words.as_bytes());
    };
    push_octets(text, front)?;
    push_more(text, more)?;
    push_octet(text, b'\n')?;
    Ok(())
}

/// Appends a time, which is given in tenths of a second, in seconds.
#[inline(always)]
fn push_seconds(text: &mut Explanation, tenths: u8) -> Result<(), AllocError>
    ensures { OnOk result (GrowsInLine text.old text.new) }
{
    if tenths >= 100 {
        return push_long_seconds(text, tenths);
    }
    let mut words = *b"0.0 seconds";
    words[0] = b'0' + tenths / 10;
    words[2] = b'0' + tenths % 10;
    push_octets(text, &words)
}

/// The same for ten seconds and more.
#[inline(never)]
fn push_long_seconds(text: &mut Explanation, tenths: u8) -> Result<(), AllocError>
    ensures { OnOk result (GrowsInLine text.old text.new) }
{
    push_number(text, u64::from(tenths / 10))?;
    push_octet(text, b'.')?;
    push_number(text, u64::from(tenths % 10))?;
    push_octets(text, b" seconds")?;
    Ok(())
}

/// Appends how long the sign is dark after a page, unless it isn't.
#[inline(always)]
fn push_dark_for(text: &mut Explanation, off: u8) -> Result<(), AllocError>
    ensures { OnOk result (GrowsInLine text.old text.new) }
{
    if off == 0 {
        return Ok(());
    }
    push_octets(text, b", then dark for ")?;
    push_seconds(text, off)?;
    Ok(())
}

/// Appends how long a page is shown, and how long the sign is dark after it, to the end of a line.
#[inline(always)]
fn push_shown_for(text: &mut Explanation, times: Times) -> Result<(), AllocError>
    ensures { OnOk result (GrowsByLine text.old text.new) }
{
    push_octets(text, b"shown for ")?;
    push_seconds(text, times.on)?;
    push_dark_for(text, times.off)?;
    push_octets(text, b":\n")?;
    Ok(())
}

/// The times of the pages of a message of so many. One page is shown all the time, and has none here.
#[inline(always)]
pub(crate) fn times_of(message: &AcceptedMessage<'_>, pages: u8) -> Result<Vec<Times>, AllocError> {
    if pages == 1 {
        return Ok(Vec::new(message.alloc));
    }
    page_times(message.alloc, message.sign, message.message)
}

/// Appends how long a page is shown, and how long the sign is dark after it, to the end of a line, by the times of all pages.
#[inline(always)]
pub(crate) fn push_times(
    text: &mut Explanation,
    times: &[Times],
    page: u8,
) -> Result<(), AllocError>
    ensures { OnOk result (GrowsByLine text.old text.new) }
{
    if let Some(times) = times.get(usize::from(page)) {
        return push_shown_for(text, *times);
    }
    push_octets(text, b"shown all the time:\n")?;
    Ok(())
}

/// Appends what the marks of the pictures mean, if they have marks.
#[inline(always)]
fn push_marks(text: &mut Explanation, sign: &Sign, picture: Picture) -> Result<(), AllocError>
    ensures { OnOk result (text.new ≡ text.old ++ marks_text picture sign.now.classic) }
{
    match picture {
        Picture::Marks if sign.classic() => push_octets(text, COLOUR_MARKS.as_bytes()),
        Picture::Marks => push_octets(text, PIXEL_MARKS.as_bytes()),
        Picture::Blocks => Ok(()),
    }
}

/// Appends that pages don't change, if they don't.
#[inline(always)]
fn push_still(text: &mut Explanation, is_still: bool) -> Result<(), AllocError>
    ensures { OnOk result (text.new ≡ text.old ++ still_text is_still) }
{
    if is_still {
        push_octets(text, NO_TIMES.as_bytes())
    } else {
        Ok(())
    }
}

/// Appends that text flashes, and when its page is drawn.
fn push_flash(text: &mut Explanation, phase: u64) -> Result<(), AllocError>
    ensures { OnOk result (text.new ≡ text.old ++ flash_text phase) }
{
    let [before, behind] = FLASHING;
    push_all(
        text,
        &[
            Octets(before.as_bytes()),
            Number(phase),
            Octets(behind.as_bytes()),
        ],
    )?;
    Ok(())
}

/// The same, if it does.
#[inline(always)]
fn push_flashing(text: &mut Explanation, flashes: bool, phase: u64) -> Result<(), AllocError>
    ensures { OnOk result (text.new ≡ text.old ++ flashing_text flashes phase) }
{
    if flashes {
        push_flash(text, phase)
    } else {
        Ok(())
    }
}

/// Appends what the marks of the pictures mean, and what pictures don't show: that pages don't change, and that text flashes.
#[inline(always)]
pub(crate) fn push_legend(
    text: &mut Explanation,
    message: &AcceptedMessage<'_>,
    is_still: bool,
    picture: Picture,
) -> Result<(), AllocError>
    ensures { OnOk result (text.new ≡ text.old
        ++ legend_text picture message.now.sign.now.classic is_still message.now.found.now.flashes message.now.telling.phase) }
{
    push_marks(text, message.sign, picture)?;
    push_still(text, is_still)?;
    push_flashing(text, message.found.flashes, message.telling.phase)
}

/// Appends a code.
fn push_code(text: &mut Explanation, code: WarningCode) -> Result<(), AllocError>
    ensures { OnOk result (text.new ≡ text.old ++ code_text code) }
{
    push_octets(text, code.text().as_bytes())
}

/// Appends the words of a warning, and its code, to the end of a line.
pub(crate) fn push_coded(text: &mut Explanation, warning: &Warning) -> Result<(), AllocError>
    ensures { OnOk result ((words : List ℕ) × IsOneLine words
        × (text.new ≡ text.old ++ (words ++ codes " (" ++ code_text warning.now.code ++ codes ")\n"))) }
{
    push_in_line(text, warning.words.as_bytes())?;
    push_octets(text, b" (")?;
    push_code(text, warning.code)?;
    push_octets(text, b")\n")?;
    Ok(())
}

/// Appends a warning as a line.
fn push_warning(text: &mut Explanation, warning: &Warning) -> Result<(), AllocError>
    ensures { OnOk result ((words : List ℕ) × IsOneLine words
        × (text.new ≡ text.old ++ warned_text warning.now.at (code_text warning.now.code) words)) }
{
    push_octets(text, b"warning at octet ")?;
    push_number(text, warning.at as u64)?;
    push_octets(text, b": ")?;
    push_coded(text, warning)?;
    Ok(())
}

/// Appends all warnings. Most messages have none.
#[inline(never)]
fn push_each_warning(text: &mut Explanation, warnings: &[Warning]) -> Result<(), AllocError>
    ensures { OnOk result (GrowsBy (AreWarned warnings.now) text.old text.new) }
{
    for warning in warnings {
        push_warning(text, warning)?;
    }
    Ok(())
}

/// Appends the warnings on a message, and the empty line that stands after each explanation.
#[inline(always)]
pub(crate) fn push_warnings(
    text: &mut Explanation,
    message: &AcceptedMessage<'_>,
) -> Result<(), AllocError>
    ensures { OnOk result ((told : List ℕ) × AreWarned message.now.found.now.warnings.items told
        × (text.new ≡ text.old ++ (told ++ 10 ∷ []))) }
{
    push_each_warning(text, &message.found.warnings)?;
    push_octet(text, b'\n')?;
    Ok(())
}
