//! How deep a text nests, seen before it is read as TOML.

ghost use Rattle.std.specs.Prelude.{◌≡◌, ◌<◌, ◌≤◌, ℕ, ◌∷◌, List, length, slice_index, is_none, IfErr, IfOk, IfSome};
ghost use Rattle.toml.specs.Parse as grammar;
ghost use Rattle.sign_file.specs.Nesting as spec;
ghost use Rattle.sign_file.specs.Nesting.{FewLevelsFit, ShortNamesFit, fits, is_shallow};
ghost use Rattle.sign_file.specs.internal.Octets.{IsWithin, fits_after};

use crate::fault::FileFault;
use std::alloc::Global;
use toml_parser::text::{byte_at, first, skip, skip_blank};
use toml_parser::{ParseError, quoted, starts_string};

/// How many brackets may be open at once.
const MOST_BRACKETS: u8 = 16;

/// How many dots a name may have.
const MOST_DOTS: u8 = 3;

/// What is nested before an octet.
#[derive(Clone, Copy)]
struct Nested {
    /// The brackets that are open, 0 to 16.
    brackets: u8,
    /// The dots of the name that it may be in, 0 to 3.
    dots: u8,
}

/// Whether an octet opens an array, an inline table or a header.
fn opens(octet: u8) -> bool
    ensures { result ≡ spec.opens octet }
{
    octet == b'[' || octet == b'{'
}

/// Whether an octet closes one.
fn closes(octet: u8) -> bool
    ensures { result ≡ spec.closes octet }
{
    octet == b']' || octet == b'}'
}

/// Whether no name goes on after an octet.
fn ends_name(octet: u8) -> bool
    ensures { result ≡ spec.ends_name octet }
{
    opens(octet) || closes(octet) || matches!(octet, b'=' | b',' | b'\n')
}

/// What is nested after an octet outside strings and comments, or `None` if that is more than may be.
fn after(nested: Nested, octet: u8) -> Option<Nested>
    requires { IsWithin nested }
    ensures fits { (octets : List ℕ) → fits nested.brackets nested.dots (octet ∷ octets) ≡ fits_after result octets }
    ensures within { IfSome result IsWithin }
{
    let Nested { brackets, dots } = nested;
    if opens(octet) {
        if brackets == MOST_BRACKETS {
            return None;
        }
        Some(Nested {
            brackets: brackets + 1,
            dots: 0,
        })
    } else if closes(octet) {
        Some(Nested {
            brackets: brackets.saturating_sub(1),
            dots: 0,
        })
    } else if ends_name(octet) {
        Some(Nested { brackets, dots: 0 })
    } else if octet == b'.' {
        if dots == MOST_DOTS {
            return None;
        }
        Some(Nested {
            brackets,
            dots: dots + 1,
        })
    } else {
        Some(nested)
    }
}

/// What stands after the mark by which a text may say how its octets are ordered.
fn skip_bom(text: &str) -> &str
    ensures rest { result.now ≡ grammar.skip_bom text.now }
    ensures within { length result.now ≤ length text.now }
{
    if first(text) == 0xEF && byte_at(text, 1) == 0xBB && byte_at(text, 2) == 0xBF {
        &text[3..]
    } else {
        text
    }
}

/// The octet at the front, which begins no string, and what stands after it; a comment is the end of its line.
fn mark_of(text: &str) -> (u8, &str)
    requires some { 0 < slice_index text.now 0 }
    requires ascii { slice_index text.now 0 < 128 }
    ensures mark { (result.0, result.1.now) ≡ spec.mark_of text.now }
    ensures shorter { length result.1.now < length text.now }
{
    match first(text) {
        b'#' => (b'\n', skip_blank(text, true)),
        octet => (octet, skip(text, 1)),
    }
}

/// Where a text nests deeper than a sign file may, counted in octets from 0, or `None` if it doesn't (own).
///
/// A sign file has at most 16 brackets open at once, and at most 3 dots in a name. The error is `Memory` where memory was refused.
pub fn deep_at(alloc: Global, text: &str) -> Result<Option<usize>, FileFault>
    ensures shallow { IfOk result (λ at. is_none at ≡ is_shallow text.now) }
    ensures memory { IfErr result (λ e. e ≡ FileFault.Memory) }
{
    let mut rest = skip_bom(text);
    let mut nested = Nested {
        brackets: 0,
        dots: 0,
    };
    'octets: loop {
        let octet = first(rest);
        if octet == 0 || octet >= 128 {
            return Ok(None);
        }
        if starts_string(rest) {
            match quoted(alloc, rest) {
                Ok((_, behind)) => rest = behind,
                Err(ParseError::OutOfMemory) => return Err(FileFault::Memory),
                Err(ParseError::At(..)) => return Ok(None),
            }
            continue;
        }
        let (mark, behind) = mark_of(rest);
        match after(nested, mark) {
            Some(more) => nested = more,
            None => return Ok(Some(text.len().saturating_sub(rest.len()))),
        }
        rest = behind;
    }
}

/// No text is refused for its brackets whose arrays and tables, as TOML has them, are nested at most 16 deep (own).
pub fn few_levels_fit()
    ensures { FewLevelsFit }
{}

/// No text is refused whose arrays and tables, as TOML has them, are nested at most 16 deep, and whose names have at most 4 parts (own).
pub fn short_names_fit()
    ensures { ShortNamesFit }
{}
