//! Messages in lines, as editors read them.
ghost use Rattle.std.specs.Prelude.{◌≡◌, ◌++◌, ◌∷◌, ◌<◌, ◌^◌, [], List, ℕ, codes, min, OnOk};
ghost use Rattle.message_words.specs.Codes.{code_text};
ghost use Rattle.message_report.specs.Explanation.{IsWarnings, warning_text};
ghost use Rattle.message_report.specs.Phrases.{error_text, place_text};
ghost use Rattle.message_report.specs.Words.{GrowsBy, IsOneLine};

use crate::explanation::{Explanation, push_octets};
use crate::text::{push_coded, push_line};
use crate::verdict::{push_error, push_place};
use message_words::Warning;
use std::alloc::AllocError;

/// The most octets of a message before the place of a warning (own).
const LAST: usize = 4_096;

/// Appends the line of a refused message.
pub(crate) fn push_error_line(
    text: &mut Explanation,
    name: &[u8],
    line: u32,
    code: u8,
    at: usize,
    reason: &String,
) -> Result<(), AllocError>
    requires small { at < 2 ^ 63 }
    ensures { OnOk result ((words : List ℕ) × IsOneLine words
        × (text.new ≡ text.old
        ++ (place_text name.now line at ++ codes "error: " ++ error_text code ++ codes ": " ++ words ++ 10 ∷ []))) }
{
    push_place(text, name, line, at)?;
    push_octets(text, b"error: ")?;
    push_error(text, code)?;
    push_octets(text, b": ")?;
    push_line(text, reason.as_bytes())?;
    Ok(())
}

/// Appends the line of a warning.
fn push_warning_line(
    text: &mut Explanation,
    name: &[u8],
    line: u32,
    warning: &Warning,
) -> Result<(), AllocError>
    ensures { OnOk result ((words : List ℕ) × IsOneLine words
        × (text.new ≡ text.old ++ warning_text name.now line (min warning.now.at 4096) (code_text warning.now.code) words)) }
{
    push_place(text, name, line, warning.at.min(LAST))?;
    push_octets(text, b"warning: ")?;
    push_coded(text, warning)?;
    Ok(())
}

/// Appends the lines of all warnings.
#[inline(never)]
pub(crate) fn push_warning_lines(
    text: &mut Explanation,
    name: &[u8],
    line: u32,
    warnings: &[Warning],
) -> Result<(), AllocError>
    ensures { OnOk result (GrowsBy (IsWarnings name.now line warnings.now) text.old text.new) }
{
    for warning in warnings {
        push_warning_line(text, name, line, warning)?;
    }
    Ok(())
}
