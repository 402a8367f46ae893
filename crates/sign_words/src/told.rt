//! Text of which machines read parts: each call appends exactly what it says.

ghost use Rattle.std.specs.Prelude.{◌≡◌, ◌++◌, OnOk, decimal, string_bytes};
ghost use Rattle.std.specs.Fmt.{signed_decimal};
ghost use Rattle.sign_words.specs.Told.{quoted};

use serde_json::Value;
use std::alloc::{AllocError, Global};
use std::fmt::Write;

/// Appends words.
pub(crate) fn push_text(text: &mut String, words: &str) -> Result<(), AllocError>
    ensures { OnOk result (string_bytes text.new ≡ string_bytes text.old ++ words.now) }
{
    text.push_str(words)
}

/// Appends a number in decimal.
pub(crate) fn push_count(text: &mut String, count: usize) -> Result<(), AllocError>
    ensures { OnOk result (string_bytes text.new ≡ string_bytes text.old ++ decimal count) }
{
    write!(text, "{count}")
}

/// Appends a number in decimal, with its sign if it is below 0.
pub(crate) fn push_signed(text: &mut String, number: i64) -> Result<(), AllocError>
    ensures { OnOk result (string_bytes text.new ≡ string_bytes text.old ++ signed_decimal number) }
{
    write!(text, "{number}")
}

/// Appends words as JSON writes a text.
#[tactic(auto, unfolding(crate::specs::Told::quoted))]
pub(crate) fn push_quoted(alloc: Global, text: &mut String, words: &str) -> Result<(), AllocError>
    ensures { OnOk result (string_bytes text.new ≡ string_bytes text.old ++ quoted words.now) }
{
    let value = Value::try_from_str(alloc, words)?;
    let quoted = value.to_string(alloc)?;
    push_text(text, &quoted)
}
