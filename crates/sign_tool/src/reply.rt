//! The texts of answers.
ghost use Rattle.std.specs.Prelude.{◌≡◌, ◌++◌, ◌∷◌, OnOk, codes, decimal, take};
ghost use Rattle.sign_tool.specs.Reply.{pages_text, refused_text, too_long_text};

use crate::ready::{Ready, push_number, push_octet, push_octets, push_short};
use std::alloc::AllocError;

/// Appends how many pages an accepted string has.
#[inline(always)]
pub(crate) fn push_pages(text: &mut Ready, pages: u8) -> Result<(), AllocError>
    ensures text { OnOk result (text.new.begun ≡ text.old.begun ++ pages_text pages) }
    ensures whole { text.new.whole ≡ text.old.whole }
{
    if pages < 10 {
        push_short(text, &[b'o', b'k', b' ', b'0' + pages, b'\n', 0, 0, 0], 5)
    } else {
        push_many_pages(text, pages)
    }
}

/// The same where there are many.
#[inline(never)]
fn push_many_pages(text: &mut Ready, pages: u8) -> Result<(), AllocError>
    ensures text { OnOk result (text.new.begun ≡ text.old.begun ++ pages_text pages) }
    ensures whole { text.new.whole ≡ text.old.whole }
{
    push_octets(text, b"ok ")?;
    push_number(text, u64::from(pages))?;
    push_octets(text, b"\n")
}

/// Appends the answer to a string that is refused with an error code for what stands at an octet offset.
pub(crate) fn push_refused(text: &mut Ready, code: u8, at: usize) -> Result<(), AllocError>
    ensures text { OnOk result (text.new.begun ≡ text.old.begun ++ refused_text code at) }
    ensures whole { text.new.whole ≡ text.old.whole }
{
    if code < 10 && at < 10 {
        return push_short(text, &short_refusal(b'0' + code, b'0' + at as u8), 10);
    }
    push_error(text, code)?;
    push_number(text, at as u64)?;
    push_octet(text, b'\n')
}

/// The answer to a refused string by the digits of its error code and offset, and six octets that nothing counts.
fn short_refusal(code: u8, at: u8) -> [u8; 16]
    ensures { take 10 result ≡ codes "error " ++ code ∷ codes " " ++ at ∷ codes "\n" }
{
    [
        b'e', b'r', b'r', b'o', b'r', b' ', code, b' ', at, b'\n', 0, 0, 0, 0, 0, 0,
    ]
}

/// Appends the error code of a refused string, and a space.
fn push_error(text: &mut Ready, code: u8) -> Result<(), AllocError>
    ensures text { OnOk result (text.new.begun ≡ text.old.begun ++ (codes "error " ++ decimal code ++ codes " ")) }
    ensures whole { text.new.whole ≡ text.old.whole }
{
    if code < 10 {
        return push_short(
            text,
            &[b'e', b'r', b'r', b'o', b'r', b' ', b'0' + code, b' '],
            8,
        );
    }
    push_octets(text, b"error ")?;
    push_number(text, u64::from(code))?;
    push_octet(text, b' ')
}

/// Appends the answer to a string with too many octets.
pub(crate) fn push_too_long(text: &mut Ready) -> Result<(), AllocError>
    ensures text { OnOk result (text.new.begun ≡ text.old.begun ++ too_long_text) }
    ensures whole { text.new.whole ≡ text.old.whole }
{
    push_octets(text, b"too long\n")
}
