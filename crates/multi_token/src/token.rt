//! Tokens of a counted source.

ghost use Rattle.std.specs.Prelude.{◌≡◌, ◌+◌, ◌-◌, ◌^◌, ◌<◌, ◌≤◌, ◌⊎◌, length, drop, slice_get, IfOk, IfErr, IfSome, IfNone, OnErr, IsErr, Ok, None};
ghost use Rattle.multi_token.specs.Counted.{charged, RisesBetween};
ghost use Rattle.multi_token.specs.Spelling.{HasNoItem};
ghost use Rattle.multi_token.specs.Tokens.{IsBracketed, IsTokenOf, bracket_steps, octets_of};

use crate::source::Source;
use thiserror::Error;

/// What a token is (NTCIP 1203 v03, MULTI).
#[derive(Clone, Copy, Debug, PartialEq, Eq)]
pub enum Kind {
    /// A character, by its number: 0 to 255.
    Char(u8),
    /// A tag. Its body is the octets between the first octet of the token and the last.
    Tag,
}

/// One item of a string: the offset of its first octet, the number of octets that spell it, and its kind.
#[derive(Clone, Copy, Debug, PartialEq, Eq)]
pub struct Token {
    pub at: usize,
    pub len: usize,
    pub kind: Kind,
}

/// A broken bracket: at this offset, which is before the end, no item is spelled.
#[derive(Clone, Copy, Debug, PartialEq, Eq, Error)]
#[error("a broken bracket at octet {at}")]
pub struct TokenFault {
    pub at: usize,
}

/// The token that is spelled at an offset, or `None` at the end. A broken bracket at the offset is a [`TokenFault`].
///
/// Reading a token takes as many steps as it has octets, and the end takes one. A broken bracket takes at least one step,
/// and at most one more than there are octets from there on.
pub fn next_token(source: &mut Source<'_>, at: usize) -> Result<Option<Token>, TokenFault>
    requires { at ≤ length source.old.octets }
    ensures token { IfOk result (λ o. IfSome o (λ t. (t.at ≡ at) × IsTokenOf source.old.octets t)) }
    ensures end { IfOk result (λ o. IfNone o (at ≡ length source.old.octets)) }
    ensures fault { IfErr result (λ f. (f.at ≡ at) × (at < length source.old.octets)) }
    ensures none_stands { OnErr result (HasNoItem (drop at source.old.octets)) }

    // `None` at the end, and a fault wherever no item stands before it
    ensures at_end { at ≡ length source.old.octets → result ≡ Ok None }
    ensures at_none { at < length source.old.octets → HasNoItem (drop at source.old.octets) → IsErr result }

    // the steps of a token, of the end and of a fault
    ensures token_steps { IfOk result (λ o. IfSome o (λ t. source.new ≡ charged source.old t.len)) }
    ensures end_steps { IfOk result (λ o. IfNone o (source.new ≡ charged source.old 1)) }
    ensures fault_steps { OnErr result (RisesBetween source.old source.new 1 (length source.old.octets - at + 1)) }
{
    let Some(first) = source.read(at) else {
        return Ok(None);
    };
    if first != b'[' && first != b']' {
        return Ok(Some(character(at, 1, first)));
    }
    match read_bracket(source, at, first) {
        Ok(Bracketed::Doubled) => Ok(Some(character(at, 2, first))),
        Ok(Bracketed::Tag(len)) => Ok(Some(Token {
            at,
            len: len + 2,
            kind: Kind::Tag,
        })),
        Err(fault) => Err(fault),
    }
}

/// What begins with a bracket (NTCIP 1203 v03, MULTI).
#[derive(Clone, Copy, Debug, PartialEq, Eq)]
pub enum Bracketed {
    /// The bracket's own character, which two of them spell.
    Doubled,
    /// A tag, with the number of octets of its body: fewer than a slice can have.
    Tag(usize),
}

impl Bracketed {
    /// The number of octets that spell it.
    pub fn len(&self) -> usize
        requires { octets_of self.now < 2 ^ 63 }
        ensures { result ≡ octets_of self.now }
    {
        match self {
            Bracketed::Doubled => 2,
            Bracketed::Tag(len) => *len + 2,
        }
    }
}

/// What begins with this bracket at an offset, which was read already. A broken bracket is a [`TokenFault`].
///
/// The bracket isn't read again: a doubled bracket takes one step, and a tag one for each octet of its body and one for its last
/// bracket. Of a broken one the octets are read as far as the next bracket or the end, and of a closing one the next octet.
pub fn read_bracket(
    source: &mut Source<'_>,
    at: usize,
    bracket: u8,
) -> Result<Bracketed, TokenFault>
    requires bracket { (bracket ≡ 91) ⊎ (bracket ≡ 93) }
    requires stands { slice_get source.old.octets at ≡ Some bracket }
    // whoever read the octet knows this of the source
    requires room { length source.old.octets < 2 ^ 63 }
    ensures spelled { IfOk result (IsBracketed source.old.octets at bracket) }
    ensures fault { IfErr result (λ f. f.at ≡ at) }
    ensures none_stands { OnErr result (HasNoItem (drop at source.old.octets)) }
    ensures at_none { HasNoItem (drop at source.old.octets) → IsErr result }

    // the steps of what is spelled and of a fault
    ensures steps { IfOk result (λ spelled. source.new ≡ charged source.old (octets_of spelled - 1)) }
    ensures fault_steps { OnErr result (source.new ≡ charged source.old (bracket_steps bracket (drop (at + 1) source.old.octets))) }
{
    if bracket == b'[' {
        open_bracket(source, at)
    } else {
        close_bracket(source, at)
    }
}

/// What begins with an opening bracket, which is read already.
fn open_bracket(source: &mut Source<'_>, at: usize) -> Result<Bracketed, TokenFault>
    requires stands { slice_get source.old.octets at ≡ Some 91 }
    requires room { length source.old.octets < 2 ^ 63 }
    ensures spelled { IfOk result (λ spelled.
        IsBracketed source.old.octets at 91 spelled × (source.new ≡ charged source.old (octets_of spelled - 1))) }
    ensures fault { IfErr result (λ f. (f.at ≡ at) × HasNoItem (drop at source.old.octets)
        × (source.new ≡ charged source.old (bracket_steps 91 (drop (at + 1) source.old.octets)))) }
{
    let (body, ending) = source.read_plain(at + 1, usize::MAX);
    let len = body.len();
    if len == 0 {
        if ending == Some(b'[') {
            Ok(Bracketed::Doubled)
        } else {
            Err(TokenFault { at })
        }
    } else if ending == Some(b']') {
        Ok(Bracketed::Tag(len))
    } else {
        Err(TokenFault { at })
    }
}

/// What begins with a closing bracket, which is read already.
fn close_bracket(source: &mut Source<'_>, at: usize) -> Result<Bracketed, TokenFault>
    requires stands { slice_get source.old.octets at ≡ Some 93 }
    requires room { length source.old.octets < 2 ^ 63 }
    ensures spelled { IfOk result (λ spelled.
        IsBracketed source.old.octets at 93 spelled × (source.new ≡ charged source.old (octets_of spelled - 1))) }
    ensures fault { IfErr result (λ f. (f.at ≡ at) × HasNoItem (drop at source.old.octets) × (source.new ≡ charged source.old 1)) }
{
    if source.read(at + 1) == Some(b']') {
        Ok(Bracketed::Doubled)
    } else {
        Err(TokenFault { at })
    }
}

/// A character that is spelled by `len` octets.
fn character(at: usize, len: usize, number: u8) -> Token
    ensures { result ≡ record { at = at; len = len; kind = Kind.Char number } }
{
    Token {
        at,
        len,
        kind: Kind::Char(number),
    }
}
