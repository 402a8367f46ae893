//! Reading a line.

ghost use Rattle.std.specs.Prelude.{◌≡◌, ◌*◌, ◌<◌, IfOk, length, option_map, vec_capacity};
ghost use Rattle.sign_script.specs.Asks.{IsPlain, WritesHex, ask_of, ask_of_line, ask_with, bare, bare_command};
ghost use Rattle.sign_script.specs.Fields.{Gives, left, message_octets, octets_of, text_of};
ghost use Rattle.sign_script.specs.Spelling.{IsSpelled};
ghost use Rattle.sign_script.specs.declared.ask.Ask.{Ask};
ghost use Rattle.sign_script.specs.internal.Shared.{octets_set, valued};

use crate::ask::{Ask, LineFault};
use crate::fields::{
    at_end, last_message, last_number, last_octet, left, message_value, next_message, parted,
    text_of,
};
use crate::hexadecimal::{last_octets, read_octets};
use crate::verb::{Verb, field_of};
use message_store::MsgRef;
use sign_control::Command;

/// The octets of an even number of hexadecimal digits, in either case (own). They are put in `octets`; what stood there is lost.
///
/// The error `Bad` says that they write no octets. `Memory` comes only if `octets` has room for less than half as many octets.
pub fn octets_of<'a>(digits: &[u8], octets: &'a mut Vec<u8>) -> Result<&'a [u8], LineFault>
    ensures read { Gives (λ read. read.now) result (octets_of digits.now) }
    ensures memory { result ≡ Err LineFault.Memory → 2 * vec_capacity octets.old < length digits.now }
{
    if octets.resize(digits.len() / 2, 0).is_err() {
        return Err(LineFault::Memory);
    }
    if !read_octets(digits, octets) {
        return Err(LineFault::Bad);
    }
    Ok(octets)
}

/// The message that the next two fields name, and the octets that the rest of the line writes in hexadecimal.
fn message_octets<'a>(rest: &[u8], octets: &'a mut Vec<u8>) -> Result<(MsgRef, &'a [u8]), LineFault>
    ensures read { Gives (λ read. (read.0, read.1.now)) result (message_octets (left rest.now)) }
    ensures memory { result ≡ Err LineFault.Memory → 2 * vec_capacity octets.old < length (text_of (left rest.now)) }
{
    match next_message(rest) {
        Some((message, rest)) => Ok((message, octets_of(text_of(rest), octets)?)),
        None => Err(LineFault::Bad),
    }
}

/// The default that a line sets.
fn default_set(rest: &[u8]) -> Option<Ask<'static>>
    ensures { result ≡ ask_with Verb.Default (left rest.now) }
{
    let (name, rest) = parted(left(rest)?);
    let field = field_of(name)?;
    Some(Ask::Command(Command::SetDefault(field, last_octet(rest)?)))
}

/// The command of a verb whose fields are a message and a value.
fn valued(verb: Verb, message: MsgRef, value: u8) -> Command<'static>
    ensures { result ≡ valued verb message value }
{
    match verb {
        Verb::Priority => Command::SetPriority(message, value),
        Verb::Beacon => Command::SetBeacon(message, value),
        Verb::Pixel => Command::SetPixelService(message, value),
        _ => Command::Request(message, value),
    }
}

/// The command of a verb whose fields are a message and octets in hexadecimal.
fn octets_set(verb: Verb, message: MsgRef, octets: &[u8]) -> Command<'_>
    ensures { bare_command result ≡ octets_set verb message octets.now }
{
    match verb {
        Verb::Owner => Command::SetOwner(message, octets),
        _ => Command::SetMulti(message, octets),
    }
}

/// What a verb and what is left of its line ask for, where no octets have to be kept. The verbs whose fields are read in the same way share
/// one reading of these, so that it is part of the call.
fn plain_ask(verb: Verb, rest: &[u8]) -> Option<Ask<'_>>
    ensures { IsPlain verb → option_map bare result ≡ ask_with verb (left rest.now) }
{
    Some(match verb {
        Verb::Request | Verb::Priority | Verb::Beacon | Verb::Pixel => {
            let (message, value) = message_value(rest)?;
            Ask::Command(valued(verb, message, value))
        }
        Verb::Multi => {
            let (message, rest) = next_message(rest)?;
            Ask::Command(Command::SetMulti(message, text_of(rest)))
        }
        Verb::Clear => at_end(Ask::Command(Command::Clear), rest)?,
        Verb::Work => at_end(Ask::Command(Command::Work), rest)?,
        Verb::Activate => Ask::Command(Command::Activate(last_octets(rest)?)),
        Verb::End => Ask::Command(Command::SetEnd(last_octets(rest)?)),
        Verb::Tick => Ask::Command(Command::Tick(last_number(u32::MAX, rest)?)),
        Verb::Frame => Ask::Frame(last_octet(rest)?),
        Verb::Row => Ask::Row(last_message(rest)?),
        Verb::Report => at_end(Ask::Report, rest)?,
        Verb::Default => default_set(rest)?,
        Verb::Defaults => at_end(Ask::Defaults, rest)?,
        Verb::MultiHex | Verb::Owner => return None,
    })
}

/// What a verb and what is left of its line ask for.
fn ask_with<'a>(verb: Verb, rest: &'a [u8], octets: &'a mut Vec<u8>) -> Result<Ask<'a>, LineFault>
    ensures asked { Gives bare result (ask_with verb (left rest.now)) }
    ensures memory { result ≡ Err LineFault.Memory → 2 * vec_capacity octets.old < length (text_of (left rest.now)) }
    ensures plain { result ≡ Err LineFault.Memory → IsPlain verb → ⊥ }
{
    match verb {
        Verb::MultiHex | Verb::Owner => {
            let (message, read) = message_octets(rest, octets)?;
            Ok(Ask::Command(octets_set(verb, message, read)))
        }
        _ => plain_ask(verb, rest).ok_or(LineFault::Bad),
    }
}

/// What is asked for by the word and the rest of a line.
#[tactic(auto, unfolding(crate::specs::Asks::ask_of_line))]
fn ask_of_line<'a>(line: &'a [u8], octets: &'a mut Vec<u8>) -> Result<Ask<'a>, LineFault>
    ensures asked { Gives bare result (ask_of_line line.now) }
    ensures memory { result ≡ Err LineFault.Memory → 2 * vec_capacity octets.old < length line.now }
    ensures plain { result ≡ Err LineFault.Memory → WritesHex line.now }
{
    match Verb::begin(line) {
        Some((verb, rest)) => ask_with(verb, rest, octets),
        None => Err(LineFault::Bad),
    }
}

/// Reads a line of a script, its octets without a line feed (own). `octets` is room for the octets that the line writes
/// in hexadecimal; what stood there is lost.
///
/// The error `Bad` says that the line is none of the table of this crate. `Memory` says that memory was refused, and
/// leaves open whether the line is one; it comes only if `octets` has room for less than half the octets of the line.
#[tactic(auto, using(crate::proofs::AskLemmas::gives_spelled))]
pub fn read_ask<'a>(line: &'a [u8], octets: &'a mut Vec<u8>) -> Result<Ask<'a>, LineFault>
    ensures asked { Gives bare result (ask_of line.now) }
    ensures spelled { IfOk result (λ ask. IsSpelled ask line.now) }
    ensures bad { result ≡ Err LineFault.Bad → (ask : Ask) → IsSpelled ask line.now → ⊥ }
    ensures memory { result ≡ Err LineFault.Memory → (2 * vec_capacity octets.old < length line.now) × WritesHex line.now }
{
    match line {
        [] | [b'#', ..] => Ok(Ask::Nothing),
        _ => ask_of_line(line, octets),
    }
}
