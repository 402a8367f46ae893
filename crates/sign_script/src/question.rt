//! What a line asks for while a sign is served.

ghost use Rattle.std.specs.Prelude.{◌≡◌, ◌*◌, ◌<◌, IfOk, length, vec_capacity};
ghost use Rattle.std.specs.List.{find};
ghost use Rattle.std.specs.Option.{option_map};
ghost use Rattle.std.specs.Str.{bytes_eq};
ghost use Rattle.sign_script.specs.Asks.{WritesHex};
ghost use Rattle.sign_script.specs.Fields.{Gives, left};
ghost use Rattle.sign_script.specs.Questions.{IsAsked, bare_question, more_asked, more_with, query_of, query_word, question_of};
ghost use Rattle.sign_script.specs.declared.question.Question.{Question};

use crate::ask::{Ask, LineFault};
use crate::fields::{at_end, last_octet, next_message, next_number, parted, text_of};
use crate::read::read_ask;
use message_store::MsgRef;

/// What a line asks for while a sign is served (own).
#[derive(Clone, Copy, Debug, PartialEq, Eq)]
pub enum Question<'a> {
    /// What a line of a script asks for.
    Script(Ask<'a>),
    /// The colours of all pixels of what the display shows.
    Colours,
    /// The verdict on a text, by the defaults in force.
    Verdict(&'a [u8]),
    /// The CRC of a message with this text, whose beacon and pixel service are 0.
    Crc(&'a [u8]),
    /// The tenths of a second until what the display shows changes.
    Next,
    /// The activation code of a message as it stands, for a duration in minutes and a priority.
    Code(MsgRef, u16, u8),
    /// The lines that may be asked.
    Help,
    /// The verdict on the text that these digits write, as [`octets_of`](crate::octets_of) reads them.
    VerdictHex(&'a [u8]),
    /// The CRC of a message with the text that these digits write.
    CrcHex(&'a [u8]),
    /// The state of the sign, as octets.
    Save,
    /// The state that the octets give which these digits write.
    Restore(&'a [u8]),
}

/// The word of a line that only a served sign answers (own).
#[derive(Clone, Copy)]
pub(crate) enum Query {
    Colours,
    Verdict,
    Crc,
    Next,
    Code,
    Help,
    VerdictHex,
    CrcHex,
    Save,
    Restore,
}

const QUERIES: [Query; 10] = [
    Query::Colours,
    Query::Verdict,
    Query::Crc,
    Query::Next,
    Query::Code,
    Query::Help,
    Query::VerdictHex,
    Query::CrcHex,
    Query::Save,
    Query::Restore,
];

/// The word itself.
fn query_word(query: Query) -> &'static [u8]
    ensures { result.now ≡ query_word query }
{
    match query {
        Query::Colours => b"colours",
        Query::Verdict => b"verdict",
        Query::Crc => b"crc",
        Query::Next => b"next",
        Query::Code => b"code",
        Query::Help => b"help",
        Query::VerdictHex => b"verdictx",
        Query::CrcHex => b"crcx",
        Query::Save => b"save",
        Query::Restore => b"restore",
    }
}

/// The first of these that has this word.
fn first_query(queries: &[Query], text: &[u8]) -> Option<Query>
    ensures { result ≡ find (λ query. bytes_eq text.now (query_word query)) queries.now }
{
    queries
        .iter()
        .copied()
        .find(|query| text == query_word(*query))
}

/// The one of a word.
#[tactic(auto, unfolding(crate::specs::Questions::query_of))]
fn query_of(text: &[u8]) -> Option<Query>
    ensures { result ≡ query_of text.now }
{
    first_query(&QUERIES, text)
}

/// What such a word and what is left of its line ask for.
fn more_with(query: Query, rest: &[u8]) -> Option<Question<'_>>
    ensures { option_map bare_question result ≡ more_with query (left rest.now) }
{
    Some(match query {
        Query::Colours => at_end(Question::Colours, rest)?,
        Query::Verdict => Question::Verdict(text_of(rest)),
        Query::Crc => Question::Crc(text_of(rest)),
        Query::Next => at_end(Question::Next, rest)?,
        Query::Code => {
            let (message, rest) = next_message(rest)?;
            let (duration, rest) = next_number(65535, rest)?;
            Question::Code(message, duration as u16, last_octet(rest)?)
        }
        Query::Help => at_end(Question::Help, rest)?,
        Query::VerdictHex => Question::VerdictHex(text_of(rest)),
        Query::CrcHex => Question::CrcHex(text_of(rest)),
        Query::Save => at_end(Question::Save, rest)?,
        Query::Restore => Question::Restore(text_of(rest)),
    })
}

/// What is asked for by a line that is none of a script.
#[tactic(auto, unfolding(crate::specs::Questions::more_asked))]
fn more_asked(line: &[u8]) -> Option<Question<'_>>
    ensures { option_map bare_question result ≡ more_asked line.now }
{
    let (word, rest) = parted(line);
    more_with(query_of(word)?, rest)
}

/// Reads a line that is asked of a served sign, its octets without a line feed (own): a line of a script, as [`read_ask`] reads it, or one
/// that only a served sign answers. `octets` is room for the octets that the line writes in hexadecimal; what stood there is lost.
///
/// The error `Bad` says that the line is no such line. `Memory` says that memory was refused before that was known; it comes only
/// if `octets` has room for less than half the octets of the line.
#[tactic(auto, using(crate::proofs::Asked::gives_asked, crate::proofs::Asked::question_script, crate::proofs::Asked::question_more))]
pub fn read_question<'a>(line: &'a [u8], octets: &'a mut Vec<u8>) -> Result<Question<'a>, LineFault>
    ensures asked { Gives bare_question result (question_of line.now) }
    ensures spelled { IfOk result (λ question. IsAsked question line.now) }
    ensures bad { result ≡ Err LineFault.Bad → (question : Question) → IsAsked question line.now → ⊥ }
    ensures memory { result ≡ Err LineFault.Memory → (2 * vec_capacity octets.old < length line.now) × WritesHex line.now }
{
    match read_ask(line, octets) {
        Ok(ask) => Ok(Question::Script(ask)),
        Err(LineFault::Bad) => more_asked(line).ok_or(LineFault::Bad),
        Err(LineFault::Memory) => Err(LineFault::Memory),
    }
}
