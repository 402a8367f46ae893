//! The start of a run, up to its sign.

ghost use Rattle.std.specs.Prelude.{◌≡◌, ◌++◌, ◌⊎◌, ◌∷◌, [], OnOk, IfOk, IfErr, Ok, Err};
ghost use Rattle.sign_tool.specs.Runs.{Starts, TakesFile};
ghost use Rattle.sign_tool.specs.FileSetup.{setup_of_octets};

use crate::fault::{refusal, unmade, unread};
use crate::setup::{Setup, make_sample};
use message_store::Store;
use octet_text::{push_octet, push_octets};
use sign_file::{SignFile, read_sign_file};
use sign_font::Sign;
use std::alloc::{AllocError, Global};
use std::io::Read;
use tool_streams::{FIRST_LINE, LineStart, NextLine, ToolFault, is_mark, next_line};

/// A run that has its sign and its message store (own).
#[derive(Drop)]
pub struct Start {
    /// The sign and its message store.
    pub setup: Setup,
    /// Where the first line begins that is answered.
    pub place: LineStart,
}

/// A sign file as it stands in an input (own).
#[derive(Drop)]
struct FilePart {
    /// The octets before the mark.
    octets: Vec<u8>,
    /// Where the line after the mark begins.
    place: LineStart,
}

/// Adds a line and its line feed.
fn push_line(file: &mut Vec<u8>, line: &[u8]) -> Result<(), AllocError>
    ensures { OnOk result (file.new.items ≡ file.old.items ++ (line.now ++ 10 ∷ [])) }
{
    push_octets(file, line)?;
    push_octet(file, b'\n')
}

/// Reads the sign file and the mark after it, from the start of an input.
fn read_file<R: Read>(alloc: Global, reader: &mut R) -> Result<FilePart, ToolFault>
    ensures taken { TakesFile (R.remaining reader.old) (R.remaining reader.new) result }
{
    let mut octets = Vec::new(alloc);
    let mut line = Vec::new(alloc);
    let mut place = FIRST_LINE;
    loop {
        match next_line(reader, &mut line, &mut place.left)? {
            NextLine::Line => {}
            NextLine::TooLong => {
                return Err(ToolFault::LineTooLong { line: place.number });
            }
            NextLine::Unfinished | NextLine::End => return Err(ToolFault::BadSign),
            NextLine::InputTooLong => return Err(ToolFault::InputTooLong),
        }
        place.number += 1;
        if is_mark(&line) {
            return Ok(FilePart { octets, place });
        }
        push_line(&mut octets, &line)?;
    }
}

/// What a sign file's octets set up: the sign first, and then its store. The errors are `BadSign`, `SignRefused` and
/// `Memory`.
fn setup_of_octets(alloc: Global, octets: &[u8]) -> Result<Setup, ToolFault>
    ensures ok { IfOk result (λ setup. setup_of_octets octets.now ≡ Ok setup) }
    ensures err { IfErr result (λ e. (e ≡ ToolFault.Memory) ⊎ (setup_of_octets octets.now ≡ Err e)) }
{
    let file = match read_sign_file(alloc, octets) {
        Ok(file) => file,
        Err(fault) => return Err(unread(fault)),
    };
    let SignFile {
        sign,
        limits,
        permanents,
    } = file;
    let sign = match Sign::new(alloc, sign) {
        Ok(sign) => sign,
        Err(fault) => return Err(refusal(fault)),
    };
    let store = match Store::new(alloc, limits, permanents) {
        Ok(store) => store,
        Err(fault) => return Err(unmade(fault)),
    };
    Ok(Setup { sign, store })
}

/// Reads what stands before the lines that are answered: nothing with `sample`, and otherwise a sign file and the mark.
/// The errors are `LineTooLong`, `InputTooLong`, `BadSign`, `SignRefused`, `Read` and `Memory`.
pub fn begin<R: Read>(alloc: Global, sample: bool, reader: &mut R) -> Result<Start, ToolFault>
    ensures starts { Starts sample (R.remaining reader.old) (R.remaining reader.new) result }
{
    if sample {
        let setup = make_sample(alloc)?;
        return Ok(Start {
            setup,
            place: FIRST_LINE,
        });
    }
    let part = read_file(alloc, reader)?;
    let setup = setup_of_octets(alloc, &part.octets)?;
    Ok(Start {
        setup,
        place: part.place,
    })
}
