//! The characters that a sign's fonts have.
ghost use Rattle.std.specs.Prelude.{◌≡◌, ◌+◌, ◌++◌, IfOk, OnOk};
ghost use Rattle.message_words.specs.Characters.{AreCharacters, IsAdded, font_characters, open_run, run_numbers};

use crate::sentence::Value::Hex;
use crate::sentence::write_sentence;
use multi_token::Source;
use sign_font::Sign;
use std::alloc::{AllocError, Global};

/// Characters whose numbers follow one another (own).
#[derive(Clone, Copy)]
pub struct CharacterRun {
    /// The number of the first one.
    pub first: u16,
    /// The number of the last one.
    pub last: u16,
}

/// The characters that a font of a sign has (own). They are listed once, since a list takes 65,535 looks at the sign.
#[derive(Drop)]
pub struct FontCharacters {
    /// The number of the font.
    pub font: u8,
    /// The characters, in the order of their numbers.
    pub runs: Vec<CharacterRun>,
    /// The same in words, each with a space before it.
    words: String,
}

/// The letters and digits, in the order in which they are told.
const ORDERS: [CharacterRun; 3] = [
    CharacterRun {
        first: 65,
        last: 90,
    },
    CharacterRun {
        first: 97,
        last: 122,
    },
    CharacterRun {
        first: 48,
        last: 57,
    },
];

/// The number of the space.
const SPACE: u16 = 32;

/// The last number of a printable character of ASCII.
const LAST_SIGN: u16 = 126;

/// The numbers below and above those of ASCII.
const OUTSIDE: [CharacterRun; 2] = [
    CharacterRun {
        first: 1,
        last: SPACE - 1,
    },
    CharacterRun {
        first: LAST_SIGN + 1,
        last: 65535,
    },
];

/// What some runs have of another one.
fn common(run: CharacterRun, other: CharacterRun) -> Option<CharacterRun> {
    let first = run.first.max(other.first);
    let last = run.last.min(other.last);
    (first <= last).then_some(CharacterRun { first, last })
}

/// Writes a character: if it is a sign of ASCII as itself, and else by its number, as the tag 'hc' has it.
fn write_character(text: &mut String, number: u16) -> Result<(), AllocError> {
    if number > SPACE && number <= LAST_SIGN {
        text.push(char::from(number.min(LAST_SIGN) as u8))
    } else {
        write_sentence(text, "[hc{}]", &[Hex(number.into())])
    }
}

/// Writes characters as a range, or one by one if they are no more than two signs of ASCII.
fn write_run(text: &mut String, run: CharacterRun) -> Result<(), AllocError> {
    text.push(' ')?;
    write_character(text, run.first)?;
    if run.first == run.last {
        return Ok(());
    }
    let is_pair = is_ordered(run.first) && run.last.saturating_sub(run.first) == 1;
    text.push(if is_pair { ' ' } else { '-' })?;
    write_character(text, run.last)
}

/// The last number that a character may have.
const LAST: u16 = 65535;

/// Ends a run at a number, if one has begun; none has where the number of its first character is 0.
fn end_run(runs: &mut Vec<CharacterRun>, first: u16, last: u16) -> Result<(), AllocError>
    ensures { OnOk result (run_numbers runs.new.items ≡ run_numbers runs.old.items ++ open_run first (last + 1)) }
{
    if first > 0 {
        runs.push(CharacterRun { first, last })?;
    }
    Ok(())
}

/// The characters of a font of a sign. The error says that memory was refused.
fn runs_of(alloc: Global, sign: &Sign, font: u8) -> Result<Vec<CharacterRun>, AllocError>
    ensures { IfOk result (λ runs. run_numbers runs.items ≡ font_characters sign.now font) }
{
    let mut source = Source::new(b"");
    let mut runs = Vec::new(alloc);
    let mut first = 0;
    for last in 0..LAST {
        let number = last + 1;
        if sign.cell_width(&mut source, font, number).is_none() {
            end_run(&mut runs, first, last)?;
            first = 0;
        } else if first == 0 {
            first = number;
        }
    }
    end_run(&mut runs, first, LAST)?;
    Ok(runs)
}

/// Writes those characters that are within others.
fn write_within(
    text: &mut String,
    runs: &[CharacterRun],
    range: CharacterRun,
) -> Result<(), AllocError> {
    for run in runs {
        if let Some(run) = common(*run, range) {
            write_run(text, run)?;
        }
    }
    Ok(())
}

/// Whether characters have this number among them.
fn has(runs: &[CharacterRun], number: u16) -> bool {
    for run in runs {
        if run.first <= number && number <= run.last {
            return true;
        }
    }
    false
}

/// Whether a number is that of a letter or a digit.
fn is_ordered(number: u16) -> bool {
    has(&ORDERS, number)
}

/// Writes the characters of ASCII that are no letters and no digits, and the space.
fn write_others(text: &mut String, runs: &[CharacterRun]) -> Result<(), AllocError> {
    for number in SPACE + 1..=LAST_SIGN {
        if !is_ordered(number) && has(runs, number) {
            text.push(' ')?;
            write_character(text, number)?;
        }
    }
    text.push_str(if has(runs, SPACE) { " space" } else { "" })
}

/// Writes characters: letters, digits, other characters of ASCII, and the numbers of those below or above them.
fn write_all(text: &mut String, runs: &[CharacterRun]) -> Result<(), AllocError> {
    for order in &ORDERS {
        write_within(text, runs, *order)?;
    }
    write_others(text, runs)?;
    for outside in &OUTSIDE {
        write_within(text, runs, *outside)?;
    }
    text.push_str(if text.is_empty() { " none" } else { "" })
}

/// Characters in words.
fn in_words(alloc: Global, runs: &[CharacterRun]) -> Result<String, AllocError> {
    let mut text = String::new(alloc);
    write_all(&mut text, runs)?;
    Ok(text)
}

/// Adds the characters of a font.
fn add_font(
    fonts: &mut Vec<FontCharacters>,
    alloc: Global,
    sign: &Sign,
    font: u8,
) -> Result<(), AllocError>
    ensures { OnOk result (IsAdded sign.now font fonts.old.items fonts.new.items) }
{
    let runs = runs_of(alloc, sign, font)?;
    let words = in_words(alloc, &runs)?;
    Ok(fonts.push(FontCharacters { font, runs, words })?)
}

impl FontCharacters {
    /// Those of all fonts of a sign. The error says that memory was refused.
    pub fn of_sign(alloc: Global, sign: &Sign) -> Result<Vec<FontCharacters>, AllocError>
        ensures { IfOk result (λ fonts. AreCharacters sign.now 256 fonts.items) }
    {
        let mut source = Source::new(b"");
        let mut fonts = Vec::new(alloc);
        for last in 0..255u8 {
            let number = last + 1;
            if sign.font(&mut source, number).is_some() {
                add_font(&mut fonts, alloc, sign, number)?;
            }
        }
        Ok(fonts)
    }

    /// Whether the font has the character of this number.
    pub(crate) fn has(&self, number: u16) -> bool {
        has(&self.runs, number)
    }

    /// Whether it has all characters of words in ASCII, or of these in capitals.
    pub(crate) fn has_all(&self, words: &str, capitals: bool) -> bool {
        for octet in words.as_bytes() {
            let octet = if capitals {
                octet.to_ascii_uppercase()
            } else {
                *octet
            };
            if !self.has(u16::from(octet)) {
                return false;
            }
        }
        true
    }

    /// The characters in words.
    pub(crate) fn words(&self) -> &str {
        &self.words
    }
}
