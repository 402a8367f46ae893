//! Why a font in BDF isn't taken.

ghost use Rattle.std.specs.Prelude.{◌≡◌};

use std::error::Error;
use std::fmt;
use std::fmt::{Display, Formatter, Write};

/// Why no tables are written, and the line that says so (own).
#[derive(Clone, Copy, Debug, PartialEq, Eq)]
pub struct BdfFault {
    /// The line, counted from 1. It is the last one if the font ends too soon, and 0 if the whole font was read and isn't taken. If
    /// memory was refused, it says nothing.
    pub line: u32,
    /// What is wrong there.
    pub problem: BdfProblem,
}

/// Why no sign takes a character of a font table (own).
#[derive(Clone, Copy, Debug, PartialEq, Eq)]
pub enum Untaken {
    /// Its number isn't above that of the character before.
    NotAbove {
        /// The character's number.
        number: u16,
        /// That of the character before.
        before: u16,
    },
    /// There are so many characters, and a font has at most 255.
    TooMany(usize),
    /// One of so many bits after the last pixel is 1.
    SpareBits(usize),
}

/// What is wrong with a line of a font in BDF, or of a font table of NTCIP 1203 (own).
#[derive(Clone, Copy, Debug, PartialEq, Eq)]
pub enum BdfProblem {
    /// The first line isn't `STARTFONT`.
    NoStart,
    /// A byte-order mark stands before `STARTFONT`.
    ByteOrderMark,
    /// The file is one of gzip.
    Gzip,
    /// The file is one of ZIP, as spreadsheets are.
    Zip,
    /// The font is in PCF.
    Pcf,
    /// The font has outlines and no bitmaps: it is in TrueType or OpenType.
    Outlines,
    /// The file is in UTF-16.
    Utf16,
    /// The file is a font table of NTCIP 1203.
    Listed,
    /// The file is the table of a sign file.
    Written,
    /// A font in BDF was read as a font table.
    NotListed,
    /// A character begins, or the font ends, before `FONTBOUNDINGBOX`.
    NoBox,
    /// The cells are not 1 to 64 rows high.
    BadHeight(i32),
    /// The cells have more rows than were asked for.
    TooHigh(u8),
    /// Numbers are missing, or what stands there are no numbers of 1 to 9 digits.
    BadNumbers,
    /// A character ends, or another one begins, before `BITMAP`, or within a bitmap that isn't taken.
    NoBitmap,
    /// `ENCODING`, `DWIDTH` or `BBX` is missing before the bitmap.
    NoNumbers,
    /// The cell of a character is not 1 to 64 columns wide.
    BadWidth {
        /// The character's number.
        character: u16,
        /// The columns of its cell.
        width: i64,
    },
    /// The box of a character has more than 255 columns or rows.
    BadBox,
    /// A row of a bitmap isn't the hexadecimal digits of its box; there may be too few rows.
    BadRow(usize),
    /// The bitmap has more rows than its box.
    BadRows,
    /// A pixel is lit outside the cell.
    Outside {
        /// The character's number.
        character: u16,
        /// The pixel's column in the cell, counted from 0 at the left.
        column: i64,
        /// The pixel's row in the cell, counted from 0 at the top.
        row: i64,
        /// Columns of the cell.
        width: u8,
        /// Rows of the cell.
        height: u8,
    },
    /// The character is there already.
    Twice(u16),
    /// There are more than 255 characters.
    TooMany(usize),
    /// No character is taken.
    NoCharacter,
    /// The font has no end.
    NoEndOfFont,
    /// No sign takes the font: its number is 0.
    NotTaken,
    /// The table that was written isn't read back as this font.
    Unread,
    /// In a table of NTCIP 1203: `fontNumber` is missing, or isn't 1 to 255.
    NoFontNumber,
    /// `fontHeight` is missing, or isn't 1 to 64.
    NoFontHeight,
    /// `fontCharSpacing` is missing, or isn't 0 to 255.
    NoCharSpacing,
    /// `fontLineSpacing` is missing, or isn't 0 to 255.
    NoLineSpacing,
    /// `fontVersionID` is missing, or isn't 0 to 65,535.
    NoVersion,
    /// No row has the names of the characters' columns.
    NoCharacters,
    /// No row has a character.
    NoRow,
    /// `characterNumber` isn't 1 to 65,535.
    NoCharacterNumber,
    /// `characterWidth` isn't 1 to 64.
    NoCharacterWidth,
    /// `characterBitmap` isn't hexadecimal digits, two for each octet.
    BadBitmap,
    /// A row has not as many fields as its heading, which has so many.
    BadFields(usize),
    /// A bitmap has not the octets that its pixels need.
    BadBits {
        /// The octets that it has.
        has: usize,
        /// Those that the pixels need.
        needs: usize,
    },
    /// No sign takes a character.
    CellNotTaken(Untaken),
    /// Memory was refused.
    Memory,
}

/// What is said of a pixel outside its cell.
const OUTSIDE: &str =
    "character @: a pixel is lit outside the cell: column @, row @, counted from 0; \
    the cell has @ by @; --outside widen makes columns for it, crop leaves the pixel out, skip the character";

/// What is said of too many characters.
const TOO_MANY: &str =
    "@ characters, and a font of a sign has at most 255; --characters chooses, as in --characters A-Z,0-9,32";

/// How many there are, as a number.
fn count_of(count: usize) -> i64 {
    i64::try_from(count).unwrap_or(i64::MAX)
}

impl Untaken {
    /// What is said of it, with a mark `@` for each of its numbers.
    fn sentence(self) -> &'static str {
        match self {
            Untaken::NotAbove { .. } =>
                "character @ stands behind character @; the numbers must rise from row to row",
            Untaken::TooMany(_) => "@ characters, and a font of a sign has at most 255",
            Untaken::SpareBits(_) =>
                "characterBitmap has a 1 behind the last pixel; its last @ bits must be 0",
        }
    }

    /// Its numbers, in the order of the marks.
    fn numbers(self) -> [i64; 5] {
        match self {
            Untaken::NotAbove { number, before } => [i64::from(number), i64::from(before), 0, 0, 0],
            Untaken::TooMany(count) => [count_of(count), 0, 0, 0, 0],
            Untaken::SpareBits(count) => [count_of(count), 0, 0, 0, 0],
        }
    }
}

impl BdfProblem {
    /// What is said of it, with a mark `@` for each of its numbers.
    fn sentence(self) -> &'static str {
        match self {
            BdfProblem::NoStart => "a font in BDF begins with STARTFONT",
            BdfProblem::ByteOrderMark =>
                "a byte-order mark stands before STARTFONT; tail -c +4 takes it off",
            BdfProblem::Gzip => "this is a file of gzip; gunzip makes the font of it",
            BdfProblem::Zip =>
                "this is a file of ZIP, as spreadsheets are; a font table is saved as CSV for --table",
            BdfProblem::Pcf => "this is a font in PCF; pcf2bdf makes a font in BDF of it",
            BdfProblem::Outlines =>
                "this is a font of outlines; otf2bdf makes a font in BDF of it, drawn at a size",
            BdfProblem::Utf16 =>
                "this is a file in UTF-16; iconv -f utf-16 -t ascii makes a font in BDF of it",
            BdfProblem::Listed => "this is a font table of NTCIP 1203; --table takes it",
            BdfProblem::Written =>
                "this is the table of a sign file already; signctl sign tells of it",
            BdfProblem::NotListed => "this is a font in BDF; it is taken without --table",
            BdfProblem::NoBox => "FONTBOUNDINGBOX is missing",
            BdfProblem::BadHeight(_) =>
                "the cells are @ rows high, and may have 1 to 64; --crop takes off rows without pixels",
            BdfProblem::TooHigh(_) =>
                "the cells are @ rows high, more than --height; --crop takes off rows without pixels",
            BdfProblem::BadNumbers => "numbers are missing, or aren't whole numbers",
            BdfProblem::NoBitmap => "BITMAP or ENDCHAR is missing",
            BdfProblem::NoNumbers => "ENCODING, DWIDTH or BBX is missing before BITMAP",
            BdfProblem::BadWidth { .. } =>
                "character @: the cell is @ columns wide, and may have 1 to 64; --outside skip leaves it out",
            BdfProblem::BadBox => "the box of a character may have 0 to 255 columns and rows",
            BdfProblem::BadRow(_) => "a row of this box has @ hexadecimal digits",
            BdfProblem::BadRows => "the bitmap has more rows than its box, or ENDCHAR is missing",
            BdfProblem::Outside { .. } => OUTSIDE,
            BdfProblem::Twice(_) => "character @ is there already",
            BdfProblem::TooMany(_) => TOO_MANY,
            BdfProblem::NoCharacter => "none of these characters is taken; --characters chooses",
            BdfProblem::NoEndOfFont => "ENDFONT is missing",
            BdfProblem::NotTaken => "no sign takes a font of this number",
            BdfProblem::Unread => "the table isn't read back as this font; please report this",
            BdfProblem::Memory => "out of memory",
            listed => listed.sentence_of_table(),
        }
    }

    /// The same of a table of NTCIP 1203.
    fn sentence_of_table(self) -> &'static str {
        match self {
            BdfProblem::NoFontNumber =>
                "fontNumber is missing, or isn't a whole number from 1 to 255",
            BdfProblem::NoFontHeight =>
                "fontHeight is missing, or isn't a whole number from 1 to 64",
            BdfProblem::NoCharSpacing =>
                "fontCharSpacing is missing, or isn't a whole number from 0 to 255",
            BdfProblem::NoLineSpacing =>
                "fontLineSpacing is missing, or isn't a whole number from 0 to 255",
            BdfProblem::NoVersion =>
                "fontVersionID is missing, or isn't a whole number from 0 to 65535",
            BdfProblem::NoCharacters =>
                "a row with the names characterNumber, characterWidth and characterBitmap is missing",
            BdfProblem::NoCharacterNumber => "characterNumber isn't a whole number from 1 to 65535",
            BdfProblem::NoCharacterWidth =>
                "characterWidth isn't a whole number from 1 to 64; a row with 0 is left out",
            BdfProblem::NoRow => "no character stands below the row with characterNumber",
            BdfProblem::BadBitmap => "characterBitmap isn't hexadecimal digits, two for each octet",
            BdfProblem::BadFields(_) => "the row has other fields than the @ of its heading",
            BdfProblem::BadBits { .. } => "characterBitmap has @ octets, and its pixels need @",
            BdfProblem::CellNotTaken(why) => why.sentence(),
            _ => "",
        }
    }

    /// Its numbers, in the order of the marks.
    fn numbers(self) -> [i64; 5] {
        match self {
            BdfProblem::BadHeight(rows) => [i64::from(rows), 0, 0, 0, 0],
            BdfProblem::TooHigh(rows) => [i64::from(rows), 0, 0, 0, 0],
            BdfProblem::BadWidth { character, width } => [i64::from(character), width, 0, 0, 0],
            BdfProblem::BadRow(digits) => [count_of(digits), 0, 0, 0, 0],
            BdfProblem::Outside {
                character,
                column,
                row,
                width,
                height,
            } => [
                i64::from(character),
                column,
                row,
                i64::from(width),
                i64::from(height),
            ],
            BdfProblem::Twice(character) => [i64::from(character), 0, 0, 0, 0],
            BdfProblem::TooMany(count) => [count_of(count), 0, 0, 0, 0],
            BdfProblem::BadFields(count) => [count_of(count), 0, 0, 0, 0],
            BdfProblem::BadBits { has, needs } => [count_of(has), count_of(needs), 0, 0, 0],
            BdfProblem::CellNotTaken(why) => why.numbers(),
            _ => [0; 5],
        }
    }
}

// A derive would write each sentence piece by piece, which takes long to prove.
impl Display for BdfProblem {
    fn fmt<W: Write>(&self, f: &mut Formatter<W>) -> fmt::Result {
        let numbers = self.numbers();
        for (place, words) in self.sentence().split('@').enumerate() {
            if place > 0 {
                let number = numbers.get(place - 1).copied().unwrap_or(0);
                write!(f, "{number}")?;
            }
            f.write_str(words)?;
        }
        Ok(())
    }
}

impl Error for BdfProblem {}

impl Display for BdfFault {
    fn fmt<W: Write>(&self, f: &mut Formatter<W>) -> fmt::Result {
        write!(f, "line {}: {}", self.line, self.problem)
    }
}

impl Error for BdfFault {}

/// What is wrong with the line at a place among lines, of which the first is the line `first` of the font.
pub(crate) fn fault_at(first: usize, place: usize, problem: BdfProblem) -> BdfFault
    ensures { result.problem ≡ problem }
{
    let line = u32::try_from(first.saturating_add(place)).unwrap_or(u32::MAX);
    BdfFault { line, problem }
}
