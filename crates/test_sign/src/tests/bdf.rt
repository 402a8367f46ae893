use crate::tests::so;
use font_bdf::{
    BdfFault, BdfProblem, CharacterRange, FontSetting, Outside, font_tables, listed_tables,
    read_font, read_listed,
};
use std::alloc::{AllocError, Global};
use std::fmt::Write;
use std::test::Fail;

const SETTING: FontSetting<'static> = FontSetting {
    number: 7,
    version: 0,
    char_spacing: Some(1),
    written_spacing: None,
    line_spacing: 2,
    characters: &[CharacterRange {
        first: 1,
        last: 65535,
    }],
    outside: Outside::Refuse,
    crop: false,
    height: None,
};

/// Three rows; an `A` of three columns, and an `I` of one that stands below its base line.
const SMALL: &str = "STARTFONT 2.1
FONT small
SIZE 3 75 75
FONTBOUNDINGBOX 3 3 0 -1
CHARS 2
STARTCHAR I
ENCODING 73
DWIDTH 2 0
BBX 1 2 0 -1
BITMAP
80
80
ENDCHAR
STARTCHAR A
ENCODING 65
SWIDTH 1000 0
DWIDTH 4 0
BBX 3 3 0 -1
BITMAP
40
E0
a0
ENDCHAR
ENDFONT
";

/// Its table.
const TABLE: &str = "[[font]]
number = 7
version = 0
height = 3
char_spacing = 1
line_spacing = 2
cell = [
  { number = 65, width = 3, bits = \"5e80\" }, # A
  { number = 73, width = 1, bits = \"60\" }, # I
]
";

/// The same font in a table of NTCIP 1203.
const LISTED: &str = "fontNumber,fontHeight,fontCharSpacing,fontLineSpacing,fontVersionID
7,3,1,2,0
characterNumber,characterWidth,characterBitmap
65,3,5E80
73,1,60
";

#[test]
fn a_font_becomes_a_table(rt: HostRuntime) -> Result<(), Fail> {
    let Ok(text) = font_tables(rt.alloc(), SMALL.as_bytes(), &SETTING) else {
        panic!(rt; "the font is taken");
    };
    so(&rt, text.as_slice() == TABLE.as_bytes(), "the table");
    let Ok(font) = read_font(rt.alloc(), SMALL.as_bytes(), &SETTING) else {
        panic!(rt; "the font is read");
    };
    so(&rt, font.cells.len() == 2, "two cells");
    Ok(())
}

#[test]
fn a_font_table_becomes_a_table(rt: HostRuntime) -> Result<(), Fail> {
    let Ok(text) = listed_tables(rt.alloc(), LISTED.as_bytes()) else {
        panic!(rt; "the font table is taken");
    };
    so(&rt, text.as_slice() == TABLE.as_bytes(), "the table");
    let Ok(font) = read_listed(rt.alloc(), LISTED.as_bytes()) else {
        panic!(rt; "the font table is read");
    };
    so(&rt, font.cells.len() == 2, "two cells");
    Ok(())
}

/// What is told of the small font by a setting.
fn told(alloc: Global, setting: &FontSetting<'_>) -> Option<(u32, BdfProblem)> {
    match font_tables(alloc, SMALL.as_bytes(), setting) {
        Ok(_) => None,
        Err(fault) => Some((fault.line, fault.problem)),
    }
}

#[test]
fn a_setting_chooses_characters(rt: HostRuntime) -> Result<(), Fail> {
    let rows = [
        (1, 1, 65535, None),
        (255, 65, 65, None),
        (1, 66, 64, Some((6, BdfProblem::NoCharacter))),
        (0, 1, 65535, Some((0, BdfProblem::NotTaken))),
    ];
    for (number, first, last, fault) in rows {
        let setting = FontSetting {
            number,
            characters: &[CharacterRange { first, last }],
            ..SETTING
        };
        let found = told(rt.alloc(), &setting);
        assert!(rt;
            found == fault,
            "font {number}, characters {first} to {last}"
        );
    }
    Ok(())
}

/// Two lines, and six for each character: the second has its number.
fn font_of(alloc: Global, characters: u16) -> Result<String, AllocError> {
    let mut font = String::new(alloc);
    font.push_str("STARTFONT 2.1\nFONTBOUNDINGBOX 1 1 0 0\n")?;
    for number in 1..=characters {
        writeln!(font, "STARTCHAR c\nENCODING {number}\nDWIDTH 2 0")?;
        font.push_str("BBX 0 0 0 0\nBITMAP\nENDCHAR\n")?;
    }
    font.push_str("ENDFONT\n")?;
    Ok(font)
}

#[test]
fn a_font_has_at_most_255_characters(rt: HostRuntime) -> Result<(), Fail> {
    let rows = [
        (255, 65535, None),
        (256, 65535, Some((1534, BdfProblem::TooMany(256)))),
        (256, 255, None),
    ];
    for (characters, last, fault) in rows {
        let setting = FontSetting {
            characters: &[CharacterRange { first: 1, last }],
            ..SETTING
        };
        let font = font_of(rt.alloc(), characters)?;
        let found = match read_font(rt.alloc(), font.as_bytes(), &setting) {
            Ok(_) => None,
            Err(fault) => Some((fault.line, fault.problem)),
        };
        assert!(rt; found == fault, "{characters} characters up to {last}");
    }
    Ok(())
}

#[test]
fn a_fault_has_its_text(rt: HostRuntime) -> Result<(), Fail> {
    let outside = BdfProblem::Outside {
        character: 65,
        column: 3,
        row: -1,
        width: 3,
        height: 7,
    };
    let rows = [
        (
            BdfProblem::Twice(65),
            "line 12: character 65 is there already",
        ),
        (
            outside,
            "line 12: character 65: a pixel is lit outside the cell: column 3, row -1, counted from 0; the cell has 3 by 7; \
             --outside widen makes columns for it, crop leaves the pixel out, skip the character",
        ),
    ];
    for (problem, expected) in rows {
        let text = BdfFault { line: 12, problem }.to_string(rt.alloc())?;
        so(&rt, text.as_str() == expected, expected);
    }
    Ok(())
}
