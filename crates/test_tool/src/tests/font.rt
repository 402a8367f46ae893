//! Fonts that are written as tables.

use super::{FailingReader, NarrowWriter};
use file_aids::{FontFault, run_font};
use font_bdf::{CharacterRange, FontSetting, Outside};
use tool_streams::ToolFault;

/// A font of three rows with an `I`.
const FONT: &str = "STARTFONT 2.1
FONTBOUNDINGBOX 1 3 0 0
STARTCHAR I
ENCODING 73
DWIDTH 2 0
BBX 1 3 0 0
BITMAP
80
80
80
ENDCHAR
ENDFONT
";

const TABLE: &str = "[[font]]
number = 1
version = 0
height = 3
char_spacing = 1
line_spacing = 1
cell = [
  { number = 73, width = 1, bits = \"e0\" }, # I
]
";

const SETTING: FontSetting<'static> = FontSetting {
    number: 1,
    version: 0,
    char_spacing: Some(1),
    written_spacing: None,
    line_spacing: 1,
    characters: &[CharacterRange {
        first: 1,
        last: 65535,
    }],
    outside: Outside::Refuse,
    crop: false,
    height: None,
};

#[test]
fn a_font_ends_where_its_streams_fail(rt: HostRuntime) {
    let alloc = rt.alloc();
    for fails in [false, true] {
        for room in 0..TABLE.len() + 1 {
            let mut writer = NarrowWriter {
                taken: Vec::new(alloc),
                room,
                fails,
            };
            let result = run_font(alloc, &SETTING, &mut FONT.as_bytes(), &mut writer);
            let is_whole = room == TABLE.len();
            let end = is_whole == (result == Ok(()))
                && is_whole != (result == Err(FontFault::Tool(ToolFault::Write)));
            let front = writer.taken.as_slice() == &TABLE.as_bytes()[..room];
            assert!(rt; end && front, "room for {room}");
        }
    }
    for read in 0..FONT.len() + 1 {
        let mut reader = FailingReader(&FONT.as_bytes()[..read]);
        let mut output = Vec::new(alloc);
        let result = run_font(alloc, &SETTING, &mut reader, &mut output);
        let end = result == Err(FontFault::Tool(ToolFault::Read));
        assert!(rt; end && output.is_empty(), "a failure after {read}");
    }
}
