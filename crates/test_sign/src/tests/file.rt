use crate::tests::so;
use message_store::{Permanent, StoreLimits};
use sign_file::{FileFault, SignFile, read_sign_file};
use sign_font::{CellPart, Defaults, FontPart, LineFill};
use std::alloc::Global;
use std::fmt::Write;
use std::process::Abort;
use std::test::Fail;

/// A sign file with each table and each key.
const WHOLE: &str = r#"width = 12
height = 7
scheme = "classic"
max_pages = 2
beacons = true
pixel_service = true
slots = 1
bytes = 4
max_string = 64

[defaults]
font = 1
line = 3
page = 4
page_on = 30
page_off = 0
flash_on = 5
flash_off = 6
fore = 9
back = 2

[[font]]
number = 1
version = 6699
height = 3
char_spacing = 1
line_spacing = 2
cell = [
  { number = 65, width = 3, bits = "5e80" },
  { number = 73, width = 1, bits = "e0" },
]

[[font]]
number = 8
height = 5
char_spacing = 3
line_spacing = 4

[[permanent]]
multi = "AAAI"
priority = 5
beacon = 1
pixel = 1
"#;

/// A sign file with no more than it must have, and an empty font.
const LEAST: &str = r#"width = 12
height = 7
scheme = "monochrome"
max_pages = 2
slots = 1
bytes = 4
max_string = 64
defaults = { font = 1, line = 3, page = 3, page_on = 30, page_off = 0, flash_on = 5, flash_off = 5, fore = 1, back = 0 }
font = [ { number = 1, height = 3, char_spacing = 1, line_spacing = 1 } ]
"#;

/// What is read where this text stands in place of another.
fn read_with(
    rt: &impl Abort,
    alloc: Global,
    file: &str,
    old: &str,
    new: &str,
) -> Result<Result<SignFile, FileFault>, Fail> {
    assert!(rt; file.contains(old), "there is {old}");
    let changed = file.replacen(alloc, old, new, 1)?;
    Ok(read_sign_file(alloc, changed.as_str().as_bytes()))
}

/// `.ci/refused-calls` refuses its memory.
#[test]
fn a_sign_file_is_read_as_it_is_written(rt: HostRuntime) {
    let file = read_sign_file(rt.alloc(), WHOLE.as_bytes()).expect(&rt, "a file");
    let sign = &file.sign;
    so(
        &rt,
        sign.width == 12 && sign.height == 7 && sign.max_pages == 2,
        "numbers",
    );
    so(
        &rt,
        sign.classic && sign.beacons && sign.pixel_service,
        "truth values",
    );
    let defaults = Defaults {
        font: 1,
        line: 3,
        page: 4,
        page_on: 30,
        page_off: 0,
        flash_on: 5,
        flash_off: 6,
        fore: 9,
        back: 2,
    };
    so(&rt, sign.defaults == defaults, "the defaults");
    let limits = StoreLimits {
        slots: 1,
        bytes: 4,
        max_string: 64,
    };
    so(&rt, file.limits == limits, "the limits");
}

#[test]
fn fonts_and_their_cells_are_read_in_their_order(rt: HostRuntime) {
    let Ok(file) = read_sign_file(rt.alloc(), WHOLE.as_bytes()) else {
        assert!(rt; false, "the file is read");
        return;
    };
    let [first, second] = file.sign.fonts.as_slice() else {
        assert!(rt; false, "there are two fonts");
        return;
    };
    let numbers = |font: &FontPart| {
        (
            font.number,
            font.version,
            font.height,
            font.char_spacing,
            font.line_spacing,
        )
    };
    so(&rt, numbers(first) == (1, 6_699, 3, 1, 2), "the first font");
    so(&rt, numbers(second) == (8, 0, 5, 3, 4), "the second font");
    let is = |cell: &CellPart, number: u16, width: u8, bits: &[u8]| {
        cell.number == number && cell.width == width && cell.bits.as_slice() == bits
    };
    let [a, i] = first.cells.as_slice() else {
        assert!(rt; false, "there are two cells");
        return;
    };
    so(&rt, is(a, 65, 3, &[0x5e, 0x80]), "the first cell");
    so(&rt, is(i, 73, 1, &[0xe0]), "the second cell");
    so(&rt, second.cells.is_empty(), "the second font has no cells");
}

/// A file with 16 fonts of 255 cells each and 255 permanent messages, each cell of one pixel and each text its own.
fn largest(alloc: Global) -> Result<String, Fail> {
    let mut file = LEAST.replace(
        alloc,
        "font = [ { number = 1, height = 3, char_spacing = 1, line_spacing = 1 } ]\n",
        "",
    )?;
    for font in 1..17 {
        file.push_str("[[font]]\nheight = 1\nchar_spacing = 1\nline_spacing = 1\n")?;
        write!(file, "number = {font}\ncell = [\n")?;
        for number in 1..256 {
            writeln!(file, "{{ number = {number}, width = 1, bits = \"80\" }},")?;
        }
        file.push_str("]\n")?;
    }
    for number in 1..256 {
        write!(file, "[[permanent]]\nmulti = \"{number}\"\n")?;
    }
    Ok(file)
}

#[test]
fn the_largest_sign_file_is_read(rt: HostRuntime) -> Result<(), Fail> {
    let text = largest(rt.alloc())?;
    let Ok(file) = read_sign_file(rt.alloc(), text.as_str().as_bytes()) else {
        panic!(rt; "the file is read");
    };
    so(
        &rt,
        (file.sign.fonts.len(), file.permanents.len()) == (16, 255),
        "16 fonts and 255 messages",
    );
    for font in file.sign.fonts.iter() {
        assert!(rt;
            font.cells.len() == 255,
            "the cells of font {}",
            font.number
        );
    }
    let last = file.permanents.last().ok_or("no message")?;
    so(&rt, is_message(last, b"255", 1, 0, 0), "the last message");
    Ok(())
}

/// Whether a permanent message is this text with these numbers.
fn is_message(message: &Permanent, multi: &[u8], priority: u8, beacon: u8, pixel: u8) -> bool {
    message.multi.as_slice() == multi
        && message.priority == priority
        && message.beacon == beacon
        && message.pixel == pixel
}

#[test]
fn permanent_messages_are_read_in_their_order(rt: HostRuntime) -> Result<(), Fail> {
    let more = "\n[[permanent]]\nmulti = \"I\"\n\n[[permanent]]\n";
    let read = read_with(&rt, rt.alloc(), WHOLE, "\n[[permanent]]\n", more)?;
    let Ok(file) = read else {
        assert!(rt; false, "the file is read");
        return Ok(());
    };
    let [first, second] = file.permanents.as_slice() else {
        assert!(rt; false, "there are two messages");
        return Ok(());
    };
    so(&rt, is_message(first, b"I", 1, 0, 0), "the first message");
    so(
        &rt,
        is_message(second, b"AAAI", 5, 1, 1),
        "the second message",
    );
    Ok(())
}

#[test]
fn an_absent_key_has_its_default(rt: HostRuntime) -> Result<(), Fail> {
    let more = " } ]\n[[permanent]]\nmulti = \"é\"";
    let Ok(file) = read_with(&rt, rt.alloc(), LEAST, " } ]", more)? else {
        assert!(rt; false, "the file is read");
        return Ok(());
    };
    so(
        &rt,
        !file.sign.classic && !file.sign.beacons && !file.sign.pixel_service,
        "truth values",
    );
    so(
        &rt,
        file.sign.line_fill == LineFill::Off,
        "lines are not filled",
    );
    let ([font], [message]) = (file.sign.fonts.as_slice(), file.permanents.as_slice()) else {
        assert!(rt; false, "there is one font and one message");
        return Ok(());
    };
    so(&rt, font.version == 0, "the version");
    so(&rt, font.cells.is_empty(), "the font has no cells");
    so(
        &rt,
        is_message(message, &[0xc3, 0xa9], 1, 0, 0),
        "the message",
    );
    Ok(())
}

#[test]
fn each_fault_has_its_text(rt: HostRuntime) -> Result<(), Fail> {
    for (fault, want) in [
        (FileFault::Bad, "no sign file"),
        (FileFault::Memory, "out of memory"),
    ] {
        let text = fault.to_string(rt.alloc())?;
        so(&rt, text.as_str() == want, want);
    }
    Ok(())
}
