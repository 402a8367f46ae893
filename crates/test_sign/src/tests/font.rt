use crate::tests::so;
use multi_token::{Entry, Run, Source};
use sign_font::{
    CellPart, DefaultFault, Defaults, FontInfo, FontPart, LineFill, Sign, SignParts, sample_sign,
};
use std::alloc::{AllocError, Global};
use std::test::Fail;

/// The sample with fonts without cells up to this number.
fn with_fonts(alloc: Global, last: u8) -> Result<SignParts, AllocError> {
    let mut parts = sample_sign(alloc)?;
    for number in 3..=last {
        parts.fonts.push(FontPart {
            number,
            version: 0,
            height: 1,
            char_spacing: 0,
            line_spacing: 0,
            cells: Vec::new(alloc),
        })?;
    }
    Ok(parts)
}

/// The sample with cells up to number 255 in its second font, each of one row with its first pixel lit, 1 to 64 pixels wide.
fn with_widths(alloc: Global) -> Result<SignParts, AllocError> {
    let mut parts = with_fonts(alloc, 3)?;
    if let Some(font) = parts.fonts.get_mut(1) {
        font.height = 1;
        font.cells.clear();
        for number in 1..256u16 {
            let width = (number % 64) as u8 + 1;
            let mut bits = Vec::from_elem(alloc, 0, (usize::from(width) + 7) / 8)?;
            if let Some(first) = bits.first_mut() {
                *first = 0x80;
            }
            font.cells.push(CellPart {
                number,
                width,
                bits,
            })?;
        }
    }
    Ok(parts)
}

/// The same with the numbers 257, 514 and so on up to 65,535 in place of 1, 2 and so on up to 255.
fn with_wide_numbers(alloc: Global) -> Result<SignParts, AllocError> {
    let mut parts = with_widths(alloc)?;
    if let Some(font) = parts.fonts.get_mut(1) {
        for cell in font.cells.iter_mut() {
            cell.number = cell.number.wrapping_mul(257);
        }
    }
    Ok(parts)
}

/// The width of the cell of a number in the font of a number, and the steps that this takes; `None` and 0 where the width asked
/// for alone is another, or takes other steps.
fn look(sign: &Sign, font: u8, number: u16) -> (Option<u8>, u64) {
    let mut source = Source::new(b"");
    let width = sign
        .cell(&mut source, font, number)
        .map(|cell| cell.width());
    let mut alone = Source::new(b"");
    if sign.cell_width(&mut alone, font, number) == width && alone.steps() == source.steps() {
        (width, source.steps())
    } else {
        (None, 0)
    }
}

#[test]
fn the_sample_says_what_was_written(rt: HostRuntime) -> Result<(), Fail> {
    let sign = Sign::new(rt.alloc(), sample_sign(rt.alloc())?)?;
    let size = (
        sign.width(),
        sign.height(),
        sign.max_pages(),
        sign.tallest(),
    );
    so(&rt, size == (12, 7, 2, 5), "the size");
    let has = sign.classic() || sign.beacons() || sign.pixel_service();
    so(
        &rt,
        !has && sign.line_fill() == LineFill::Off,
        "what it lacks",
    );
    let own = Defaults {
        font: 1,
        line: 3,
        page: 3,
        page_on: 30,
        page_off: 0,
        flash_on: 5,
        flash_off: 5,
        fore: 1,
        back: 0,
    };
    so(&rt, sign.defaults() == own, "the defaults");
    let font = sign.default_font();
    so(
        &rt,
        (font.number, font.version, font.height) == (1, 6699, 3),
        "the default font",
    );
    Ok(())
}

/// 16 fonts of 255 cells each, with numbers from 1 and every pixel of 64 by 64 lit, on 1,024 columns and 128 rows.
fn largest(alloc: Global) -> Result<SignParts, AllocError> {
    let mut parts = with_fonts(alloc, 16)?;
    parts.width = 1024;
    parts.height = 128;
    for font in parts.fonts.iter_mut() {
        font.height = 64;
        font.cells = full_cells(alloc)?;
    }
    Ok(parts)
}

/// The cells 1 to 255, each with every pixel of 64 by 64 lit.
fn full_cells(alloc: Global) -> Result<Vec<CellPart>, AllocError> {
    let mut cells = Vec::new(alloc);
    for number in 1..256u16 {
        cells.push(CellPart {
            number,
            width: 64,
            bits: Vec::from_elem(alloc, 0xff, 512)?,
        })?;
    }
    Ok(cells)
}

#[test]
fn the_largest_sign_has_all_its_cells(rt: HostRuntime) -> Result<(), Fail> {
    let sign = Sign::new(rt.alloc(), largest(rt.alloc())?)?;
    so(
        &rt,
        (sign.width(), sign.height(), sign.tallest()) == (1024, 128, 64),
        "the size",
    );
    for font in 1..17u8 {
        for number in 1..256u16 {
            let mut source = Source::new(b"");
            let cell = sign.cell(&mut source, font, number).ok_or("no cell")?;
            assert!(rt;
                cell.rows() == [u64::MAX; 64].as_slice(),
                "cell {number} of font {font}"
            );
        }
    }
    Ok(())
}

/// `.ci/refused-calls` refuses its memory.
#[test]
fn only_making_a_sign_takes_memory(rt: HostRuntime) {
    let parts = sample_sign(rt.alloc()).expect(&rt, "the parts");
    let sign = Sign::new(rt.alloc(), parts).expect(&rt, "a sign");
    let mut source = Source::new(b"");
    // the `A` of font 2 begins with the row 0110
    let large = sign.font(&mut source, 2).is_some()
        & sign.cell(&mut source, 2, 65).is_some_and(|cell| cell.row(0) == 6 << 60
            && cell.bit(1, 0)
            && cell.width() == 4);
    // a search takes eight steps, whatever it finds, and in whatever font
    let wide = look(&sign, 1, 65535) == (None, 8) && look(&sign, 9, 65535) == (None, 8);
    // an A of 3 columns and an I of one, each with a gap of one before it
    let mut text = Source::new(b"AIA");
    let whole = sign.cells(&mut text, 1).is_some_and(|cells| {
        let found = text.read_run(0, cells.advances(), 1, 6);
        found == run(2, 6, Some(entry(65, 3)))
            && found
                .next
                .is_some_and(|entry| cells.width_of(entry) == Some(3))
    });
    so(&rt, large & wide & whole, "large & wide & whole");
    let own = sign.defaults();
    so(
        &rt,
        sign.refuses(&own).is_none() && sign.font_of(&own) == sign.default_font(),
        "its own defaults",
    );
    so(
        &rt,
        sign.tallest() == 5 && !sign.beacons() && !sign.pixel_service(),
        "what it is",
    );
}

#[test]
fn a_sign_fills_lines_as_it_was_written(rt: HostRuntime) -> Result<(), Fail> {
    for line_fill in [LineFill::Off, LineFill::Words] {
        let parts = SignParts {
            line_fill,
            ..sample_sign(rt.alloc())?
        };
        let sign = Sign::new(rt.alloc(), parts)?;
        so(&rt, sign.line_fill() == line_fill, "how lines are filled");
    }
    Ok(())
}

#[test]
fn a_probe_is_one_step(rt: HostRuntime) -> Result<(), Fail> {
    let sign = Sign::new(rt.alloc(), sample_sign(rt.alloc())?)?;
    let mut source = Source::new(b"A");
    let large = FontInfo {
        number: 2,
        version: 0,
        height: 5,
        char_spacing: 2,
        line_spacing: 2,
    };
    let fonts = [
        (1, Some(sign.default_font()), 1),
        (2, Some(large), 2),
        (9, None, 3),
    ];
    for (font, info, steps) in fonts {
        let found = sign.font(&mut source, font);
        assert!(rt; (found, source.steps()) == (info, steps), "font {font}");
    }
    for (font, number, is_there, steps) in [
        (1, 65, true, 4),
        (1, 66, false, 5),
        (9, 65, false, 6),
    ] {
        let found = sign.cell(&mut source, font, number).is_some();
        assert!(rt;
            (found, source.steps()) == (is_there, steps),
            "cell {number}"
        );
    }
    Ok(())
}

#[test]
fn the_cells_of_a_are_drawn_row_by_row(rt: HostRuntime) -> Result<(), Fail> {
    let sign = Sign::new(rt.alloc(), sample_sign(rt.alloc())?)?;
    let mut source = Source::new(b"A");
    let small = sign.cell(&mut source, 1, 65).ok_or("no small A")?;
    let large = sign.cell(&mut source, 2, 65).ok_or("no large A")?;
    so(&rt, small.width() == 3, "three columns");
    let rows = [0b010 << 61, 0b111 << 61, 0b101 << 61];
    so(
        &rt,
        small.rows() == rows.as_slice(),
        "the rows of the small one",
    );
    so(&rt, small.row(1) == (0b111 << 61), "its second row");
    so(&rt, small.bit(1, 0), "its top");
    so(&rt, large.width() == 4, "four columns");
    let rows = [
        0b0110 << 60,
        0b1001 << 60,
        0b1111 << 60,
        0b1001 << 60,
        0b1001 << 60,
    ];
    so(
        &rt,
        large.rows() == rows.as_slice(),
        "the rows of the large one",
    );
    Ok(())
}

#[test]
fn a_run_is_as_wide_as_its_cells_and_gaps(rt: HostRuntime) -> Result<(), Fail> {
    let sign = Sign::new(rt.alloc(), with_widths(rt.alloc())?)?;
    // in font 2 an A is 2 columns wide, a B is 3 and a space is 33; there is no octet 0, and no font 9
    let rows: [(&[u8], u32, u32, Run, u64); 7] = [
        (b"AB", 1, 7, run(2, 7, None), 6),
        (b"AB", 1, 6, run(1, 3, Some(entry(b'B', 3))), 5),
        (b"AB", 1, 2, run(0, 0, Some(entry(b'A', 2))), 3),
        (b"A\0B", 0, 9, run(1, 2, Some(entry(0, 0x8000))), 5),
        (b"A[B", 0, 9, run(1, 2, Some(entry(b'[', 0x8000))), 5),
        (b"A B A", 1, 900, run(5, 78, None), 12),
        (b"BA]", 1, 900, run(2, 7, Some(entry(b']', 0x8000))), 7),
    ];
    for (text, gap, room, expected, steps) in rows {
        let mut source = Source::new(text);
        let Some(cells) = sign.cells(&mut source, 2) else {
            panic!(rt; "there is a font 2");
        };
        let found = source.read_run(0, cells.advances(), gap, room);
        assert!(rt; found == expected, "of {text:?}");
        assert!(rt; source.steps() == steps, "over {text:?}");
    }
    let mut source = Source::new(b"AB");
    let none = sign.cells(&mut source, 9).is_none();
    so(&rt, none && source.steps() == 1, "there is no font 9");
    Ok(())
}

fn run(len: usize, width: u32, next: Option<Entry>) -> Run {
    Run { len, width, next }
}

fn entry(octet: u8, advance: u16) -> Entry {
    Entry { octet, advance }
}

#[test]
fn each_octet_finds_its_own_cell_and_width_in_one_step(rt: HostRuntime) -> Result<(), Fail> {
    let sign = Sign::new(rt.alloc(), with_widths(rt.alloc())?)?;
    for octet in 0..=255u8 {
        let number = u16::from(octet);
        let width = (octet != 0).then_some(octet % 64 + 1);
        // font 3 has no cells, and there is no font 9
        let own = look(&sign, 2, number) == (width, 1);
        let none = look(&sign, 3, number) == (None, 1) && look(&sign, 9, number) == (None, 1);
        assert!(rt; own && none, "octet {octet}");
    }
    so(&rt, look(&sign, 1, 65) == (Some(3), 1), "of the first font");
    Ok(())
}

#[test]
fn each_wide_number_finds_its_own_cell_in_eight_steps(rt: HostRuntime) -> Result<(), Fail> {
    let sign = Sign::new(rt.alloc(), with_wide_numbers(rt.alloc())?)?;
    for place in 1..=255u8 {
        let found = look(&sign, 2, u16::from(place).wrapping_mul(257));
        assert!(rt; found == (Some(place % 64 + 1), 8), "at place {place}");
    }
    for number in [256, 258, 513, 32895, 32897, 65279, 65534] {
        assert!(rt; look(&sign, 2, number) == (None, 8), "no cell {number}");
    }
    Ok(())
}

#[test]
fn defaults_are_refused_by_their_values_first(rt: HostRuntime) -> Result<(), Fail> {
    let sign = Sign::new(rt.alloc(), sample_sign(rt.alloc())?)?;
    let own = sign.defaults();
    let rows = [
        (1, 3, 3, 1, 0, 0),
        (2, 3, 3, 1, 0, 0),
        (1, 5, 2, 9, 9, 0),
        (0, 3, 3, 1, 0, 9),
        (3, 3, 3, 1, 0, 10),
        (1, 1, 3, 1, 0, 9),
        (1, 6, 3, 1, 0, 9),
        (1, 3, 1, 1, 0, 9),
        (1, 3, 5, 1, 0, 9),
        (1, 3, 3, 10, 0, 9),
        (1, 3, 3, 1, 10, 9),
        (3, 1, 3, 1, 0, 9),
    ];
    for (font, line, page, fore, back, number) in rows {
        let defaults = Defaults {
            font,
            line,
            page,
            fore,
            back,
            ..own
        };
        let code = sign.refuses(&defaults).map_or(0, DefaultFault::code);
        assert!(rt; code == number, "{defaults:?}");
    }
    Ok(())
}

#[test]
fn defaults_that_are_handed_in_name_their_own_font(rt: HostRuntime) -> Result<(), Fail> {
    let sign = Sign::new(rt.alloc(), sample_sign(rt.alloc())?)?;
    let large = Defaults {
        font: 2,
        ..sign.defaults()
    };
    so(&rt, sign.refuses(&large).is_none(), "they are taken");
    so(&rt, sign.font_of(&large).number == 2, "their font");
    so(&rt, sign.default_font().number == 1, "its own font");
    Ok(())
}
