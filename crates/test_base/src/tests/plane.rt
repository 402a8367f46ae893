ghost use Rattle.std.specs.Prelude.{◌≡◌, ◌+◌, ◌≤◌, length};

use crate::tests::so;
use page_plane::{Memory, Plane};
use std::process::Abort;

/// The plane of a test, whose memory `.ci/refused-calls` refuses.
fn made(rt: &impl Abort, plane: Result<Plane, Memory>) -> Plane
    ensures { plane ≡ Ok result }
{
    plane.expect(rt, "a plane")
}

#[test]
fn a_plane_of_12_by_7_has_7_rows_of_2_octets(rt: HostRuntime) {
    let mut plane = made(&rt, Plane::new(rt.alloc(), 12, 7));
    assert!(rt; plane.width() == 12 && plane.height() == 7);
    so(&rt, plane.steps() == 0, "no step");
    for y in 0..7 {
        assert!(rt; plane.row(y) == [0, 0].as_slice(), "row {y} of a new plane");
    }
    plane.fill(true);
    so(&rt, plane.steps() == 14, "one step an octet");
    for y in 0..7 {
        assert!(rt;
            plane.row(y) == [0xff, 0xf0].as_slice(),
            "row {y}: the spare bits are 0"
        );
    }
}

#[test]
fn a_row_changes_the_pixels_under_its_set_bits_alone(rt: HostRuntime) {
    let mut plane = made(&rt, Plane::new(rt.alloc(), 12, 7));
    // the A of three by three: 010, 111, 101, its last row over the octets' edge
    plane.put_row(6, 2, 3, 0b010 << 61, true);
    plane.put_row(6, 3, 3, 0b111 << 61, true);
    plane.put_row(6, 4, 3, 0b101 << 61, true);
    so(
        &rt,
        plane.row(2) == [0b0000_0001, 0].as_slice(),
        "the first row",
    );
    so(
        &rt,
        plane.row(3) == [0b0000_0011, 0b1000_0000].as_slice(),
        "the second row",
    );
    so(
        &rt,
        plane.row(4) == [0b0000_0010, 0b1000_0000].as_slice(),
        "the third row",
    );
    plane.put_row(7, 3, 1, u64::MAX, false);
    so(
        &rt,
        plane.row(3) == [0b0000_0010, 0b1000_0000].as_slice(),
        "one pixel off",
    );
    plane.put_row(12, 3, 0, u64::MAX, true);
    so(
        &rt,
        plane.row(3) == [0b0000_0010, 0b1000_0000].as_slice(),
        "no pixel at the right edge",
    );
    so(&rt, plane.steps() == 5, "one step a row");
}

/// Puts a row pixel by pixel.
fn put_plainly(pixels: &mut [bool], at: usize, width: u8, bits: u64, on: bool)
    requires width { width ≤ 64 }
    requires room { at + width ≤ length pixels.old }
{
    for j in 0..usize::from(width) {
        if bits >> (63 - j) & 1 == 1 {
            pixels[at + j] = on;
        }
    }
}

/// Asserts that a plane of 20 by 3 has these pixels, told one by one and by octets.
fn assert_pixels(rt: &impl Abort, plane: &Plane, pixels: &[bool; 60], put: (u16, u8)) {
    assert!(rt; plane.width() == 20 && plane.height() == 3);
    for y in 0..3 {
        let row = plane.row(y);
        for x in 0..24 {
            let lit = x < 20 && pixels[usize::from(y) * 20 + x];
            assert!(rt;
                (row[x / 8] >> (7 - x % 8) & 1 == 1) == lit,
                "bit {x} of row {y} at {put:?}"
            );
            if x < 20 {
                assert!(rt;
                    plane.pixel(x as u16, y) == lit,
                    "pixel {x} of row {y} at {put:?}"
                );
            }
        }
    }
}

#[test]
fn rows_cross_the_edges_of_octets(rt: HostRuntime) {
    let mut plane = made(&rt, Plane::new(rt.alloc(), 20, 3));
    let mut pixels = [false; 60];
    let mut bits = 0x9e37_79b9_7f4a_7c15u64;
    for x in 0..20u16 {
        for width in 1..21 - x as u8 {
            assert!(rt; plane.width() == 20 && plane.height() == 3);
            let y = u16::from(width) % 3;
            let on = bits >> 20 & 1 == 1;
            plane.put_row(x, y, width, bits, on);
            put_plainly(
                &mut pixels,
                usize::from(y) * 20 + usize::from(x),
                width,
                bits,
                on,
            );
            assert_pixels(&rt, &plane, &pixels, (x, width));
            bits = bits.wrapping_mul(0x5851_f42d_4c95_7f2d).wrapping_add(1);
        }
    }
    so(&rt, plane.steps() == 210, "one step a row");
}

#[test]
fn rows_are_put_one_under_the_other(rt: HostRuntime) {
    let mut plane = made(&rt, Plane::new(rt.alloc(), 20, 3));
    let mut pixels = [false; 60];
    let rows = [
        0x9e37_79b9_7f4a_7c15,
        0xf39c_c060_5ced_c834,
        0x1082_276b_f3a2_7251,
    ];
    for x in 0..20u16 {
        for width in 1..21 - x as u8 {
            assert!(rt; plane.width() == 20 && plane.height() == 3);
            let y = (x + u16::from(width)) % 3;
            let on = width % 4 < 2;
            let count = usize::from(3 - y);
            plane.put_rows(x, y, width, &rows[..count], on);
            for j in 0..count {
                let at = (usize::from(y) + j) * 20 + usize::from(x);
                put_plainly(&mut pixels, at, width, rows[j], on);
            }
            assert_pixels(&rt, &plane, &pixels, (x, width));
        }
    }
    so(&rt, plane.steps() == 406, "one step a row");
    assert!(rt; plane.width() == 20 && plane.height() == 3);
    plane.put_rows(20, 3, 0, &[], true);
    assert_pixels(&rt, &plane, &pixels, (20, 0));
}

#[test]
fn a_filled_row_of_each_width_has_no_spare_bit(rt: HostRuntime) {
    for width in 1..=33u16 {
        let mut plane = made(&rt, Plane::new(rt.alloc(), width, 2));
        plane.fill(true);
        assert!(rt; plane.width() == width && plane.height() == 2);
        for y in 0..2 {
            let row = plane.row(y);
            for x in 0..8 * row.len() {
                let set = row[x / 8] >> (7 - x % 8) & 1 == 1;
                assert!(rt;
                    set == (x < usize::from(width)),
                    "bit {x} of row {y} of {width}"
                );
            }
        }
    }
}

#[test]
fn the_largest_plane_is_filled_and_put_at_its_corners(rt: HostRuntime) {
    let mut plane = made(&rt, Plane::new(rt.alloc(), 1024, 128));
    plane.fill(true);
    so(
        &rt,
        plane.steps() == 16384,
        "128 octets in each of 128 rows",
    );
    let ends = 1 << 63 | 1;
    for (x, y) in [(0, 0), (960, 0), (0, 127), (960, 127)] {
        assert!(rt; plane.width() == 1024 && plane.height() == 128);
        plane.put_row(x, y, 64, ends, false);
    }
    assert!(rt; plane.width() == 1024 && plane.height() == 128);
    for y in [0, 127] {
        let row = plane.row(y);
        for (at, octet) in [
            (0, 0x7f),
            (1, 0xff),
            (7, 0xfe),
            (8, 0xff),
            (119, 0xff),
            (120, 0x7f),
            (127, 0xfe),
        ] {
            assert!(rt; row[at] == octet, "octet {at} of row {y}");
        }
    }
    assert!(rt; plane.row(1).len() == 128);
    so(&rt, plane.steps() == 16388, "and four rows");
    plane.put_rows(960, 64, 64, &[ends; 64], false);
    assert!(rt; plane.width() == 1024 && plane.height() == 128);
    so(&rt, plane.steps() == 16452, "and 64 rows");
    for y in 64..128 {
        let row = plane.row(y);
        assert!(rt;
            (row[119], row[120], row[127]) == (0xff, 0x7f, 0xfe),
            "row {y}"
        );
    }
    so(&rt, plane.row(63)[120] == 0xff, "above the first row");
    plane.fill(false);
    so(&rt, !plane.pixel(1023, 127), "the last pixel");
}
