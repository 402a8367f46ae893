//! Files in PNG.

use crate::tests::so;
use png::png_file;

/// Two points of the colours 1 and 2, by Python's struct, zlib.crc32 and zlib.adler32.
const BEFORE: [u8; 41] =
    *b"\x89PNG\r\n\x1a\n\x00\x00\x00\x0dIHDR\x00\x00\x00\x02\x00\x00\x00\x01\x08\x03\x00\x00\x00\xc3\xfc\x8f\xb8\x00\x00\x00\x30PLTE";

const AFTER: [u8; 66] =
    *b"\xdb\xb0\x90\xcc\x00\x00\x00\x02IDAT\x78\x01\xec\x1a\x7e\xd2\x00\x00\x00\x08IDAT\x01\x03\x00\xfc\xff\x00\x01\x02\xb7\xde\xac\x44\x00\x00\x00\x04IDAT\x00\x07\x00\x04\xe8\x01\x35\x9b\x00\x00\x00\x00IEND\xae\x42\x60\x82";

#[test]
fn a_drawing_of_two_points_is_these_octets(rt: HostRuntime) {
    let alloc = rt.alloc();
    let octets = png_file(alloc, 2, 1, &[7; 48], &[1, 2]).expect(&rt, "a file");
    so(&rt, octets.len() == 155, "153 octets, and two points");
    so(&rt, octets.starts_with(&BEFORE), "the size, and a palette");
    so(
        &rt,
        octets.get(41..89).expect(&rt, "a palette") == [7u8; 48].as_slice(),
        "the palette",
    );
    so(&rt, octets.ends_with(&AFTER), "the points and the end");
}
