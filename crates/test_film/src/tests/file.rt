//! Files in GIF.

use crate::tests::so;
use gif::GifWriter;

/// A picture of the colours 1 and 2 for 3 seconds. Its data are the codes 16, 1, 2 and 17, five bits each from the least on:
/// 16 + 1 * 2^5 + 2 * 2^10 + 17 * 2^15 is 0x088830.
const PICTURE: [u8; 25] =
    *b"\x21\xf9\x04\x04\x2c\x01\x00\x00\x2c\x00\x00\x00\x00\x02\x00\x01\x00\x00\x04\x03\x30\x88\x08\x00\x3b";

#[test]
fn a_picture_of_two_points_is_these_octets(rt: HostRuntime) {
    let alloc = rt.alloc();
    let mut writer = GifWriter::new(alloc, 2, 1, &[7; 48]).expect(&rt, "a file");
    writer.push(alloc, 300, &[1, 2]).expect(&rt, "a picture");
    let octets = writer.finish().expect(&rt, "the end of the file");
    so(&rt, octets.len() == 105, "80 octets, 24 of the picture, 1");
    so(
        &rt,
        octets.starts_with(b"GIF89a\x02\x00\x01\x00\xb3\x00\x00"),
        "the size, and that 16 colours follow",
    );
    so(
        &rt,
        octets.get(13..61).expect(&rt, "a head") == [7u8; 48].as_slice(),
        "the palette",
    );
    let again = b"\x21\xff\x0bNETSCAPE2.0\x03\x01\x00\x00\x00".as_slice();
    so(
        &rt,
        octets.get(61..80).expect(&rt, "a head") == again,
        "over and over",
    );
    so(&rt, octets.ends_with(&PICTURE), "the picture and the end");
}
