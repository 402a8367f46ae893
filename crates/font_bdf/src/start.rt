//! What a file is that isn't a font in BDF, or no font table.

use crate::fault::BdfProblem;

/// What is wrong with a font whose first line doesn't begin with STARTFONT: what its first octets tell of the file.
pub(crate) fn start_problem(line: &[u8]) -> BdfProblem {
    match line {
        [0xef, 0xbb, 0xbf, b'f', b'o', b'n', b't', ..] => BdfProblem::Listed,
        [0xef, 0xbb, 0xbf, ..] => BdfProblem::ByteOrderMark,
        [0xff, 0xfe, ..] => BdfProblem::Utf16,
        [0xfe, 0xff, ..] => BdfProblem::Utf16,
        [0x1f, 0x8b, ..] => BdfProblem::Gzip,
        [b'P', b'K', 3, 4, ..] => BdfProblem::Zip,
        [1, b'f', b'c', b'p', ..] => BdfProblem::Pcf,
        // TrueType, OpenType, and several fonts in one file
        [0, 1, 0, 0, ..] => BdfProblem::Outlines,
        [b'O', b'T', b'T', b'O', ..] => BdfProblem::Outlines,
        [b't', b'r', b'u', b'e', ..] => BdfProblem::Outlines,
        [b't', b't', b'c', b'f', ..] => BdfProblem::Outlines,
        // web fonts
        [b'w', b'O', b'F', b'F', ..] => BdfProblem::Outlines,
        [b'w', b'O', b'F', b'2', ..] => BdfProblem::Outlines,
        [b'f', b'o', b'n', b't', ..] => BdfProblem::Listed,
        [b'"', b'f', b'o', b'n', b't', ..] => BdfProblem::Listed,
        [b'c', b'h', b'a', b'r', ..] => BdfProblem::Listed,
        [b'[', b'[', b'f', b'o', b'n', b't', ..] => BdfProblem::Written,
        _ => BdfProblem::NoStart,
    }
}

/// What a file is that was read as a font table of NTCIP 1203, if its first octets tell it. In such a table a byte-order mark and UTF-16
/// do no harm.
pub(crate) fn kind_of(octets: &[u8]) -> Option<BdfProblem> {
    if octets.starts_with(b"STARTFONT") {
        return Some(BdfProblem::NotListed);
    }
    match start_problem(octets) {
        BdfProblem::NoStart | BdfProblem::Listed => None,
        BdfProblem::ByteOrderMark | BdfProblem::Utf16 => None,
        problem => Some(problem),
    }
}
