//! How a text begins: a byte-order mark is passed over, and UTF-16 is recognized by its own.

use std::io::Read;
use tool_streams::ToolFault;

/// The most octets of a byte-order mark.
const LONGEST: usize = 3;

/// The byte-order mark of UTF-8 (ISO/IEC 10646).
const OF_UTF8: &[u8] = &[0xef, 0xbb, 0xbf];

/// Those of UTF-16, in either order of its octets (ISO/IEC 10646).
const OF_UTF16: [&[u8]; 2] = [&[0xff, 0xfe], &[0xfe, 0xff]];

/// The first octets of a text, up to one with which they are no beginning of a byte-order mark (own).
#[derive(Clone, Copy)]
pub(crate) struct Beginning {
    octets: [u8; LONGEST],
    count: usize,
}

impl Beginning {
    /// Reads octet by octet, and no further than a mark goes. Any error is `Read`.
    pub(crate) fn read<R: Read>(reader: &mut R) -> Result<Beginning, ToolFault> {
        let mut beginning = Beginning {
            octets: [0; LONGEST],
            count: 0,
        };
        for place in 0..LONGEST {
            let mut octet = [0u8; 1];
            match reader.read(&mut octet) {
                Ok(0) => break,
                Ok(_) => {}
                Err(_) => return Err(ToolFault::Read),
            }
            if let Some(slot) = beginning.octets.get_mut(place) {
                *slot = octet[0];
            }
            beginning.count = place.saturating_add(1);
            if !beginning.may_be_mark() {
                break;
            }
        }
        Ok(beginning)
    }

    /// All of its octets.
    fn all(&self) -> &[u8] {
        self.octets.get(..self.count).unwrap_or(b"")
    }

    /// Whether a byte-order mark may begin with its octets.
    fn may_be_mark(&self) -> bool {
        let [one, other] = OF_UTF16;
        let octets = self.all();
        OF_UTF8.starts_with(octets) || one.starts_with(octets) || other.starts_with(octets)
    }

    /// Whether it begins with a mark of UTF-16.
    pub(crate) fn is_utf16(&self) -> bool {
        let [one, other] = OF_UTF16;
        let octets = self.all();
        octets.starts_with(one) || octets.starts_with(other)
    }

    /// Its octets but for a mark of UTF-8.
    pub(crate) fn text(&self) -> &[u8] {
        if *self.all() == *OF_UTF8 {
            b""
        } else {
            self.all()
        }
    }
}
