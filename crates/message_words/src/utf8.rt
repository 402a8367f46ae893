//! Characters in UTF-8 among the octets of a message, which a sign reads octet by octet.

/// The most octets of a character in UTF-8.
const MOST: usize = 4;

/// A character in UTF-8.
#[derive(Clone, Copy)]
pub struct Encoded {
    pub character: char,
    /// How many octets it is written in, 1 to 4.
    pub count: usize,
}

/// The character that begins at an offset, if one does.
pub fn encoded_at(message: &[u8], at: usize) -> Option<Encoded> {
    for count in 1..=MOST {
        let octets = message.get(at..at.saturating_add(count))?;
        if let Ok(text) = str::from_utf8(octets) {
            let character = text.chars().next()?;
            return Some(Encoded { character, count });
        }
    }
    None
}

/// The character of more than one octet to which the octet at an offset belongs, if it belongs to one.
pub(crate) fn encoded_around(message: &[u8], at: usize) -> Option<Encoded> {
    for back in 0..MOST {
        let start = at.checked_sub(back)?;
        if let Some(encoded) = encoded_at(message, start) {
            let is_inside = encoded.count > 1 && back < encoded.count;
            return is_inside.then_some(encoded);
        }
    }
    None
}

/// Whether a character is seen where it is written.
pub(crate) fn is_shown(character: char) -> bool {
    match u32::from(character) {
        0..=31 | 127..=160 | 173 | 0x200B..=0x200F | 0x2028..=0x202F | 0x2060..=0x206F | 0xFEFF => {
            false
        }
        _ => true,
    }
}
