//! The names of tags.

ghost use Rattle.std.specs.Prelude.{◌≡◌, ◌++◌, IfSome, IfNone};
ghost use Rattle.std.specs.Str.{str_to_ascii_lowercase};
ghost use Rattle.multi_tag.specs.Body.{HasNameAtFront, table};

/// What the name of a tag says of it (NTCIP 1203 v03, MULTI).
#[derive(Clone, Copy)]
pub enum Name {
    NewPage,
    NewLine,
    LineJust,
    PageJust,
    Font,
    CharSpacing,
    CharSpacingEnd,
    PageTime,
    Flash,
    FlashEnd,
    Fore,
    Back,
    Rect,
    HexChar,
}

/// The name that begins a body, and the octets after it, or `None` where no listed name does.
#[inline(always)]
pub fn read_name(body: &[u8]) -> Option<(Name, &[u8])>
    ensures name { IfSome result (λ (name, rest).
        str_to_ascii_lowercase body.now ≡ (table name).name ++ str_to_ascii_lowercase rest.now) }
    ensures none { IfNone result (¬ HasNameAtFront (str_to_ascii_lowercase body.now)) }
{
    let [first, second, rest @ ..] = body else {
        return None;
    };
    // each letter in both cases, without a call: names are many
    match (*first, *second, rest) {
        (b'n' | b'N', b'l' | b'L', _) => Some((Name::NewLine, rest)),
        (b'n' | b'N', b'p' | b'P', _) => Some((Name::NewPage, rest)),
        (b'j' | b'J', b'l' | b'L', _) => Some((Name::LineJust, rest)),
        (b'j' | b'J', b'p' | b'P', _) => Some((Name::PageJust, rest)),
        (b'f' | b'F', b'o' | b'O', _) => Some((Name::Font, rest)),
        (b's' | b'S', b'c' | b'C', _) => Some((Name::CharSpacing, rest)),
        (b'p' | b'P', b't' | b'T', _) => Some((Name::PageTime, rest)),
        (b'f' | b'F', b'l' | b'L', _) => Some((Name::Flash, rest)),
        (b'c' | b'C', b'f' | b'F', _) => Some((Name::Fore, rest)),
        (b'p' | b'P', b'b' | b'B', _) => Some((Name::Back, rest)),
        (b't' | b'T', b'r' | b'R', _) => Some((Name::Rect, rest)),
        (b'h' | b'H', b'c' | b'C', _) => Some((Name::HexChar, rest)),
        (b'/', b's' | b'S', [b'c' | b'C', rest @ ..]) => Some((Name::CharSpacingEnd, rest)),
        (b'/', b'f' | b'F', [b'l' | b'L', rest @ ..]) => Some((Name::FlashEnd, rest)),
        _ => None,
    }
}
