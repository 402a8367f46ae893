//! Why a message is refused, in words with numbers.

use crate::characters::FontCharacters;
use crate::colours::{asked_behind_characters, asked_by_shares, write_nearest};
use crate::forms::{form_of, left_out, nearest};
use crate::names::{Named, known_of, meant};
use crate::piece::{Item, item_at, tag_of};
use crate::room::{Lack, Trial};
use crate::sentence::Value::{Char, Code, Hex, Number, Words};
use crate::sentence::write_sentence;
use crate::standing::{Standing, standing_behind};
use crate::utf8::{Encoded, encoded_around, is_shown};
use crate::words::{MORE, Refusal};
use multi_tag::Tag;
use multi_token::Source;
use std::alloc::AllocError;

/// The most octets of a tag's body that are shown (own).
const BODY: usize = 40;

/// The words for the numbers of line justifications (NTCIP 1203 v03, MULTI tag 'jl').
const LINES: [&str; 6] = ["none", "other", "left", "centre", "right", "full"];

/// The words for the numbers of page justifications (NTCIP 1203 v03, MULTI tag 'jp').
const GROUPS: [&str; 5] = ["none", "other", "top", "middle", "bottom"];

/// What is said of a colour of three numbers.
const LEFT_OUT_SHARES: &str =
    "the standard has such a tag for a colour by its red, green and blue, and this profile leaves it out";

/// The word for a number.
fn word<'a>(words: &[&'a str], number: u8) -> &'a str {
    match words.get(usize::from(number)) {
        Some(word) => word,
        None => "other",
    }
}

/// Octets as text, with a `?` in place of those that are no signs of ASCII.
fn write_signs(text: &mut String, octets: &[u8]) -> Result<(), AllocError> {
    for octet in octets {
        let is_sign = *octet >= b' ' && *octet <= b'~';
        text.push(if is_sign { char::from(*octet) } else { '?' })?;
    }
    Ok(())
}

/// The octets of a body as text.
fn write_body(text: &mut String, body: &[u8]) -> Result<(), AllocError> {
    write_signs(text, body.get(..BODY).unwrap_or(body))?;
    text.push_str(if body.len() > BODY { MORE } else { "" })
}

/// The number of the tab.
const TAB: u16 = 9;

/// The number of the backslash.
const BACKSLASH: u16 = 92;

/// The capital of a small letter, or the small letter of a capital.
fn other_case(number: u16) -> Option<u8> {
    let letter = u8::try_from(number).ok()?;
    if letter.is_ascii_lowercase() {
        Some(letter.to_ascii_uppercase())
    } else if letter.is_ascii_uppercase() {
        Some(letter.to_ascii_lowercase())
    } else {
        None
    }
}

/// The word for how many octets there are.
fn count_word(count: usize) -> &'static str {
    match count {
        2 => "two",
        3 => "three",
        _ => "four",
    }
}

/// Says what to write in place of a character, if the font has it.
fn write_plain(
    text: &mut String,
    plain: &str,
    characters: &FontCharacters,
) -> Result<(), AllocError> {
    let (sentence, words) = match plain {
        "" => ("; leave it out", ""),
        " " => ("; write a space", ""),
        "?" => ("; it has{}", characters.words()),
        _ if characters.has_all(plain, false) => ("; write {}", plain),
        _ if characters.has_all(plain, true) => return write_capitals(text, plain),
        _ => ("; it has{}", characters.words()),
    };
    write_sentence(text, sentence, &[Words(words)])
}

/// Says to write words in capitals.
fn write_capitals(text: &mut String, words: &str) -> Result<(), AllocError> {
    text.push_str("; write ")?;
    for octet in words.as_bytes() {
        text.push(char::from(octet.to_ascii_uppercase()))?;
    }
    Ok(())
}

/// Says that a character is written in more than one octet, and what to write in its place.
fn write_encoded(
    text: &mut String,
    font: u8,
    number: u16,
    encoded: Encoded,
    characters: Option<&FontCharacters>,
) -> Result<(), AllocError> {
    let Encoded { character, count } = encoded;
    let code = u32::from(character);
    let known = known_of(character);
    let name = known.name;
    let (shown, space) = if is_shown(character) {
        (Char(character), " ")
    } else {
        (Words(""), "")
    };
    write_sentence(
        text,
        "{}{}({}{}{}) is written in {} octets, and the sign reads octets; font {} has no character {}",
        &[
            shown,
            Words(space),
            Code(code),
            Words(if name.is_empty() { "" } else { ", " }),
            Words(name),
            Words(count_word(count)),
            Number(font.into()),
            Number(number.into()),
        ],
    )?;
    match characters {
        Some(characters) => write_known(text, code, known, characters),
        None => Ok(()),
    }
}

/// Says what to write in place of a character of this code in Unicode.
fn write_known(
    text: &mut String,
    code: u32,
    known: Named,
    characters: &FontCharacters,
) -> Result<(), AllocError> {
    let number = u16::try_from(code).unwrap_or(0);
    if characters.has(number) {
        return write_sentence(text, "; write [hc{}]", &[Hex(code)]);
    }
    write_plain(text, known.plain, characters)
}

/// What may be meant by a tag that the standard doesn't have, and a word for it.
fn guess(body: &[u8]) -> (&'static str, &'static str) {
    let bare = body.trim_ascii();
    if bare.len() < body.len() && form_of(bare).is_some() {
        return ("; it is meant without spaces", "");
    }
    match (meant(body), nearest(body)) {
        (Some(tag), _) => ("; perhaps {} is meant", tag),
        (None, Some(name)) => ("; perhaps '{}' is meant", name),
        (None, None) => ("; [[ and ]] write brackets", ""),
    }
}

impl Refusal<'_> {
    /// The body of the tag that stands at the place.
    fn body(&self) -> Option<&[u8]> {
        match item_at(self.message, self.at) {
            Some((Item::Tag(body), _)) => Some(body),
            _ => None,
        }
    }

    /// The tag that stands at the place.
    fn tag(&self) -> Option<Tag> {
        let (tag, _) = tag_of(self.message.get(self.at..)?)?;
        Some(tag)
    }

    /// Says why a bracket is broken.
    fn write_bracket(&self, text: &mut String) -> Result<(), AllocError> {
        let rest = self.message.get(self.at..).unwrap_or(b"");
        text.push_str(if rest.starts_with(b"[]") {
            "a tag isn't empty; [[ and ]] write brackets"
        } else {
            "a bracket stands alone here; [[ and ]] write brackets, and a tag ends with ]"
        })
    }

    /// Says why a tag isn't supported.
    fn write_unsupported(&self, text: &mut String) -> Result<(), AllocError> {
        let Some(body) = self.body() else {
            return self.write_bracket(text);
        };
        text.push_str("the sign takes no tag '")?;
        write_body(text, body)?;
        if let Some(purpose) = left_out(body) {
            let sentence = "'; the standard has such a tag for {}, and this profile leaves it out";
            write_sentence(text, sentence, &[Words(purpose)])?;
            return match asked_behind_characters(body) {
                Some(shares) => write_nearest(
                    text,
                    self.sign,
                    "pb",
                    shares,
                    ", for the whole page",
                ),
                None => Ok(()),
            };
        }
        text.push_str("'; no tag of the standard begins so")?;
        let (sentence, word) = guess(body);
        write_sentence(text, sentence, &[Words(word)])
    }

    /// Says what is wrong with a rectangle.
    fn write_rectangle(&self, text: &mut String, x: u32, y: u32) -> Result<(), AllocError> {
        let sentence = if x == 0 || y == 0 {
            "the column and the row of a rectangle are counted from 1, and one of them is 0"
        } else {
            "the rectangle isn't inside the sign, which has {} by {} pixels"
        };
        let width = Number(self.sign.width().into());
        let height = Number(self.sign.height().into());
        write_sentence(text, sentence, &[width, height])
    }

    /// Says how a tag is written.
    fn write_value(&self, text: &mut String) -> Result<(), AllocError> {
        if let Some(Tag::Rect { x, y, .. }) = self.tag() {
            return self.write_rectangle(text, x, y);
        }
        let body = self.body().unwrap_or(b"");
        if let Some((tag, shares)) = asked_by_shares(body) {
            text.push_str(LEFT_OUT_SHARES)?;
            return write_nearest(text, self.sign, tag, shares, "");
        }
        let (sentence, form) = match form_of(body) {
            Some(form) => ("this tag is written {}", form),
            None => ("the tag has another form", ""),
        };
        write_sentence(text, sentence, &[Words(form)])
    }

    /// Says how much room lacks.
    fn write_size(&self, text: &mut String, standing: &Standing) -> Result<(), AllocError> {
        let (Some(large), Some((_, end))) = (self.large, item_at(self.message, self.at)) else {
            return text.push_str("the line or the area no longer fits");
        };
        let trial = Trial {
            alloc: self.alloc,
            large,
            message: self.message,
            from: standing.area,
            end,
        };
        let (sentence, need, has) = match trial.lack(standing, self.at)? {
            Lack::Line(need) => (
                "the line needs {}{} pixels, the rectangle has {}",
                need,
                standing.width,
            ),
            Lack::Area(need) => ("the area needs {}{} rows of {}", need, standing.height),
        };
        write_sentence(
            text,
            sentence,
            &[
                Words(need.words),
                Number(need.pixels.into()),
                Number(has.into()),
            ],
        )
    }

    /// Says which fonts there are.
    fn write_fonts(&self, text: &mut String) -> Result<(), AllocError> {
        if let Some(Tag::Font(Some(pick))) = self.tag() {
            let number = Number(pick.number.into());
            write_sentence(text, "the sign has no font {}; it has", &[number])?;
        }
        for characters in self.fonts {
            let number = Number(characters.font.into());
            write_sentence(text, " {}", &[number])?;
        }
        Ok(())
    }

    /// The number of the character at the place.
    fn number(&self) -> u16 {
        match (item_at(self.message, self.at), self.tag()) {
            (_, Some(Tag::HexChar(number))) => number,
            (Some((Item::Char(octet), _)), _) => u16::from(octet),
            _ => 0,
        }
    }

    /// Says which characters the font has, and what to write.
    fn write_characters(&self, text: &mut String, font: u8) -> Result<(), AllocError> {
        let number = self.number();
        let characters = self.characters(font);
        if let (128..=255, None, Some(encoded)) = (
            number,
            self.tag(),
            encoded_around(self.message, self.at),
        ) {
            return write_encoded(text, font, number, encoded, characters);
        }
        let sentence = if number > 32 && number < 127 {
            "font {} has no character {} '{}'"
        } else {
            "font {} has no character {}"
        };
        let values = [
            Number(font.into()),
            Number(number.into()),
            Char(char::from(number.min(126) as u8)),
        ];
        write_sentence(text, sentence, &values)?;
        self.write_instead(text, number, characters)
    }

    /// Says what to write in place of a character of one octet, and which ones the font has.
    fn write_instead(
        &self,
        text: &mut String,
        number: u16,
        characters: Option<&FontCharacters>,
    ) -> Result<(), AllocError> {
        if number == TAB {
            return text.push_str(", which is a tab; write spaces");
        }
        if number == BACKSLASH && self.message.get(self.at.saturating_add(1)) == Some(&b'n') {
            return text.push_str("; [nl] begins a line");
        }
        let Some(characters) = characters else {
            return Ok(());
        };
        let (sentence, other) = match other_case(number) {
            Some(other) if characters.has(u16::from(other)) => ("; it has{}; write {}", other),
            _ => ("; it has{}", b' '),
        };
        let words = Words(characters.words());
        write_sentence(text, sentence, &[words, Char(char::from(other))])
    }

    /// The characters of a font.
    fn characters(&self, font: u8) -> Option<&FontCharacters> {
        for characters in self.fonts {
            if characters.font == font {
                return Some(characters);
            }
        }
        None
    }

    /// Says which justification goes back.
    fn write_conflict(&self, text: &mut String, standing: &Standing) -> Result<(), AllocError> {
        let (sentence, words, from, to) = if standing.page_just < standing.group {
            (
                "page justification goes back from {} ({}) to {} ({}); [np] and [tr..] begin anew",
                &GROUPS[..],
                standing.group,
                standing.page_just,
            )
        } else if standing.line_just == 5 || standing.segment == 5 {
            return text.push_str(
                "full justification (5) isn't alone on its line; [nl] begins a line",
            );
        } else {
            (
                "line justification goes back from {} ({}) to {} ({}); [nl] begins a line",
                &LINES[..],
                standing.segment,
                standing.line_just,
            )
        };
        let values = [
            Number(from.into()),
            Words(word(words, from)),
            Number(to.into()),
            Words(word(words, to)),
        ];
        write_sentence(text, sentence, &values)
    }

    /// Says which version the font has.
    fn write_version(&self, text: &mut String) -> Result<(), AllocError> {
        let Some(Tag::Font(Some(pick))) = self.tag() else {
            return text.push_str("the font has another version");
        };
        let mut source = Source::new(b"");
        let (Some(font), Some(wanted)) = (self.sign.font(&mut source, pick.number), pick.version)
        else {
            return text.push_str("the font has another version");
        };
        let values = [
            Number(pick.number.into()),
            Hex(font.version.into()),
            Hex(wanted.into()),
        ];
        write_sentence(text, "font {} has version {}, and not {}", &values)
    }

    /// Says which page is one too many.
    fn write_pages(&self, text: &mut String, pages: u32) -> Result<(), AllocError> {
        let page = Number(pages.saturating_add(1).into());
        let most = Number(self.sign.max_pages().into());
        write_sentence(text, "page {} of at most {}", &[page, most])
    }

    /// Adds the sentence that says why.
    pub(crate) fn write_reason(&self, text: &mut String) -> Result<(), AllocError> {
        let front = self.message.get(..self.at).unwrap_or(self.message);
        let standing = standing_behind(self.sign, front);
        match self.code {
            3 => self.write_unsupported(text),
            4 => self.write_value(text),
            5 => self.write_size(text, &standing),
            6 => self.write_fonts(text),
            7 => self.write_characters(text, standing.font),
            11 => self.write_conflict(text, &standing),
            12 => self.write_pages(text, standing.pages),
            _ => self.write_version(text),
        }
    }
}
