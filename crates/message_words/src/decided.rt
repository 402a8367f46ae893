//! The warnings on a message whose places definitions decide.
ghost use Rattle.std.specs.Prelude.{◌≡◌, ◌++◌, [], IfOk, OnOk, map};
ghost use Rattle.std.specs.List.{flat_map};
ghost use Rattle.message_words.specs.PageTimes.{times_data};
ghost use Rattle.message_words.specs.OnPages.{place_first};
ghost use Rattle.message_words.specs.Warned.{decided_notes, note_of, notes_of, places_in, told_notes};

use crate::code::{CODES, DECIDED, WarningCode};
use crate::flashes::{all_flash, open_flashes};
use crate::items::{chosen_places, flash_period};
use crate::lines::moving_spaces;
use crate::pages::{page_texts, short_pages};
use crate::places::add_place;
use crate::said::{Said, said_items};
use crate::sentence::Value::{Hex, Number};
use crate::sentence::{Value, sentence_of};
use crate::times::{Times, page_times};
use crate::warnings::Warning;
use multi_tag::Tag;
use multi_token::Source;
use sign_font::Sign;
use std::alloc::{AllocError, Global};

/// A message that is read.
#[derive(Clone, Copy)]
struct ReadMessage<'a> {
    alloc: Global,
    sign: &'a Sign,
    octets: &'a [u8],
    /// The most octets of a text that the sign's message table takes.
    max_string: u16,
    /// What its items say, and the times of its pages.
    said: &'a [Said],
    times: &'a [Times],
}

/// A time in whole seconds and tenths.
fn seconds(tenths: u8) -> (Value<'static>, Value<'static>) {
    (Number((tenths / 10).into()), Number((tenths % 10).into()))
}

/// The words of a warning with a code, if they are the same in each message.
fn plain_words(code: WarningCode) -> Option<&'static str> {
    match code {
        WarningCode::IdleOff => Some(
            "the off time does nothing: a message of one page is shown all the time",
        ),
        WarningCode::SpaceAtEnd => {
            Some("a space at the end of the line takes room and moves the line")
        }
        WarningCode::SpaceAtBegin => {
            Some("a space at the beginning of the line takes room and moves the line")
        }
        WarningCode::EndlessFlash => Some("this flash never goes out: its off time is 0"),
        WarningCode::OpenFlash => {
            Some("the flash goes on on the next page: no [/fl] ends it before")
        }
        WarningCode::AllFlashes => Some("all text flashes, so that nothing stands out"),
        _ => None,
    }
}

impl<'a> ReadMessage<'a> {
    /// One place if this is so, and none if it isn't.
    fn place_if(&self, is: bool, at: usize) -> Result<Vec<usize>, AllocError>
        ensures { IfOk result (λ places. places.items ≡ place_first is at []) }
    {
        let mut places = Vec::new(self.alloc);
        add_place(&mut places, is, at)?;
        Ok(places)
    }

    /// Where warnings with a code stand. The error says that memory was refused.
    fn places(&self, code: WarningCode) -> Result<Vec<usize>, AllocError>
        ensures { IfOk result (λ places. places.items
            ≡ places_in self.now.sign.now self.now.max_string self.now.octets.now self.now.said.now
            (map times_data self.now.times.now) code) }
    {
        let most = usize::from(self.max_string);
        let defaults = self.sign.defaults();
        match code {
            WarningCode::LongText => self.place_if(self.octets.len() > most, most),
            WarningCode::ShortPage => short_pages(self.alloc, self.times, self.said),
            WarningCode::OpenFlash => open_flashes(self.alloc, defaults, self.said),
            WarningCode::AllFlashes => self.place_if(all_flash(defaults, self.said), 0),
            WarningCode::SpaceAtEnd => moving_spaces(self.alloc, true, defaults, self.said),
            WarningCode::SpaceAtBegin => moving_spaces(self.alloc, false, defaults, self.said),
            _ => chosen_places(self.alloc, self.sign, self.times.len(), code, self.said),
        }
    }

    /// What the item at an offset says.
    fn tag_at(&self, at: usize) -> Option<Tag> {
        for one in self.said {
            if one.at == at {
                return one.tag;
            }
        }
        None
    }

    /// The words on a page that begins at an offset and is too short.
    fn short_words(&self, at: usize) -> Result<String, AllocError> {
        let pages = page_texts(self.alloc, self.said)?;
        let place = pages.iter().position(|page| page.begin == at).unwrap_or(0);
        let on = self.times.get(place).map_or(0, |times| times.on);
        let number = Number((place as u64).saturating_add(1));
        if on == 0 {
            return sentence_of(self.alloc, "page {} is never shown", &[number]);
        }
        let letters = pages.get(place).map_or(0, |page| page.letters);
        let (whole, tenths) = seconds(on);
        sentence_of(
            self.alloc,
            "page {} has {} characters and is shown for {}.{} seconds only",
            &[number, Number(letters as u64), whole, tenths],
        )
    }

    /// The words on an off time.
    fn dark_words(&self, at: usize) -> Result<String, AllocError> {
        let usual = self.sign.defaults().page_off;
        let off = match self.tag_at(at) {
            Some(Tag::PageTime { off, .. }) => off.unwrap_or(usual),
            _ => usual,
        };
        let (whole, tenths) = seconds(off);
        sentence_of(
            self.alloc,
            "the sign is dark for {}.{} seconds between pages; more than 2.0 look like the end",
            &[whole, tenths],
        )
    }

    /// The words on a colour.
    fn colour_words(&self, at: usize) -> Result<String, AllocError> {
        let colour = match self.tag_at(at) {
            Some(Tag::Fore(Some(colour))) => colour,
            _ => 0,
        };
        sentence_of(
            self.alloc,
            "this sign has no colours: after [cf{}] characters are lit, and after [cf0] dark",
            &[Number(colour.into())],
        )
    }

    /// After how many tenths of a second a flash lights again.
    fn flash_tenths(&self, at: usize) -> Value<'static> {
        let tag = self.tag_at(at);
        Number(flash_period(self.sign.defaults(), tag).map_or(0, |tenths| tenths.into()))
    }

    /// The words on a font.
    fn font_words(&self, at: usize) -> Result<String, AllocError> {
        let mut source = Source::new(b"");
        let number = match self.tag_at(at) {
            Some(Tag::Font(Some(pick))) => pick.number,
            _ => 0,
        };
        let version = self
            .sign
            .font(&mut source, number)
            .map_or(0, |font| font.version);
        let number = Number(number.into());
        sentence_of(
            self.alloc,
            "any version of font {} is taken; [fo{},{}] asks for this one",
            &[number, number, Hex(version.into())],
        )
    }

    /// The words of a warning with a code at an offset.
    fn words(&self, code: WarningCode, at: usize) -> Result<String, AllocError> {
        let say = |words: &str, values: &[Value<'_>]| sentence_of(self.alloc, words, values);
        if let Some(words) = plain_words(code) {
            return say(words, &[]);
        }
        match code {
            WarningCode::LongText => {
                let sizes = [
                    Number(self.octets.len() as u64),
                    Number(self.max_string.into()),
                ];
                say(
                    "the message has {} octets, and the sign's message table takes texts of at most {}",
                    &sizes,
                )
            }
            WarningCode::ShortPage => self.short_words(at),
            WarningCode::LongDark => self.dark_words(at),
            WarningCode::NoColours => self.colour_words(at),
            WarningCode::FastFlash => say(
                "this flash lights every 0.{} seconds; more than twice a second is hard to read",
                &[self.flash_tenths(at)],
            ),
            WarningCode::RapidFlash => say(
                "this flash lights every 0.{} seconds; 3 to 30 times a second can harm viewers",
                &[self.flash_tenths(at)],
            ),
            WarningCode::ManyPages => say(
                "the message has {} pages; drivers have time to read two",
                &[Number(self.times.len() as u64)],
            ),
            _ => self.font_words(at),
        }
    }

    /// Adds a warning with a code at each of some places.
    fn add(
        &self,
        code: WarningCode,
        places: &[usize],
        found: &mut Vec<Warning>,
    ) -> Result<(), AllocError>
        ensures { OnOk result (notes_of found.new.items ≡ notes_of found.old.items ++ map (note_of code) places.now) }
    {
        for at in places {
            let words = self.words(code, *at)?;
            found.push(Warning {
                at: *at,
                code,
                words,
            })?;
        }
        Ok(())
    }

    /// Adds all warnings with a code, if it is told.
    fn add_told(
        &self,
        code: WarningCode,
        told: [bool; CODES],
        found: &mut Vec<Warning>,
    ) -> Result<(), AllocError>
        ensures { OnOk result (notes_of found.new.items ≡ notes_of found.old.items
            ++ told_notes told code (places_in self.now.sign.now self.now.max_string self.now.octets.now self.now.said.now
            (map times_data self.now.times.now) code)) }
    {
        if !code.is_told(told) {
            return Ok(());
        }
        let places = self.places(code)?;
        self.add(code, &places, found)
    }

    /// Adds all warnings with some codes, as far as these are told.
    fn add_all(
        &self,
        codes: &[WarningCode],
        told: [bool; CODES],
        found: &mut Vec<Warning>,
    ) -> Result<(), AllocError>
        ensures { OnOk result (notes_of found.new.items ≡ notes_of found.old.items
            ++ flat_map (λ code. told_notes told code (places_in self.now.sign.now self.now.max_string self.now.octets.now self.now.said.now
            (map times_data self.now.times.now) code)) codes.now) }
    {
        for code in codes {
            self.add_told(*code, told, found)?;
        }
        Ok(())
    }
}

/// The warnings on a message whose places definitions decide, and that are told. The error says that memory was refused.
pub(crate) fn decided(
    alloc: Global,
    sign: &Sign,
    message: &[u8],
    max_string: u16,
    told: [bool; CODES],
) -> Result<Vec<Warning>, AllocError>
    ensures { IfOk result (λ found. notes_of found.items ≡ decided_notes told sign.now max_string message.now) }
{
    let said = said_items(alloc, message)?;
    let times = page_times(alloc, sign, message)?;
    let read = ReadMessage {
        alloc,
        sign,
        octets: message,
        max_string,
        said: &said,
        times: &times,
    };
    let mut found = Vec::new(alloc);
    read.add_all(&DECIDED, told, &mut found)?;
    Ok(found)
}
