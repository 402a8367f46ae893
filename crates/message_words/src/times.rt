//! The times of the pages of a message.
ghost use Rattle.std.specs.Prelude.{◌≡◌, ◌∷◌, [], ◌++◌, IfOk, OnOk, if◌then◌else◌};
ghost use Rattle.std.specs.Option.{unwrap_or};
ghost use Rattle.multi_meaning.specs.Address.{Standing};
ghost use Rattle.multi_meaning.specs.Meaning.{Meaning, said_by};
ghost use Rattle.multi_meaning.specs.Times.{times_at};
ghost use Rattle.multi_meaning.specs.internal.Present.{standing_behind};
ghost use Rattle.multi_layout.specs.Items.{IsSaid, is_page_said};
ghost use Rattle.message_words.specs.PageTimes.{AreTimes, default_times, times_data};

use multi_layout::item_at;
use multi_tag::Tag;
use multi_token::Source;
use sign_font::Sign;
use std::alloc::{AllocError, Global};

/// The times of a page, in tenths of a second (NTCIP 1203 v03, MULTI tag 'pt').
#[derive(Clone, Copy)]
pub struct Times {
    /// How long it is shown.
    pub on: u8,
    /// How long the sign is dark after it.
    pub off: u8,
}

impl Times {
    /// Those in force where no tag sets them.
    pub(crate) fn usual(sign: &Sign) -> Times
        ensures { times_data result ≡ default_times sign.now }
    {
        Times::of_tag(sign, None, None)
    }

    /// Those after a tag that sets them.
    pub(crate) fn of_tag(sign: &Sign, on: Option<u8>, off: Option<u8>) -> Times
        ensures { times_data result ≡ record {
          on = unwrap_or on sign.now.defaults.page_on;
          off = unwrap_or off sign.now.defaults.page_off;
        } }
    {
        let defaults = sign.defaults();
        Times {
            on: on.unwrap_or(defaults.page_on),
            off: off.unwrap_or(defaults.page_off),
        }
    }

    /// Those in force after a tag.
    fn behind(self, sign: &Sign, tag: Tag) -> Times
        ensures { (at : Standing) → times_data self ≡ times_at at
            → times_data result ≡ times_at (standing_behind sign.now at (said_by tag)) }
    {
        match tag {
            Tag::PageTime { on, off } => Times::of_tag(sign, on, off),
            _ => self,
        }
    }

    /// Those in force after an item that says this.
    fn after(self, sign: &Sign, said: Option<Tag>) -> Times
        ensures { (at : Standing) (item : Meaning) → IsSaid item said → times_data self ≡ times_at at
            → times_data result ≡ times_at (standing_behind sign.now at item) }
    {
        match said {
            Some(tag) => self.behind(sign, tag),
            None => self,
        }
    }
}

/// Ends a page that has these times, if an item that says this begins another one. The error says that memory was refused.
fn end_page(ended: &mut Vec<Times>, times: Times, said: Option<Tag>) -> Result<(), AllocError>
    ensures { OnOk result (ended.new.items ≡ (if is_page_said said then ended.old.items ++ times ∷ [] else ended.old.items)) }
{
    if let Some(Tag::NewPage) = said {
        ended.push(times)?;
    }
    Ok(())
}

/// The times of the pages of a message, in the order of the pages (NTCIP 1203 v03, MULTI tag 'pt'). The error says that memory was refused.
pub fn page_times(alloc: Global, sign: &Sign, message: &[u8]) -> Result<Vec<Times>, AllocError>
    ensures { IfOk result (λ times. AreTimes sign.now message.now times.items) }
{
    let mut source = Source::new(message);
    let mut ended = Vec::new(alloc);
    let mut times = Times::usual(sign);
    let mut at = 0;
    while let Some(item) = item_at(&mut source, at) {
        end_page(&mut ended, times, item.tag)?;
        times = times.after(sign, item.tag);
        at += item.len;
    }
    ended.push(times)?;
    Ok(ended)
}
