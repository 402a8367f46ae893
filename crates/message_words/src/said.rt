//! What the items of a message say, one after the other.
ghost use Rattle.std.specs.Prelude.{◌≡◌, IfOk};
ghost use Rattle.message_words.specs.Said.{said_items};

use multi_layout::item_at;
use multi_tag::Tag;
use multi_token::Source;
use std::alloc::{AllocError, Global};

/// What an item says, and where it stands. A character says what the tag 'hc' with its number does, and a tag at fault says nothing.
#[derive(Clone, Copy)]
pub(crate) struct Said {
    /// The octet where it begins, counted from 0.
    pub(crate) at: usize,
    /// The octet after it.
    pub(crate) end: usize,
    pub(crate) tag: Option<Tag>,
}

/// What the items of a message say. The error says that memory was refused.
pub(crate) fn said_items(alloc: Global, message: &[u8]) -> Result<Vec<Said>, AllocError>
    ensures { IfOk result (λ said. said.items ≡ said_items message.now) }
{
    let mut source = Source::new(message);
    let mut all = Vec::new(alloc);
    let mut at = 0;
    while let Some(item) = item_at(&mut source, at) {
        let end = at + item.len;
        let tag = item.tag;
        all.push(Said { at, end, tag })?;
        at = end;
    }
    Ok(all)
}
