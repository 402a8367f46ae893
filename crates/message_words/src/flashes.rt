//! Which flashes of a message go on too long.
ghost use Rattle.std.specs.Prelude.{◌≡◌, IfOk};
ghost use Rattle.message_words.specs.OnPages.{all_flash, open_flashes};

use crate::items::{flash_turn, is_letter, is_page};
use crate::places::add_place;
use crate::said::Said;
use sign_font::Defaults;
use std::alloc::{AllocError, Global};

/// Where pages of a message end in a flash. The error says that memory was refused.
pub(crate) fn open_flashes(
    alloc: Global,
    defaults: Defaults,
    said: &[Said],
) -> Result<Vec<usize>, AllocError>
    ensures { IfOk result (λ places. places.items ≡ open_flashes defaults said.now) }
{
    let mut places = Vec::new(alloc);
    let mut is_flashing = false;
    for one in said {
        add_place(&mut places, is_flashing && is_page(one.tag), one.at)?;
        is_flashing = flash_turn(defaults, one.tag).unwrap_or(is_flashing);
    }
    Ok(places)
}

/// Whether all letters of a message flash, and there are some.
pub(crate) fn all_flash(defaults: Defaults, said: &[Said]) -> bool
    ensures { result ≡ all_flash defaults said.now }
{
    let mut has_letters = false;
    let mut has_still = false;
    let mut is_flashing = false;
    for one in said {
        let letter = is_letter(one.tag);
        has_letters = has_letters || letter;
        has_still = has_still || (letter && !is_flashing);
        is_flashing = flash_turn(defaults, one.tag).unwrap_or(is_flashing);
    }
    has_letters && !has_still
}
