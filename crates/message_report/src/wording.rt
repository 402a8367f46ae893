//! What the words of a refusal are taken from.

use crate::large::large_sign;
use message_words::FontCharacters;
use sign_font::Sign;
use std::alloc::{AllocError, Global};

/// What the words of a refusal are taken from (own). It takes 65,535 looks at each font, so it is made for the first refusal.
#[derive(Drop)]
pub(crate) struct Wording {
    /// The characters of the sign's fonts.
    pub(crate) fonts: Vec<FontCharacters>,
    /// A sign with its fonts and defaults and the most pixels and pages, by which is told how much room a message lacks.
    pub(crate) large: Option<Sign>,
}

impl Wording {
    /// That of a sign. The error says that memory was refused.
    pub(crate) fn new(alloc: Global, sign: &Sign) -> Result<Wording, AllocError> {
        let fonts = FontCharacters::of_sign(alloc, sign)?;
        let large = large_sign(alloc, sign, &fonts)?;
        Ok(Wording { fonts, large })
    }
}
