//! What a sign is.
ghost use Rattle.std.specs.Prelude.{◌≡◌};
ghost use Rattle.latsefur_c.specs.Facts.{facts_of};

use sign_font::Sign;

/// What a sign is.
#[repr(C)]
#[derive(Clone, Copy)]
pub struct LatsefurSign {
    /// The width in pixels, 1 to 1,024.
    pub width: u16,
    /// The height in pixels, 1 to 128.
    pub height: u16,
    /// The most pages of a text, 1 to 255.
    pub max_pages: u8,
    /// 1 if pixels have the ten classic colours, and 0 if they are lit or dark.
    pub classic: u8,
}

/// What a sign is.
pub(crate) fn facts_of(sign: &Sign) -> LatsefurSign
    ensures { result ≡ facts_of sign.now }
{
    LatsefurSign {
        width: sign.width(),
        height: sign.height(),
        max_pages: sign.max_pages(),
        classic: u8::from(sign.classic()),
    }
}
