//! The defaults, in numbers.
ghost use Rattle.std.specs.Prelude.{◌≡◌};
ghost use Rattle.latsefur_c.specs.Field.{field_numbered};
ghost use Rattle.latsefur_c.specs.Told.{default_numbers};

use sign_control::DefaultField;
use sign_font::Defaults;

/// The defaults in force (NTCIP 1203 v03, group multiCfg).
#[repr(C)]
#[derive(Clone, Copy)]
pub struct LatsefurDefaults {
    /// The number of the font.
    pub font: u8,
    /// The line justification: 2 left, 3 centre, 4 right, 5 full.
    pub line: u8,
    /// The page justification: 2 top, 3 middle, 4 bottom.
    pub page: u8,
    /// The on time of a page, in tenths of a second.
    pub page_on: u8,
    /// The off time of a page, in tenths of a second.
    pub page_off: u8,
    /// The on time of a flash, in tenths of a second.
    pub flash_on: u8,
    /// The off time of a flash, in tenths of a second.
    pub flash_off: u8,
    /// The foreground colour, 0 to 9.
    pub fore: u8,
    /// The background colour, 0 to 9.
    pub back: u8,
}

/// The numbers of defaults.
pub(crate) fn default_numbers(defaults: Defaults) -> LatsefurDefaults
    ensures { result ≡ default_numbers defaults }
{
    LatsefurDefaults {
        font: defaults.font,
        line: defaults.line,
        page: defaults.page,
        page_on: defaults.page_on,
        page_off: defaults.page_off,
        flash_on: defaults.flash_on,
        flash_off: defaults.flash_off,
        fore: defaults.fore,
        back: defaults.back,
    }
}

/// The default of a number, if it has one: they are numbered from 1, in the order of `LatsefurDefaults`.
pub(crate) fn field_numbered(number: u8) -> Option<DefaultField>
    ensures { result ≡ field_numbered number }
{
    match number {
        1 => Some(DefaultField::Font),
        2 => Some(DefaultField::Line),
        3 => Some(DefaultField::Page),
        4 => Some(DefaultField::PageOn),
        5 => Some(DefaultField::PageOff),
        6 => Some(DefaultField::FlashOn),
        7 => Some(DefaultField::FlashOff),
        8 => Some(DefaultField::Fore),
        9 => Some(DefaultField::Back),
        _ => None,
    }
}
