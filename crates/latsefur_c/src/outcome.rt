//! The numbers that say how a call ended.

/// All is done. For a text: it is accepted.
pub(crate) const DONE: u8 = 0;

/// The text is refused.
pub(crate) const REFUSED: u8 = 1;

/// Memory was refused.
pub(crate) const NO_MEMORY: u8 = 2;

/// The octets are no sign file.
pub(crate) const NO_SIGN_FILE: u8 = 3;

/// The sign of the sign file is outside its limits.
pub(crate) const SIGN_FAULT: u8 = 4;

/// The buffer is too small.
pub(crate) const TOO_SMALL: u8 = 5;

/// The text has no such page.
pub(crate) const NO_PAGE: u8 = 6;

/// The text has 4,294,967,296 octets or more, and isn't judged.
pub(crate) const TOO_LONG: u8 = 7;

/// The message table of the sign file is outside its limits.
pub(crate) const TABLE_FAULT: u8 = 8;

/// The handle holds no controller.
pub(crate) const NO_CONTROLLER: u8 = 9;

/// A code hasn't the length that it must have.
pub(crate) const BAD_LENGTH: u8 = 10;

/// The number names no default.
pub(crate) const NO_DEFAULT: u8 = 11;

/// The sign has no font of this number.
pub(crate) const NO_FONT: u8 = 12;

/// A number is outside its range.
pub(crate) const BAD_VALUE: u8 = 13;

/// The film would have more than 64,000,000 octets.
pub(crate) const LARGE_FILM: u8 = 14;

/// The text begins anew after more than ten minutes.
pub(crate) const LONG_FILM: u8 = 15;
