//! Values of attributes that have several numbers.

/// A flash: whether it begins with its off time, and its times in tenths of a second (NTCIP 1203 v03, MULTI
/// tag 'fl').
#[derive(Clone, Copy)]
pub struct FlashTimes {
    pub off_first: bool,
    pub on: u8,
    pub off: u8,
}

/// A part of the sign: its upper left pixel, counted from 0, and its columns and rows (NTCIP 1203 v03, MULTI
/// tag 'tr').
#[derive(Clone, Copy)]
pub struct Rectangle {
    pub left: u16,
    pub top: u16,
    pub width: u16,
    pub height: u16,
}
