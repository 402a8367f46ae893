//! What is shown at a clock.

/// What a string shows at a clock (NTCIP 1203 v03, MULTI tag 'pt').
#[derive(Clone, Copy, Debug, PartialEq, Eq)]
pub enum Shown {
    /// A page, counted from 0, and its phase: the tenths of a second since it began.
    Page { page: u8, phase: u64 },
    /// Nothing: it is the off time of a page.
    Off,
}
