//! Where a character stands.

/// The upper left pixel of a character, counted from 0.
#[derive(Clone, Copy)]
pub struct Place {
    pub column: u64,
    pub row: u64,
}
