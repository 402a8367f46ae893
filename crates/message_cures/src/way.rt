//! Ways to make room.

/// What is tried first where a line is too wide (own).
#[derive(Clone, Copy)]
pub(crate) enum Way {
    /// To break it.
    Break,
    /// To write it narrower: in another font, or with less room between its characters.
    Narrow,
    /// To shorten a word.
    Shorten,
}
