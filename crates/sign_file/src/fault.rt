//! Why a sign file isn't read.

use thiserror::Error;

/// Why there is no sign file (own).
#[derive(Clone, Copy, Debug, PartialEq, Eq, Error)]
pub enum FileFault {
    /// The octets are no sign file: they are no text in UTF-8 or no TOML document, or a key is missing, or of another
    /// kind, or its number is outside its type.
    #[error("no sign file")]
    Bad,
    /// Memory was refused.
    #[error("out of memory")]
    Memory,
}
