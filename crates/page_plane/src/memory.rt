//! Refused memory.

use thiserror::Error;

/// A growth of memory was refused.
#[derive(Clone, Copy, Debug, PartialEq, Eq, Error)]
#[error("out of memory")]
pub struct Memory;
