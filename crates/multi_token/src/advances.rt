//! What octets take of a room.

ghost use Rattle.std.specs.Prelude.{◌≡◌};

use std::marker::Model;

/// By octet, what it takes of a room. Only a [`crate::Source`] looks at it, and counts each look.
#[derive(Drop)]
pub struct Advances {
    pub(crate) of: [u16; 256],
}

impl Model for Advances {
    ghost use Rattle.std.specs.Prelude.{ℕ, List};

    ghost Value = { List ℕ };

    ghost view = { λ a. a.of };
}

impl Advances {
    /// A table of these numbers.
    pub fn new(of: [u16; 256]) -> Advances
        ensures { result ≡ of }
    {
        Advances { of }
    }
}
