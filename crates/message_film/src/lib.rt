//! A message as it plays, as a moving picture in GIF.
//!
//! [`as_it_plays`] shows a message as it plays: until it begins anew, or for its first seconds. [`playing_time`]
//! tells after how long it begins anew. [`film`] shows what a sign shows of a message in its first tenths of a
//! second, over and over, and [`still`] shows one moment of it. [`Reel`] takes such moments one after the other.
//! It keeps the colours of one picture alone, which are joined as long as they stay the same.
#![tactic(auto)]

mod laws;
mod period;
mod play;
mod reel;

pub use laws::{cycle_is_period, flashes_have_period};
pub use period::playing_time;
pub use play::{FilmFault, LONGEST_FILM, MOST_OCTETS, as_it_plays, film, still};
pub use reel::Reel;
