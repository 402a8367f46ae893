//! What a message shows in all its colours at once: a colour for each pixel, the points that they
//! are drawn with, and a picture of a page as a file in PPM.
//!
//! [`PageColours`] is a page at a phase. It tells the colour of a pixel, gives all colours in one list, and draws
//! the page as it looks on a sign: a round dot for each pixel, lit in its colour or dark. [`write_colours`] writes
//! all colours of what a message shows at a clock into lent octets, [`draw_colours`] into octets of its own, and
//! [`show`] draws the pixels of one colour, which [`write_rows`] writes as lines of text.
//! [`dot_points`] gives the dots of such colours as numbers of a palette, and [`palette_of`] the palette.
#![tactic(auto)]

mod colours;
mod dots;
mod palette;
mod plane;
mod points;
mod ppm;
mod rows;
mod shown;
mod write;

pub use colours::PageColours;
pub use palette::palette_of;
pub use plane::show;
pub use points::dot_points;
pub use rows::{Mark, write_rows};
pub use shown::draw_colours;
pub use write::write_colours;
