//! What is drawn of a message.

/// A moment of a message (own).
#[derive(Clone, Copy, Debug, PartialEq, Eq)]
pub enum Moment {
    /// A page, counted from 0, as it is at a phase, in tenths of a second since it began.
    Page { page: u8, phase: u64 },
    /// What is shown at a clock, in tenths of a second since the message began to be shown: a page, or nothing in an off time.
    Clock { clock: u64 },
}

/// What is drawn of a message, and how it is written (own).
#[derive(Clone, Copy, Debug, PartialEq, Eq)]
pub enum View {
    /// One moment, as a file in PPM.
    Ppm { moment: Moment },
    /// One moment, as a file in GIF with one picture.
    Gif { moment: Moment },
    /// One moment, as a file in PNG.
    Png { moment: Moment },
    /// The message as it plays, over and over, as a file in GIF: until it begins anew, or for its first seconds, 1 to 600.
    Film { seconds: Option<u16> },
}
