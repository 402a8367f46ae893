//! A frame of what is shown.

use multi_layout::Shown;
use page_plane::Plane;

/// What the display shows now, and the plane of one colour of it.
///
/// It is lent: the controller's next call ends it.
#[derive(Clone, Copy)]
pub struct Frame<'a> {
    /// The page with its phase, or the off time between pages.
    pub shown: Shown,
    /// The pixels that have the colour. In an off time every pixel has colour 0.
    pub plane: &'a Plane,
    /// The steps of judging, finding and drawing it, at most the frame limit.
    pub steps: u64,
}
