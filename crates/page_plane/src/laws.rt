//! What holds of every plane.

ghost use Rattle.page_plane.specs.Octets.{APlaneIsItsPixels};

/// A law of the definitions: two planes of one size and one count of steps with the same pixels are equal.
pub fn a_plane_is_its_pixels()
    ensures { APlaneIsItsPixels }
{}
