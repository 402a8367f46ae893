//! Callers of the calls that lend a plane. They are proved and never run: what those calls promise is of use to a caller.

ghost use Rattle.std.specs.Prelude.{◌≡◌, ◌+◌, ◌<◌};
ghost use Rattle.multi_meaning.specs.Picture.{Lights, picture};
ghost use Rattle.multi_layout.specs.Pages.{page_count};

use multi_layout::{Checked, Pages};
use page_plane::Plane;

/// Passes over the next page, and gives its number. The string stays the same, and so does the plane's size.
fn pass_over(pages: &mut Pages<'_>) -> u8
    requires { pages.old.next < page_count pages.old.string }
    ensures number { result ≡ pages.old.next }
    ensures next { pages.new.next ≡ pages.old.next + 1 }
    ensures octets { pages.new.string.source.octets ≡ pages.old.string.source.octets }
    ensures size { (pages.new.plane.width ≡ pages.old.plane.width) × (pages.new.plane.height ≡ pages.old.plane.height) }
{
    match pages.next_page() {
        Some(view) => view.page,
        None => 0,
    }
}

/// Draws the next page and ends there. The plane that comes back shows that page.
fn end_with_next<'a>(pages: Pages<'a>) -> (Checked<'a>, Plane)
    requires { pages.next < page_count pages.string }
    ensures octets { result.0.source.octets ≡ pages.entry.string.source.octets }
    ensures shown { Lights result.1
        (picture pages.entry.string.sign pages.entry.string.source.octets pages.entry.next pages.entry.phase pages.entry.colour) }
{
    let mut pages = pages;
    let Some(_) = pages.next_page() else {
        // There is a next page.
        unreachable!();
    };
    pages.finish()
}
