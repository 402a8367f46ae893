//! The pages of a text on the sign that a controller holds.
ghost use Rattle.std.specs.Prelude.{◌≡◌};
ghost use Rattle.latsefur_c.specs.HeldPage.{DrawsPage, why_undrawn};
ghost use Rattle.latsefur_c.specs.HeldSign.{sign_in_force};

use crate::outcome::{NO_PAGE, REFUSED, TOO_LONG};
use crate::plane::write_plane;
use sign_control::{Controller, NoPage};

/// The number that says why a text has no page to be drawn.
pub(crate) fn why_undrawn(why: NoPage) -> u8
    ensures { result ≡ why_undrawn why }
{
    match why {
        NoPage::TooLong => TOO_LONG,
        NoPage::Refused => REFUSED,
        NoPage::Number => NO_PAGE,
    }
}

/// Draws the plane of a colour of a page of a text at a phase, by the defaults in force.
pub(crate) fn draw_page(
    controller: &mut Controller,
    text: &[u8],
    page: u8,
    phase: u64,
    colour: u8,
    buffer: &mut [u8],
) -> u8
    ensures drawn { DrawsPage (sign_in_force controller.old) text.now page phase colour buffer.old buffer.new result }
    ensures state { controller.new.state ≡ controller.old.state }
    ensures sign { controller.new.sign ≡ controller.old.sign }
    ensures revision { controller.new.revision ≡ controller.old.revision }
{
    match controller.draw_page(text, page, phase, colour) {
        Ok(()) => write_plane(controller.plane(), buffer),
        Err(why) => why_undrawn(why),
    }
}
