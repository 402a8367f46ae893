//! The colours of all pixels, of what the display shows and of a text's page.
ghost use Rattle.std.specs.Prelude.{◌≡◌};
ghost use Rattle.latsefur_c.specs.Framed.{PaintsFrame};
ghost use Rattle.latsefur_c.specs.HeldPage.{PaintsPage};
ghost use Rattle.latsefur_c.specs.HeldSign.{sign_in_force};

use crate::outcome::{DONE, TOO_SMALL};
use crate::page::why_undrawn;
use crate::shown::{LatsefurShown, told};
use sign_control::Controller;

/// Writes the colours of what the display shows, and tells which page that is.
pub(crate) fn paint_frame(
    controller: &mut Controller,
    shown: &mut LatsefurShown,
    buffer: &mut [u8],
) -> u8
    ensures painted { PaintsFrame controller.old shown.old shown.new buffer.old buffer.new result }
    ensures state { controller.new.state ≡ controller.old.state }
    ensures sign { controller.new.sign ≡ controller.old.sign }
    ensures revision { controller.new.revision ≡ controller.old.revision }
{
    match controller.colours(buffer) {
        Some(seen) => {
            *shown = told(seen);
            DONE
        }
        None => TOO_SMALL,
    }
}

/// Writes the colours of a page of a text at a phase, by the defaults in force.
pub(crate) fn paint_page(
    controller: &mut Controller,
    text: &[u8],
    page: u8,
    phase: u64,
    buffer: &mut [u8],
) -> u8
    ensures painted { PaintsPage (sign_in_force controller.old) text.now page phase buffer.old buffer.new result }
    ensures state { controller.new.state ≡ controller.old.state }
    ensures sign { controller.new.sign ≡ controller.old.sign }
    ensures revision { controller.new.revision ≡ controller.old.revision }
{
    match controller.write_page(text, page, phase, buffer) {
        Ok(true) => DONE,
        Ok(false) => TOO_SMALL,
        Err(why) => why_undrawn(why),
    }
}
