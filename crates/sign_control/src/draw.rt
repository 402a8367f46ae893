//! The drawing of what the display shows.

ghost use Rattle.std.specs.Prelude.{◌≡◌, ◌+◌, ◌-◌, ◌≤◌, None, length};
ghost use Rattle.multi_meaning.specs.Picture.{Lights, pixel_at};
ghost use Rattle.multi_meaning.specs.Meaning.{meanings};
ghost use Rattle.multi_meaning.specs.Steps.{judging_steps};
ghost use Rattle.multi_meaning.specs.Times.{shown};
ghost use Rattle.multi_layout.specs.Finding.{finding_steps};
ghost use Rattle.multi_layout.specs.Limits.{frame_limit};
ghost use Rattle.multi_layout.specs.Pages.{IsSized};
ghost use Rattle.sign_font.specs.Defaults.{default_fault, under};
ghost use Rattle.sign_font.specs.Sound.{IsSound};
ghost use Rattle.sign_control.specs.internal.Ready.{IsAccepted};

use crate::check::counted;
use multi_layout::{AreaLines, Judge, Shown};
use page_plane::Plane;
use sign_font::{Defaults, Sign};

/// Draws what an accepted text shows at a clock, and counts the steps of this.
#[tactic(auto, using(crate::proofs::CountLemmas::judging_few))]
pub(crate) fn draw_shown(
    sign: &Sign,
    defaults: Defaults,
    text: &[u8],
    clock: u64,
    colour: u8,
    lines: &mut AreaLines,
    plane: &mut Plane,
) -> (Shown, u64)
    requires sound { IsSound sign.now }
    requires taken { default_fault sign.now defaults ≡ None }
    requires accepted { IsAccepted (under sign.now defaults) text.now }
    requires short { length text.now ≤ 4096 }
    requires size { IsSized plane.old sign.now }
    ensures shown { result.0 ≡ shown (under sign.now defaults) text.now clock }
    ensures drawn { Lights plane.new (pixel_at (under sign.now defaults) (meanings text.now) result.0 colour) }
    ensures size { (plane.new.width ≡ plane.old.width) × (plane.new.height ≡ plane.old.height) }
    ensures least { judging_steps (under sign.now defaults) text.now + finding_steps (under sign.now defaults) text.now clock
        + (plane.new.steps - plane.old.steps) ≤ result.1 }
    ensures most { result.1 ≤ frame_limit sign.now (length text.now) }
{
    let mut source = counted(text);
    let before = plane.steps();
    let judge = Judge::with(sign, defaults);
    let Ok(shown) = judge.draw_shown(&mut source, clock, colour, lines, plane) else {
        // These defaults accepted it.
        unreachable!();
    };
    (shown, source.steps() + (plane.steps() - before))
}
