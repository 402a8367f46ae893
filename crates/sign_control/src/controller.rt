//! The controller: its making, and the frame of what it shows.

ghost use Rattle.std.specs.Prelude.{◌≡◌, ℕ, ◌+◌, ◌-◌, ◌≤◌, false, length, IfOk};
ghost use Rattle.std.specs.Borrow.{sem};
ghost use Rattle.multi_meaning.specs.Picture.{Lights, pixel_at};
ghost use Rattle.multi_meaning.specs.Meaning.{meanings};
ghost use Rattle.multi_meaning.specs.Times.{shown};
ghost use Rattle.multi_layout.specs.Limits.{frame_limit};
ghost use Rattle.multi_layout.specs.Pages.{IsSized};
ghost use Rattle.page_plane.specs.Plane.{is_lit};
ghost use Rattle.sign_font.specs.Defaults.{under};
ghost use Rattle.sign_control.specs.Change.{shown_steps};
ghost use Rattle.sign_control.specs.State.{started};

use crate::code::IdCode;
use crate::display::{Display, NO_ERRORS, Registers, start};
use crate::draw::draw_shown;
use crate::frame::Frame;
use message_store::{MsgRef, Store};
use multi_layout::AreaLines;
use page_plane::{Memory, Plane};
use sign_font::{Defaults, Sign};
use std::alloc::Global;
use std::marker::Model;
use step_count::raised;

/// A sign with its messages, and what it shows.
#[derive(Drop)]
pub struct Controller {
    pub(crate) sign: Sign,
    pub(crate) store: Store,
    /// The defaults in force.
    pub(crate) defaults: Defaults,
    pub(crate) display: Display,
    /// The display's own text.
    pub(crate) text: Vec<u8>,
    pub(crate) registers: Registers,
    /// The message that follows a duration.
    pub(crate) end: IdCode,
    pub(crate) plane: Plane,
    /// Room for the lines of an area that is drawn.
    pub(crate) lines: AreaLines,
    pub(crate) steps: u64,
    /// It rises with what is saved.
    pub(crate) revision: u64,
}

impl Model for Controller {
    ghost use Rattle.sign_control.specs.State.{ControllerData};
    ghost use Rattle.sign_control.specs.internal.Ready.{IsReady};
    ghost use Rattle.std.specs.Vec.{vec_capacity};

    ghost Value = { ControllerData };

    ghost view = { λ c. record {
      sign = c.sign;
      state = record
          { store = c.store; defaults = c.defaults; display = c.display; text = c.text.items; registers = c.registers; end = c.end };
      plane = c.plane;
      steps = c.steps;
      revision = c.revision;
    } };

    ghost invariant = { λ c. IsReady c.sign c.store c.defaults c.display c.text.items (vec_capacity c.text) c.plane };
}

/// What follows a duration at the start: blank 1.
const NO_END: IdCode = IdCode {
    message: MsgRef {
        memory: 7,
        number: 1,
    },
    crc: 0,
};

impl Controller {
    ghost use Rattle.sign_control.specs.Lending.{FramedAfter};

    /// A controller of a sign and its messages, which shows blank 1 without end, by the sign's defaults. Its plane is dark.
    ///
    /// It takes here the memory of the display's text and of one plane, and no later call but `run` takes any. `Memory`
    /// comes only where memory was refused.
    pub fn new(alloc: Global, sign: Sign, store: Store) -> Result<Controller, Memory>
        ensures sign { IfOk result (λ c. c.sign ≡ sign) }
        ensures state { IfOk result (λ c. c.state ≡ started sign.defaults store) }
        ensures steps { IfOk result (λ c. c.steps ≡ 0) }
        ensures revision { IfOk result (λ c. c.revision ≡ 0) }
        ensures dark { IfOk result (λ c. (column row : ℕ) → is_lit c.plane column row ≡ false) }
        ensures plane_steps { IfOk result (λ c. c.plane.steps ≡ 0) }
    {
        let room = usize::from(store.limits().max_string);
        let Ok(text) = Vec::with_capacity(alloc, room) else {
            return Err(Memory);
        };
        let plane = Plane::new(alloc, sign.width(), sign.height())?;
        let defaults = sign.defaults();
        Ok(Controller {
            sign,
            store,
            defaults,
            display: start(defaults),
            text,
            registers: NO_ERRORS,
            end: NO_END,
            plane,
            lines: AreaLines::new(),
            steps: 0,
            revision: 0,
        })
    }

    /// Draws the plane of a colour, 0 to 255, of what the display shows at its clock, and lends it.
    ///
    /// The display's own text is drawn by the defaults with which it is shown, whatever has become of the message since.
    /// For n octets this takes at most 36n + R * n + B * (n / 4 + 1) + 4 steps. R is the height of the tallest font, and B the
    /// number of octets of the plane.
    pub fn frame(&mut self, colour: u8) -> Frame<'_>
        ensures* after { sem 𝓛 (FramedAfter self.entry result) }
        ensures shown { result.shown
            ≡ shown (under self.old.sign self.old.state.display.defaults) self.old.state.text self.old.state.display.clock }
        ensures drawn { Lights result.plane.now
            (pixel_at (under self.old.sign self.old.state.display.defaults) (meanings self.old.state.text) result.shown colour) }
        ensures size { IsSized result.plane.now self.old.sign }
        ensures least { shown_steps self.old.sign self.old.state + (result.plane.now.steps - self.old.plane.steps) ≤ result.steps }
        ensures most { result.steps ≤ frame_limit self.old.sign (length self.old.state.text) }
    {
        let (shown, steps) = draw_shown(
            &self.sign,
            self.display.defaults,
            &self.text,
            self.display.clock,
            colour,
            &mut self.lines,
            &mut self.plane,
        );
        self.steps = raised(self.steps, steps);
        Frame {
            shown,
            plane: &self.plane,
            steps,
        }
    }
}
