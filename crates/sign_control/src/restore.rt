//! The state of a controller from octets.

ghost use Rattle.std.specs.Prelude.{◌≡◌, ◌+◌, ◌*◌, ◌≤◌, length, IfOk, IfSome, Ok, None, if◌then◌else◌, is_ok};
ghost use Rattle.step_count.specs.Count.{raised};
ghost use Rattle.multi_layout.specs.Limits.{check_limit};
ghost use Rattle.sign_font.specs.Defaults.{default_fault, under};
ghost use Rattle.message_store.specs.Ranged.{AreRanged};
ghost use Rattle.saved_octets.specs.Field.{Gives};
ghost use Rattle.sign_control.specs.RestoreSteps.{fault_steps, restore_steps};
ghost use Rattle.sign_control.specs.Saved.{Restores, read_in, restored, sign_fault};
ghost use Rattle.sign_control.specs.internal.Ready.{IsAccepted};
ghost use Rattle.sign_control.specs.internal.Saving.{read_data};

use crate::activation::replace_text;
use crate::controller::Controller;
use crate::parts::{Parts, front_of};
use message_store::judge_text;
use saved_octets::{StateFault, open_seal, restore_table, text_of};
use sign_font::Sign;
use step_count::raised;

/// What sealed octets have in them, not judged yet.
#[derive(Clone, Copy)]
pub(crate) struct Read<'a> {
    parts: Parts,
    /// The display's text.
    text: &'a [u8],
    /// The octets of the messages.
    rest: &'a [u8],
}

/// Reads what sealed octets have in them, with a text of at most so many octets.
#[tactic(auto, unfolding(crate::specs::Saved::read_in))]
fn read_of(octets: &[u8], most: usize) -> Result<Read<'_>, StateFault>
    ensures read { Gives read_data result (read_in most octets.now) }
    ensures short { IfOk result (λ read. length read.text.now ≤ most) }
    ensures limited { IfOk result (λ read. IfSome read.parts.display.remaining (λ tenths. tenths ≤ 65534 * 600)) }
    ensures ranged { IfOk result (λ read. AreRanged read.parts.display.priority read.parts.display.beacon read.parts.display.pixel) }
{
    let body = open_seal(octets)?;
    let (parts, behind) = front_of(body)?;
    let (text, rest) = text_of(behind, most)?;
    Ok(Read { parts, text, rest })
}

/// Why a sign refuses what was saved, and the steps of judging the display's text.
#[tactic(auto, unfolding(crate::specs::Saved::sign_fault, crate::specs::RestoreSteps::fault_steps))]
fn sign_fault(sign: &Sign, parts: &Parts, text: &[u8]) -> (Option<StateFault>, u64)
    requires short { length text.now ≤ 4096 }
    ensures fault { result.0 ≡ sign_fault sign.now parts.now text.now }
    ensures taken { result.0 ≡ None → default_fault sign.now parts.now.defaults ≡ None }
    ensures shown_taken { result.0 ≡ None → default_fault sign.now parts.now.display.defaults ≡ None }
    ensures accepted { result.0 ≡ None → IsAccepted (under sign.now parts.now.display.defaults) text.now }
    ensures steps { result.1 ≡ fault_steps sign.now parts.now text.now }
    ensures limit { result.1 ≤ check_limit 4096 }
{
    let refused = sign.refuses(&parts.defaults).is_some();
    if refused || sign.refuses(&parts.display.defaults).is_some() {
        return (Some(StateFault::Defaults), 0);
    }
    let judged = judge_text(sign, parts.display.defaults, text);
    if judged.accepted {
        (None, judged.steps)
    } else {
        (Some(StateFault::Text), judged.steps)
    }
}

impl Controller {
    /// Restores a state that was saved by [`Controller::save`], by a controller of the same sign file: whatever is asked of this controller
    /// then, it answers as the one that was saved.
    ///
    /// The first [`StateFault`] that is true comes, and then nothing changes but the count of steps. A message's status is taken as it
    /// was saved, since its text is judged again at each activation. This takes the steps of judging the display's text, at most 36,865.
    pub fn restore(&mut self, octets: &[u8]) -> Result<(), StateFault>
        ensures restored { Restores (restored self.old.sign self.old.state.store octets.now) self.old.state self.new.state result }
        ensures kept { (self.new.sign ≡ self.old.sign) × (self.new.plane ≡ self.old.plane) }
        ensures steps { self.new.steps ≡ raised self.old.steps (restore_steps self.old.sign self.old.state.store octets.now) }
        ensures limit { restore_steps self.old.sign self.old.state.store octets.now ≤ check_limit 4096 }
        ensures revision { self.new.revision ≡ (if is_ok result then raised self.old.revision 1 else self.old.revision) }
    {
        let read = read_of(octets, usize::from(self.store.limits().max_string))?;
        let (fault, steps) = sign_fault(&self.sign, &read.parts, read.text);
        self.steps = raised(self.steps, steps);
        if let Some(fault) = fault {
            return Err(fault);
        }
        restore_table(&mut self.store, read.rest)?;
        self.revision = raised(self.revision, 1);
        self.defaults = read.parts.defaults;
        self.end = read.parts.end;
        self.registers = read.parts.registers;
        self.display = read.parts.display;
        replace_text(&mut self.text, Some(read.text));
        Ok(())
    }
}
