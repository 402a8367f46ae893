//! What commands do.

ghost use Rattle.std.specs.Prelude.{◌≡◌, ◌≤◌, ◌+◌, IfOk, OnOk, OnErr, fold};
ghost use Rattle.sign_control.specs.Revision.{revised};
ghost use Rattle.step_count.specs.Count.{raised};
ghost use Rattle.sign_control.specs.Counts.{activation_text, following_text, text_judged, text_steps, ticked_text};
ghost use Rattle.sign_control.specs.Run.{StaysWithin, run, run_limit, run_steps};
ghost use Rattle.sign_control.specs.Step.{activate_step, activated_registers, default_step, judged_registers, not_shown, step, work_step};
ghost use Rattle.sign_control.specs.internal.Answered.{reply_of};
ghost use Rattle.sign_control.specs.Time.{end_step, passed, tick_step};
ghost use Rattle.sign_control.specs.declared.command.Command.TheVariants as command;

use crate::activation::{end_message, named, remaining_of, replace_text, text_of};
use crate::code::{ActivateError, ActivationCode, SourceMode, activation_code, id_code};
use crate::command::{Command, DefaultField, Reply, with_default};
use crate::controller::Controller;
use crate::display::{Display, Registers, Showing, displayed};
use crate::revision::revised;
use message_store::{Judged, StoreFault, TextJudgement, judge_text};
use page_plane::Memory;
use std::alloc::Global;
use step_count::raised;

/// The registers after a message was judged.
fn judged_registers(registers: Registers, judged: Judged) -> Registers
    ensures { result ≡ judged_registers registers judged.validate_error judged.syntax }
{
    let validate = judged.validate_error;
    match judged.syntax {
        None => Registers {
            validate,
            ..registers
        },
        Some((multi, position)) => Registers {
            validate,
            multi,
            position,
            ..registers
        },
    }
}

/// The registers after an activation whose text was judged.
fn activated_registers(registers: Registers, judged: TextJudgement) -> Registers
    ensures { result ≡ activated_registers registers judged.accepted judged.error judged.position }
{
    let activate = if judged.accepted {
        ActivateError::None
    } else {
        ActivateError::SyntaxMulti
    };
    Registers {
        activate,
        multi: judged.error,
        position: judged.position,
        ..registers
    }
}

/// The reply to a call of the store.
fn reply_of(outcome: Result<(), StoreFault>) -> Reply
    ensures { result ≡ reply_of outcome }
{
    match outcome {
        Ok(()) => Reply::Done,
        Err(fault) => Reply::Refused(fault),
    }
}

/// The display after some tenths of its duration.
fn passed(display: Display, tenths: u32) -> Display
    ensures { result ≡ passed display tenths }
{
    Display {
        clock: display.clock.saturating_add(u64::from(tenths)),
        remaining: display.remaining.map(|left| left.saturating_sub(tenths)),
        ..display
    }
}

impl Controller {
    /// Judges the message that waits, if one does.
    fn work(&mut self) -> Reply
        ensures state { self.new.state ≡ (work_step self.old.sign self.old.state).state }
        ensures reply { result ≡ (work_step self.old.sign self.old.state).reply }
        ensures kept { (self.new.sign ≡ self.old.sign) × (self.new.plane ≡ self.old.plane) }
        ensures revision { self.new.revision ≡ self.old.revision }
        ensures steps { self.new.steps ≡ raised self.old.steps (text_steps (text_judged self.old.sign self.old.state command.Work)) }
    {
        let Some(judged) = self.store.work(&self.sign, &self.defaults) else {
            return Reply::Idle;
        };
        self.steps = raised(self.steps, judged.steps);
        self.registers = judged_registers(self.registers, judged);
        Reply::Worked {
            number: judged.number,
            status: judged.status,
            validate_error: judged.validate_error,
            multi_error: self.registers.multi,
            multi_position: self.registers.position,
        }
    }

    /// A message isn't shown.
    fn refuse(&mut self, error: ActivateError) -> Reply
        ensures state { self.new.state ≡ (not_shown self.old.state error).state }
        ensures reply { result ≡ (not_shown self.old.state error).reply }
        ensures kept { (self.new.sign ≡ self.old.sign) × (self.new.plane ≡ self.old.plane) × (self.new.steps ≡ self.old.steps) }
        ensures revision { self.new.revision ≡ self.old.revision }
    {
        self.registers.activate = error;
        Reply::NotShown(error.code())
    }

    /// Shows a message, or refuses it.
    fn activate(&mut self, code: ActivationCode) -> Reply
        ensures state { self.new.state ≡ (activate_step self.old.sign self.old.state code).state }
        ensures reply { result ≡ (activate_step self.old.sign self.old.state code).reply }
        ensures kept { (self.new.sign ≡ self.old.sign) × (self.new.plane ≡ self.old.plane) }
        ensures revision { self.new.revision ≡ self.old.revision }
        ensures steps { self.new.steps ≡ raised self.old.steps (text_steps (activation_text self.old.sign self.old.state code)) }
    {
        let message = match named(&self.store, &self.display, self.defaults, code.id) {
            Ok(message) => message,
            Err(error) => return self.refuse(error),
        };
        if code.priority < self.display.priority {
            return self.refuse(ActivateError::Priority);
        }
        let judged = judge_text(&self.sign, message.defaults, text_of(&self.text, &message));
        self.steps = raised(self.steps, judged.steps);
        self.registers = activated_registers(self.registers, judged);
        if !judged.accepted {
            return Reply::NotShown(ActivateError::SyntaxMulti.code());
        }
        self.display = displayed(
            &message,
            Showing {
                clock: 0,
                remaining: remaining_of(code.duration),
                requester: code.requester,
                mode: SourceMode::Central,
            },
        );
        replace_text(&mut self.text, message.text);
        Reply::Shown
    }

    /// A duration has ended this many tenths ago.
    fn end(&mut self, ago: u32) -> Reply
        ensures state { self.new.state ≡ (end_step self.old.sign self.old.state ago).state }
        ensures reply { result ≡ (end_step self.old.sign self.old.state ago).reply }
        ensures kept { (self.new.sign ≡ self.old.sign) × (self.new.plane ≡ self.old.plane) }
        ensures revision { self.new.revision ≡ self.old.revision }
        ensures steps { self.new.steps ≡ raised self.old.steps (text_steps (following_text self.old.sign self.old.state)) }
    {
        let (message, steps) = end_message(
            &self.sign,
            &self.store,
            &self.text,
            &self.display,
            self.defaults,
            self.end,
        );
        self.steps = raised(self.steps, steps);
        self.display = displayed(
            &message,
            Showing {
                clock: u64::from(ago),
                remaining: None,
                requester: self.display.requester,
                mode: SourceMode::EndDuration,
            },
        );
        replace_text(&mut self.text, message.text);
        Reply::Ended
    }

    /// Some tenths of a second pass.
    fn tick(&mut self, tenths: u32) -> Reply
        ensures state { self.new.state ≡ (tick_step self.old.sign self.old.state tenths).state }
        ensures reply { result ≡ (tick_step self.old.sign self.old.state tenths).reply }
        ensures kept { (self.new.sign ≡ self.old.sign) × (self.new.plane ≡ self.old.plane) }
        ensures revision { self.new.revision ≡ self.old.revision }
        ensures steps { self.new.steps
            ≡ raised self.old.steps (text_steps (ticked_text self.old.sign self.old.state tenths self.old.state.display.remaining)) }
    {
        match self.display.remaining {
            Some(remaining) if remaining <= tenths => self.end(tenths - remaining),
            _ => {
                self.display = passed(self.display, tenths);
                Reply::Ticked
            }
        }
    }

    /// Sets a default, unless the sign refuses it.
    fn set_default(&mut self, field: DefaultField, value: u8) -> Reply
        ensures state { self.new.state ≡ (default_step self.old.sign self.old.state field value).state }
        ensures reply { result ≡ (default_step self.old.sign self.old.state field value).reply }
        ensures kept { (self.new.sign ≡ self.old.sign) × (self.new.plane ≡ self.old.plane) × (self.new.steps ≡ self.old.steps) }
        ensures revision { self.new.revision ≡ self.old.revision }
    {
        let defaults = with_default(self.defaults, field, value);
        match self.sign.refuses(&defaults) {
            Some(fault) => Reply::NotSet(fault),
            None => {
                self.defaults = defaults;
                Reply::Done
            }
        }
    }

    /// Makes the step of one command.
    fn follow(&mut self, command: &Command<'_>) -> Reply
        ensures state { self.new.state ≡ (step self.old.sign self.old.state command.now).state }
        ensures reply { result ≡ (step self.old.sign self.old.state command.now).reply }
        ensures kept { (self.new.sign ≡ self.old.sign) × (self.new.plane ≡ self.old.plane) }
        ensures revision { self.new.revision ≡ self.old.revision }
        ensures steps { self.new.steps ≡ raised self.old.steps (text_steps (text_judged self.old.sign self.old.state command.now)) }
    {
        match command {
            Command::Request(message, code) => reply_of(self.store.request(*message, *code)),
            Command::SetMulti(message, text) => reply_of(self.store.set_multi(*message, text)),
            Command::SetOwner(message, owner) => reply_of(self.store.set_owner(*message, owner)),
            Command::SetPriority(message, priority) => {
                reply_of(self.store.set_priority(*message, *priority))
            }
            Command::SetBeacon(message, beacon) => {
                reply_of(self.store.set_beacon(*message, *beacon))
            }
            Command::SetPixelService(message, pixel) => {
                reply_of(self.store.set_pixel_service(*message, *pixel))
            }
            Command::Clear => {
                self.store.clear();
                Reply::Done
            }
            Command::Work => self.work(),
            Command::Activate(octets) => self.activate(activation_code(octets)),
            Command::SetEnd(octets) => {
                self.end = id_code(octets);
                Reply::Done
            }
            Command::Tick(tenths) => self.tick(*tenths),
            Command::SetDefault(field, value) => self.set_default(*field, *value),
        }
    }

    /// Does one command.
    pub fn apply(&mut self, command: &Command<'_>) -> Reply
        ensures state { self.new.state ≡ (step self.old.sign self.old.state command.now).state }
        ensures reply { result ≡ (step self.old.sign self.old.state command.now).reply }
        ensures kept { (self.new.sign ≡ self.old.sign) × (self.new.plane ≡ self.old.plane) }
        ensures steps { self.new.steps ≡ raised self.old.steps (text_steps (text_judged self.old.sign self.old.state command.now)) }
        ensures revision { self.new.revision ≡ revised self.old.revision (step self.old.sign self.old.state command.now).reply }
    {
        let reply = self.follow(command);
        self.revision = revised(self.revision, reply);
        reply
    }

    /// Does commands one after the other, and gives their replies in order. The memory for all replies is taken before the
    /// first command. Where it is refused, nothing has changed.
    ///
    /// After every command the octets of all texts and owners are within the store's budget.
    pub fn run(&mut self, alloc: Global, commands: &[Command<'_>]) -> Result<Vec<Reply>, Memory>
        ensures replies { IfOk result (λ replies. replies.items ≡ (run self.old.sign self.old.state commands.now).replies) }
        ensures state { OnOk result (self.new.state ≡ (run self.old.sign self.old.state commands.now).state) }
        ensures refused { OnErr result (self.new ≡ self.old) }
        ensures kept { (self.new.sign ≡ self.old.sign) × (self.new.plane ≡ self.old.plane) }
        ensures counts { OnOk result (self.new.steps ≡ raised self.old.steps (run_steps self.old.sign self.old.state commands.now)) }
        ensures steps { self.new.steps ≤ self.old.steps + run_limit self.old.sign self.old.state commands.now }
        ensures revision { IfOk result (λ replies. self.new.revision ≡ fold revised self.old.revision replies.items) }
        ensures within { StaysWithin self.old.sign self.old.state commands.now }
    {
        // For the proof alone: the call says that the store is within its limits before the first command.
        let _limits = self.store.limits();
        let Ok(mut replies) = Vec::with_capacity(alloc, commands.len()) else {
            return Err(Memory);
        };
        for command in commands {
            let Ok(()) = replies.push(self.apply(command)) else {
                unreachable!();
            };
        }
        Ok(replies)
    }
}
