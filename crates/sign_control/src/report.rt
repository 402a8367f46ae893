//! What a controller tells of itself.

ghost use Rattle.std.specs.Prelude.{◌≡◌, ◌≤◌, ◌*◌, IfSome, None};
ghost use Rattle.message_store.specs.Row.{row_result};
ghost use Rattle.sign_font.specs.Defaults.{default_fault};
ghost use Rattle.sign_control.specs.Report.{minutes_left, report_of, row_shown};

use crate::controller::Controller;
use message_store::{MsgRef, Row, StoreFault};
use sign_font::Defaults;

/// The state of the sign, as a traffic centre asks for it.
#[derive(Clone, Copy, Debug, PartialEq, Eq)]
pub struct Report {
    /// The changeable messages that are used (NTCIP 1203 v03, dmsNumChangeableMsg).
    pub used: u16,
    /// The octets that texts and owners may still take (NTCIP 1203 v03, dmsFreeChangeableMemory).
    pub free: u32,
    /// Why the display shows what it shows: 1 other, 8 central or 14 endDuration (NTCIP 1203 v03, dmsMsgSourceMode).
    pub mode: u8,
    /// The memory type of the message that the display is a copy of (NTCIP 1203 v03, dmsMsgTableSource).
    pub shown_memory: u8,
    /// The number of that message.
    pub shown_number: u16,
    /// The display's CRC; 0 of a blank message.
    pub crc: u16,
    /// The display's run-time priority.
    pub priority: u8,
    /// What is left of the duration in minutes, rounded up; 65535 where it has no end (NTCIP 1203 v03,
    /// dmsMessageTimeRemaining).
    pub remaining: u16,
    /// The address of who asked for the message (NTCIP 1203 v03, dmsMsgRequesterID).
    pub requester: u32,
    /// The error of the last activation; 2 is none (NTCIP 1203 v03, dmsActivateMsgError).
    pub activate: u8,
    /// The error of the last validation; 2 is none (NTCIP 1203 v03, dmsValidateMessageError).
    pub validate: u8,
    /// The error of the last text that was judged; 2 is none (NTCIP 1203 v03, dmsMultiSyntaxError).
    pub multi: u8,
    /// The offset of that error in octets, from 0 (NTCIP 1203 v03, dmsMultiSyntaxErrorPosition).
    pub position: u16,
    /// The tenths of a second since the display began to show the message; `u64::MAX` may stand for more.
    pub clock: u64,
}

/// What is left of a duration, in minutes.
fn minutes_left(remaining: Option<u32>) -> u16
    requires { IfSome remaining (λ tenths. tenths ≤ 65534 * 600) }
    ensures { result ≡ minutes_left remaining }
{
    match remaining {
        None => 65535,
        Some(tenths) => tenths.div_ceil(600) as u16,
    }
}

impl Controller {
    /// All steps that were counted since the controller was made; `u64::MAX` may stand for more.
    pub fn steps(&self) -> u64
        ensures { result ≡ self.now.steps }
    {
        self.steps
    }

    /// The defaults in force, which the sign doesn't refuse.
    pub fn defaults(&self) -> Defaults
        ensures defaults { result ≡ self.now.state.defaults }
        ensures taken { default_fault self.now.sign result ≡ None }
    {
        self.defaults
    }

    /// The row of a message, of the currentBuffer too, which is what the display shows.
    ///
    /// Refused by `MemoryType` where there is no such memory type, and by `Number` where there is no such message.
    pub fn row(&self, message: MsgRef) -> Result<Row<'_>, StoreFault>
        ensures row { row_result result ≡ row_shown self.now.state message }
    {
        if message.memory != 5 {
            return self.store.row(message);
        }
        if message.number != 1 {
            return Err(StoreFault::Number);
        }
        Ok(Row {
            status: 4,
            multi: &self.text,
            owner: &[],
            priority: self.display.priority,
            beacon: self.display.beacon,
            pixel: self.display.pixel,
            crc: self.display.crc,
        })
    }

    /// The state of the sign.
    pub fn report(&self) -> Report
        ensures report { result ≡ report_of self.now.state }
    {
        let display = self.display;
        let registers = self.registers;
        Report {
            used: self.store.used_slots(),
            free: self.store.free_bytes(),
            mode: display.mode.code(),
            shown_memory: display.source.memory,
            shown_number: display.source.number,
            crc: display.crc,
            priority: display.priority,
            remaining: minutes_left(display.remaining),
            requester: display.requester,
            activate: registers.activate.code(),
            validate: registers.validate,
            multi: registers.multi,
            position: registers.position,
            clock: display.clock,
        }
    }
}
