//! The state of the sign, in numbers.
ghost use Rattle.std.specs.Prelude.{◌≡◌};
ghost use Rattle.latsefur_c.specs.Told.{report_numbers};

use sign_control::Report;

/// The state of the sign, as a traffic centre asks for it.
#[repr(C)]
#[derive(Clone, Copy)]
pub struct LatsefurReport {
    /// The tenths of a second since the display began to show the message; `u64::MAX` may stand for more.
    pub clock: u64,
    /// The octets that texts and owners may still take (NTCIP 1203 v03, dmsFreeChangeableMemory).
    pub free: u32,
    /// The address of who asked for the message (NTCIP 1203 v03, dmsMsgRequesterID).
    pub requester: u32,
    /// The changeable messages that are used (NTCIP 1203 v03, dmsNumChangeableMsg).
    pub used: u16,
    /// The number of the message that the display is a copy of (NTCIP 1203 v03, dmsMsgTableSource).
    pub shown_number: u16,
    /// The display's CRC; 0 of a blank message.
    pub crc: u16,
    /// What is left of the duration in minutes, rounded up; 65535 if it has no end (NTCIP 1203 v03, dmsMessageTimeRemaining).
    pub remaining: u16,
    /// The octet of the error of the last text that was judged, from 0 (NTCIP 1203 v03, dmsMultiSyntaxErrorPosition).
    pub position: u16,
    /// Why the display shows what it shows: 1 other, 8 central or 14 endDuration (NTCIP 1203 v03, dmsMsgSourceMode).
    pub mode: u8,
    /// The memory type of that message.
    pub shown_memory: u8,
    /// The display's run-time priority.
    pub priority: u8,
    /// The error of the last activation; 2 is none (NTCIP 1203 v03, dmsActivateMsgError).
    pub activate: u8,
    /// The error of the last validation; 2 is none (NTCIP 1203 v03, dmsValidateMessageError).
    pub validate: u8,
    /// The error of the last text that was judged; 2 is none (NTCIP 1203 v03, dmsMultiSyntaxError).
    pub multi: u8,
}

/// The state of the sign, in numbers.
pub(crate) fn reported(report: Report) -> LatsefurReport
    ensures { result ≡ report_numbers report }
{
    LatsefurReport {
        clock: report.clock,
        free: report.free,
        requester: report.requester,
        used: report.used,
        shown_number: report.shown_number,
        crc: report.crc,
        remaining: report.remaining,
        position: report.position,
        mode: report.mode,
        shown_memory: report.shown_memory,
        priority: report.priority,
        activate: report.activate,
        validate: report.validate,
        multi: report.multi,
    }
}
