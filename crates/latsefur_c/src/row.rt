//! A message as it is told, in numbers.
ghost use Rattle.std.specs.Prelude.{◌≡◌};
ghost use Rattle.message_store.specs.Row.{data_of, row_result};
ghost use Rattle.latsefur_c.specs.Told.{TellsRow, no_row, row_numbers};

use crate::buffer::write_front;
use crate::outcome::{DONE, REFUSED, TOO_SMALL};
use message_store::{Row, StoreFault};

/// A message (NTCIP 1203 v03, object dmsMessageTable). If there is none, all but the code is 0.
#[repr(C)]
#[derive(Clone, Copy)]
pub struct LatsefurRow {
    /// How many octets its text has.
    pub multi: usize,
    /// How many octets its owner has.
    pub owner: usize,
    /// The CRC of its text, beacon and pixel service (NTCIP 1203 v03, dmsMessageCRC); 0 of a blank message.
    pub crc: u16,
    /// If there is no such message, why: 1 no such memory type, 2 no such number.
    pub code: u8,
    /// 1 notUsed, 2 modifying, 3 validating, 4 valid or 5 error (NTCIP 1203 v03, dmsMessageStatus).
    pub status: u8,
    /// The run-time priority, 1 to 255; of a blank message its number.
    pub priority: u8,
    /// Whether it asks for the beacons: 0 no, 1 yes.
    pub beacon: u8,
    /// Whether it asks for the pixel service: 0 no, 1 yes.
    pub pixel: u8,
}

/// The numbers of a message that there is.
fn numbers(row: Row<'_>) -> LatsefurRow
    ensures { result ≡ row_numbers (data_of row.entry) }
{
    LatsefurRow {
        multi: row.multi.len(),
        owner: row.owner.len(),
        crc: row.crc,
        code: 0,
        status: row.status,
        priority: row.priority,
        beacon: row.beacon,
        pixel: row.pixel,
    }
}

/// The numbers of a message that there isn't.
fn nothing(fault: StoreFault) -> LatsefurRow
    ensures { result ≡ no_row fault }
{
    LatsefurRow {
        multi: 0,
        owner: 0,
        crc: 0,
        code: fault.code(),
        status: 0,
        priority: 0,
        beacon: 0,
        pixel: 0,
    }
}

/// Tells a message, with its text and its owner in two buffers.
pub(crate) fn tell_row(
    answer: Result<Row<'_>, StoreFault>,
    row: &mut LatsefurRow,
    text: &mut [u8],
    owner: &mut [u8],
) -> u8
    ensures { TellsRow (row_result answer.entry) row.old row.new text.old text.new owner.old owner.new result }
{
    match answer {
        Ok(found) => {
            if text.len() < found.multi.len() || owner.len() < found.owner.len() {
                return TOO_SMALL;
            }
            *row = numbers(found);
            write_front(text, found.multi);
            write_front(owner, found.owner);
            DONE
        }
        Err(fault) => {
            *row = nothing(fault);
            REFUSED
        }
    }
}
