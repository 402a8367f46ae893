//! A message as it is told.

ghost use Rattle.std.specs.Prelude.{◌≡◌, ◌<◌, ◌≤◌, length, IfOk};
ghost use Rattle.message_store.specs.Limits.{IsKept};
ghost use Rattle.message_store.specs.Ranged.{AreRanged};
ghost use Rattle.message_store.specs.Row.{blank_row, data_of, permanent_row, row_at, row_result, slot_row};
ghost use Rattle.message_store.specs.Slot.{permanent_at, slot_at};

use crate::crc::message_crc;
use crate::fault::StoreFault;
use crate::message::{MemoryType, MsgRef};
use crate::slot::Status;
use crate::store::Store;

/// The fields of a message, with its CRC (NTCIP 1203 v03, object dmsMessageTable).
#[derive(Clone, Copy)]
pub struct Row<'a> {
    /// 1 notUsed, 2 modifying, 3 validating, 4 valid or 5 error (NTCIP 1203 v03, dmsMessageStatus).
    pub status: u8,
    /// The MULTI text.
    pub multi: &'a [u8],
    /// At most 127 octets, and empty unless the message is changeable.
    pub owner: &'a [u8],
    /// The run-time priority, 1 to 255; of a blank message its number.
    pub priority: u8,
    /// Whether it asks for the beacons: 0 no, 1 yes.
    pub beacon: u8,
    /// Whether it asks for the pixel service: 0 no, 1 yes.
    pub pixel: u8,
    /// The CRC of the present text, beacon and pixel service (NTCIP 1203 v03, dmsMessageCRC); 0 of a blank message.
    pub crc: u16,
}

/// The row of a blank message.
fn blank_row(number: u8) -> Row<'static>
    ensures row { data_of result ≡ blank_row number }
    ensures ranged { 1 ≤ number → AreRanged result.priority result.beacon result.pixel }
    ensures short { length result.multi.now ≡ 0 }
{
    Row {
        status: Status::Valid.code(),
        multi: &[],
        owner: &[],
        priority: number,
        beacon: 0,
        pixel: 0,
        crc: 0,
    }
}

impl Store {
    /// The row of a slot.
    fn slot_row(&self, index: usize) -> Row<'_>
        requires { index < length self.now.slots }
        ensures row { data_of result ≡ slot_row (slot_at self.now index) }
        ensures ranged { AreRanged result.priority result.beacon result.pixel }
        ensures short { length result.multi.now ≤ self.now.limits.max_string }
    {
        let slot = self.slot(index);
        let multi = self.multi(index);
        Row {
            status: slot.status.code(),
            multi,
            owner: self.owner(index),
            priority: slot.priority,
            beacon: slot.beacon,
            pixel: slot.pixel,
            crc: self.crc(index),
        }
    }

    /// The row of a permanent message.
    fn permanent_row(&self, index: usize) -> Row<'_>
        requires { index < length self.now.permanent }
        ensures row { data_of result ≡ permanent_row (permanent_at self.now index) }
        ensures ranged { AreRanged result.priority result.beacon result.pixel }
        ensures short { length result.multi.now ≤ self.now.limits.max_string }
    {
        let message = &self.permanent[index];
        Row {
            status: Status::Valid.code(),
            multi: &message.multi,
            owner: &[],
            priority: message.priority,
            beacon: message.beacon,
            pixel: message.pixel,
            crc: message_crc(&message.multi, message.beacon, message.pixel),
        }
    }

    /// The present fields of a permanent, changeable or blank message, with its CRC.
    ///
    /// Refused by `MemoryType` for every other memory type, the currentBuffer's too, which isn't in the store, and by
    /// `Number` where there is no such message.
    pub fn row(&self, message: MsgRef) -> Result<Row<'_>, StoreFault>
        ensures row { row_result result ≡ row_at self.now message }
        ensures short { IfOk result (λ row. length row.multi.now ≤ self.now.limits.max_string) }
        ensures ranged { IfOk result (λ row. AreRanged row.priority row.beacon row.pixel) }
        ensures kept { IsKept self.now }
    {
        let limits = self.limits();
        if let Some(MemoryType::CurrentBuffer) = MemoryType::numbered(message.memory) {
            return Err(StoreFault::MemoryType);
        }
        let number = usize::from(message.number);
        match self.found(message) {
            Ok(MemoryType::Permanent) => Ok(self.permanent_row(number - 1)),
            Ok(MemoryType::Changeable) => Ok(self.slot_row(number - 1)),
            Ok(MemoryType::CurrentBuffer) => Err(StoreFault::MemoryType),
            Ok(MemoryType::Blank) => Ok(blank_row(number as u8)),
            Err(fault) => Err(fault),
        }
    }
}
