//! The state of a controller as octets.

ghost use Rattle.std.specs.Prelude.{◌≡◌, ◌+◌, ◌*◌, ◌++◌, ◌≤◌, length, OnSome};
ghost use Rattle.std.specs.List.{All};
ghost use Rattle.saved_octets.specs.Slots.{IsRanged};
ghost use Rattle.sign_control.specs.internal.Saving.{AreNumbers};
ghost use Rattle.message_store.specs.Slot.{used_bytes};
ghost use Rattle.saved_octets.specs.Field.{placed, text_octets};
ghost use Rattle.saved_octets.specs.Slots.{table_octets};
ghost use Rattle.sign_control.specs.Code.{id_code};
ghost use Rattle.sign_control.specs.Saved.{IsRestorable, Saves, parts_octets, saved_octets, save_size};

use crate::controller::Controller;
use crate::parts::{PARTS, Parts, end_octets, put_parts};
use message_store::Store;
use saved_octets::{put_head, put_seal, put_table, put_text};

/// Puts the parts, the display's text and the messages at a place of a buffer, which has room for them, and answers where they end.
fn put_body(buffer: &mut [u8], at: usize, parts: &Parts, text: &[u8], store: &Store) -> usize
    requires short { length text.now ≤ 4096 }
    requires room { at + 57 + length text.now + 8 * length store.now.slots + used_bytes store.now ≤ length buffer.old }
    ensures put { buffer.new
        ≡ placed buffer.old at (parts_octets parts.now ++ text_octets text.now ++ table_octets store.now.slots) }
    ensures end { result ≡ at + length (parts_octets parts.now ++ text_octets text.now ++ table_octets store.now.slots) }
    ensures numbers { AreNumbers parts.now }
    ensures ranged { All IsRanged store.now.slots }
{
    put_parts(buffer, at, parts);
    put_text(buffer, at + PARTS, text);
    put_table(store, buffer, at + PARTS + 2 + text.len())
}

impl Controller {
    /// The message that follows a duration, and its CRC, in five octets (NTCIP 1203 v03, dmsEndDurationMessage).
    pub fn end_message(&self) -> [u8; 5]
        ensures code { id_code result ≡ self.now.state.end }
    {
        end_octets(self.end)
    }

    /// The most octets that a saved state of this controller has: it depends on the limits of the message table alone.
    pub fn save_size(&self) -> usize
        ensures size { result ≡ save_size self.now.state.store.limits }
    {
        let limits = self.store.limits();
        66 + usize::from(limits.max_string) + 8 * usize::from(limits.slots) + limits.bytes as usize
    }

    /// Saves the state at the front of a buffer, and tells how many octets that are; [`Controller::restore`] takes them. `None` if the
    /// buffer has fewer octets than [`Controller::save_size`] tells, and then nothing is written.
    pub fn save(&self, buffer: &mut [u8]) -> Option<usize>
        ensures saved { Saves (save_size self.now.state.store.limits) (saved_octets self.now.state) buffer.old buffer.new result }
        ensures back { OnSome result (IsRestorable self.now.sign self.now.state) }
    {
        if buffer.len() < self.save_size() {
            return None;
        }
        let parts = Parts {
            defaults: self.defaults,
            end: self.end,
            registers: self.registers,
            display: self.display,
        };
        let texts = self.text.len() + self.store.used_bytes() as usize;
        put_head(buffer, PARTS + 4 + texts + 8 * self.store.count());
        let end = put_body(buffer, 5, &parts, &self.text, &self.store);
        put_seal(buffer, end);
        Some(end + 4)
    }
}
