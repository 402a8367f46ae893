//! The message table of the sign that is held, in numbers.
ghost use Rattle.std.specs.Prelude.{◌≡◌};
ghost use Rattle.latsefur_c.specs.HeldSign.{table_of};

use sign_control::Controller;

/// The limits of a message table (NTCIP 1203 v03, dmsMaxChangeableMsg and dmsNumPermanentMsg; the others are own).
#[repr(C)]
#[derive(Clone, Copy)]
pub struct LatsefurTable {
    /// The octets of all texts and owners together, at most 1,000,000.
    pub bytes: u32,
    /// The changeable messages, 1 to 1,000.
    pub slots: u16,
    /// The octets of one text, at most; 1 to 4,096.
    pub max_string: u16,
    /// The permanent messages, at most 255.
    pub permanents: u8,
}

/// The limits of a controller's message table.
pub(crate) fn table_of(controller: &Controller) -> LatsefurTable
    ensures { result ≡ table_of controller.now.state.store }
{
    let limits = controller.limits();
    LatsefurTable {
        bytes: limits.bytes,
        slots: limits.slots,
        max_string: limits.max_string,
        permanents: controller.permanents().len() as u8,
    }
}
