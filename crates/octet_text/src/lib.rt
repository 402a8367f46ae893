//! Text that grows by octets: each call appends to what is there, or memory was refused. And numbers that text writes.
#![tactic(auto)]

mod digits;

ghost use Rattle.std.specs.Prelude.{◌≡◌, ◌++◌, ◌∷◌, [], OnErr, OnOk, decimal};

pub use digits::digits_number;
use itoa::Buffer;
use std::alloc::AllocError;

/// Appends an octet. The error says that memory was refused; then the text is as it was.
pub fn push_octet(text: &mut Vec<u8>, octet: u8) -> Result<(), AllocError>
    ensures text { OnOk result (text.new.items ≡ text.old.items ++ octet ∷ []) }
    ensures kept { OnErr result (text.new.items ≡ text.old.items) }
{
    Ok(text.push(octet)?)
}

/// Appends octets. The error says that memory was refused; then the text is as it was.
pub fn push_octets(text: &mut Vec<u8>, octets: &[u8]) -> Result<(), AllocError>
    ensures text { OnOk result (text.new.items ≡ text.old.items ++ octets.now) }
    ensures kept { OnErr result (text.new.items ≡ text.old.items) }
{
    text.extend_from_slice(octets)
}

/// Appends a number in decimal. The error says that memory was refused.
pub fn push_number(text: &mut Vec<u8>, number: u64) -> Result<(), AllocError>
    ensures { OnOk result (text.new.items ≡ text.old.items ++ decimal number) }
{
    if number < 10 {
        return push_octet(text, b'0' + number as u8);
    }
    push_octets(text, Buffer::new().format(number).as_bytes())
}
