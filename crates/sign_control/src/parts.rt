//! The parts of a state of which the size is known, in saved octets.

ghost use Rattle.std.specs.Prelude.{◌≡◌, ◌+◌, ◌*◌, ◌^◌, ◌<◌, ◌≤◌, length, IfOk, IfSome};
ghost use Rattle.sign_control.specs.internal.Saving.{AreNumbers};
ghost use Rattle.message_store.specs.Ranged.{AreRanged};
ghost use Rattle.saved_octets.specs.Field.{Gives, placed};
ghost use Rattle.sign_control.specs.Saved.{defaults_in, defaults_octets, display_in, end_octets, front_in, parts_in, parts_octets, registers_in, registers_octets, remaining_in, remaining_number, shown_octets};

use crate::code::{ActivateError, IdCode, SourceMode, id_code};
use crate::display::{Display, Registers};
use byteorder::{BigEndian, ByteOrder};
use message_store::MsgRef;
use saved_octets::{StateFault, put};
use sign_font::Defaults;

/// The octets of the parts.
pub(crate) const PARTS: usize = 53;

/// What stands for no end of a duration.
const NO_END: u32 = 0xffff_ffff;

/// The longest duration, in tenths of a second.
const LONGEST: u32 = 65534 * 600;

/// What a state has beside its messages and the display's text.
#[derive(Clone, Copy)]
pub(crate) struct Parts {
    pub(crate) defaults: Defaults,
    pub(crate) end: IdCode,
    pub(crate) registers: Registers,
    pub(crate) display: Display,
}

fn defaults_octets(defaults: &Defaults) -> [u8; 9]
    ensures { result ≡ defaults_octets defaults.now }
{
    [
        defaults.font,
        defaults.line,
        defaults.page,
        defaults.page_on,
        defaults.page_off,
        defaults.flash_on,
        defaults.flash_off,
        defaults.fore,
        defaults.back,
    ]
}

/// A message and its CRC, as they are named.
pub(crate) fn end_octets(code: IdCode) -> [u8; 5]
    ensures octets { result ≡ end_octets code }
    ensures fits { (code.message.number < 2 ^ 16) × (code.crc < 2 ^ 16) }
{
    let number = code.message.number.to_be_bytes();
    let crc = code.crc.to_be_bytes();
    [code.message.memory, number[0], number[1], crc[0], crc[1]]
}

fn registers_octets(registers: Registers) -> [u8; 5]
    ensures octets { result ≡ registers_octets registers }
    ensures fits { registers.position < 2 ^ 16 }
{
    let position = registers.position.to_be_bytes();
    [
        registers.activate.code(),
        registers.validate,
        registers.multi,
        position[0],
        position[1],
    ]
}

fn remaining_number(remaining: Option<u32>) -> u32
    ensures { result ≡ remaining_number remaining }
{
    match remaining {
        None => NO_END,
        Some(tenths) => tenths,
    }
}

/// What the display shows beside its text, without its defaults.
fn shown_octets(display: Display) -> [u8; 25]
    ensures octets { result ≡ shown_octets display }
    ensures fits { (display.source.number < 2 ^ 16) × (display.crc < 2 ^ 16) × (display.requester < 2 ^ 32) × (display.clock < 2 ^ 64) }
{
    let number = display.source.number.to_be_bytes();
    let crc = display.crc.to_be_bytes();
    let requester = display.requester.to_be_bytes();
    let left = remaining_number(display.remaining).to_be_bytes();
    let clock = display.clock.to_be_bytes();
    [
        display.source.memory,
        number[0],
        number[1],
        display.priority,
        display.beacon,
        display.pixel,
        display.mode.code(),
        crc[0],
        crc[1],
        requester[0],
        requester[1],
        requester[2],
        requester[3],
        left[0],
        left[1],
        left[2],
        left[3],
        clock[0],
        clock[1],
        clock[2],
        clock[3],
        clock[4],
        clock[5],
        clock[6],
        clock[7],
    ]
}

/// Puts the parts at a place of a buffer, which has room for them.
pub(crate) fn put_parts(buffer: &mut [u8], at: usize, parts: &Parts)
    requires room { at + 53 ≤ length buffer.old }
    ensures put { buffer.new ≡ placed buffer.old at (parts_octets parts.now) }
    ensures numbers { AreNumbers parts.now }
{
    put(buffer, at, &defaults_octets(&parts.defaults));
    put(buffer, at + 9, &end_octets(parts.end));
    put(buffer, at + 14, &registers_octets(parts.registers));
    put(buffer, at + 19, &shown_octets(parts.display));
    put(buffer, at + 44, &defaults_octets(&parts.display.defaults));
}

fn defaults_in(octets: &[u8]) -> Defaults
    requires { 9 ≤ length octets.now }
    ensures { result ≡ defaults_in octets.now }
{
    Defaults {
        font: octets[0],
        line: octets[1],
        page: octets[2],
        page_on: octets[3],
        page_off: octets[4],
        flash_on: octets[5],
        flash_off: octets[6],
        fore: octets[7],
        back: octets[8],
    }
}

#[tactic(auto, unfolding(crate::specs::Saved::registers_in))]
fn registers_of(octets: &[u8]) -> Result<Registers, StateFault>
    requires { 5 ≤ length octets.now }
    ensures { Gives (λ x. x) result (registers_in octets.now) }
{
    let Some(activate) = ActivateError::numbered(octets[0]) else {
        return Err(StateFault::Value);
    };
    Ok(Registers {
        activate,
        validate: octets[1],
        multi: octets[2],
        position: BigEndian::read_u16(&octets[3..]),
    })
}

#[tactic(auto, unfolding(crate::specs::Saved::remaining_in))]
fn remaining_of(number: u32) -> Result<Option<u32>, StateFault>
    ensures remaining { Gives (λ x. x) result (remaining_in number) }
    ensures limited { IfOk result (λ remaining. IfSome remaining (λ tenths. tenths ≤ 65534 * 600)) }
{
    if number == NO_END {
        Ok(None)
    } else if number > LONGEST {
        Err(StateFault::Value)
    } else {
        Ok(Some(number))
    }
}

#[tactic(auto, unfolding(crate::specs::Saved::display_in))]
fn display_of(octets: &[u8]) -> Result<Display, StateFault>
    requires { 34 ≤ length octets.now }
    ensures display { Gives (λ x. x) result (display_in octets.now) }
    ensures limited { IfOk result (λ display. IfSome display.remaining (λ tenths. tenths ≤ 65534 * 600)) }
    ensures ranged { IfOk result (λ display. AreRanged display.priority display.beacon display.pixel) }
{
    let remaining = remaining_of(BigEndian::read_u32(&octets[13..]))?;
    let Some(mode) = SourceMode::numbered(octets[6]) else {
        return Err(StateFault::Value);
    };
    if octets[3] == 0 || octets[4] > 1 || octets[5] > 1 {
        return Err(StateFault::Value);
    }
    Ok(Display {
        source: MsgRef {
            memory: octets[0],
            number: BigEndian::read_u16(&octets[1..]),
        },
        priority: octets[3],
        beacon: octets[4],
        pixel: octets[5],
        crc: BigEndian::read_u16(&octets[7..]),
        defaults: defaults_in(&octets[25..]),
        clock: BigEndian::read_u64(&octets[17..]),
        remaining,
        requester: BigEndian::read_u32(&octets[9..]),
        mode,
    })
}

#[tactic(auto, unfolding(crate::specs::Saved::parts_in))]
fn parts_of(octets: &[u8]) -> Result<Parts, StateFault>
    requires { 53 ≤ length octets.now }
    ensures parts { Gives (λ x. x) result (parts_in octets.now) }
    ensures limited { IfOk result (λ parts. IfSome parts.display.remaining (λ tenths. tenths ≤ 65534 * 600)) }
    ensures ranged { IfOk result (λ parts. AreRanged parts.display.priority parts.display.beacon parts.display.pixel) }
{
    let registers = registers_of(&octets[14..])?;
    let display = display_of(&octets[19..])?;
    Ok(Parts {
        defaults: defaults_in(octets),
        end: id_code(&octets[9..]),
        registers,
        display,
    })
}

/// Reads the parts at the front, and answers them with the octets after them.
#[tactic(auto, unfolding(crate::specs::Saved::front_in))]
pub(crate) fn front_of(octets: &[u8]) -> Result<(Parts, &[u8]), StateFault>
    ensures front { Gives (λ x. (x.0, x.1.now)) result (front_in octets.now) }
    ensures limited { IfOk result (λ x. IfSome x.0.display.remaining (λ tenths. tenths ≤ 65534 * 600)) }
    ensures ranged { IfOk result (λ x. AreRanged x.0.display.priority x.0.display.beacon x.0.display.pixel) }
{
    if octets.len() < PARTS {
        return Err(StateFault::Length);
    }
    let parts = parts_of(octets)?;
    Ok((parts, &octets[PARTS..]))
}
