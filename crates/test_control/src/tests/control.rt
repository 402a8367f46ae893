//! The controller of the sample sign: one slot, 4 bytes, and the permanent message `AAAI`.

mod change;
mod frame;
mod lists;
mod memory;
mod saved;

use crate::tests::so;
use message_store::{MsgRef, Permanent, Store, StoreLimits};
use sign_control::{Command, Controller, Reply, Report};
use sign_font::{Sign, sample_sign};
use std::alloc::Global;
use std::test::Fail;

pub(crate) const FIRST: MsgRef = MsgRef {
    memory: 3,
    number: 1,
};

pub(crate) const CURRENT: MsgRef = MsgRef {
    memory: 5,
    number: 1,
};

/// Without end, changeable 1 with the CRC of `A`, priority 128, from 127.0.0.1.
pub(crate) const SHOW_A: [u8; 12] = [0xff, 0xff, 0x80, 3, 0, 1, 0x9a, 0x66, 0x7f, 0, 0, 1];

/// What is reported of the sample sign before anything was asked of it.
pub(crate) const AT_FIRST: Report = Report {
    used: 0,
    free: 4,
    mode: 1,
    shown_memory: 7,
    shown_number: 1,
    crc: 0,
    priority: 1,
    remaining: 65535,
    requester: 0,
    activate: 2,
    validate: 2,
    multi: 2,
    position: 0,
    clock: 0,
};

fn sample(alloc: Global) -> Result<Controller, Fail> {
    let mut messages = Vec::new(alloc);
    messages.push(Permanent {
        multi: b"AAAI".to_vec(alloc)?,
        priority: 5,
        beacon: 0,
        pixel: 0,
    })?;
    let limits = StoreLimits {
        slots: 1,
        bytes: 4,
        max_string: 64,
    };
    let store = Store::new(alloc, limits, messages)?;
    let sign = Sign::new(alloc, sample_sign(alloc)?)?;
    Ok(Controller::new(alloc, sign, store)?)
}

/// The sample sign, which shows the message `A` of its slot.
pub(crate) fn showing_a(alloc: Global) -> Result<Controller, Fail> {
    let mut controller = sample(alloc)?;
    let commands = [
        Command::Request(FIRST, 6),
        Command::SetMulti(FIRST, b"A"),
        Command::Request(FIRST, 7),
        Command::Work,
        Command::Activate(SHOW_A),
    ];
    for command in commands {
        controller.apply(&command);
    }
    Ok(controller)
}

/// Whether a row has this text, priority and CRC, is valid and has no owner.
pub(crate) fn is_row(
    controller: &Controller,
    message: MsgRef,
    multi: &[u8],
    priority: u8,
    crc: u16,
) -> bool {
    match controller.row(message) {
        Ok(row) => {
            row.status == 4
                && row.multi == multi
                && row.owner.is_empty()
                && row.priority == priority
                && row.crc == crc
        }
        Err(_) => false,
    }
}

#[test]
fn a_new_controller_shows_blank_1(rt: HostRuntime) -> Result<(), Fail> {
    let controller = sample(rt.alloc())?;
    so(&rt, controller.report() == AT_FIRST, "the report");
    so(&rt, controller.steps() == 0, "no step");
    so(
        &rt,
        is_row(&controller, CURRENT, b"", 1, 0),
        "the currentBuffer",
    );
    Ok(())
}

/// A message that was judged valid.
pub(crate) const VALID: Reply = Reply::Worked {
    number: 1,
    status: 4,
    validate_error: 2,
    multi_error: 2,
    multi_position: 0,
};
