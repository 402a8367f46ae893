//! Lists of commands.

use super::memory::{FILLED, REFUSED};
use super::sample;
use crate::tests::so;
use sign_control::{Command, Reply};
use std::alloc::{AllocError, Global};
use std::test::Fail;

/// Commands and their replies.
struct Lists {
    commands: Vec<Command<'static>>,
    replies: Vec<Reply>,
}

/// This many commands: the slot is filled, calls are refused for each reason, and it is cleared, over and over.
fn listed(alloc: Global, count: usize) -> Result<Lists, AllocError> {
    let mut commands = Vec::new(alloc);
    let mut replies = Vec::new(alloc);
    for k in 0..count {
        let k = k % (FILLED.len() + REFUSED.len());
        let (command, reply) = if k < FILLED.len() {
            FILLED[k]
        } else {
            REFUSED[k - FILLED.len()]
        };
        commands.push(command)?;
        replies.push(reply)?;
    }
    Ok(Lists { commands, replies })
}

#[test]
fn a_run_of_any_length_has_a_reply_to_each_command(rt: HostRuntime) -> Result<(), Fail> {
    let alloc = rt.alloc();
    for count in [0, 1, 1000] {
        let mut controller = sample(alloc)?;
        let Lists { commands, replies } = listed(alloc, count)?;
        so(
            &rt,
            controller.run(alloc, &commands)?.as_slice() == replies.as_slice(),
            "the replies",
        );
    }
    Ok(())
}
