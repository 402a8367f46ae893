//! How a run ends: its exit status, and what is said of a fault.

use crate::front::{Front, Told};
use command_line::Answer;
use sign_aids::PictureFault;
use std::fmt::Display;
use std::io::Write;
use tool_streams::ToolFault;

/// The exit status of a run with no fault, and of help (own).
pub(crate) const DONE: u8 = 0;

/// The exit status of a run that ended with a fault (own).
pub(crate) const FAULTED: u8 = 1;

/// The exit status if the command line is refused (own).
pub(crate) const REFUSED: u8 = 2;

/// The exit status of `explain` if its sign file or its messages aren't read, or what it tells isn't written (own).
pub(crate) const UNREAD: u8 = 3;

/// Answers a command line that asks for no run. Help is written to the output, and why it is refused to the errors.
pub(crate) fn answer_words<W: Write, E: Write>(
    answer: &Answer,
    writer: &mut W,
    errors: &mut E,
) -> u8 {
    // The status says the same even if this text can't be written.
    if answer.is_refusal() {
        let _ = write!(errors, "{answer}");
        REFUSED
    } else {
        let _ = write!(writer, "{answer}");
        DONE
    }
}

/// Says what is wrong.
pub(crate) fn say<F: Display, E: Write>(fault: &F, errors: &mut E) {
    let _ = writeln!(errors, "signctl: {fault}");
}

/// Says what is wrong with a file.
pub(crate) fn say_of_file<F: Display, E: Write>(name: &str, fault: &F, errors: &mut E) {
    let _ = writeln!(errors, "signctl: {name}: {fault}");
}

/// Says what is wrong with a sign file that is named, and which command says more of it.
fn say_of_sign<E: Write>(name: &str, fault: ToolFault, errors: &mut E) {
    if matches!(fault, ToolFault::BadSign | ToolFault::SignRefused { .. }) {
        let _ = writeln!(
            errors,
            "signctl: {name}: {fault}; 'signctl sign {name}' says more"
        );
    } else {
        say_of_file(name, &fault, errors);
    }
}

/// Says the fault of a run.
pub(crate) fn say_tool<E: Write>(front: &Front<'_>, fault: ToolFault, errors: &mut E) {
    match front.told(fault) {
        Told {
            name: Some(name),
            fault,
        } => say_of_sign(name, fault, errors),
        Told { name: None, fault } => say(&fault, errors),
    }
}

/// The exit status of a run, whose fault is said.
pub(crate) fn end_of<F: Display + Drop, E: Write>(end: Result<(), F>, errors: &mut E) -> u8 {
    match end {
        Ok(()) => DONE,
        Err(fault) => {
            say(&fault, errors);
            FAULTED
        }
    }
}

/// The exit status of a run over lines.
pub(crate) fn end_of_lines<E: Write>(
    end: Result<(), ToolFault>,
    front: &Front<'_>,
    errors: &mut E,
) -> u8 {
    match end {
        Ok(()) => DONE,
        Err(fault) => {
            say_tool(front, fault, errors);
            FAULTED
        }
    }
}

/// The exit status of a run that draws a message.
pub(crate) fn end_of_picture<E: Write>(
    end: Result<(), PictureFault>,
    front: &Front<'_>,
    errors: &mut E,
) -> u8 {
    let fault = match end {
        Ok(()) => return DONE,
        Err(fault) => fault,
    };
    match fault {
        PictureFault::Tool(fault) => say_tool(front, fault, errors),
        PictureFault::SecondMessage { line } => {
            let line = front.line_behind(line).unwrap_or(line);
            say(&PictureFault::SecondMessage { line }, errors);
        }
        fault => say(&fault, errors),
    }
    FAULTED
}

/// The exit status of a run that tells whether all was taken.
pub(crate) fn end_of_answer<E: Write>(
    end: Result<bool, ToolFault>,
    front: &Front<'_>,
    errors: &mut E,
) -> u8 {
    match end {
        Ok(true) => DONE,
        Ok(false) => FAULTED,
        Err(fault) => end_of_lines(Err(fault), front, errors),
    }
}
