//! What stands before the input: the sign file that the command line names, and the mark after it.

use command_line::SignSource;
use std::alloc::Global;
use std::fs;
use std::io::{self, BufReader};
use std::rt::Files;
use thiserror::Error;
use tool_streams::{ToolFault, read_sign};

/// Why a file isn't read (own).
#[derive(Debug, Drop, Error)]
pub(crate) enum FileFault {
    /// It can't be opened.
    #[error("{0}")]
    Unopened(io::Error),
    /// It can't be read, or has too many octets, or memory was refused.
    #[error("{0}")]
    Unread(ToolFault),
    /// It begins with a byte-order mark of UTF-16.
    #[error("this is UTF-16; write it in UTF-8")]
    Utf16,
}

/// What stands before the input (own).
#[derive(Drop)]
pub(crate) struct Front<'a> {
    /// The octets of the sign file and of the mark. There are none where no file is named.
    pub(crate) octets: Vec<u8>,
    /// The name of that file.
    name: Option<&'a str>,
    /// How many lines they are.
    lines: u32,
}

/// How many lines end in these octets.
fn lines_of(octets: &[u8]) -> u32 {
    let mut lines: u32 = 0;
    for octet in octets {
        if *octet == b'\n' {
            lines = lines.saturating_add(1);
        }
    }
    lines
}

/// What a fault is told as: where it is, if that is a file, and what it is.
#[derive(Clone, Copy)]
pub(crate) struct Told<'a> {
    pub(crate) name: Option<&'a str>,
    pub(crate) fault: ToolFault,
}

/// Reads a sign file, with the mark after it.
fn read_file<P: Files>(alloc: Global, files: &P, name: &str) -> Result<Vec<u8>, FileFault> {
    let file = match fs::open(files, name) {
        Ok(file) => file,
        Err(refusal) => return Err(FileFault::Unopened(refusal)),
    };
    let Ok(mut file) = BufReader::new(alloc, file) else {
        return Err(FileFault::Unread(ToolFault::Memory));
    };
    match read_sign(alloc, &mut file) {
        Ok(octets) => Ok(octets),
        Err(fault) => Err(FileFault::Unread(fault)),
    }
}

impl<'a> Front<'a> {
    /// Reads the sign file that is named, if one is. The error has the name of the file.
    pub(crate) fn read<P: Files>(
        alloc: Global,
        files: &P,
        sign: SignSource<'a>,
    ) -> Result<Front<'a>, (&'a str, FileFault)> {
        let SignSource::File(name) = sign else {
            return Ok(Front {
                octets: Vec::new(alloc),
                name: None,
                lines: 0,
            });
        };
        match read_file(alloc, files, name) {
            Ok(octets) => Ok(Front {
                lines: lines_of(&octets),
                octets,
                name: Some(name),
            }),
            Err(fault) => Err((name, fault)),
        }
    }

    /// How many lines stand before the input.
    pub(crate) fn lines(&self) -> u32 {
        self.lines
    }

    /// A line as the input counts it, or `None` if it is one of the file.
    pub(crate) fn line_behind(&self, line: u32) -> Option<u32> {
        line.checked_sub(self.lines).filter(|behind| *behind > 0)
    }

    /// How a fault of the tool is told: a line of the input is counted from its first one, and one of the file comes with the file's name.
    pub(crate) fn told(&self, fault: ToolFault) -> Told<'a> {
        let of_file = Told {
            name: self.name,
            fault,
        };
        let of_input = |fault| Told { name: None, fault };
        match fault {
            ToolFault::LineTooLong { line } => match self.line_behind(line) {
                Some(line) => of_input(ToolFault::LineTooLong { line }),
                None => of_file,
            },
            ToolFault::BadLine { line } => match self.line_behind(line) {
                Some(line) => of_input(ToolFault::BadLine { line }),
                None => of_file,
            },
            ToolFault::BadSign => of_file,
            ToolFault::SignRefused { .. } => of_file,
            fault => of_input(fault),
        }
    }
}
