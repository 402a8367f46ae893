//! Where the keys of a sign file stand in its text, which is TOML.

use crate::address::{Address, Met, TableKind};
use crate::findings::Findings;
use crate::strings::{line_end, mark_len, octet_at, text_end};
use std::alloc::{AllocError, Global};

/// A bracket that is open within a value.
#[derive(Clone, Copy)]
struct Open {
    /// Whether it is that of an inline table, and not of an array.
    is_table: bool,
    /// The table or the array.
    address: Address,
}

/// What is known of the text before an octet.
#[derive(Drop)]
struct Scan {
    /// The brackets that are open within a value.
    open: Vec<Open>,
    /// The entries of arrays that were met.
    met: Met,
    /// The table of the last header.
    table: Address,
    /// Whether a name is read, and no value.
    is_name: bool,
    /// The table to which the parts of the name before its last dot lead.
    walk: Address,
    /// Where the last part of the name begins, and where it ends; both are 0 before it.
    part: (usize, usize),
    /// What the value is that is read: a table or an array of the file, if it is one.
    value: Address,
    /// How many brackets the header has that is read, and where it begins.
    header: (u8, usize),
}

impl Scan {
    /// At the front of a text.
    fn new(alloc: Global) -> Scan {
        let sign = Address::of(TableKind::Sign);
        Scan {
            open: Vec::new(alloc),
            met: Met::new(),
            table: sign,
            is_name: true,
            walk: sign,
            part: (0, 0),
            value: Address::of(TableKind::Other),
            header: (0, 0),
        }
    }

    /// The innermost bracket that is open, or one of a table if none is.
    fn inner(&self) -> Open {
        self.open.last().copied().unwrap_or(Open {
            is_table: true,
            address: self.table,
        })
    }

    /// Begins a name in a table.
    fn begin_name(&mut self, table: Address) {
        self.is_name = true;
        self.walk = table;
        self.part = (0, 0);
    }

    /// The last part of the name, without its quotes.
    fn part_of<'a>(&self, octets: &'a [u8]) -> &'a [u8] {
        let part = octets.get(self.part.0..self.part.1).unwrap_or(b"");
        match part {
            [b'"', text @ .., b'"'] => text,
            [b'\'', text @ .., b'\''] => text,
            _ => part,
        }
    }

    /// Takes octets into the name, if one is read.
    fn take(&mut self, from: usize, to: usize) {
        if self.is_name {
            self.part = match self.part {
                (0, 0) => (from, to),
                (first, _) => (first, to),
            };
        }
    }

    /// Passes a dot of a name, before which the name of a table stands.
    fn pass_dot(&mut self, octets: &[u8], found: &mut Findings) {
        if self.is_name {
            let (brackets, first) = self.header;
            let at = if brackets == 0 { self.part.0 } else { first };
            let key = self.part_of(octets);
            found.place(self.walk, Some(key), at);
            self.walk = self.met.last(self.walk.child(key));
            found.place(self.walk, None, at);
            self.part = (0, 0);
        }
    }

    /// Ends a name at its `=`.
    fn end_name(&mut self, octets: &[u8], found: &mut Findings) {
        if self.is_name {
            let key = self.part_of(octets);
            found.place(self.walk, Some(key), self.part.0);
            self.value = self.walk.child(key);
            self.is_name = false;
        }
    }

    /// Ends a header at its first closing bracket.
    fn end_header(&mut self, octets: &[u8], found: &mut Findings) {
        let (brackets, at) = self.header;
        let key = self.part_of(octets);
        found.place(self.walk, Some(key), at);
        let child = self.walk.child(key);
        if brackets > 1 {
            self.met.meet(child);
        }
        self.table = self.met.last(child);
        found.place(self.table, None, at);
        self.header = (0, 0);
        self.is_name = false;
    }

    /// Opens a bracket of a header, or of an array.
    fn open_array(&mut self, at: usize) -> Result<(), AllocError> {
        if self.is_name && self.open.is_empty() {
            let (brackets, first) = self.header;
            self.header = (
                brackets.saturating_add(1),
                if brackets == 0 { at } else { first },
            );
            self.begin_name(Address::of(TableKind::Sign));
            return Ok(());
        }
        self.open.push(Open {
            is_table: false,
            address: self.value,
        })?;
        Ok(())
    }

    /// Opens an inline table, which may be an entry of an array.
    fn open_table(&mut self, found: &mut Findings, at: usize) -> Result<(), AllocError> {
        let inner = self.inner();
        let array = if inner.is_table {
            self.value
        } else {
            inner.address
        };
        self.met.meet(array);
        let address = self.met.last(array);
        self.open.push(Open {
            is_table: true,
            address,
        })?;
        found.place(address, None, at);
        self.begin_name(address);
        Ok(())
    }

    /// Closes a bracket.
    fn close(&mut self, octets: &[u8], found: &mut Findings) {
        if self.header.0 > 0 {
            self.end_header(octets, found);
        } else {
            let _ = self.open.pop();
            self.is_name = false;
        }
    }

    /// Passes a comma, after which an inline table goes on with a name.
    fn pass_comma(&mut self) {
        let inner = self.inner();
        if inner.is_table {
            self.begin_name(inner.address);
        }
    }

    /// Ends a line, after which a name follows if no bracket is open.
    fn end_line(&mut self) {
        if self.open.is_empty() {
            let table = self.table;
            self.header = (0, 0);
            self.begin_name(table);
        }
    }

    /// Passes the octet at a place, and says where the next one stands that is to be passed.
    fn pass(
        &mut self,
        octets: &[u8],
        found: &mut Findings,
        at: usize,
    ) -> Result<usize, AllocError> {
        let next = at.saturating_add(1);
        match octet_at(octets, at) {
            b'"' | b'\'' => {
                let end = text_end(octets, at);
                self.take(at, end);
                return Ok(end);
            }
            b'#' => return Ok(line_end(octets, at)),
            b'\n' => self.end_line(),
            b'[' => self.open_array(at)?,
            b'{' => self.open_table(found, at)?,
            b']' | b'}' => self.close(octets, found),
            b',' => self.pass_comma(),
            b'=' => self.end_name(octets, found),
            b'.' => self.pass_dot(octets, found),
            b' ' | b'\t' | b'\r' => {}
            _ => self.take(at, next),
        }
        Ok(next)
    }
}

/// Places what is looked for, as far as it stands in a text.
fn look(octets: &[u8], found: &mut Findings) -> Result<(), AllocError> {
    let mut scan = Scan::new(found.alloc);
    let mut next = mark_len(octets);
    found.count_sought();
    found.place(Address::of(TableKind::Sign), None, next);
    for at in 0..octets.len() {
        if found.sought == 0 {
            break;
        }
        if at >= next {
            next = scan.pass(octets, found, at)?;
        }
    }
    Ok(())
}

/// Numbers the lines of what was found in a text: the line of its key, or else that in which its table begins.
pub(crate) fn number_lines(octets: &[u8], found: &mut Findings) -> Result<(), AllocError> {
    look(octets, found)?;
    if found.leave_keys() {
        look(octets, found)?;
    }
    found.number(octets);
    Ok(())
}
