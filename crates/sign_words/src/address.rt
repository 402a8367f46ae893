//! The tables of a sign file, as they are met in its text.

/// What kind of table it is, or of array of tables.
#[derive(Clone, Copy, PartialEq)]
pub(crate) enum TableKind {
    /// The document.
    Sign,
    /// `[defaults]`.
    Defaults,
    /// The array of the fonts.
    Fonts,
    /// One of `[[font]]`.
    Font,
    /// The array of a font's cells.
    Cells,
    /// A cell.
    Cell,
    /// The array of the permanent messages.
    Permanents,
    /// One of `[[permanent]]`.
    Permanent,
    /// None of these.
    Other,
}

/// A table, or an array of tables. Entries of arrays are counted from 1.
#[derive(Clone, Copy)]
pub(crate) struct Address {
    pub(crate) kind: TableKind,
    /// Which font or permanent message it is, or else 0.
    pub(crate) entry: usize,
    /// Which cell of the font it is, or else 0.
    pub(crate) cell: usize,
}

impl Address {
    /// One that is in no array.
    pub(crate) fn of(kind: TableKind) -> Address {
        Address {
            kind,
            entry: 0,
            cell: 0,
        }
    }

    /// Whether it is the same.
    pub(crate) fn is(self, other: Address) -> bool {
        self.kind == other.kind && self.entry == other.entry && self.cell == other.cell
    }

    /// What stands at a name in it.
    pub(crate) fn child(self, name: &[u8]) -> Address {
        let kind = match self.kind {
            TableKind::Sign if name == b"defaults".as_slice() => TableKind::Defaults,
            TableKind::Sign if name == b"font".as_slice() => TableKind::Fonts,
            TableKind::Sign if name == b"permanent".as_slice() => TableKind::Permanents,
            TableKind::Font if name == b"cell".as_slice() => TableKind::Cells,
            _ => TableKind::Other,
        };
        Address { kind, ..self }
    }
}

/// How many entries were met: fonts, cells of the last font, and permanent messages.
#[derive(Clone, Copy)]
pub(crate) struct Met {
    fonts: usize,
    cells: usize,
    permanents: usize,
}

impl Met {
    /// None.
    pub(crate) fn new() -> Met {
        Met {
            fonts: 0,
            cells: 0,
            permanents: 0,
        }
    }

    /// Meets one more entry of an array, if it is one of these.
    pub(crate) fn meet(&mut self, array: Address) {
        match array.kind {
            TableKind::Fonts => {
                self.fonts = self.fonts.saturating_add(1);
                self.cells = 0;
            }
            TableKind::Cells => self.cells = self.cells.saturating_add(1),
            TableKind::Permanents => self.permanents = self.permanents.saturating_add(1),
            _ => {}
        }
    }

    /// The last entry of an array, if it is one of these, or else the same table.
    pub(crate) fn last(&self, array: Address) -> Address {
        let (kind, entry, cell) = match array.kind {
            TableKind::Fonts => (TableKind::Font, self.fonts, 0),
            TableKind::Cells => (TableKind::Cell, self.fonts, self.cells),
            TableKind::Permanents => (TableKind::Permanent, self.permanents, 0),
            _ => return array,
        };
        Address { kind, entry, cell }
    }
}
