//! How much room a message needs, by the verdict of a large sign with the same fonts and defaults.

use crate::sentence::Value::Number;
use crate::sentence::{between, joined, sentence_of};
use crate::standing::{Part, Standing};
use multi_layout::check;
use multi_token::Source;
use sign_font::{LineFill, Sign};
use std::alloc::{AllocError, Global};

/// The columns of the large sign, by which is told how much room a message lacks: the most that a sign has (own).
pub const LARGE_COLUMNS: u16 = 1024;

/// Its rows, the most that a sign has (own).
pub const LARGE_ROWS: u16 = 128;

/// How many pixels are needed.
#[derive(Clone, Copy)]
pub(crate) struct Need {
    /// What is said before the number: nothing if all of it needs these, `at least ` if what goes up to the refused item needs these and
    /// what follows couldn't be judged, and `more than ` if it needs more than these, which are all that there can be.
    pub(crate) words: &'static str,
    pub(crate) pixels: u16,
}

/// What a message lacks.
#[derive(Clone, Copy)]
pub(crate) enum Lack {
    /// Its line needs these columns.
    Line(Need),
    /// Its area needs these rows.
    Area(Need),
}

/// A front of a message on a large sign.
#[derive(Clone, Copy)]
pub(crate) struct Trial<'a> {
    pub(crate) alloc: Global,
    pub(crate) large: &'a Sign,
    pub(crate) message: &'a [u8],
    /// Where its last area begins, or the line or the word that is tried as an area of its own.
    pub(crate) from: usize,
    /// Where it ends.
    pub(crate) end: usize,
}

/// How the large sign judges a front.
#[derive(Clone, Copy)]
enum Fit {
    /// It takes it.
    Takes,
    /// The front is too big.
    TooBig,
    /// It refuses it for another reason.
    Refuses,
}

/// The number of the error textTooBig (NTCIP 1203 v03, dmsMultiSyntaxError).
const TEXT_TOO_BIG: u8 = 5;

/// How a sign judges a message.
fn judged(sign: &Sign, message: &[u8]) -> Fit {
    if message.len() > u32::MAX as usize {
        return Fit::Refuses;
    }
    match check(sign, Source::new(message)) {
        Ok(_) => Fit::Takes,
        Err(fault) if fault.code == TEXT_TOO_BIG => Fit::TooBig,
        Err(_) => Fit::Refuses,
    }
}

impl Trial<'_> {
    /// How the large sign judges the front where its last area stands in a rectangle of its own, of this size.
    fn judge(&self, columns: u16, rows: u16) -> Result<Fit, AllocError> {
        let size = [Number(columns.into()), Number(rows.into())];
        let rectangle = sentence_of(self.alloc, "[tr1,1,{},{}]", &size)?;
        let octets = joined(
            self.alloc,
            &[
                between(self.message, 0, self.from),
                rectangle.as_bytes(),
                between(self.message, self.from, self.end),
            ],
        )?;
        Ok(judged(self.large, &octets))
    }

    /// Whether the large sign takes it so.
    fn fits(&self, columns: u16, rows: u16) -> Result<bool, AllocError> {
        Ok(self.judge(columns, rows)? == Fit::Takes)
    }

    /// The least number of columns in which it fits; the most that there are do.
    fn least_columns(&self) -> Result<u16, AllocError> {
        let (mut least, mut most) = (1, LARGE_COLUMNS);
        for _ in 0..16u8 {
            let middle = least / 2 + most / 2;
            if least < most && middle < most {
                if self.fits(middle, LARGE_ROWS)? {
                    most = middle;
                } else {
                    least = middle.saturating_add(1);
                }
            }
        }
        Ok(most)
    }

    /// The least number of rows in which it fits these columns, after these words, if any do.
    fn rows_for(&self, columns: u16, words: &'static str) -> Result<Need, AllocError> {
        for pixels in 1..=LARGE_ROWS {
            if self.fits(columns, pixels)? {
                return Ok(Need { words, pixels });
            }
        }
        Ok(Need {
            words: "more than ",
            pixels: LARGE_ROWS,
        })
    }

    /// The columns that it needs, if the large sign judges it so, after these words.
    fn columns_for(&self, fit: Fit, words: &'static str) -> Result<Need, AllocError> {
        if fit != Fit::Takes {
            return Ok(Need {
                words: "more than ",
                pixels: LARGE_COLUMNS,
            });
        }
        let pixels = self.least_columns()?;
        Ok(Need { words, pixels })
    }

    /// The columns that its line needs, with what follows on the line unless another reason than its size refuses that.
    fn columns(&self, part: Part, group: u8) -> Result<Need, AllocError> {
        if let Some(end) = part.end(self.large, self.message, self.end, group) {
            let line = Trial { end, ..*self };
            let fit = line.judge(LARGE_COLUMNS, LARGE_ROWS)?;
            if fit != Fit::Refuses {
                return line.columns_for(fit, "");
            }
        }
        self.columns_for(self.judge(LARGE_COLUMNS, LARGE_ROWS)?, "at least ")
    }

    /// The rows that its area needs, with what follows in the area if that fits these columns.
    fn rows(&self, columns: u16) -> Result<Need, AllocError> {
        if let Some(end) = Part::Area.end(self.large, self.message, self.end, 0) {
            let area = Trial { end, ..*self };
            if area.fits(columns, LARGE_ROWS)? {
                return area.rows_for(columns, "");
            }
        }
        self.rows_for(columns, "at least ")
    }

    /// What the line or the area lacks whose last item, at an offset, is too big.
    pub(crate) fn lack(&self, standing: &Standing, at: usize) -> Result<Lack, AllocError> {
        let columns = standing.width.min(u32::from(LARGE_COLUMNS)) as u16;
        let is_filled = self.large.line_fill() == LineFill::Words;
        let from = standing.line_of(at, is_filled);
        let line = Trial { from, ..*self };
        if line.fits(columns, LARGE_ROWS)? {
            return Ok(Lack::Area(self.rows(columns)?));
        }
        let part = if is_filled { Part::Word } else { Part::Line };
        Ok(Lack::Line(line.columns(part, standing.page_just)?))
    }
}
