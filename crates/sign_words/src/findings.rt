//! What is found in a sign file.

ghost use Rattle.std.specs.Prelude.{◌≡◌, []};

use crate::address::Address;
use crate::code::Code;
use crate::part::{Part, tell};
use crate::place::{Place, before_key, push_place};
use crate::strings::line_start;
use std::alloc::{AllocError, Global};

/// How many faults are told, and how many warnings (own).
const MOST: usize = 50;

/// Where a finding stands in the text.
#[derive(Clone, Copy)]
pub(crate) enum Spot {
    /// At its key, which is looked for.
    Key,
    /// At the head of its table, which is looked for.
    Table,
    /// At this octet, counted from 0.
    At(usize),
}

/// Something that is found in a sign file (own).
#[derive(Drop)]
pub struct Finding {
    pub(crate) code: Code,
    pub(crate) place: Place,
    /// The key, or nothing if it is of a whole line or of the text.
    pub(crate) key: String,
    pub(crate) sentence: String,
    pub(crate) spot: Spot,
    /// The line, counted from 1.
    pub(crate) line: usize,
    /// The octet in its line, counted from 1.
    pub(crate) column: usize,
}

/// Appends where a finding stands in the file, and what it is.
pub(crate) fn push_told(text: &mut String, finding: &Finding) -> Result<(), AllocError> {
    push_place(text, finding.place)?;
    if !finding.key.is_empty() {
        text.push_str(before_key(finding.place))?;
        tell(text, "@: ", &[Part::Excerpt(&finding.key)])?;
    }
    text.push_str(&finding.sentence)
}

/// Numbers the line and the octet of a finding. What isn't found in the text stands at its front.
fn number(finding: &mut Finding, octets: &[u8]) {
    let at = match finding.spot {
        Spot::At(at) => at.min(octets.len()),
        Spot::Key | Spot::Table => 0,
    };
    let start = line_start(octets, at);
    let before = octets.get(..start).unwrap_or(octets);
    let lines = before.iter().filter(|octet| **octet == b'\n').count();
    finding.line = lines.saturating_add(1);
    finding.column = at.saturating_sub(start).saturating_add(1);
}

/// Whether a finding is looked for at this key of this table, or at the head of the table if no key is named.
fn is_here(finding: &Finding, table: Address, key: Option<&[u8]>) -> bool {
    if !finding.place.address().is(table) {
        return false;
    }
    match (finding.spot, key) {
        (Spot::Key, Some(key)) => finding.key.as_bytes() == key,
        (Spot::Table, None) => true,
        _ => false,
    }
}

/// How many of these are looked for.
fn sought_of(findings: &[Finding]) -> usize {
    findings
        .iter()
        .filter(|finding| !matches!(finding.spot, Spot::At(_)))
        .count()
}

/// Places those of these that are looked for here, and says how many they are.
fn place_here(findings: &mut [Finding], table: Address, key: Option<&[u8]>, at: usize) -> usize {
    let mut count: usize = 0;
    for finding in findings.iter_mut() {
        if is_here(finding, table, key) {
            finding.spot = Spot::At(at);
            count = count.saturating_add(1);
        }
    }
    count
}

/// Looks for those of these at the heads of their tables whose keys weren't found, and says whether there are any.
fn leave_keys(findings: &mut [Finding]) -> bool {
    let mut are_left = false;
    for finding in findings.iter_mut() {
        if let Spot::Key = finding.spot {
            finding.spot = Spot::Table;
            are_left = true;
        }
    }
    are_left
}

/// Numbers the lines of these.
fn number_each(findings: &mut [Finding], octets: &[u8]) {
    for finding in findings.iter_mut() {
        number(finding, octets);
    }
}

/// What is found in a sign file (own).
#[derive(Drop)]
pub struct Findings {
    pub(crate) alloc: Global,
    /// Why the file isn't taken, as far as that was found: the first 50.
    pub faults: Vec<Finding>,
    /// How many more there are.
    pub(crate) more_faults: usize,
    /// What its maker may not have meant: the first 50.
    pub warnings: Vec<Finding>,
    /// How many more there are.
    pub(crate) more_warnings: usize,
    /// The permanent messages that the sign refuses.
    pub(crate) refusals: Vec<Finding>,
    /// How many of all these are looked for in the text.
    pub(crate) sought: usize,
}

impl Findings {
    /// Nothing.
    pub fn new(alloc: Global) -> Findings {
        Findings {
            alloc,
            faults: Vec::new(alloc),
            more_faults: 0,
            warnings: Vec::new(alloc),
            more_warnings: 0,
            refusals: Vec::new(alloc),
            sought: 0,
        }
    }

    /// Takes back each fault.
    pub fn clear_faults(&mut self)
        ensures { self.new.faults.items ≡ [] }
    {
        self.faults.clear();
        self.more_faults = 0;
    }

    /// What is told of a key: a sentence, and what stands at its marks.
    pub(crate) fn finding(
        &self,
        code: Code,
        place: Place,
        key: &str,
        sentence: &str,
        parts: &[Part<'_>],
    ) -> Result<Finding, AllocError> {
        let mut words = String::new(self.alloc);
        tell(&mut words, sentence, parts)?;
        let key = String::from_str(self.alloc, key)?;
        Ok(Finding {
            code,
            place,
            key,
            sentence: words,
            spot: match code {
                Code::Missing => Spot::Table,
                _ => Spot::Key,
            },
            line: 1,
            column: 1,
        })
    }

    /// What is told of the text itself, at one of its octets.
    pub(crate) fn at_octet(
        &self,
        code: Code,
        octets: &[u8],
        at: usize,
        sentence: &str,
        parts: &[Part<'_>],
    ) -> Result<Finding, AllocError> {
        let mut finding = self.finding(code, Place::Text, "", sentence, parts)?;
        finding.spot = Spot::At(at);
        number(&mut finding, octets);
        Ok(finding)
    }

    /// Tells a fault of a line, whose first octet is this one, or counts it if enough are told.
    pub(crate) fn fault_of_line(
        &mut self,
        code: Code,
        octets: &[u8],
        at: usize,
        sentence: &str,
    ) -> Result<(), AllocError> {
        if self.faults.len() >= MOST {
            self.more_faults = self.more_faults.saturating_add(1);
            return Ok(());
        }
        let finding = self.at_octet(code, octets, at, sentence, &[])?;
        self.faults.push(finding)?;
        Ok(())
    }

    /// Tells a fault of a key, or counts it if enough are told.
    pub(crate) fn fault(
        &mut self,
        code: Code,
        place: Place,
        key: &str,
        sentence: &str,
        parts: &[Part<'_>],
    ) -> Result<(), AllocError> {
        if self.faults.len() >= MOST {
            self.more_faults = self.more_faults.saturating_add(1);
            return Ok(());
        }
        let finding = self.finding(code, place, key, sentence, parts)?;
        self.faults.push(finding)?;
        Ok(())
    }

    /// Tells what is no fault, or counts it if enough are told.
    pub(crate) fn warn(
        &mut self,
        code: Code,
        place: Place,
        key: &str,
        sentence: &str,
        parts: &[Part<'_>],
    ) -> Result<(), AllocError> {
        if self.warnings.len() >= MOST {
            self.more_warnings = self.more_warnings.saturating_add(1);
            return Ok(());
        }
        let finding = self.finding(code, place, key, sentence, parts)?;
        self.warnings.push(finding)?;
        Ok(())
    }

    /// Places what is looked for at this key of this table, or at the head of the table if no key is named.
    pub(crate) fn place(&mut self, table: Address, key: Option<&[u8]>, at: usize) {
        if self.sought == 0 {
            return;
        }
        let faults = place_here(&mut self.faults, table, key, at);
        let warnings = place_here(&mut self.warnings, table, key, at);
        let refusals = place_here(&mut self.refusals, table, key, at);
        let placed = faults.saturating_add(warnings).saturating_add(refusals);
        self.sought = self.sought.saturating_sub(placed);
    }

    /// Counts those that are looked for.
    pub(crate) fn count_sought(&mut self) {
        let faults = sought_of(&self.faults);
        let warnings = sought_of(&self.warnings);
        let refusals = sought_of(&self.refusals);
        self.sought = faults.saturating_add(warnings).saturating_add(refusals);
    }

    /// Looks at the heads of tables for those whose keys weren't found, and says whether there are any.
    pub(crate) fn leave_keys(&mut self) -> bool {
        let of_faults = leave_keys(&mut self.faults);
        let of_warnings = leave_keys(&mut self.warnings);
        let of_refusals = leave_keys(&mut self.refusals);
        of_faults || of_warnings || of_refusals
    }

    /// Numbers the lines of all.
    pub(crate) fn number(&mut self, octets: &[u8]) {
        number_each(&mut self.faults, octets);
        number_each(&mut self.warnings, octets);
        number_each(&mut self.refusals, octets);
    }
}
