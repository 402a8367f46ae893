//! The words on a sign file.

ghost use Rattle.std.specs.Prelude.{◌≡◌, ◌++◌, ◌∷◌, [], List, ℕ, IfOk, OnOk, string_bytes};
ghost use Rattle.sign_words.specs.Told.{AreTold, IsDescribed, IsListed, IsTold, head_of, line_head, mark_of, more_of, more_told, sign_of, spot_head, word_of};

use crate::describe::{Setup, description, push_size};
use crate::facts::{Facts, json_of};
use crate::findings::{Finding, Findings, push_told};
use crate::part::{Part, tell};
use crate::picture::draw_font;
use crate::refusal::PermanentRefusal;
use crate::told::{push_count, push_text};
use std::alloc::{AllocError, Global};

/// How a sign file is told of (own).
#[derive(Clone, Copy)]
pub enum SignView<'a> {
    /// What it describes.
    Description,
    /// The characters of one of its fonts.
    Font(u8),
    /// Its facts and all that was found, in JSON, with the cells of the font of this number.
    Json(Option<u8>),
    /// What was found, in lines as editors read them, which begin with this name of the file.
    Lines(&'a str),
}

/// What is told of a sign file (own): each fault, each permanent message that the sign refuses, each warning, and what the file
/// describes, or all of it in JSON.
#[derive(Clone, Copy)]
pub struct SignWords<'a> {
    /// Where memory comes from.
    pub alloc: Global,
    /// How the file is told of.
    pub view: SignView<'a>,
    /// What was found in it.
    pub found: &'a Findings,
    /// What it sets up, or `None` if it isn't taken.
    pub setup: Option<&'a Setup>,
    /// The permanent messages that the sign refuses.
    pub refusals: &'a [PermanentRefusal],
    /// Why each of them is refused: lines.
    pub explanations: &'a [String],
}

/// What a finding is.
#[derive(Clone, Copy)]
enum Rank {
    /// Why the file isn't taken, or a permanent message isn't.
    Fault,
    /// What its maker may not have meant.
    Warning,
}

impl Rank {
    /// What stands before the words for people.
    fn word(self) -> &'static str
        ensures { result.now ≡ word_of self }
    {
        match self {
            Rank::Fault => "",
            Rank::Warning => "warning: ",
        }
    }

    /// What stands before the words for editors.
    fn mark(self) -> &'static str
        ensures { result.now ≡ mark_of self }
    {
        match self {
            Rank::Fault => "error",
            Rank::Warning => "warning",
        }
    }

    /// How the words end that say that there are more.
    fn more(self) -> &'static str
        ensures { result.now ≡ more_of self }
    {
        match self {
            Rank::Fault => " more faults\n",
            Rank::Warning => " more warnings\n",
        }
    }
}

/// Appends what stands before the words on a finding in the words for people.
fn push_line(text: &mut String, rank: Rank, finding: &Finding) -> Result<(), AllocError>
    ensures { OnOk result (string_bytes text.new ≡ string_bytes text.old ++ line_head rank finding.now) }
{
    push_text(text, rank.word())?;
    push_text(text, "line ")?;
    push_count(text, finding.line)?;
    push_text(text, ": ")
}

/// Appends what stands before the words on a finding in the lines for editors.
fn push_spot(text: &mut String, name: &str, rank: Rank, finding: &Finding) -> Result<(), AllocError>
    ensures { OnOk result (string_bytes text.new ≡ string_bytes text.old ++ spot_head name.now rank finding.now) }
{
    push_text(text, name)?;
    push_text(text, ":")?;
    push_count(text, finding.line)?;
    push_text(text, ":")?;
    push_count(text, finding.column)?;
    push_text(text, ": ")?;
    push_text(text, rank.mark())?;
    push_text(text, ": ")
}

/// Appends the first and the last line of a text.
fn push_ends(text: &mut String, lines: &str) -> Result<(), AllocError> {
    match lines.split_once('\n') {
        Some((first, rest)) => {
            text.push_str(first)?;
            let last = rest.rsplit_once('\n').unwrap_or(("", rest)).1;
            tell(text, ": @", &[Part::Words(last)])
        }
        None => text.push_str(lines),
    }
}

impl SignWords<'_> {
    /// What is told of a finding: for editors its first and its last line.
    fn told(&self, finding: &Finding) -> Result<String, AllocError> {
        let mut told = String::new(self.alloc);
        push_told(&mut told, finding)?;
        let SignView::Lines(_) = self.view else {
            return Ok(told);
        };
        let mut ends = String::new(self.alloc);
        push_ends(&mut ends, &told)?;
        Ok(ends)
    }

    /// Appends what stands before the words on a finding.
    fn push_head(&self, text: &mut String, rank: Rank, finding: &Finding) -> Result<(), AllocError>
        ensures { OnOk result (string_bytes text.new ≡ string_bytes text.old ++ head_of self.now.view rank finding.now) }
    {
        match self.view {
            SignView::Lines(name) => push_spot(text, name, rank, finding),
            _ => push_line(text, rank, finding),
        }
    }

    /// Appends a finding.
    fn push_finding(
        &self,
        text: &mut String,
        rank: Rank,
        finding: &Finding,
    ) -> Result<(), AllocError>
        ensures { OnOk result ((words : List ℕ)
            × (string_bytes text.new ≡ string_bytes text.old ++ (head_of self.now.view rank finding.now ++ words ++ 10 ∷ []))) }
    {
        let told = self.told(finding)?;
        self.push_head(text, rank, finding)?;
        push_text(text, &told)?;
        push_text(text, "\n")
    }

    /// Appends findings.
    fn push_each(
        &self,
        text: &mut String,
        rank: Rank,
        findings: &[Finding],
    ) -> Result<(), AllocError>
        ensures { OnOk result ((told : List ℕ) × AreTold self.now.view rank findings.now told
            × (string_bytes text.new ≡ string_bytes text.old ++ told)) }
    {
        for finding in findings {
            self.push_finding(text, rank, finding)?;
        }
        Ok(())
    }

    /// Appends how many more findings there are, for people.
    fn push_more(&self, text: &mut String, rank: Rank, more: usize) -> Result<(), AllocError>
        ensures { OnOk result (string_bytes text.new ≡ string_bytes text.old ++ more_told self.now.view rank more) }
    {
        if let SignView::Lines(_) = self.view {
            return Ok(());
        }
        if more == 0 {
            return Ok(());
        }
        push_text(text, rank.word())?;
        push_text(text, "and ")?;
        push_count(text, more)?;
        push_text(text, rank.more())
    }

    /// What a sign file describes, for people who ask for it.
    fn described(&self) -> Result<String, AllocError>
        ensures { IfOk result (λ text. IsDescribed self.now.view (sign_of self.now.setup) (string_bytes text)) }
    {
        let mut text = String::new(self.alloc);
        match (self.setup, self.view) {
            (Some(setup), SignView::Font(font)) => draw_font(&mut text, &setup.sign, font)?,
            (Some(setup), SignView::Description) => {
                let rest = description(self.alloc, setup)?;
                push_size(&mut text, &setup.sign)?;
                push_text(&mut text, &rest)?;
            }
            _ => {}
        }
        Ok(text)
    }

    /// What was found, and what the file describes.
    fn listed(&self) -> Result<String, AllocError>
        ensures { IfOk result (λ text. IsListed self.now.view (sign_of self.now.setup) self.now.found.now (string_bytes text)) }
    {
        let found = self.found;
        let described = self.described()?;
        let mut text = String::new(self.alloc);
        self.push_each(&mut text, Rank::Fault, &found.faults)?;
        self.push_more(&mut text, Rank::Fault, found.more_faults)?;
        self.push_each(&mut text, Rank::Fault, &found.refusals)?;
        self.push_each(&mut text, Rank::Warning, &found.warnings)?;
        self.push_more(&mut text, Rank::Warning, found.more_warnings)?;
        push_text(&mut text, &described)?;
        Ok(text)
    }

    /// The text. The error says that memory was refused.
    pub fn text(&self) -> Result<String, AllocError>
        ensures { IfOk result (λ text. IsTold self.now.view (sign_of self.now.setup) self.now.found.now (string_bytes text)) }
    {
        let SignView::Json(font) = self.view else {
            return self.listed();
        };
        let facts = Facts {
            alloc: self.alloc,
            found: self.found,
            refusals: self.refusals,
            explanations: self.explanations,
            font,
        };
        json_of(&facts, self.setup)
    }
}
