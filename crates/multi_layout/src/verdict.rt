//! The verdict on a string, in one reading from the left with running sums.

ghost use Rattle.std.specs.Prelude.{◌≡◌, ℕ, ◌+◌, ◌^◌, ◌<◌, ◌≤◌, [], length, IfOk, IfErr, OnOk, OnErr, None};
ghost use Rattle.multi_layout.specs.Finding.{finding_steps};
ghost use Rattle.multi_layout.specs.Prelude.{default_fault, under, FontData, SignData, judging_steps, code_of, Accepted, IsVerdict, Refused, check_limit, reading_limit, IsSized, ShowsAt, TakesFew, IsRefused, IsTold, IsAt, IsPassOf};

use crate::bracket::is_bracket;
use crate::checked::{Checked, Told};
use crate::judge::judge_bracketed;
use crate::pages::draw_told;
use crate::read::AreaLines;
use multi_judge::{Pass, State, Terms, judge_run};
use multi_meaning::{Shown, SyntaxError};
use multi_token::Source;
use page_plane::Plane;
use sign_font::{Defaults, LineFill, Sign};
use std::marker::Model;

/// The first error of a string, and the offset of its item (NTCIP 1203 v03, dmsMultiSyntaxError and dmsMultiSyntaxErrorPosition).
#[derive(Clone, Copy, Debug, PartialEq, Eq)]
pub struct Offence {
    pub error: SyntaxError,
    pub at: usize,
}

/// A refused string: the number of its first error (NTCIP 1203 v03, dmsMultiSyntaxError), the offset of the
/// first octet of the item that offends (dmsMultiSyntaxErrorPosition), and the source that was handed in.
#[derive(Drop)]
pub struct Fault<'a> {
    pub code: u8,
    pub at: usize,
    pub source: Source<'a>,
}

/// Whether a sign accepts a string by the sign's own defaults. Everything else is as [`check_with`] says.
#[inline(always)]
pub fn check<'a>(sign: &'a Sign, source: Source<'a>) -> Result<Checked<'a>, Fault<'a>>
    requires fresh { source.steps ≡ 0 }
    requires short { length source.octets < 2 ^ 32 }
    ensures accepted { IfOk result (λ checked. (pages : ℕ) × IsVerdict sign.now source.entry.octets (Accepted pages)) }
    ensures refused { IfErr result (λ fault. IsVerdict sign.now source.entry.octets (Refused fault.code fault.at)) }
    ensures before_end { IfErr result (λ fault. fault.at < length source.entry.octets) }
    ensures kept { IfOk result (λ checked. (checked.sign ≡ sign.now) × (checked.source.octets ≡ source.entry.octets)) }
    ensures given_back { IfErr result (λ fault. fault.source.octets ≡ source.entry.octets) }
    ensures steps { IfOk result (λ checked. checked.source.steps ≡ judging_steps sign.now source.entry.octets) }
    ensures fault_steps { IfErr result (λ fault. fault.source.steps ≡ judging_steps sign.now source.entry.octets) }
{
    check_with(sign, sign.defaults(), source)
}

/// Whether a sign accepts a string by these defaults, which the sign must not refuse. The items are judged from the left,
/// and the first one that offends gives the error and its offset.
///
/// An absent value means these defaults, here and in every call of the [`Checked`].
///
/// The source must have no steps yet and at most 4,294,967,295 octets. Both answers give it back, with what judging takes as its count: for
/// n octets at most 9n + 1, and at least n + 1 if the string is accepted, or one more than the offset of the error if it is refused
/// ([`multi_meaning::judging_is_linear`]).
#[inline(always)]
pub fn check_with<'a>(
    sign: &'a Sign,
    defaults: Defaults,
    source: Source<'a>,
) -> Result<Checked<'a>, Fault<'a>>
    requires taken { default_fault sign.now defaults ≡ None }
    requires fresh { source.steps ≡ 0 }
    requires short { length source.octets < 2 ^ 32 }
    ensures accepted { IfOk result (λ checked. (pages : ℕ) × IsVerdict (under sign.now defaults) source.entry.octets (Accepted pages)) }
    ensures refused { IfErr result (λ fault. IsVerdict (under sign.now defaults) source.entry.octets (Refused fault.code fault.at)) }
    ensures before_end { IfErr result (λ fault. fault.at < length source.entry.octets) }
    ensures kept { IfOk result (λ checked. (checked.sign ≡ under sign.now defaults) × (checked.source.octets ≡ source.entry.octets)) }
    ensures given_back { IfErr result (λ fault. fault.source.octets ≡ source.entry.octets) }
    ensures steps { IfOk result (λ checked. checked.source.steps ≡ judging_steps (under sign.now defaults) source.entry.octets) }
    ensures fault_steps { IfErr result (λ fault. fault.source.steps ≡ judging_steps (under sign.now defaults) source.entry.octets) }
{
    let terms = Terms::new(sign, defaults);
    let mut source = source;
    match judge_string(&terms, &mut source) {
        Ok(told) => Ok(Checked {
            told,
            terms,
            source,
        }),
        Err(Offence { error, at }) => {
            let code = error.code();
            Err(Fault { code, at, source })
        }
    }
}

/// Gives the verdicts of a sign on strings, one after the other, by the sign's own defaults (own).
#[derive(Drop)]
pub struct Judge<'a> {
    terms: Terms<'a>,
}

impl<'a> Model for Judge<'a> {
    ghost Value = { SignData };

    ghost view = { λ j. j.terms };
}

impl<'a> Judge<'a> {
    /// What all verdicts of a sign need is looked up once.
    pub fn new(sign: &'a Sign) -> Judge<'a>
        ensures { result ≡ sign.now }
    {
        Judge::with(sign, sign.defaults())
    }

    /// The same by these defaults, which the sign must not refuse.
    pub fn with(sign: &'a Sign, defaults: Defaults) -> Judge<'a>
        requires taken { default_fault sign.now defaults ≡ None }
        ensures { result ≡ under sign.now defaults }
    {
        let terms = Terms::new(sign, defaults);
        Judge { terms }
    }

    /// The number of pages of a string that the sign accepts; else the first error. Verdict and steps are those of [`check`].
    #[inline(always)]
    pub fn pages(&self, source: &mut Source<'_>) -> Result<u8, Offence>
        requires fresh { source.old.steps ≡ 0 }
        requires short { length source.old.octets < 2 ^ 32 }
        ensures accepted { IfOk result (λ pages. IsVerdict self.now source.old.octets (Accepted pages)) }
        ensures refused { IfErr result (λ offence. IsVerdict self.now source.old.octets (Refused (code_of offence.error) offence.at)) }
        ensures before_end { IfErr result (λ offence. offence.at < length source.old.octets) }
        ensures kept { source.new.octets ≡ source.old.octets }
        ensures steps { source.new.steps ≡ judging_steps self.now source.old.octets }
    {
        Ok(judge_string(&self.terms, source)?.pages)
    }

    /// Draws what a string that the sign accepts shows at a clock, and tells it; else the first error, and the plane stays. It is judged
    /// as by [`check`], and drawn as by [`crate::Checked::draw_shown`], of which this takes the steps.
    pub fn draw_shown(
        &self,
        source: &mut Source<'_>,
        clock: u64,
        colour: u8,
        lines: &mut AreaLines,
        plane: &mut Plane,
    ) -> Result<Shown, Offence>
        requires fresh { source.old.steps ≡ 0 }
        requires short { length source.old.octets < 2 ^ 32 }
        requires size { IsSized plane.old self.now }
        ensures accepted { OnOk result ((pages : ℕ) × IsVerdict self.now source.old.octets (Accepted pages)) }
        ensures shown { IfOk result (ShowsAt self.now source.old.octets clock colour plane.new) }
        ensures refused { IfErr result (λ offence. IsVerdict self.now source.old.octets (Refused (code_of offence.error) offence.at)) }
        ensures undrawn { OnErr result (plane.new ≡ plane.old) }
        ensures size { IsSized plane.new self.now }
        ensures kept { source.new.octets ≡ source.old.octets }
        ensures least { OnOk result (judging_steps self.now source.old.octets + finding_steps self.now source.old.octets clock
            ≤ source.new.steps) }
        ensures most { source.new.steps ≤ judging_steps self.now source.old.octets
            + check_limit (length source.old.octets) + reading_limit (length source.old.octets) }
        ensures fault_steps { OnErr result (source.new.steps ≡ judging_steps self.now source.old.octets) }
        ensures plane_steps { TakesFew self.now (length source.old.octets) plane.old plane.new }
    {
        let told = judge_string(&self.terms, source)?;
        let sign = &self.terms;
        Ok(draw_told(sign, source, told, clock, colour, lines, plane))
    }
}

/// Judges the items of a string from the left, up to the first that offends.
#[inline(always)]
fn judge_string(sign: &Terms<'_>, source: &mut Source<'_>) -> Result<Told, Offence>
    requires fresh { source.old.steps ≡ 0 }
    requires short { length source.old.octets < 2 ^ 32 }
    ensures told { IfOk result (λ told. IsTold sign.now source.old.octets told.pages told.cycle source.new) }
    ensures refused { IfErr result (λ offence. IsRefused sign.now source.old.octets offence source.new) }
{
    let mut pass = Pass::new(State::new(sign));
    match sign.bare.line_fill() {
        LineFill::Off => judge_items::<false>(sign, &mut pass, source)?,
        LineFill::Words => judge_items::<true>(sign, &mut pass, source)?,
    }
    let (pages, cycle) = (pass.state.pages, pass.state.whole_cycle());
    Ok(Told { pages, cycle })
}

/// Judges the items of a string from the first on: an item that begins with a bracket, or a character and those after it that only
/// lengthen its line. The pass stays where its caller has it, since in registers there are too few places for it.
#[inline(never)]
fn judge_items<'a, const WORDS: bool>(
    sign: &Terms<'a>,
    pass: &mut Pass,
    source: &mut Source<'_>,
) -> Result<(), Offence>
    requires start { IsPassOf WORDS sign.now pass.old [] }
    requires font { pass.old.state.attributes.font.number ≡ sign.now.defaults.font }
    requires fresh { source.old.steps ≡ 0 }
    requires short { length source.old.octets < 2 ^ 32 }
    ensures ended { OnOk result ((at : ℕ) × (font : FontData)
        × IsAt sign.now source.old.octets at font None (IsPassOf WORDS sign.now pass.new) source.new) }
    ensures refused { IfErr result (λ offence. IsRefused sign.now source.old.octets offence source.new) }
{
    let mut cells = sign.cells.same();
    let mut at = 0;
    let mut next = source.look(at, cells.advances());
    while let Some(entry) = next {
        if is_bracket(entry.octet) {
            match judge_bracketed::<WORDS>(sign, pass, &mut cells, source, at, entry.octet) {
                Ok(len) => at += len,
                Err(error) => return Err(Offence { error, at }),
            }
            next = source.look(at, cells.advances());
        } else {
            if let Err(error) = pass.judge_octet::<WORDS>(&cells, entry) {
                return Err(Offence { error, at });
            }
            (at, next) = judge_run::<WORDS>(sign, &cells, pass, source, at + 1);
        }
    }
    Ok(())
}
