//! What holds of the definitions.

ghost use Rattle.multi_meaning.specs.FillLaw.{KeepsBreaks, SmallerFits};
ghost use Rattle.multi_meaning.specs.Steps.{JudgingIsLinear};
ghost use Rattle.multi_meaning.specs.Verdict.{BrokenBracketStands, ItemRefusalStands, OneVerdict, RefusalStands};

/// A law of the definitions: every string has exactly one verdict.
pub fn one_verdict()
    ensures { OneVerdict }
{}

/// A law of the definitions: a refused string stays refused, with the same error at the same position, whatever is appended to
/// it. The only exception is a string that ends in an open bracket and is refused for it: what is appended may mend that.
#[tactic(auto, using(crate::proofs::VerdictLemmas::refusal_stands))]
pub fn refusal_stands()
    ensures { RefusalStands }
{}

/// A law of the definitions: if a string is refused for an item, so is every string with the same octets up to the end of that item, with
/// the same error at the same position.
#[tactic(auto, using(crate::proofs::ItemRefusalLemmas::item_refusal_stands))]
pub fn item_refusal_stands()
    ensures { ItemRefusalStands }
{}

/// A law of the definitions: if a string is refused for a bracket that stays broken, so is every string with the same octets up
/// to where nothing can mend it any more.
#[tactic(auto, using(crate::proofs::VerdictLemmas::broken_bracket_stands))]
pub fn broken_bracket_stands()
    ensures { BrokenBracketStands }
{}

/// A law of the definitions: what fits still fits when its parts shrink.
#[tactic(auto, using(crate::proofs::GroupLemmas::smaller_fits))]
pub fn smaller_fits()
    ensures { SmallerFits }
{}

/// A law of the definitions: one more item, whatever it is, leaves all items before it laid out as they were, and with them
/// every break of filling. At most one space more ends its line: one on the line of the new item, or the new item itself. The
/// only premise is that no item before it offends.
#[tactic(auto, using(crate::proofs::FillLawLemmas::keeps_breaks))]
pub fn keeps_breaks()
    ensures { KeepsBreaks }
{}

/// A law of the definitions: judging a string of n octets takes at most 9n + 1 steps. It takes at least n + 1 if the string is accepted,
/// and at least one more than the offset of the error if it is refused.
#[tactic(auto, using(crate::proofs::StepsLemmas::judging_is_linear))]
pub fn judging_is_linear()
    ensures { JudgingIsLinear }
{}
