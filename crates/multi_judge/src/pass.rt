//! One pass over a string from the left: what is kept of its items, and how each of them is judged.

ghost use Rattle.std.specs.Prelude.{◌≡◌, ◌+◌, ◌^◌, false, true, List, [], OnOk};
ghost use Rattle.multi_judge.specs.Prelude.{charged, entry_in, looks, is_bracket, Words, SignData, AreWidthsOf, InEachSign, laid_items, Meaning, Shows, present_area, IsFilledOf, IsFilledReady, IsFilledRun, line_in_force, Does, IsOctet, meant_by, IsPassBehind, IsPassReady, JudgesCell, JudgesItem, PutsCell, IsStateOf};

use crate::fill::Split;
use crate::item::KnownItem;
use crate::judge::judge_tag;
use crate::line::Line;
use crate::state::State;
use crate::terms::Terms;
use multi_meaning::SyntaxError;
use multi_tag::Tag;
use multi_token::{Entry, Source};
use sign_font::FontCells;

/// What is kept after some items of a string.
///
/// Its calls take as `WORDS` whether lines are filled. Only where they are does it keep more than the state.
#[derive(Clone, Copy)]
pub struct Pass {
    /// That of the items as they are laid out, where a dropped space is the end of its line.
    pub state: State,
    /// The parts of the present line around its last space.
    pub(crate) split: Option<Split>,
    /// The largest line justification of the present group's characters since the last `nl`, dropped spaces too; 0 where there is none.
    pub(crate) order: u8,
}

impl Pass {
    /// What is kept where an area begins, from the state there.
    pub fn new(state: State) -> Pass
        ensures state { result.state ≡ state }
        ensures filled { (sign : SignData) (items : List Meaning) → IsStateOf sign (laid_items Words sign items items) state
            → present_area sign items ≡ [] → IsFilledOf sign items result }
    {
        Pass {
            state,
            split: None,
            order: 0,
        }
    }

    /// Judges an item, and tells the line that it ended, if it did: before a soft break, or by an `nl`.
    #[inline(always)]
    pub fn judge_item<'a, const WORDS: bool>(
        &mut self,
        sign: &Terms<'a>,
        cells: &mut FontCells<'a>,
        source: &mut Source<'_>,
        item: KnownItem,
    ) -> Result<Option<Line>, SyntaxError>
        requires ready { IsPassReady WORDS self.old }
        ensures judged { JudgesItem WORDS sign.now self.old (meant_by item) result self.new }
        ensures behind { IsOctet item → OnOk result (IsPassBehind WORDS self.new) }
        ensures cells { AreWidthsOf sign.now self.old.state.attributes.font.number cells.old
            → OnOk result (AreWidthsOf sign.now self.new.state.attributes.font.number cells.new) }
        ensures steps { source.new ≡ charged source.old (looks (meant_by item)) }
    {
        match item {
            KnownItem::Char(number) => {
                let font = self.state.attributes.font.number;
                match sign.bare.cell_width(source, font, number) {
                    Some(width) => self.judge_cell::<WORDS>(number, width),
                    None => Err(SyntaxError::CharacterNotDefined),
                }
            }
            KnownItem::Tag(tag) => self.pass_tag::<WORDS>(sign, cells, source, tag),
        }
    }

    /// Judges what a tag says, as [`Pass::judge_item`] does.
    #[inline(always)]
    pub fn pass_tag<'a, const WORDS: bool>(
        &mut self,
        sign: &Terms<'a>,
        cells: &mut FontCells<'a>,
        source: &mut Source<'_>,
        tag: Tag,
    ) -> Result<Option<Line>, SyntaxError>
        requires ready { IsPassReady WORDS self.old }
        ensures judged { JudgesItem WORDS sign.now self.old (Does tag) result self.new }
        ensures cells { AreWidthsOf sign.now self.old.state.attributes.font.number cells.old
            → OnOk result (AreWidthsOf sign.now self.new.state.attributes.font.number cells.new) }
        ensures steps { source.new ≡ charged source.old (looks (Does tag)) }
    {
        let here = self.state.attributes.page_just;
        let ended = match tag {
            Tag::NewLine(_) => Some(self.state.area.group_for(here).line),
            _ => None,
        };
        judge_tag(sign, &mut self.state, cells, source, tag)?;
        if WORDS && matches!(tag, Tag::NewPage | Tag::NewLine(_) | Tag::Rect { .. }) {
            self.split = None;
            self.order = 0;
        }
        Ok(ended)
    }

    /// Judges a character by its number, as [`Pass::judge_item`] does. It isn't put into its callers' code, since tags that show a
    /// character are few.
    #[inline(never)]
    pub fn judge_number<'a, const WORDS: bool>(
        &mut self,
        sign: &Terms<'a>,
        cells: &mut FontCells<'a>,
        source: &mut Source<'_>,
        number: u16,
    ) -> Result<Option<Line>, SyntaxError>
        requires ready { IsPassReady WORDS self.old }
        ensures judged { JudgesItem WORDS sign.now self.old (Shows number) result self.new }
        ensures cells { AreWidthsOf sign.now self.old.state.attributes.font.number cells.old
            → OnOk result (AreWidthsOf sign.now self.new.state.attributes.font.number cells.new) }
        ensures steps { source.new ≡ charged source.old (looks (Shows number)) }
    {
        self.judge_item::<WORDS>(sign, cells, source, KnownItem::Char(number))
    }

    /// Judges an octet that is no bracket as a character of the font in force, by what its table has for the octet.
    #[inline(always)]
    pub fn judge_octet<const WORDS: bool>(
        &mut self,
        cells: &FontCells<'_>,
        entry: Entry,
    ) -> Result<Option<Line>, SyntaxError>
        requires ready { IsPassReady WORDS self.old }
        requires known { entry ≡ entry_in cells.now entry.octet }
        requires plain { is_bracket entry.octet ≡ false }
        ensures judged { InEachSign cells.now self.old.state.attributes.font.number (λ sign.
            JudgesItem WORDS sign self.old (Shows entry.octet) result self.new) }
        ensures behind { OnOk result (IsPassBehind WORDS self.new) }
        ensures same { OnOk result (self.new.state.attributes ≡ self.old.state.attributes) }
    {
        match cells.width_of(entry) {
            Some(width) => self.judge_cell::<WORDS>(u16::from(entry.octet), width),
            None => Err(SyntaxError::CharacterNotDefined),
        }
    }

    /// Judges a character whose cell has this width in pixels.
    #[inline(always)]
    fn judge_cell<const WORDS: bool>(
        &mut self,
        number: u16,
        width: u8,
    ) -> Result<Option<Line>, SyntaxError>
        requires ready { IsPassReady WORDS self.old }
        ensures judged { JudgesCell WORDS self.old number width result self.new }
        ensures behind { OnOk result (IsPassBehind WORDS self.new) }
        ensures same { OnOk result (self.new.state.attributes ≡ self.old.state.attributes) }
    {
        let ended = if WORDS {
            self.fill_cell(number, width)?
        } else if self.state.put_character(width) {
            None
        } else {
            return Err(SyntaxError::TagConflict);
        };
        let (group, limits) = (&self.state.area.group, &self.state.limits);
        // only the present segment and the present group can have grown too large
        if (group.line.part.width <= limits.width) & (group.height() <= limits.height) {
            Ok(ended)
        } else {
            Err(SyntaxError::TextTooBig)
        }
    }

    /// Puts a character whose cell has this width in pixels, where lines are filled, if it doesn't conflict with the items before it.
    #[inline(always)]
    fn fill_cell(&mut self, number: u16, cell_width: u8) -> Result<Option<Line>, SyntaxError>
        requires ready { IsFilledReady self.old }
        ensures put { PutsCell true self.old number cell_width result self.new }
        ensures behind { OnOk result ((line_in_force self.new.state).any ≡ true → IsFilledRun self.new) }
        ensures same { self.new.state.attributes ≡ self.old.state.attributes }
    {
        let Pass { state, split, .. } = self;
        let here = &state.attributes;
        let (page, present) = (here.page_just.number(), state.area.present);
        let just = here.line_just.number();
        // as `Line::put` has it, but of the characters before a soft break too: where the largest isn't full, none is
        let has_parts = (self.order > 0) & (self.order < 5);
        let clashes = (just < self.order) | ((just == 5) & has_parts);
        if (page < present) | ((page == present) & clashes) {
            return Err(SyntaxError::TagConflict);
        }
        self.order = just;
        if page > present {
            *split = None;
        }
        state.area.reach(here, &mut state.limits.height);
        let (group, most) = (&mut state.area.group, &mut state.limits.width);
        Ok(group.fill_character(here, cell_width, number == 32, split, most))
    }
}
