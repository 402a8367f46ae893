//! The page in whose times a clock is, and when what it shows changes.

ghost use Rattle.std.specs.Prelude.{◌≡◌, true, ◌+◌, ◌-◌, ◌%◌, ◌<◌, length, nat_lt, if◌then◌else◌, Some};
ghost use Rattle.multi_layout.specs.Prelude.{RisesBetween, charged, meanings, check_limit, IsAtPage, IsAtStart, IsToldOf, IsTurnAt};
ghost use Rattle.multi_layout.specs.Change.{flashes_left, page_flashes, sooner};
ghost use Rattle.multi_layout.specs.Finding.{finding_steps};

use crate::checked::Told;
use crate::cursor::Cursor;
use crate::flash::sooner;
use multi_judge::Terms;
use multi_token::Source;

/// A page whose turn it is: the time since it began, its on time and its off time, and the time from then to the next change of one of its
/// flashes, if that was asked for and one changes; all in tenths of a second.
#[derive(Clone, Copy)]
pub(crate) struct Turn {
    pub(crate) phase: u64,
    pub(crate) on: u8,
    pub(crate) off: u8,
    pub(crate) soonest: Option<u64>,
}

impl Turn {
    /// The page's on time and off time together.
    fn whole(&self) -> u64
        ensures { result ≡ self.now.on + self.now.off }
    {
        u64::from(self.on) + u64::from(self.off)
    }

    /// The tenths of a second to the next change of what is shown.
    pub(crate) fn left(&self) -> Option<u64>
        requires { self.now.phase < self.now.on + self.now.off }
        ensures { result ≡ (if nat_lt self.now.phase self.now.on then sooner self.now.soonest (Some (self.now.on - self.now.phase))
            else Some (self.now.on + self.now.off - self.now.phase)) }
    {
        let on = u64::from(self.on);
        if self.phase < on {
            sooner(self.soonest, Some(on - self.phase))
        } else {
            Some(self.whole() - self.phase)
        }
    }
}

/// The page in whose on time or off time a clock is, of a string with several pages and a cycle. The cursor, which stands before its first
/// item, goes to where that page begins.
pub(crate) fn find_turn<const FLASHES: bool>(
    sign: &Terms<'_>,
    source: &mut Source<'_>,
    told: Told,
    clock: u64,
    start: &mut Cursor,
) -> Turn
    requires known { IsToldOf sign.now source.old.octets told }
    requires start { IsAtStart sign.now start.old }
    requires several { told.pages ≡ 1 → ⊥ }
    requires cycle { told.cycle ≡ 0 → ⊥ }
    ensures turn { IsTurnAt sign.now source.old.octets (clock % told.cycle) start.new result }
    ensures begins { IsAtPage sign.now source.old.octets start.new }
    ensures steps { RisesBetween source.old source.new 0 (check_limit (length source.old.octets)) }
    ensures counted { source.new ≡ charged source.old (finding_steps sign.now source.old.octets clock) }
    ensures soonest { FLASHES ≡ true
        → result.soonest ≡ flashes_left result.phase (page_flashes sign.now (meanings source.old.octets) (start.new.state.pages - 1)) }
{
    let time = clock % u64::from(told.cycle);
    loop {
        let mut behind = *start;
        let phase = time - u64::from(start.state.cycle);
        let soonest = behind.pass_page::<FLASHES>(sign, source, phase);
        let turn = Turn {
            phase,
            on: behind.state.attributes.on,
            off: behind.state.attributes.off,
            soonest,
        };
        if phase < turn.whole() {
            return turn;
        }
        *start = behind;
    }
}
