//! The first reading of an area, for the table of its lines.

ghost use Rattle.std.specs.Prelude.{◌≡◌, ℕ, ◌+◌, ◌-◌, ◌*◌, ◌^◌, ◌≤◌, List, false};
ghost use Rattle.multi_layout.specs.Prelude.{RisesBetween, charged, IsSound, BitPlane, begins_area, EndsGroup, IsNextRead, IsReadOf, KnowsArea, ReadsOn, IsOctet, meant_by, fill_of, IsBehindCharacter, IsPageDrawn, Layer, ReadsArea, next_steps};
ghost use Rattle.multi_token.specs.Spelling as spelled;

use crate::cursor::{Cursor, read_item};
use multi_judge::{Area, CountedLine, KnownItem, LineTable, NextItem, Pass, Terms};
use multi_token::Source;

/// Room for what drawing an area needs: the table of its counted lines, and where it ends. It's lent to one drawing after the other, since
/// it is large. What it holds from one of them tells the next nothing.
#[derive(Drop)]
pub struct AreaLines {
    pub(crate) lines: LineTable,
    /// The offset after the area's last item.
    pub(crate) end: usize,
    /// The item that stands there, if the string goes on.
    pub(crate) next: Option<NextItem>,
}

impl AreaLines {
    /// Room that served no drawing yet.
    pub fn new() -> AreaLines {
        AreaLines {
            lines: LineTable::new(),
            end: 0,
            next: None,
        }
    }
}

/// Reads the area that begins at a cursor into the table, whatever was read before, by whether lines are filled. The cursor goes past
/// the settings with which the area begins, and puts them into force, so that the second reading begins there.
pub(crate) fn read_lines<const WORDS: bool>(
    sign: &Terms<'_>,
    source: &mut Source<'_>,
    cursor: &mut Cursor,
    read: &mut AreaLines,
)
    requires sound { IsSound sign.now }
    requires kind { sign.now.line_fill ≡ fill_of WORDS }
    requires page { (layer : Layer) × (page : ℕ) × (plane : BitPlane) × IsPageDrawn sign.now source.old.octets layer page cursor.old plane }
    ensures read { ReadsArea sign.now source.old.octets cursor.old cursor.new read.new }
    ensures on { cursor.old.at ≤ cursor.new.at }
    ensures steps { RisesBetween source.old source.new 0 (9 * (read.new.end - cursor.old.at) + 1 + next_steps read.new.next) }
{
    read.lines.clear();
    read.next = None;
    let mut at = cursor.at;
    let mut kept = Pass::new(cursor.state);
    let mut first = source.read(at);
    while let Some(octet) = first {
        let next = read_item(source, at, octet);
        if next.item.begins_area() {
            read.next = Some(next);
            break;
        }
        pass_item::<WORDS>(sign, source, &mut kept, next.item, &mut read.lines);
        if cursor.at == at && next.item.is_setting() {
            // Nothing but settings was read.
            cursor.at += next.len;
            cursor.state = kept.state;
        }
        at += next.len;
        if WORDS || !next.item.is_octet() {
            first = source.read(at);
            continue;
        }
        let Some(cells) = sign.bare.cells(source, kept.state.attributes.font.number) else {
            // The font in force is one of the sign's.
            unreachable!();
        };
        let run = kept.state.go_along(&cells, source, at);
        at += run.len;
        first = run.next.map(|entry| entry.octet);
    }
    read.end = at;
    end_group(&kept.state.area, &mut read.lines);
}

/// Goes past the next item of an area, and puts the lines that it ends into the table: the last one of a group that it leaves, and
/// the one that it ends itself.
fn pass_item<const WORDS: bool>(
    sign: &Terms<'_>,
    source: &mut Source<'_>,
    kept: &mut Pass,
    item: KnownItem,
    lines: &mut LineTable,
)
    requires sound { IsSound sign.now }
    requires known { (before : List spelled.Item) × (next : spelled.Item)
        × IsReadOf WORDS sign.now before kept.old.state.area.present kept.old lines.old
        × IsNextRead sign.now before next item }
    requires plain { begins_area (meant_by item) ≡ false }
    ensures behind { IsOctet item → WORDS ≡ false → IsBehindCharacter kept.new.state }
    ensures known { ReadsOn WORDS sign.now kept.old.state.area.present item kept.old lines.old kept.new lines.new }
    ensures octet { IsOctet item → source.new ≡ charged source.old 1 }
    ensures steps { RisesBetween source.old source.new 0 8 }
{
    if item.has_place() & (kept.state.area.present < kept.state.attributes.page_just.number()) {
        end_group(&kept.state.area, lines);
    }
    let mut cells = sign.cells.same();
    let Ok(ended) = kept.judge_item::<WORDS>(sign, &mut cells, source, item) else {
        // No item of an accepted string offends.
        unreachable!();
    };
    if let Some(line) = ended {
        let area = &kept.state.area;
        lines.push(area.present, CountedLine::of(&line, area.group.closed));
    }
}

/// Puts the last line of the present group into the table, if it has characters.
fn end_group(area: &Area, lines: &mut LineTable)
    requires { KnowsArea area.now.present area.now lines.old }
    ensures known { EndsGroup area.now lines.old lines.new }
{
    let group = &area.group;
    if group.line.any {
        lines.push(area.present, CountedLine::of(&group.line, group.height()));
    }
}
