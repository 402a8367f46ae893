use crate::tests::so;
use multi_token::{
    Advances, Bracketed, Entry, Kind, Run, Source, Space, Token, TokenFault, next_token,
    read_bracket,
};

/// The tokens of a string up to the end or a fault, as far as a table of four holds them, and the steps.
fn tokens(octets: &[u8]) -> ([Option<Token>; 4], Result<usize, TokenFault>, u64) {
    let mut source = Source::new(octets);
    let mut found = [None; 4];
    let mut at = 0;
    for place in found.iter_mut() {
        if at > source.len() {
            break;
        }
        match next_token(&mut source, at) {
            Ok(Some(token)) => {
                at += token.len;
                *place = Some(token);
            }
            Ok(None) => return (found, Ok(at), source.steps()),
            Err(fault) => return (found, Err(fault), source.steps()),
        }
    }
    (found, Ok(at), source.steps())
}

/// What begins with the bracket at the front, and the steps after that octet; `None` where there is no bracket.
fn behind_the_bracket(octets: &[u8]) -> Option<(Result<Bracketed, TokenFault>, u64)> {
    let mut source = Source::new(octets);
    let first = source.read(0)?;
    if first != b'[' && first != b']' {
        return None;
    }
    let found = read_bracket(&mut source, 0, first);
    Some((found, source.steps() - 1))
}

fn token(at: usize, len: usize, kind: Kind) -> Token {
    Token { at, len, kind }
}

fn char(at: usize, len: usize, number: u8) -> Option<Token> {
    Some(token(at, len, Kind::Char(number)))
}

#[test]
fn doubled_brackets_are_characters(rt: HostRuntime) {
    let (found, end, steps) = tokens(b"[[I]]");
    so(
        &rt,
        found == [char(0, 2, 91), char(2, 1, 73), char(3, 2, 93), None],
        "the tokens",
    );
    so(&rt, end == Ok(5), "the end");
    assert!(rt; steps <= 6, "{steps} steps");
}

#[test]
fn a_tag_stands_between_brackets(rt: HostRuntime) {
    let (found, end, steps) = tokens(b"A[np]");
    let tag = Some(Token {
        at: 1,
        len: 4,
        kind: Kind::Tag,
    });
    so(
        &rt,
        found == [char(0, 1, 65), tag, None, None],
        "the tokens",
    );
    so(&rt, end == Ok(5), "the end");
    so(&rt, steps == 6, "the steps");
}

#[test]
fn a_broken_bracket_is_a_fault_at_its_octet(rt: HostRuntime) {
    let rows: [(&[u8], usize); 6] = [
        (b"]", 0),
        (b"A]", 1),
        (b"[", 0),
        (b"[nl", 0),
        (b"[]", 0),
        (b"A[n[p]", 1),
    ];
    for (octets, at) in rows {
        let (_, end, _) = tokens(octets);
        assert!(rt; end == Err(TokenFault { at }), "at {octets:?}");
    }
}

#[test]
fn what_begins_with_a_bracket_goes_on_behind_it(rt: HostRuntime) {
    let rows: [(&[u8], Bracketed, u64); 4] = [
        (b"[[x", Bracketed::Doubled, 1),
        (b"]]", Bracketed::Doubled, 1),
        (b"[np]A", Bracketed::Tag(2), 3),
        (b"[tr1,1,0,0]", Bracketed::Tag(9), 10),
    ];
    for (octets, spelled, steps) in rows {
        let found = behind_the_bracket(octets);
        assert!(rt; found == Some((Ok(spelled), steps)), "at {octets:?}");
    }
    for octets in [b"]" as &[u8], b"][", b"[", b"[nl", b"[]"] {
        let Some((found, taken)) = behind_the_bracket(octets) else {
            continue;
        };
        assert!(rt; found == Err(TokenFault { at: 0 }), "at {octets:?}");
        assert!(rt; taken <= octets.len() as u64, "at {octets:?}");
    }
    so(&rt, behind_the_bracket(b"A[np]") == None, "no bracket");
}

#[test]
fn a_run_ends_at_its_room_or_at_an_octet_that_takes_more(rt: HostRuntime) {
    // an A takes 2 and a B 3
    let mut of = [0x8000; 256];
    of[65] = 2;
    of[66] = 3;
    let table = Advances::new(of);
    let rows: [(usize, u32, u32, Run, u64); 6] = [
        (0, 1, 7, run(2, 7, Some(entry(b'[', 0x8000))), 6),
        (0, 1, 6, run(1, 3, Some(entry(b'B', 3))), 4),
        (0, 0, 1, run(0, 0, Some(entry(b'A', 2))), 2),
        (2, 0, 9, run(0, 0, Some(entry(b'[', 0x8000))), 2),
        (3, 0, 9, run(1, 2, None), 3),
        (4, 0, 9, run(0, 0, None), 1),
    ];
    for (from, gap, room, expected, steps) in rows {
        let mut source = Source::new(b"AB[A");
        let found = source.read_run(from, &table, gap, room);
        assert!(rt; found == expected, "from {from}");
        assert!(rt; source.steps() == steps, "from {from}");
        let mut source = Source::new(b"AB[A");
        let (words, space) = source.read_words(from, &table, gap, room);
        assert!(rt; (words, space) == (expected, None), "from {from}");
        assert!(rt; source.steps() == steps, "from {from}");
    }
    let rows = [
        (0, Some(entry(b'A', 2)), 2),
        (2, Some(entry(b'[', 0x8000)), 2),
        (4, None, 1),
    ];
    for (at, expected, steps) in rows {
        let mut source = Source::new(b"AB[A");
        assert!(rt; source.look(at, &table) == expected, "at {at}");
        assert!(rt; source.steps() == steps, "at {at}");
    }
}

#[test]
fn a_run_tells_its_last_space(rt: HostRuntime) {
    // an A takes 2 and a space 1, each with a gap of one before it
    let mut of = [0x8000; 256];
    of[65] = 2;
    of[32] = 1;
    let table = Advances::new(of);
    let rows: [(&[u8], u32, Run, Option<Space>, u64); 4] = [
        (b"AA", 9, run(2, 6, None), None, 5),
        (b"A A", 9, run(3, 8, None), Some(space(1, 3, 5)), 7),
        (
            b"A  A",
            9,
            run(3, 7, Some(entry(b'A', 2))),
            Some(space(2, 5, 7)),
            8,
        ),
        (
            b" A",
            2,
            run(1, 2, Some(entry(b'A', 2))),
            Some(space(0, 0, 2)),
            4,
        ),
    ];
    for (octets, room, expected, last, steps) in rows {
        let mut source = Source::new(octets);
        let found = source.read_words(0, &table, 1, room);
        assert!(rt; found == (expected, last), "of {octets:?}");
        assert!(rt; source.steps() == steps, "of {octets:?}");
    }
}

fn run(len: usize, width: u32, next: Option<Entry>) -> Run {
    Run { len, width, next }
}

fn entry(octet: u8, advance: u16) -> Entry {
    Entry { octet, advance }
}

fn space(at: usize, before: u32, through: u32) -> Space {
    Space {
        at,
        before,
        through,
    }
}

#[test]
fn octets_ahead_are_lent_for_a_step_each(rt: HostRuntime) {
    let rows: [(usize, usize, &[u8], u64); 5] = [
        (0, 2, b"AB", 2),
        (1, 26, b"B[np]C", 6),
        (3, 2, b"np", 2),
        (6, 1, b"C", 1),
        (7, 26, b"", 0),
    ];
    for (from, most, octets, steps) in rows {
        let mut source = Source::new(b"AB[np]C");
        let same = source.ahead(from, most) == octets;
        so(&rt, same, "the octets");
        assert!(rt; source.steps() == steps, "from {from}");
    }
}

#[test]
fn a_count_stays_at_the_largest_number(rt: HostRuntime) {
    let mut source = Source::new(b"AB");
    so(&rt, source.len() == 2, "two octets");
    so(&rt, source.read(1) == Some(66), "the last octet");
    so(&rt, source.read(2) == None, "the end");
    so(&rt, source.steps() == 2, "two steps");
    source.charge(u64::MAX - 2);
    so(&rt, source.steps() == u64::MAX, "the largest number");
    so(&rt, source.read(0) == Some(65), "the first octet");
    so(&rt, source.steps() == u64::MAX, "the largest number");
}
