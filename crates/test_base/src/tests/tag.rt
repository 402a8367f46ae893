use crate::tests::so;
use multi_tag::{FontPick, LineJust, PageJust, Tag, TagFault, read_ahead, read_closed, read_tag};
use multi_token::{Kind, Source, next_token};

/// What is read of a string that is one tag, and the steps of reading it; `None` where it is no tag.
fn read(octets: &[u8]) -> Option<(Result<Tag, TagFault>, u64)> {
    let mut source = Source::new(octets);
    let Ok(Some(token)) = next_token(&mut source, 0) else {
        return None;
    };
    if let Kind::Tag = token.kind {
        let before = source.steps();
        let tag = read_tag(&mut source, &token);
        Some((tag, source.steps() - before))
    } else {
        None
    }
}

fn flash(off_first: bool, on: Option<u8>, off: Option<u8>) -> Tag {
    Tag::Flash { off_first, on, off }
}

fn font(number: u8, version: Option<u16>) -> Tag {
    Tag::Font(Some(FontPick { number, version }))
}

fn rect(x: u32, y: u32, w: u32, h: u32) -> Tag {
    Tag::Rect { x, y, w, h }
}

#[test]
fn listed_bodies_are_tags(rt: HostRuntime) {
    let rows: [(&[u8], Tag); 54] = [
        (b"[np]", Tag::NewPage),
        (b"[nl]", Tag::NewLine(None)),
        (b"[nl0]", Tag::NewLine(Some(0))),
        (b"[nl00012]", Tag::NewLine(Some(12))),
        (b"[nl255]", Tag::NewLine(Some(255))),
        (b"[jl]", Tag::LineJust(None)),
        (b"[jl2]", Tag::LineJust(Some(LineJust::Left))),
        (b"[JL003]", Tag::LineJust(Some(LineJust::Centre))),
        (b"[jl4]", Tag::LineJust(Some(LineJust::Right))),
        (b"[jl5]", Tag::LineJust(Some(LineJust::Full))),
        (b"[jp]", Tag::PageJust(None)),
        (b"[jp2]", Tag::PageJust(Some(PageJust::Top))),
        (b"[jp3]", Tag::PageJust(Some(PageJust::Middle))),
        (b"[jp4]", Tag::PageJust(Some(PageJust::Bottom))),
        (b"[fo]", Tag::Font(None)),
        (b"[FO01]", font(1, None)),
        (b"[fo255]", font(255, None)),
        (b"[fo1,1a2B]", font(1, Some(6699))),
        (b"[fo2,0]", font(2, Some(0))),
        (b"[fo2,ffff]", font(2, Some(65535))),
        (b"[fo2,aFfA]", font(2, Some(45050))),
        (b"[sc0]", Tag::CharSpacing(0)),
        (b"[sc255]", Tag::CharSpacing(255)),
        (b"[/SC]", Tag::CharSpacingEnd),
        (
            b"[pt]",
            Tag::PageTime {
                on: None,
                off: None,
            },
        ),
        (
            b"[pto]",
            Tag::PageTime {
                on: None,
                off: None,
            },
        ),
        (
            b"[pto5]",
            Tag::PageTime {
                on: None,
                off: Some(5),
            },
        ),
        (
            b"[pt7]",
            Tag::PageTime {
                on: Some(7),
                off: None,
            },
        ),
        (
            b"[PT30O0]",
            Tag::PageTime {
                on: Some(30),
                off: Some(0),
            },
        ),
        (
            b"[pt255o255]",
            Tag::PageTime {
                on: Some(255),
                off: Some(255),
            },
        ),
        (b"[fl]", flash(false, None, None)),
        (b"[flt]", flash(false, None, None)),
        (b"[flt9]", flash(false, Some(9), None)),
        (b"[flT5o05]", flash(false, Some(5), Some(5))),
        (b"[flto6]", flash(false, None, Some(6))),
        (b"[flo]", flash(true, None, None)),
        (b"[flo8]", flash(true, None, Some(8))),
        (b"[flo7t3]", flash(true, Some(3), Some(7))),
        (b"[flot4]", flash(true, Some(4), None)),
        (b"[/fl]", Tag::FlashEnd),
        (b"[cf]", Tag::Fore(None)),
        (b"[cf0]", Tag::Fore(Some(0))),
        (b"[cf9]", Tag::Fore(Some(9))),
        (b"[pb]", Tag::Back(None)),
        (b"[pb9]", Tag::Back(Some(9))),
        (b"[tr1,1,0,0]", rect(1, 1, 0, 0)),
        (b"[TR0,00001,7,2]", rect(0, 1, 7, 2)),
        (
            b"[tr99999,99999,99999,99999]",
            rect(99999, 99999, 99999, 99999),
        ),
        (b"[hc1]", Tag::HexChar(1)),
        (b"[hc41]", Tag::HexChar(65)),
        (b"[HC0041]", Tag::HexChar(65)),
        (b"[hc10]", Tag::HexChar(16)),
        (b"[hCaF0]", Tag::HexChar(2800)),
        (b"[hcffff]", Tag::HexChar(65535)),
    ];
    for (octets, tag) in rows {
        // a step for each octet after the first
        let steps = octets.len().saturating_sub(1) as u64;
        assert!(rt; read(octets) == Some((Ok(tag), steps)), "at {octets:?}");
    }
}

#[test]
fn a_name_with_another_rest_is_a_wrong_value(rt: HostRuntime) {
    let rows: [&[u8]; 54] = [
        b"[np1]",
        b"[nl256]",
        b"[nl123456]",
        b"[nl-1]",
        b"[nl5/]",
        b"[nl:]",
        b"[jl1]",
        b"[jl6]",
        b"[jp1]",
        b"[jp5]",
        b"[fo0]",
        b"[fo256]",
        b"[foo]",
        b"[fo,1]",
        b"[fo1,]",
        b"[fo1,12345]",
        b"[fo1,g]",
        b"[fo1,1G]",
        b"[fo1,@]",
        b"[fo1,1,1]",
        b"[sc]",
        b"[sc256]",
        b"[/sc1]",
        b"[pt256]",
        b"[pt5o256]",
        b"[pt5o5o5]",
        b"[pt5t5]",
        b"[fl5]",
        b"[flx]",
        b"[flt256]",
        b"[flt5t5]",
        b"[flo5o5]",
        b"[flt5o5t5]",
        b"[/fl1]",
        b"[cf10]",
        b"[cf255,0,0]",
        b"[pb10]",
        b"[tr]",
        b"[tr1,1,0]",
        b"[tr1,1,,0]",
        b"[tr1,1,0,0,0]",
        b"[tr000001,1,1,1]",
        b"[tr1,1,1,100000]",
        b"[npp]",
        b"[tr1;1;0;0]",
        b"[hc]",
        b"[hc0]",
        b"[hc0000]",
        b"[hc00041]",
        b"[hc12345]",
        b"[hcG]",
        b"[hc4g]",
        b"[hc 41]",
        b"[hc41,42]",
    ];
    for octets in rows {
        let fault = read(octets).map(|(tag, _)| tag);
        assert!(rt; fault == Some(Err(TagFault::Value)), "at {octets:?}");
    }
}

#[test]
fn another_body_is_no_listed_tag(rt: HostRuntime) {
    let rows: [&[u8]; 15] = [
        b"[/f]",
        b"[/s]",
        b"[n]",
        b"[h]",
        b"[hd41]",
        b"[cb1]",
        b"[f1]",
        b"[ms]",
        b"[x]",
        b"[/]",
        b"[/np]",
        b"[/fo]",
        b"[ np]",
        b"[n\xf0]",
        b"[\xce\x90]",
    ];
    for octets in rows {
        let fault = read(octets).map(|(tag, _)| tag);
        assert!(rt; fault == Some(Err(TagFault::Unsupported)), "at {octets:?}");
    }
}

#[test]
fn a_long_body_is_no_more_steps_than_its_octets(rt: HostRuntime) {
    let mut octets = [b'0'; 3000];
    octets[0] = b'[';
    octets[1] = b'n';
    octets[2] = b'l';
    octets[2999] = b']';
    let (tag, steps) = read(&octets).expect(&rt, "a tag");
    so(
        &rt,
        tag == Err(TagFault::Value),
        "no number of 3,000 octets",
    );
    assert!(rt; steps <= 2999, "{steps} steps");
}

#[test]
fn faults_have_their_numbers(rt: HostRuntime) {
    so(&rt, TagFault::Unsupported.code() == 3, "unsupported");
    so(&rt, TagFault::Value.code() == 4, "a wrong value");
}

#[test]
fn a_tag_is_read_from_the_octets_ahead(rt: HostRuntime) {
    // a step for each octet after the bracket, and no more than 26
    let rows: [(&[u8], Option<(Tag, usize)>, u64); 6] = [
        (b"[np]A", Some((Tag::NewPage, 4)), 4),
        (b"[fo1,1a2B]", Some((font(1, Some(6699)), 10)), 9),
        (
            b"[tr1,1,12,7]AAAAAAAAAAAAAAAAAAAA",
            Some((rect(1, 1, 12, 7), 12)),
            26,
        ),
        (b"[nl256]A", None, 7),
        (b"[np", None, 2),
        (b"[[", None, 1),
    ];
    for (octets, expected, steps) in rows {
        let mut source = Source::new(octets);
        so(&rt, source.read(0) == Some(b'['), "the bracket");
        let found = read_ahead(&mut source, 0);
        assert!(rt; found == expected, "at {octets:?}");
        assert!(rt; source.steps() == steps.saturating_add(1), "at {octets:?}");
    }
    let closed = read_closed(b"nl2]A") == Some((Tag::NewLine(Some(2)), 4));
    so(
        &rt,
        closed && read_closed(b"nl2").is_none(),
        "behind a bracket",
    );
}
