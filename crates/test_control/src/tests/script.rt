use message_store::MsgRef;
use sign_control::{Command, DefaultField};
use sign_script::{Ask, read_ask};
use std::process::Abort;

/// Changeable message 1.
const FIRST: MsgRef = MsgRef {
    memory: 3,
    number: 1,
};

/// Each line asks for what stands beside it.
fn check_taken(rt: &impl Abort, octets: &mut Vec<u8>, rows: &[(&str, Ask<'_>)]) {
    for &(line, ask) in rows {
        assert!(rt;
            read_ask(line.as_bytes(), octets) == Ok(ask),
            "{line} is taken"
        );
    }
}

/// Sets the text of the first message.
fn set_multi(text: &[u8]) -> Ask<'_> {
    Ask::Command(Command::SetMulti(FIRST, text))
}

/// Sets the owner of the first message.
fn set_owner(owner: &[u8]) -> Ask<'_> {
    Ask::Command(Command::SetOwner(FIRST, owner))
}

/// Sets a default.
fn set_default(field: DefaultField, value: u8) -> Ask<'static> {
    Ask::Command(Command::SetDefault(field, value))
}

#[test]
fn numbers_are_taken(rt: HostRuntime) {
    let mut octets = Vec::new(rt.alloc());
    let rows = [
        ("request 3 1 6", Ask::Command(Command::Request(FIRST, 6))),
        (
            "priority 3 1 200",
            Ask::Command(Command::SetPriority(FIRST, 200)),
        ),
        ("beacon 3 1 1", Ask::Command(Command::SetBeacon(FIRST, 1))),
        (
            "pixel 3 1 0",
            Ask::Command(Command::SetPixelService(FIRST, 0)),
        ),
        (
            "tick 4294967295",
            Ask::Command(Command::Tick(4_294_967_295)),
        ),
        ("tick 0000000001", Ask::Command(Command::Tick(1))),
        ("frame 255", Ask::Frame(255)),
        (
            "row 7 9",
            Ask::Row(MsgRef {
                memory: 7,
                number: 9,
            }),
        ),
    ];
    check_taken(&rt, &mut octets, &rows);
}

#[test]
fn lines_without_fields_are_taken(rt: HostRuntime) {
    let mut octets = Vec::new(rt.alloc());
    let rows = [
        ("clear", Ask::Command(Command::Clear)),
        ("work", Ask::Command(Command::Work)),
        ("report", Ask::Report),
        ("defaults", Ask::Defaults),
        ("", Ask::Nothing),
        ("#x", Ask::Nothing),
    ];
    check_taken(&rt, &mut octets, &rows);
}

#[test]
fn texts_and_octets_are_taken(rt: HostRuntime) {
    let mut octets = Vec::new(rt.alloc());
    let rows = [
        ("multi 3 1 A B", set_multi(b"A B")),
        ("multi 3 1", set_multi(b"")),
        ("multi 3 1 ", set_multi(b"")),
        ("multi 3 1  A", set_multi(b" A")),
        ("multix 3 1 4A4b", set_multi(&[0x4a, 0x4b])),
        ("multix 3 1", set_multi(b"")),
        ("multix 3 1 ", set_multi(b"")),
        ("owner 3 1", set_owner(b"")),
        ("owner 3 1 41", set_owner(b"A")),
    ];
    check_taken(&rt, &mut octets, &rows);
}

#[test]
fn a_number_of_octets_is_taken(rt: HostRuntime) {
    let mut octets = Vec::new(rt.alloc());
    let shown = [
        0xff, 0xff, 0x80, 0x03, 0x00, 0x01, 0x9a, 0x66, 0x7f, 0x00, 0x00, 0x01,
    ];
    let rows = [
        (
            "activate ffff800300019a667f000001",
            Ask::Command(Command::Activate(shown)),
        ),
        (
            "activate FFFF800300019A667F000001",
            Ask::Command(Command::Activate(shown)),
        ),
        (
            "end 020001ab77",
            Ask::Command(Command::SetEnd([0x02, 0x00, 0x01, 0xab, 0x77])),
        ),
    ];
    check_taken(&rt, &mut octets, &rows);
}

#[test]
fn each_default_is_taken(rt: HostRuntime) {
    let mut octets = Vec::new(rt.alloc());
    let rows = [
        ("default font 2", set_default(DefaultField::Font, 2)),
        ("default line 2", set_default(DefaultField::Line, 2)),
        ("default page 2", set_default(DefaultField::Page, 2)),
        ("default page_on 2", set_default(DefaultField::PageOn, 2)),
        ("default page_off 2", set_default(DefaultField::PageOff, 2)),
        ("default flash_on 2", set_default(DefaultField::FlashOn, 2)),
        (
            "default flash_off 2",
            set_default(DefaultField::FlashOff, 2),
        ),
        ("default fore 2", set_default(DefaultField::Fore, 2)),
        ("default back 2", set_default(DefaultField::Back, 2)),
    ];
    check_taken(&rt, &mut octets, &rows);
}

/// `.ci/refused-calls` refuses its memory.
#[test]
fn a_line_is_read_again_after_memory_was_refused(rt: HostRuntime) {
    let mut octets = Vec::new(rt.alloc());
    // The second line is longer than the room that the first has taken.
    let rows = [
        ("multix 3 1 4141", set_multi(b"AA")),
        (
            "owner 3 1 41414141414141414141414141414141414141414141414141",
            set_owner(b"AAAAAAAAAAAAAAAAAAAAAAAAA"),
        ),
    ];
    for (line, ask) in rows {
        let first = read_ask(line.as_bytes(), &mut octets).err();
        assert!(rt;
            read_ask(line.as_bytes(), &mut octets) == Ok(ask),
            "{line} again"
        );
        if let Some(fault) = first {
            panic!(rt; "a line: {fault:?}");
        }
    }
}
