use message_report::{Explainer, Explanation, Format, Telling, USUAL_WARNINGS};
use sign_font::{Sign, sample_sign};
use std::alloc::Global;
use std::test::Fail;

/// Messages in words and pictures, at the beginning of their pages.
const TELLING: Telling = Telling {
    format: Format::Text,
    phase: 0,
    refused_only: false,
    pictures: true,
    warnings: USUAL_WARNINGS,
};

/// What is told of a message on the sample sign, as line 2 of a file.
fn told(alloc: Global, telling: Telling, message: &str) -> Result<Vec<u8>, Fail> {
    let Ok(sign) = Sign::new(alloc, sample_sign(alloc)?) else {
        return Ok(Vec::new(alloc));
    };
    let explainer = Explainer::new(sign, 64);
    let mut text = Explanation::new(alloc);
    explainer.explain(alloc, telling, b"day", 2, message.as_bytes(), &mut text)?;
    Ok(Vec::from_slice(alloc, text.octets())?)
}

#[test]
fn a_refusal_is_told_with_its_reason(rt: HostRuntime) -> Result<(), Fail> {
    let rows = [
        (
            "AB",
            "line 2: refused: characterNotDefined (7) at octet 1
AB
 ^
font 1 has no character 66 'B'; it has A I [ ] space
no proposal: the sign takes none of the texts that were tried

",
        ),
        (
            "AAAA",
            "line 2: refused: textTooBig (5) at octet 3
AAAA
   ^
the line needs 15 pixels, the rectangle has 12
no proposal: the sign takes none of the texts that were tried

",
        ),
        (
            "[green]",
            "line 2: refused: unsupportedTag (3) at octet 0
[green]
^
the sign takes no tag 'green'; no tag of the standard begins so; perhaps [cf3] is meant
try: [cf3]

",
        ),
        (
            "A[nl]A[nl]A",
            "line 2: refused: textTooBig (5) at octet 10
A[nl]A[nl]A
          ^
the area needs 11 rows of 7
try: A[nl]A[np]A

",
        ),
    ];
    for (message, want) in rows {
        let text = told(rt.alloc(), TELLING, message)?;
        assert!(rt; text.as_slice() == want.as_bytes(), "of {message:?}");
    }
    Ok(())
}

#[test]
fn a_message_is_told_in_lines_and_records(rt: HostRuntime) -> Result<(), Fail> {
    let rows = [
        (
            Format::Lines,
            "AAAA",
            "day:2:4: error: textTooBig (5): the line needs 15 pixels, the rectangle has 12\n\
             day:2:4: note: no proposal: the sign takes none of the texts that were tried\n",
        ),
        (Format::Lines, "A", ""),
        (
            Format::Lines,
            "[fl]A",
            "day:2:1: warning: all text flashes, so that nothing stands out (W12)\n",
        ),
        (
            Format::Json,
            "I ",
            "{\"line\":2,\"message\":\"I \",\"octets\":null,\"outcome\":\"accepted\",\
             \"pages\":[{\"number\":1,\"off\":0,\"on\":30,\"picture\":\"............\\n............\\n....1.......\\n\
             ....1.......\\n....1.......\\n............\\n............\\n\"}],\
             \"warnings\":[{\"code\":\"W05\",\"octet\":1,\"text\":\"a space at the end of the line takes room and moves the line\"}]}\n",
        ),
        (Format::Mended, "A", "A\n"),
        (Format::Mended, "AAAA", "AAAA\n"),
        (Format::Mended, "A[nl]A[nl]A", "A[nl]A[np]A\n"),
        (Format::Mended, "ai", "AI\n"),
        (
            Format::Lines,
            "ai",
            "day:2:1: error: characterNotDefined (7): font 1 has no character 97 'a'; it has A I [ ] space; write A\n\
             day:2:1: note: try AI\n",
        ),
        (
            Format::Json,
            "AAAA",
            "{\"code\":5,\"fixes\":[],\"line\":2,\"message\":\"AAAA\",\"name\":\"textTooBig\",\"octet\":3,\"octets\":null,\
             \"outcome\":\"refused\",\"reason\":\"the line needs 15 pixels, the rectangle has 12\"}\n",
        ),
        (
            Format::Json,
            "[tr1,1,12,3]I",
            "{\"line\":2,\"message\":\"[tr1,1,12,3]I\",\"octets\":null,\"outcome\":\"accepted\",\
             \"pages\":[{\"number\":1,\"off\":0,\"on\":30,\"picture\":\".....1......\\n.....1......\\n.....1......\\n\
             ............\\n............\\n............\\n............\\n\"}],\"warnings\":[]}\n",
        ),
        (
            Format::Ansi,
            "I",
            "line 2: accepted: 1 page
I
page 1 of 1, shown all the time:
\x1b[38;2;40;40;40m\x1b[48;2;40;40;40m▀▀▀▀▀▀▀▀▀▀▀▀\x1b[0m
\x1b[38;2;40;40;40m\x1b[48;2;40;40;40m▀▀▀▀▀\x1b[38;2;255;176;0m\x1b[48;2;255;176;0m▀\
\x1b[38;2;40;40;40m\x1b[48;2;40;40;40m▀▀▀▀▀▀\x1b[0m
\x1b[38;2;40;40;40m\x1b[48;2;40;40;40m▀▀▀▀▀\x1b[38;2;255;176;0m▀\x1b[38;2;40;40;40m▀▀▀▀▀▀\x1b[0m
\x1b[38;2;40;40;40m\x1b[48;2;40;40;40m▀▀▀▀▀▀▀▀▀▀▀▀\x1b[0m

",
        ),
    ];
    for (format, message, want) in rows {
        let telling = Telling { format, ..TELLING };
        let text = told(rt.alloc(), telling, message)?;
        assert!(rt; text.as_slice() == want.as_bytes(), "of {message:?}");
    }
    Ok(())
}

#[test]
fn accepted_messages_are_passed_over(rt: HostRuntime) -> Result<(), Fail> {
    for format in [Format::Text, Format::Ansi, Format::Lines, Format::Json] {
        let telling = Telling {
            format,
            refused_only: true,
            ..TELLING
        };
        let text = told(rt.alloc(), telling, "A")?;
        assert!(rt; text.is_empty(), "of a message that is taken");
    }
    Ok(())
}
