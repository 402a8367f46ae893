use sign_report::sign_report;
use sign_words::{PermanentRefusal, SignView};
use std::test::Fail;

/// A sign with one font of a space, an `A` and an `I`.
const FILE: &str = "width = 12
height = 7
scheme = 'monochrome'
max_pages = 2
slots = 1
bytes = 64
max_string = 64
[defaults]
font = 1
line = 3
page = 3
page_on = 30
page_off = 0
flash_on = 5
flash_off = 6
fore = 1
back = 0
[[font]]
number = 1
version = 6699
height = 3
char_spacing = 1
line_spacing = 2
cell = [
  { number = 32, width = 1, bits = '00' },
  { number = 65, width = 3, bits = '5e80' },
  { number = 73, width = 1, bits = 'e0' },
]
[[permanent]]
multi = 'A'
";

const DESCRIPTION: &str = "sign: 12 by 7 pixels of one colour
messages: up to 2 pages
lines: not filled
beacons: no
pixel service: no
changeable messages: 1 with 64 octets together
texts: up to 64 octets
permanent messages: 1
permanent message 1: CRC 9a66, priority 1
default font: 1
default lines: 3, centre
default groups: 3, middle
default page times: 30 tenths of a second on, 0 off
default flash times: 5 tenths of a second on, 6 off
default foreground: 1, lit
default background: 0, dark
font 1: version 6699, in MULTI [fo1,1A2B]
font 1: height 3, character spacing 1, line spacing 2
font 1: characters 32 65 73
font 1: CRC of its cells 8f7d
";

/// A permanent message that is wider than the sign.
const WIDE: &str = "[[permanent]]
multi = 'AAAA'
";

/// What is told of it to editors.
const TOLD: &str =
    "my.toml:32:1: error: permanent message 2, multi: refused: textTooBig (5) at octet 3: \
    the line needs 15 pixels, the rectangle has 12\n";

/// A line at which the program ends the file, in a text of several lines.
const MARKED: &str = "note = '''
%%
'''
";

#[test]
fn a_file_is_described(rt: HostRuntime) -> Result<(), Fail> {
    let report = sign_report(rt.alloc(), FILE.as_bytes(), SignView::Description)?;
    let told = report.text.as_str() == DESCRIPTION;
    let clean = report.refusals.is_empty() && report.found.warnings.is_empty();
    assert!(rt; report.is_taken && told && clean, "{}", report.text);
    Ok(())
}

#[test]
fn a_permanent_message_that_does_not_fit_is_refused(rt: HostRuntime) -> Result<(), Fail> {
    let alloc = rt.alloc();
    let mut file = String::from_str(alloc, FILE)?;
    file.push_str(WIDE)?;
    let report = sign_report(alloc, file.as_bytes(), SignView::Lines("my.toml"))?;
    let known = PermanentRefusal {
        number: 2,
        code: 5,
        at: 3,
    };
    let refused = report.refusals.len() == 1 && report.refusals.first() == Some(&known);
    let told = report.text.as_str() == TOLD;
    assert!(rt; report.is_taken && refused && told, "{}", report.text);
    Ok(())
}

#[test]
fn a_file_with_a_mark_within_is_not_taken(rt: HostRuntime) -> Result<(), Fail> {
    let alloc = rt.alloc();
    let mut file = String::from_str(alloc, MARKED)?;
    file.push_str(FILE)?;
    file.push_str(WIDE)?;
    let report = sign_report(alloc, file.as_bytes(), SignView::Description)?;
    let untaken = !report.is_taken && report.refusals.is_empty();
    assert!(rt; untaken, "{}", report.text);
    Ok(())
}
