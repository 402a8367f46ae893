//! The commands and their options, as tables.

/// What an option takes.
#[derive(Clone, Copy)]
pub(crate) enum Takes {
    /// Nothing: it is there, or it isn't.
    Nothing,
    /// A number from the first to the second.
    Number(i64, i64),
    /// One of these words; the first text says what they are.
    Word(&'static str, &'static [&'static str]),
    /// A text, of which this says what it is.
    Text(&'static str),
    /// A message. It can be given more than once, and may begin with a hyphen.
    Messages,
    /// The name of a file, which stands alone, without the option's name.
    Place,
    /// The names of files, which stand alone.
    Places,
    /// Codes of warnings, with commas between them. It can be given more than once.
    Codes,
    /// The name of a shell, which stands alone and must be there.
    Shell,
}

/// How many kinds of warnings there are.
pub const WARNINGS: usize = 19;

/// The codes of warnings, by their numbers (own). They are those of `message_words`.
pub(crate) const CODES: [&str; WARNINGS] = [
    "W01", "W02", "W03", "W04", "W05", "W06", "W07", "W08", "W09", "W10", "W11", "W12", "W13",
    "W14", "W15", "W16", "W17", "W18", "W19",
];

/// The shells that complete command lines.
pub(crate) const SHELLS: [&str; 3] = ["bash", "fish", "zsh"];

/// An option of a command.
#[derive(Clone, Copy)]
pub(crate) struct OptionRow {
    pub(crate) name: &'static str,
    pub(crate) takes: Takes,
    pub(crate) help: &'static str,
    /// What it is if it isn't given.
    pub(crate) default: Option<&'static str>,
    /// The options that don't go with it.
    pub(crate) conflicts: &'static [&'static str],
    /// The options without which it doesn't go.
    pub(crate) needs: &'static [&'static str],
}

/// A command, with its options in groups.
#[derive(Clone, Copy)]
pub(crate) struct CommandRow {
    pub(crate) name: &'static str,
    pub(crate) about: &'static str,
    /// What its help ends with.
    pub(crate) examples: &'static str,
    pub(crate) options: &'static [&'static [OptionRow]],
}

/// Where the sign comes from.
const SIGN: [OptionRow; 2] = [
    OptionRow {
        name: "sign",
        takes: Takes::Text("FILE"),
        help: "Takes the sign of this sign file: the input has none",
        default: None,
        conflicts: &[],
        needs: &[],
    },
    OptionRow {
        name: "sample",
        takes: Takes::Nothing,
        help: "Takes the sample sign: the input has no sign file",
        default: None,
        conflicts: &["sign"],
        needs: &[],
    },
];

/// What is shown of a message.
const SHOW: [OptionRow; 2] = [
    OptionRow {
        name: "colour",
        takes: Takes::Number(0, 9),
        help: "The colour whose pixels are shown, 0 to 9",
        default: Some("1"),
        conflicts: &[],
        needs: &[],
    },
    OptionRow {
        name: "clock",
        takes: Takes::Number(0, 4294967295),
        help: "How long the message was shown, in tenths of a second, 0 to 4294967295",
        default: Some("0"),
        conflicts: &[],
        needs: &[],
    },
];

/// How messages are explained.
const EXPLAIN: [OptionRow; 11] = [
    OptionRow {
        name: "phase",
        takes: Takes::Number(0, 4294967295),
        help: "Draws each page as it is N tenths of a second after it began",
        default: Some("0"),
        conflicts: &[],
        needs: &[],
    },
    OptionRow {
        name: "format",
        takes: Takes::Word("WHAT", &["text", "lines", "json", "github", "sarif"]),
        help: "Writes words and pictures, or lines as editors or a workflow of GitHub read them, or a record in JSON for each message, or a log in SARIF",
        default: Some("text"),
        conflicts: &[],
        needs: &[],
    },
    OptionRow {
        name: "ansi",
        takes: Takes::Nothing,
        help: "With --format text: draws pages in the sign's colours for a terminal, two rows of pixels a line",
        default: None,
        conflicts: &[],
        needs: &[],
    },
    OptionRow {
        name: "refused",
        takes: Takes::Nothing,
        help: "Tells of refused messages and of warnings alone",
        default: None,
        conflicts: &[],
        needs: &[],
    },
    OptionRow {
        name: "pages",
        takes: Takes::Nothing,
        help: "With --format json: adds the picture of each page",
        default: None,
        conflicts: &[],
        needs: &[],
    },
    OptionRow {
        name: "strict",
        takes: Takes::Nothing,
        help: "Counts a warning as a refusal, for the exit status",
        default: None,
        conflicts: &[],
        needs: &[],
    },
    OptionRow {
        name: "ignore",
        takes: Takes::Codes,
        help: "Passes over warnings with these codes, as in W05,W13",
        default: None,
        conflicts: &["fix", "diff"],
        needs: &[],
    },
    OptionRow {
        name: "select",
        takes: Takes::Codes,
        help: "Tells warnings with these codes too, as in W14, which isn't told otherwise",
        default: None,
        conflicts: &["fix", "diff"],
        needs: &[],
    },
    OptionRow {
        name: "quiet",
        takes: Takes::Nothing,
        help: "Says nothing on standard error but what went wrong",
        default: None,
        conflicts: &[],
        needs: &[],
    },
    OptionRow {
        name: "fix",
        takes: Takes::Nothing,
        help: "Writes the messages alone, and in place of those that the sign refuses what it takes, where that is known",
        default: None,
        conflicts: &["ansi", "refused", "pages", "strict"],
        needs: &[],
    },
    OptionRow {
        name: "diff",
        takes: Takes::Nothing,
        help: "Writes what --fix would change, as a unified diff",
        default: None,
        conflicts: &["fix", "ansi", "refused", "pages", "strict"],
        needs: &[],
    },
];

/// How a message is drawn.
const PICTURE: [OptionRow; 10] = [
    OptionRow {
        name: "page",
        takes: Takes::Number(1, 255),
        help: "Draws this page of the message, 1 to 255",
        default: Some("1"),
        conflicts: &[],
        needs: &[],
    },
    OptionRow {
        name: "phase",
        takes: Takes::Number(0, 4294967295),
        help: "Draws each page as it is N tenths of a second after it began",
        default: Some("0"),
        conflicts: &[],
        needs: &[],
    },
    OptionRow {
        name: "clock",
        takes: Takes::Number(0, 4294967295),
        help: "Draws what is shown N tenths of a second after the message began, 0 to 4294967295",
        default: None,
        conflicts: &["page", "phase"],
        needs: &[],
    },
    OptionRow {
        name: "all",
        takes: Takes::Nothing,
        help: "Draws the message as it plays, over and over, in GIF",
        default: None,
        conflicts: &["page", "phase", "clock"],
        needs: &[],
    },
    OptionRow {
        name: "seconds",
        takes: Takes::Number(1, 600),
        help: "With --all: draws the first N seconds, 1 to 600",
        default: None,
        conflicts: &[],
        needs: &["all"],
    },
    OptionRow {
        name: "gif",
        takes: Takes::Nothing,
        help: "Writes GIF in place of PPM",
        default: None,
        conflicts: &[],
        needs: &[],
    },
    OptionRow {
        name: "png",
        takes: Takes::Nothing,
        help: "Writes PNG in place of PPM",
        default: None,
        conflicts: &["gif", "all"],
        needs: &[],
    },
    OptionRow {
        name: "scale",
        takes: Takes::Number(1, 16),
        help: "Draws each pixel with N by N points, 1 to 16; its dot is round from 4 on",
        default: Some("8"),
        conflicts: &[],
        needs: &[],
    },
    OptionRow {
        name: "lit",
        takes: Takes::Word("COLOUR", &["amber", "white", "red", "green"]),
        help: "On a sign of one colour: draws lit pixels in this colour, and not in amber",
        default: None,
        conflicts: &[],
        needs: &[],
    },
    OptionRow {
        name: "output",
        takes: Takes::Text("FILE"),
        help: "Writes this file, in the format of its ending, .gif, .png or .ppm",
        default: None,
        conflicts: &[],
        needs: &[],
    },
];

/// Messages that are taken in place of the input.
const GIVEN: [OptionRow; 1] = [OptionRow {
    name: "message",
    takes: Takes::Messages,
    help: "Takes this message, with --sign or --sample, and reads no input; it can be given more than once",
    default: None,
    conflicts: &["file"],
    needs: &[],
}];

/// A file that is read in place of the input.
const PLACE: [OptionRow; 1] = [OptionRow {
    name: "file",
    takes: Takes::Place,
    help: "Reads this file in place of the input",
    default: None,
    conflicts: &[],
    needs: &[],
}];

/// Files that are read in place of the input.
const PLACES: [OptionRow; 1] = [OptionRow {
    name: "file",
    takes: Takes::Places,
    help: "Reads these files in place of the input",
    default: None,
    conflicts: &[],
    needs: &[],
}];

/// How a sign file is told of.
const SIGN_FILE: [OptionRow; 3] = [
    OptionRow {
        name: "font",
        takes: Takes::Number(1, 255),
        help: "Shows the characters of this font, 1 to 255; with --format json their widths and bits",
        default: None,
        conflicts: &[],
        needs: &[],
    },
    OptionRow {
        name: "format",
        takes: Takes::Word("WHAT", &["text", "lines", "json"]),
        help: "Tells of the file in words, or in lines as editors read them, or in JSON for programs",
        default: Some("text"),
        conflicts: &[],
        needs: &[],
    },
    OptionRow {
        name: "strict",
        takes: Takes::Nothing,
        help: "Counts warnings as faults: the exit status is then 1",
        default: None,
        conflicts: &[],
        needs: &[],
    },
];

/// How a font is made.
const FONT: [OptionRow; 10] = [
    OptionRow {
        name: "number",
        takes: Takes::Number(1, 255),
        help: "The font's number, 1 to 255",
        default: Some("1"),
        conflicts: &[],
        needs: &[],
    },
    OptionRow {
        name: "version",
        takes: Takes::Number(0, 65535),
        help: "The font's version, 0 to 65535",
        default: Some("0"),
        conflicts: &[],
        needs: &[],
    },
    OptionRow {
        name: "char-spacing",
        takes: Takes::Number(0, 255),
        help: "Columns between characters, 0 to 255, by which each cell is narrower than its advance; 1 if each character fits so, else 0",
        default: None,
        conflicts: &[],
        needs: &[],
    },
    OptionRow {
        name: "line-spacing",
        takes: Takes::Number(0, 255),
        help: "Rows between lines, 0 to 255",
        default: Some("1"),
        conflicts: &[],
        needs: &[],
    },
    OptionRow {
        name: "first",
        takes: Takes::Number(1, 65535),
        help: "The lowest character that is taken",
        default: None,
        conflicts: &[],
        needs: &[],
    },
    OptionRow {
        name: "last",
        takes: Takes::Number(1, 65535),
        help: "The highest character that is taken",
        default: None,
        conflicts: &[],
        needs: &[],
    },
    OptionRow {
        name: "characters",
        takes: Takes::Text("LIST"),
        help: "The characters that are taken, as ascii, latin1 or A-Z,0-9,32,0x2190-0x2193",
        default: None,
        conflicts: &["first", "last"],
        needs: &[],
    },
    OptionRow {
        name: "outside",
        takes: Takes::Word("WHAT", &["refuse", "widen", "crop", "skip"]),
        help: "What is done with a character that doesn't fit its cell: the font is refused, the cell is widened, the pixels outside are cropped, or the character is skipped",
        default: Some("widen"),
        conflicts: &[],
        needs: &[],
    },
    OptionRow {
        name: "crop",
        takes: Takes::Nothing,
        help: "Takes off the rows at the top and at the bottom in which no character has a pixel",
        default: None,
        conflicts: &[],
        needs: &[],
    },
    OptionRow {
        name: "height",
        takes: Takes::Number(1, 64),
        help: "Adds rows without pixels above and below, until there are so many, 1 to 64",
        default: None,
        conflicts: &[],
        needs: &[],
    },
];

/// How a font is written, and whether it is a table of NTCIP 1203.
const FONT_TABLE: [OptionRow; 2] = [
    OptionRow {
        name: "spacing",
        takes: Takes::Number(0, 255),
        help: "Columns between characters that the table says, 0 to 255, with the same cells",
        default: None,
        conflicts: &[],
        needs: &[],
    },
    OptionRow {
        name: "table",
        takes: Takes::Nothing,
        help: "Reads a font table of NTCIP 1203 in CSV in place of a font in BDF, and takes all that it says",
        default: None,
        conflicts: &[
            "number",
            "version",
            "char-spacing",
            "line-spacing",
            "spacing",
            "first",
            "last",
            "characters",
            "outside",
            "crop",
            "height",
        ],
        needs: &[],
    },
];

/// For which shell completions are written.
const SHELL: [OptionRow; 1] = [OptionRow {
    name: "shell",
    takes: Takes::Shell,
    help: "The shell that completes command lines",
    default: None,
    conflicts: &[],
    needs: &[],
}];

/// The commands of the tool.
pub(crate) const COMMANDS: [CommandRow; 9] = [
    CommandRow {
        name: "check",
        about: "Reads a sign file, a line %% and messages, and says of each message whether the sign accepts it",
        examples: "Examples:\n  signctl check --sign sign.toml messages.txt\n  signctl check --sample -m 'A[np]I'",
        options: &[&SIGN, &GIVEN, &PLACE],
    },
    CommandRow {
        name: "show",
        about: "Reads a sign file, a line %% and messages, and shows a page of each message that the sign accepts",
        examples: "Examples:\n  signctl show --sign sign.toml --clock 35 -m 'ROAD[np]WORK'",
        options: &[&SIGN, &SHOW, &GIVEN, &PLACE],
    },
    CommandRow {
        name: "run",
        about: "Reads a sign file, a line %% and a script, and writes the reply to each of its lines",
        examples: "Examples:\n  signctl run --sign sign.toml < day.script",
        options: &[&SIGN],
    },
    CommandRow {
        name: "serve",
        about: "Serves a sign: answers each line that is asked of it by one reply, for as long as they come",
        examples: "Examples:\n  signctl serve --sign sign.toml",
        options: &[&SIGN],
    },
    CommandRow {
        name: "explain",
        about: "Reads a sign file, a line %% and messages, and says of each why it is refused, or draws its pages",
        examples: "Examples:\n  signctl explain --sign sign.toml -m 'ROAD CLOSED'\n  signctl explain --sign sign.toml --format lines messages.txt\n  signctl explain --sign sign.toml --fix messages.txt > mended.txt",
        options: &[&SIGN, &EXPLAIN, &GIVEN, &PLACES],
    },
    CommandRow {
        name: "picture",
        about: "Reads a sign file, a line %% and one message, and writes it as a picture in PPM, GIF or PNG",
        examples: "Examples:\n  signctl picture --sign sign.toml --all --output message.gif -m 'ROAD[np]WORK'",
        options: &[&SIGN, &PICTURE, &GIVEN, &PLACE],
    },
    CommandRow {
        name: "sign",
        about: "Reads a sign file, and says what it describes, or what is wrong with it",
        examples: "Examples:\n  signctl sign sign.toml\n  signctl sign --strict --format lines sign.toml",
        options: &[&SIGN_FILE, &PLACE],
    },
    CommandRow {
        name: "font",
        about: "Reads a font in BDF or a font table of NTCIP 1203, and writes it as the [[font]] table of a sign file",
        examples: "Examples:\n  signctl font --number 2 font.bdf >> sign.toml",
        options: &[&FONT, &FONT_TABLE, &PLACE],
    },
    CommandRow {
        name: "completions",
        about: "Writes a script by which a shell completes the words of signctl",
        examples: "Examples:\n  signctl completions bash > ~/.local/share/bash-completion/completions/signctl",
        options: &[&SHELL],
    },
];
