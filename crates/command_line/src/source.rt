//! Where the sign comes from, and the numbers that options have.

use clap::ArgMatches;

/// Where the sign comes from (own).
#[derive(Clone, Copy)]
pub enum SignSource<'a> {
    /// The input begins with a sign file and the mark `%%`, or it is none that a sign takes.
    Input,
    /// The sample sign.
    Sample,
    /// The sign file of this name.
    File(&'a str),
}

impl SignSource<'_> {
    /// Whether it is the sample sign.
    pub fn is_sample(self) -> bool {
        matches!(&self, SignSource::Sample)
    }
}

/// What is around the program (own).
#[derive(Clone, Copy)]
pub struct Surroundings<'a> {
    /// The sign file that is taken where the command line names no sign.
    pub sign: Option<&'a str>,
    /// Whether a person reads the output, on a terminal with 24-bit colours.
    pub has_colours: bool,
}

/// Where the sign comes from.
pub(crate) fn sign_source<'a>(asked: &ArgMatches<'a>, around: Surroundings<'a>) -> SignSource<'a> {
    if asked.get_flag("sample") {
        return SignSource::Sample;
    }
    match (asked.get_str("sign"), around.sign) {
        (Some(name), _) => SignSource::File(name),
        (None, Some(name)) => SignSource::File(name),
        (None, None) => SignSource::Input,
    }
}

/// The file that is read in place of the input, if one is named. A hyphen stands for the input.
pub(crate) fn file_of<'a>(asked: &ArgMatches<'a>) -> Option<&'a str> {
    match asked.get_str("file") {
        Some("-") | None => None,
        Some(name) => Some(name),
    }
}

/// The number of an option, if it has one.
pub(crate) fn number_of(asked: &ArgMatches<'_>, name: &str) -> Option<u32> {
    asked.get_one(name)
}

/// A number that the table of options keeps below 256.
pub(crate) fn octet_of(asked: &ArgMatches<'_>, name: &str) -> Option<u8> {
    number_of(asked, name).map(|number| number.min(255) as u8)
}

/// A number that the table of options keeps below 65,536.
pub(crate) fn word_of(asked: &ArgMatches<'_>, name: &str) -> Option<u16> {
    number_of(asked, name).map(|number| number.min(65535) as u16)
}
