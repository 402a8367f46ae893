//! `signctl picture`, which writes a message as a picture.

use crate::messages::Messages;
use crate::source::{SignSource, number_of, octet_of, word_of};
use clap::ArgMatches;

/// What is drawn of a message (own).
#[derive(Clone, Copy)]
pub enum Shown {
    /// A page, counted from 0, some tenths of a second after it began.
    Page { page: u8, phase: u32 },
    /// What is shown some tenths of a second after the message began.
    Clock { clock: u32 },
    /// The message as it plays, until it begins anew, or for its first seconds, 1 to 600. It is written in GIF.
    Film { seconds: Option<u16> },
}

/// What a picture is written in (own).
#[derive(Clone, Copy, PartialEq, Eq)]
pub enum PictureKind {
    /// The Portable Pixmap Format.
    Ppm,
    /// GIF.
    Gif,
    /// PNG.
    Png,
}

/// The colour of the lit pixels of a sign of one colour (own).
#[derive(Clone, Copy)]
pub enum LitChoice {
    /// Amber.
    Amber,
    /// White.
    White,
    /// Red.
    Red,
    /// Green.
    Green,
}

/// A message as a picture (own).
#[derive(Drop)]
pub struct PictureRequest<'a> {
    /// Where the sign comes from.
    pub sign: SignSource<'a>,
    /// What is drawn of the message.
    pub shown: Shown,
    /// What it is written in. The message as it plays is written in GIF.
    pub kind: PictureKind,
    /// How many points side by side a pixel has, 1 to 16.
    pub side: u8,
    /// The colour of lit pixels, if the command line says it. The sign has one colour then.
    pub lit: Option<LitChoice>,
    /// Where the message comes from.
    pub messages: Messages<'a>,
    /// The name of the file that is written, if not the output.
    pub file: Option<&'a str>,
}

/// What a file with this name is written in.
fn kind_of(file: &str) -> Option<PictureKind> {
    if file.ends_with(".gif") {
        return Some(PictureKind::Gif);
    }
    if file.ends_with(".png") {
        return Some(PictureKind::Png);
    }
    if file.ends_with(".ppm") {
        return Some(PictureKind::Ppm);
    }
    None
}

/// Why a file whose name ends otherwise isn't what is asked for.
fn mismatch(asked: PictureKind, kind: PictureKind) -> &'static str {
    match (asked, kind) {
        (PictureKind::Gif, PictureKind::Png) => "a file whose name ends in .png is no GIF",
        (PictureKind::Gif, _) => "a file whose name ends in .ppm is no GIF",
        (_, PictureKind::Gif) => "a file whose name ends in .gif is no PNG",
        (_, _) => "a file whose name ends in .ppm is no PNG",
    }
}

/// What a picture is written in: what its file's name says, unless an option says otherwise, or what the option says.
fn picture_kind(file: Option<&str>, asked: PictureKind) -> Result<PictureKind, &'static str> {
    let Some(file) = file else {
        return Ok(asked);
    };
    let Some(kind) = kind_of(file) else {
        return Err("the name of a picture's file ends in .gif, .png or .ppm");
    };
    if asked == PictureKind::Ppm || asked == kind {
        return Ok(kind);
    }
    Err(mismatch(asked, kind))
}

/// What the options say that a picture is written in.
fn kind_asked(picture: &ArgMatches<'_>) -> PictureKind {
    if picture.get_flag("gif") || picture.get_flag("all") {
        return PictureKind::Gif;
    }
    if picture.get_flag("png") {
        return PictureKind::Png;
    }
    PictureKind::Ppm
}

/// What is drawn of a message.
fn shown_of(picture: &ArgMatches<'_>) -> Shown {
    if picture.get_flag("all") {
        return Shown::Film {
            seconds: word_of(picture, "seconds"),
        };
    }
    if let Some(clock) = number_of(picture, "clock") {
        return Shown::Clock { clock };
    }
    // both have a default
    Shown::Page {
        page: octet_of(picture, "page").unwrap_or(1).saturating_sub(1),
        phase: number_of(picture, "phase").unwrap_or(0),
    }
}

/// The colour of lit pixels, if one is asked for.
fn lit_of(picture: &ArgMatches<'_>) -> Option<LitChoice> {
    match picture.get_str("lit") {
        Some("white") => Some(LitChoice::White),
        Some("red") => Some(LitChoice::Red),
        Some("green") => Some(LitChoice::Green),
        Some(_) => Some(LitChoice::Amber),
        None => None,
    }
}

/// The picture that is asked for of a message, or why it is none.
pub(crate) fn picture_asked<'a>(
    picture: &ArgMatches<'a>,
    sign: SignSource<'a>,
    messages: Messages<'a>,
) -> Result<PictureRequest<'a>, &'static str> {
    let file = picture.get_str("output");
    let kind = picture_kind(file, kind_asked(picture))?;
    Ok(PictureRequest {
        sign,
        shown: shown_of(picture),
        kind,
        side: octet_of(picture, "scale").unwrap_or(8),
        lit: lit_of(picture),
        messages,
        file,
    })
}
