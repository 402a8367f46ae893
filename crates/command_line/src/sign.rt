//! `signctl sign`, which tells of a sign file.

use crate::source::octet_of;
use clap::ArgMatches;

/// How a sign file is told of (own).
#[derive(Clone, Copy)]
pub enum SignFormat {
    /// What it describes, in words.
    Text,
    /// The characters of this font, 1 to 255, as pictures.
    Font(u8),
    /// What was found, in lines as editors read them.
    Lines,
    /// All of it in JSON, with the cells of a font if one is named.
    Json(Option<u8>),
}

/// What a sign file describes, or what is wrong with it (own).
#[derive(Clone, Copy)]
pub struct SignRequest<'a> {
    /// The name of the file, if it isn't the input.
    pub file: Option<&'a str>,
    /// How it is told of.
    pub format: SignFormat,
    /// Whether warnings count as faults.
    pub is_strict: bool,
}

/// How a sign file is told of, or why it can't be told so.
fn format_of(sign: &ArgMatches<'_>) -> Result<SignFormat, &'static str> {
    let font = octet_of(sign, "font");
    match (sign.get_str("format"), font) {
        (Some("json"), _) => Ok(SignFormat::Json(font)),
        (Some("lines"), None) => Ok(SignFormat::Lines),
        (Some("lines"), Some(_)) => Err("--font goes with --format text or json"),
        (_, Some(font)) => Ok(SignFormat::Font(font)),
        _ => Ok(SignFormat::Text),
    }
}

/// What `signctl sign` is asked for, or why it can't be answered.
pub(crate) fn sign_asked<'a>(sign: &ArgMatches<'a>) -> Result<SignRequest<'a>, &'static str> {
    Ok(SignRequest {
        file: sign.get_str("file"),
        format: format_of(sign)?,
        is_strict: sign.get_flag("strict"),
    })
}
