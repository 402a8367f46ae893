//! `signctl explain`, which says of each message why it is refused, or draws its pages.

use crate::messages::{ManyMessages, many_messages_of};
use crate::source::{SignSource, Surroundings, number_of};
use crate::table::{CODES, WARNINGS};
use clap::ArgMatches;
use std::alloc::{AllocError, Global};

/// What an explanation is written as (own).
#[derive(Clone, Copy)]
pub enum ReportFormat {
    /// Words and pictures for people.
    Text,
    /// The same for terminals, in the sign's colours.
    Ansi,
    /// Lines as editors read them.
    Lines,
    /// The same as annotations of a workflow of GitHub.
    Annotations,
    /// The same as a log in SARIF.
    Sarif,
    /// A record in JSON for each message.
    Json,
    /// The messages alone, mended.
    Mended,
    /// What is changed where they are mended, as a unified diff.
    Changed,
}

/// Each message in words and pictures (own).
#[derive(Drop)]
pub struct ExplainRequest<'a> {
    /// Where the sign comes from. It isn't the input if the messages are given.
    pub sign: SignSource<'a>,
    /// Where the messages come from.
    pub messages: ManyMessages<'a>,
    /// What an explanation is written as.
    pub format: ReportFormat,
    /// When pages are drawn, in tenths of a second since each began.
    pub phase: u32,
    /// Whether only refused messages and warnings are told of.
    pub refused_only: bool,
    /// Whether the record of a page has its picture.
    pub has_pictures: bool,
    /// Whether warnings count as refusals.
    pub is_strict: bool,
    /// Which warnings are asked for, and which are passed over, by the numbers of their codes, the first of which is 1.
    pub selected: [bool; WARNINGS],
    pub ignored: [bool; WARNINGS],
    /// Whether nothing is said but what went wrong.
    pub is_quiet: bool,
}

/// What an explanation is written as.
fn format_of(explain: &ArgMatches<'_>) -> ReportFormat {
    match explain.get_str("format") {
        Some("lines") => ReportFormat::Lines,
        Some("github") => ReportFormat::Annotations,
        Some("sarif") => ReportFormat::Sarif,
        Some("json") => ReportFormat::Json,
        _ if explain.get_flag("fix") => ReportFormat::Mended,
        _ if explain.get_flag("diff") => ReportFormat::Changed,
        _ if explain.get_flag("ansi") => ReportFormat::Ansi,
        _ => ReportFormat::Text,
    }
}

/// Which codes an option names, by their numbers.
fn codes_of(explain: &ArgMatches<'_>, option: &str) -> [bool; WARNINGS] {
    let mut named = [false; WARNINGS];
    let Some(codes) = explain.get_strs(option) else {
        return named;
    };
    for (place, known) in CODES.iter().enumerate() {
        if let Some(is_named) = named.get_mut(place) {
            *is_named = codes.contains(known);
        }
    }
    named
}

/// Why `signctl explain` can't be answered, if it can't.
pub(crate) fn explain_refusal(explain: &ArgMatches<'_>) -> Option<&'static str> {
    if explain.get_flag("ansi") && !matches!(format_of(explain), ReportFormat::Ansi) {
        return Some("--ansi goes with --format text");
    }
    if explain.get_flag("fix") && !matches!(format_of(explain), ReportFormat::Mended) {
        return Some("--fix goes with --format text");
    }
    if explain.get_flag("diff") && !matches!(format_of(explain), ReportFormat::Changed) {
        return Some("--diff goes with --format text");
    }
    let has_several = matches!(explain.get_strs("file"), Some(names) if names.len() > 1);
    if has_several && matches!(format_of(explain), ReportFormat::Json) {
        return Some("--format json goes with one FILE, since a record doesn't name its file");
    }
    None
}

/// What `signctl explain` is asked for.
pub(crate) fn explain_asked<'a>(
    alloc: Global,
    explain: &ArgMatches<'a>,
    sign: SignSource<'a>,
    around: Surroundings<'a>,
) -> Result<ExplainRequest<'a>, AllocError> {
    Ok(ExplainRequest {
        sign,
        messages: many_messages_of(alloc, explain)?,
        format: match format_of(explain) {
            ReportFormat::Text if around.has_colours => ReportFormat::Ansi,
            format => format,
        },
        // it has a default
        phase: number_of(explain, "phase").unwrap_or(0),
        refused_only: explain.get_flag("refused"),
        has_pictures: explain.get_flag("pages"),
        is_strict: explain.get_flag("strict"),
        selected: codes_of(explain, "select"),
        ignored: codes_of(explain, "ignore"),
        is_quiet: explain.get_flag("quiet"),
    })
}
