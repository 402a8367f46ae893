//! Completions of command lines for shells, made of the tables of commands and options.

use crate::build::letter_of;
use crate::table::{CODES, COMMANDS, CommandRow, OptionRow, SHELLS, Takes};
use std::alloc::{AllocError, Global};

/// Shells that complete words (own).
#[derive(Clone, Copy)]
enum Shell {
    Bash,
    Fish,
    Zsh,
}

/// What the script for bash ends with. Where no word is found, bash looks for the names of files.
const BASH_END: &str = r#"        esac
    fi
    COMPREPLY=($(compgen -W "$words" -- "$word"))
}
complete -o default -F _signctl signctl
"#;

/// What the script for zsh begins with.
const ZSH_FRONT: &str = "#compdef signctl
_signctl() {
    local -a commands
    commands=(
";

/// What it has between the commands and their options.
const ZSH_MIDDLE: &str = "    )
    if (( CURRENT == 2 )); then
        _describe command commands
        return
    fi
    local command=$words[2]
    shift words
    (( CURRENT-- ))
    case $command in
";

/// What it ends with.
const ZSH_END: &str = r#"    esac
}
if [ "$funcstack[1]" = _signctl ]; then
    _signctl "$@"
else
    compdef _signctl signctl
fi
"#;

/// Appends texts.
fn push_all(script: &mut String, texts: &[&str]) -> Result<(), AllocError> {
    for text in texts {
        script.push_str(text)?;
    }
    Ok(())
}

/// Appends a text between quotation marks, as a shell reads it. For zsh brackets and colons have a backslash, since they end descriptions.
fn push_quoted(script: &mut String, text: &str, shell: Shell) -> Result<(), AllocError> {
    for character in text.chars() {
        match (character, shell) {
            ('\'', Shell::Fish) => script.push_str("\\'")?,
            ('\'', _) => script.push_str("'\\''")?,
            ('[' | ']' | ':', Shell::Zsh) => {
                script.push('\\')?;
                script.push(character)?;
            }
            _ => script.push(character)?,
        }
    }
    Ok(())
}

/// Appends words with spaces between them.
fn push_words(script: &mut String, words: &[&str]) -> Result<(), AllocError> {
    let mut gap = "";
    for word in words {
        push_all(script, &[gap, *word])?;
        gap = " ";
    }
    Ok(())
}

/// The options of a command.
fn options_of(alloc: Global, row: &CommandRow) -> Result<Vec<OptionRow>, AllocError> {
    let mut options = Vec::new(alloc);
    for group in row.options {
        for option in *group {
            options.push(*option)?;
        }
    }
    Ok(options)
}

/// The words of which one stands after an option, or alone. There are none if any text may stand there.
fn words_of(option: &OptionRow) -> &'static [&'static str] {
    match option.takes {
        Takes::Word(_, words) => words,
        Takes::Codes => &CODES,
        Takes::Shell => &SHELLS,
        _ => &[],
    }
}

/// What stands after an option, or alone, if something does.
fn value_of(option: &OptionRow) -> Option<&'static str> {
    match option.takes {
        Takes::Nothing => None,
        Takes::Number(_, _) => Some("N"),
        Takes::Word(what, _) => Some(what),
        Takes::Text(what) => Some(what),
        Takes::Messages => Some("TEXT"),
        Takes::Codes => Some("CODES"),
        Takes::Place | Takes::Places => Some("FILE"),
        Takes::Shell => Some("SHELL"),
    }
}

/// Whether an option stands alone, without its name.
fn is_place(option: &OptionRow) -> bool {
    matches!(option.takes, Takes::Place | Takes::Places | Takes::Shell)
}

/// Appends the names of all commands, for bash.
fn push_commands(script: &mut String) -> Result<(), AllocError> {
    for row in &COMMANDS {
        push_all(script, &[row.name, " "])?;
    }
    script.push_str("--help --version")
}

/// Appends a case for each option of a command after which something stands, with the words of which it is one, for bash.
fn push_bash_values(
    alloc: Global,
    script: &mut String,
    row: &CommandRow,
) -> Result<(), AllocError> {
    for option in options_of(alloc, row)?.iter() {
        if is_place(option) || value_of(option).is_none() {
            continue;
        }
        push_all(script, &["        '", row.name, " --", option.name, "'"])?;
        if let Some(letter) = letter_of(option.name) {
            push_all(script, &[" | '", row.name, " -", letter, "'"])?;
        }
        script.push_str(") words='")?;
        push_words(script, words_of(option))?;
        script.push_str("' ;;\n")?;
    }
    Ok(())
}

/// Appends a case for the options of a command, and the words of which one stands alone there, for bash.
fn push_bash_options(
    alloc: Global,
    script: &mut String,
    row: &CommandRow,
) -> Result<(), AllocError> {
    push_all(script, &["        '", row.name, " '*) words='"])?;
    for option in options_of(alloc, row)?.iter() {
        if !is_place(option) {
            push_all(script, &["--", option.name, " "])?;
            continue;
        }
        for word in words_of(option) {
            push_all(script, &[*word, " "])?;
        }
    }
    script.push_str("--help' ;;\n")
}

/// The script for bash.
fn bash(alloc: Global) -> Result<String, AllocError> {
    let mut script = String::new(alloc);
    script.push_str("_signctl() {\n    local word=${COMP_WORDS[COMP_CWORD]} words=\n")?;
    script.push_str("    if [ \"$COMP_CWORD\" -eq 1 ]; then\n        words='")?;
    push_commands(&mut script)?;
    script.push_str(
        "'\n    else\n        case \"${COMP_WORDS[1]} ${COMP_WORDS[COMP_CWORD-1]}\" in\n",
    )?;
    for row in &COMMANDS {
        push_bash_values(alloc, &mut script, row)?;
        push_bash_options(alloc, &mut script, row)?;
    }
    script.push_str(BASH_END)?;
    Ok(script)
}

/// Appends what stands after an option, or alone, for zsh.
fn push_zsh_value(script: &mut String, option: &OptionRow) -> Result<(), AllocError> {
    let Some(value) = value_of(option) else {
        return Ok(());
    };
    push_all(script, &[":", value, ":"])?;
    let words = words_of(option);
    if !words.is_empty() {
        script.push('(')?;
        push_words(script, words)?;
        script.push(')')?;
    } else if value == "FILE" {
        script.push_str("_files")?;
    }
    Ok(())
}

/// Appends an option by one of its names, with its dashes, for zsh.
fn push_zsh_option(
    script: &mut String,
    option: &OptionRow,
    dashes: &str,
    name: &str,
) -> Result<(), AllocError> {
    script.push_str(" \\\n            '")?;
    if matches!(option.takes, Takes::Messages | Takes::Codes) {
        script.push('*')?;
    }
    push_all(script, &[dashes, name, "["])?;
    push_quoted(script, option.help, Shell::Zsh)?;
    script.push(']')?;
    push_zsh_value(script, option)?;
    script.push('\'')
}

/// Appends what stands alone, for zsh.
fn push_zsh_place(script: &mut String, option: &OptionRow) -> Result<(), AllocError> {
    let count = match option.takes {
        Takes::Places => "*",
        _ => "1",
    };
    push_all(script, &[" \\\n            '", count])?;
    push_zsh_value(script, option)?;
    script.push('\'')
}

/// Appends a case for a command with its options, for zsh.
fn push_zsh_case(alloc: Global, script: &mut String, row: &CommandRow) -> Result<(), AllocError> {
    push_all(script, &["    ", row.name, ")\n        _arguments"])?;
    for option in options_of(alloc, row)?.iter() {
        if is_place(option) {
            push_zsh_place(script, option)?;
        } else {
            push_zsh_option(script, option, "--", option.name)?;
            if let Some(letter) = letter_of(option.name) {
                push_zsh_option(script, option, "-", letter)?;
            }
        }
    }
    script.push_str(" \\\n            '--help[Print help]' ;;\n")
}

/// The script for zsh.
fn zsh(alloc: Global) -> Result<String, AllocError> {
    let mut script = String::new(alloc);
    script.push_str(ZSH_FRONT)?;
    for row in &COMMANDS {
        push_all(&mut script, &["        '", row.name, ":"])?;
        push_quoted(&mut script, row.about, Shell::Bash)?;
        script.push_str("'\n")?;
    }
    script.push_str(ZSH_MIDDLE)?;
    for row in &COMMANDS {
        push_zsh_case(alloc, &mut script, row)?;
    }
    script.push_str(ZSH_END)?;
    Ok(script)
}

/// Appends what stands after an option, or alone, for fish.
fn push_fish_value(script: &mut String, option: &OptionRow) -> Result<(), AllocError> {
    let words = words_of(option);
    if !words.is_empty() {
        script.push_str(" -x -a '")?;
        push_words(script, words)?;
        return script.push_str("'");
    }
    match value_of(option) {
        Some("FILE") => script.push_str(" -r -F"),
        Some(_) => script.push_str(" -x"),
        None => Ok(()),
    }
}

/// Appends a line for an option of a command, for fish, which completes the names of files without a line.
fn push_fish_option(
    script: &mut String,
    row: &CommandRow,
    option: &OptionRow,
) -> Result<(), AllocError> {
    if is_place(option) && words_of(option).is_empty() {
        return Ok(());
    }
    let seen = "complete -c signctl -n '__fish_seen_subcommand_from ";
    push_all(script, &[seen, row.name, "'"])?;
    if !is_place(option) {
        push_all(script, &[" -l ", option.name])?;
    }
    if let Some(letter) = letter_of(option.name) {
        push_all(script, &[" -s ", letter])?;
    }
    push_fish_value(script, option)?;
    script.push_str(" -d '")?;
    push_quoted(script, option.help, Shell::Fish)?;
    script.push_str("'\n")
}

/// The script for fish.
fn fish(alloc: Global) -> Result<String, AllocError> {
    let mut script = String::new(alloc);
    for row in &COMMANDS {
        let front = "complete -c signctl -n __fish_use_subcommand -f -a ";
        push_all(&mut script, &[front, row.name, " -d '"])?;
        push_quoted(&mut script, row.about, Shell::Fish)?;
        script.push_str("'\n")?;
        for option in options_of(alloc, row)?.iter() {
            push_fish_option(&mut script, row, option)?;
        }
    }
    Ok(script)
}

/// The script by which a shell of this name completes command lines.
pub(crate) fn script_for(alloc: Global, shell: &str) -> Result<String, AllocError> {
    match shell {
        "bash" => bash(alloc),
        "fish" => fish(alloc),
        _ => zsh(alloc),
    }
}
