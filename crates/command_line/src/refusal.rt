//! What is said of words that `clap` refuses: mostly its own text.
use crate::help::{self, CommandText};
use crate::plan_words::plan_commands;
use crate::run_words::run_commands;
use crate::text_words::text_commands;
use crate::words::program;
use clap::error::{Error as ClapError, ErrorKind};
use std::alloc::{AllocError, Global};

/// How `clap` begins its advice for a word that begins like a negative number.
const TIP_OF_MINUS: &str = "  tip: to pass '-";

/// What is said of these words, which `clap` refused with this error, or the help that they ask
/// for.
pub(crate) fn refusal_text(
    alloc: Global,
    words: &[String],
    error: &ClapError,
) -> Result<String, AllocError> {
    match error.kind() {
        ErrorKind::InvalidSubcommand => unknown_command(alloc, words, error),
        ErrorKind::UnknownArgument => unknown_argument(alloc, words, error),
        _ => clap_text(alloc, words, error),
    }
}

/// Says that a command is none, and which ones are near.
fn unknown_command(
    alloc: Global,
    words: &[String],
    error: &ClapError,
) -> Result<String, AllocError> {
    let name = command_name(words);
    let near = near_commands(alloc, name)?;
    if near.is_empty() {
        return clap_text(alloc, words, error);
    }
    let word = shown(alloc, name)?;
    format!(in alloc;
        "error: unrecognized subcommand '{word}'\n\n  tip: {near}\n\nUsage: mapf <COMMAND>\n\nFor more information, try '--help'.\n"
    )
}

/// The word that stands for a command, or the one behind `help`.
fn command_name(words: &[String]) -> &str {
    match words {
        [_, help, name, ..] if help.as_str() == "help" => name,
        [_, name, ..] => name,
        _ => "",
    }
}

/// The advice to take a command that is near, or nothing where none is.
fn near_commands(alloc: Global, word: &str) -> Result<String, AllocError> {
    let mut near = Vec::new(alloc);
    for commands in [text_commands(), plan_commands(), run_commands()] {
        push_near(&mut near, word, commands)?;
    }
    if is_near(word.as_bytes(), b"help") {
        near.push("help")?;
    }
    let mut advice = String::new(alloc);
    for (place, command) in near.iter().enumerate() {
        advice.push_str(match (place, near.len()) {
            (0, 1) => "a similar command exists: ",
            (0, _) => "some similar commands exist: ",
            _ => ", ",
        })?;
        write!(advice, "'{command}'")?;
    }
    Ok(advice)
}

/// Adds the names of the commands that are near.
fn push_near(
    near: &mut Vec<&'static str>,
    word: &str,
    commands: &[CommandText<'static>],
) -> Result<(), AllocError> {
    for command in commands {
        if is_near(word.as_bytes(), command.name.as_bytes()) {
            near.push(command.name)?;
        }
    }
    Ok(())
}

/// Whether one letter more, less or other, or two that are exchanged, make the one of the other.
fn is_near(word: &[u8], command: &[u8]) -> bool {
    for (place, (one, other)) in word.iter().zip(command).enumerate() {
        if one != other {
            return word.len() > place
                && command.len() > place
                && differ_once(&word[place..], &command[place..]);
        }
    }
    word.len().abs_diff(command.len()) == 1
}

/// The same of words that begin with different letters.
fn differ_once(word: &[u8], command: &[u8]) -> bool {
    match (word, command) {
        ([_, word_rest @ ..], [_, command_rest @ ..]) => {
            word_rest == command_rest
                || word_rest == command
                || word == command_rest
                || are_exchanged(word, command)
        }
        _ => false,
    }
}

fn are_exchanged(word: &[u8], command: &[u8]) -> bool {
    match (word, command) {
        ([first, second, word_rest @ ..], [other, another, command_rest @ ..]) => {
            first == another && second == other && word_rest == command_rest
        }
        _ => false,
    }
}

/// Says that a word is no option. Where numbers are wanted, `clap`'s advice for a negative one
/// leads to another refusal.
fn unknown_argument(
    alloc: Global,
    words: &[String],
    error: &ClapError,
) -> Result<String, AllocError> {
    let text = clap_text(alloc, words, error)?;
    if !takes_number(words) {
        return Ok(text);
    }
    match around_minus_tip(&text) {
        Some((before, after)) => {
            format!(in alloc; "{before}  tip: a number from 0 on is wanted\n{after}")
        }
        None => Ok(text),
    }
}

/// Whether the words begin a command that takes numbers.
fn takes_number(words: &[String]) -> bool {
    matches!(
        command_name(words),
        "map"
            | "row"
            | "rows"
            | "check"
            | "deps"
            | "path"
            | "cut"
            | "agent"
            | "tape"
            | "lost"
            | "anew"
    )
}

/// What stands before and behind the line of the advice for a word that is a negative number.
fn around_minus_tip(text: &str) -> Option<(&str, &str)> {
    let (before, rest) = text.split_once(TIP_OF_MINUS)?;
    let (tip, after) = rest.split_once('\n')?;
    if tip.as_bytes().first()?.is_ascii_digit() {
        Some((before, after))
    } else {
        None
    }
}

/// The text of `clap`, in which no byte of a word moves the cursor: it is asked again with the
/// words as they are shown.
fn clap_text(alloc: Global, words: &[String], error: &ClapError) -> Result<String, AllocError> {
    if words.iter().all(|word| is_plain(word)) {
        return format!(in alloc; "{error}");
    }
    let shown = shown_words(alloc, words)?;
    match program(alloc)?.try_get_matches_from(shown.as_slice()) {
        Err(error) => format!(in alloc; "{error}"),
        Ok(_) => String::from_str(alloc, help::NO_COMMAND),
    }
}

/// The words as they are shown.
fn shown_words(alloc: Global, words: &[String]) -> Result<Vec<String>, AllocError> {
    let mut all = Vec::new(alloc);
    for word in words {
        all.push(shown(alloc, word)?)?;
    }
    Ok(all)
}

/// A word in which bytes that would move the cursor are written as `\x1b`.
pub(crate) fn shown(alloc: Global, word: &str) -> Result<String, AllocError> {
    let mut text = String::new(alloc);
    for letter in word.chars() {
        if letter.is_ascii_control() {
            let code = u32::from(letter);
            write!(text, "\\x{code:02x}")?;
        } else {
            text.push(letter)?;
        }
    }
    Ok(text)
}

fn is_plain(word: &str) -> bool {
    word.bytes().all(|byte| !byte.is_ascii_control())
}
