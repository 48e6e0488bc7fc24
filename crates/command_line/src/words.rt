//! The words of the command line.
ghost use Rattle.std.specs.Prelude.{◌≡◌, ◌↔◌, ℕ, ◌^◌, ◌<◌, ◌≤◌, ◌==◌, []};
ghost use Rattle.std.specs.Prelude.{codes, true, false, IfOk, IfErr, OnOk, OnErr, MatchOption};
ghost use Rattle.std.specs.Prelude.{IsTrue, Some, is_some, map, option_map, fold, string_bytes};
ghost use Rattle.std.specs.Char.{is_ascii_digit};
ghost use Rattle.std.specs.List.{list_all, list_any};
ghost use Rattle.clap.specs.Words.{app_of, with_subcommand, first_of, found_of};
ghost use Rattle.clap.specs.Words.{rows_of, rule_of, takes, fault_of};
ghost use Rattle.grid.specs.declared.cell.Cell.{Cell};
ghost use Rattle.text_io.specs.Text.{SpellsNumber};
ghost use Rattle.tape_claim.specs.declared.TapeClaim.{TapeClaim};
ghost use Rattle.command_line.specs.Words.{program_app, AsksToExplain, IsFlagGiven};
ghost use Rattle.command_line.specs.Words.{HasValues, GivesNumber, GivesNumberBelow};
ghost use Rattle.command_line.specs.Words.{GiveValues, SpellsCell, MayGiveCell};
ghost use Rattle.command_line.specs.Words.{GivesCells, GivesClaim, MakesClaim};
ghost use Rattle.command_line.specs.Words.{SaysClaim, MayGiveNumber, GivesNumbers};
ghost use Rattle.command_line.specs.Words.{IsAskedBy, IsLineBy, IsFaultBy};
ghost use Rattle.command_line.specs.Words.{IsLineOf, IsFaultOf, GivesNumbersFrom};
ghost use Rattle.command_line.specs.Words.{MayGiveNumberFrom, GivesPattern, spelled_out};
ghost use Rattle.command_line.specs.Code.Parts.{HasWords, IsRefusal, rule_of_word, shape_of_text};

use crate::command_line::refused;
use crate::help::{self, CommandText, NumberText, Word};
use crate::plan_words::plan_commands;
use crate::reading::read_command;
use crate::refusal::shown;
use crate::run_words::run_commands;
use crate::spelling::spelled_out;
use crate::text_words::text_commands;
use crate::{Asked, LineFault};
use clap::{Arg, ArgAction, ArgMatches, Command};
use grid::Cell;
use std::alloc::{AllocError, Global};
use tape_claim::TapeClaim;

/// Reads the words of the command line, the program's name first.
pub fn line(alloc: Global, words: &[String]) -> Result<Asked, LineFault>
    ensures command { IfOk result (IsLineOf (map string_bytes words.now)) }
    ensures taken { OnOk result
        (fault_of program_app (spelled_out (map string_bytes words.now)) ≡ []) }
    ensures refused { IfErr result
        (λ e. takes program_app (spelled_out (map string_bytes words.now)) ≡ true
        → GiveValues (spelled_out (map string_bytes words.now)) → e ≡ LineFault.OutOfMemory) }
    ensures fault { IfErr result (IsFaultOf (map string_bytes words.now)) }
{
    let words = spelled_out(alloc, words)?;
    read_line(alloc, words.as_slice())
}

/// Reads the words as they are taken.
fn read_line(alloc: Global, words: &[String]) -> Result<Asked, LineFault>
    ensures command { IfOk result (IsLineBy (map string_bytes words.now)) }
    ensures taken { OnOk result (fault_of program_app (map string_bytes words.now) ≡ []) }
    ensures refused { IfErr result (λ e. takes program_app (map string_bytes words.now) ≡ true
        → GiveValues (map string_bytes words.now) → e ≡ LineFault.OutOfMemory) }
    ensures fault { IfErr result (IsFaultBy (map string_bytes words.now)) }
{
    let program = program(alloc)?;
    let matches = match program.try_get_matches_from(words) {
        Ok(matches) => matches,
        Err(error) => return Err(refused(alloc, words, &error)),
    };
    match matches.subcommand() {
        Some((name, given)) => read_asked(alloc, name, given),
        None => Err(no_command(alloc)),
    }
}

/// Reads the command with this name, by the words that it was given, and whether more is asked for.
fn read_asked(alloc: Global, name: &str, given: &ArgMatches<'_>) -> Result<Asked, LineFault>
    ensures ok { IfOk result (IsAskedBy name.now (rows_of (found_of given.now))) }
    ensures err { IfErr result (λ e. HasWords name.now (rows_of (found_of given.now))
        → HasValues name.now (rows_of (found_of given.now))
        → e ≡ LineFault.OutOfMemory) }
    ensures refusal { IfErr result IsRefusal }
{
    Ok(Asked {
        line: read_command(alloc, name, given)?,
        explain: asks_to_explain(given),
    })
}

/// All commands, as `clap` takes them.
pub(crate) fn program<'a>(alloc: Global) -> Result<Command<'a>, AllocError>
    ensures { IfOk result (λ c. app_of c ≡ program_app) }
{
    let program = Command::new(alloc, "mapf")
        .version(help::VERSION)
        .about(help::PROGRAM_ABOUT)
        .after_help(help::PROGRAM_AFTER_HELP)
        .subcommand_required(true);
    let program = with_commands(alloc, program, text_commands())?;
    let program = with_commands(alloc, program, plan_commands())?;
    with_commands(alloc, program, run_commands())
}

/// The program with more commands.
fn with_commands<'a>(
    alloc: Global,
    bare: Command<'a>,
    texts: &[CommandText<'a>],
) -> Result<Command<'a>, AllocError>
    ensures { IfOk result
        (λ c. app_of c ≡ fold with_subcommand (app_of bare.entry) (map shape_of_text texts.now)) }
{
    let mut program = bare;
    for text in texts {
        program = with_command(alloc, program, text)?;
    }
    Ok(program)
}

/// The program with one more command.
fn with_command<'a>(
    alloc: Global,
    program: Command<'a>,
    text: &CommandText<'a>,
) -> Result<Command<'a>, AllocError>
    ensures { IfOk result
        (λ c. app_of c ≡ with_subcommand (app_of program.entry) (shape_of_text text.now)) }
{
    let mut command = Command::new(alloc, text.name)
        .about(text.about)
        .after_help(text.after_help);
    for word in text.words {
        command = command.arg(argument(alloc, word))?;
    }
    program.subcommand(command)
}

/// A word of a command, as `clap` takes it.
fn argument<'a>(alloc: Global, word: &Word<'a>) -> Arg<'a>
    ensures rule { rule_of result ≡ rule_of_word word.now }
    ensures local { result.global ≡ false }
{
    match *word {
        Word::Required(name, text) => Arg::new(alloc, name).required(true).help(text),
        Word::Named(name, text) => Arg::new(alloc, name).long(name).help(text),
        Word::Cell(name, text) => Arg::new(alloc, name)
            .long(name)
            .num_args(2)
            .value_names(&["X", "Y"])
            .help(text),
        Word::Flag(name, text) => Arg::new(alloc, name)
            .long(name)
            .action(ArgAction::SetTrue)
            .help(text),
    }
}

/// The number of the row that was given.
pub(crate) fn long_number(
    alloc: Global,
    given: &ArgMatches<'_>,
    name: &str,
    text: &NumberText,
) -> Result<u32, LineFault>
    ensures ok { IfOk result (GivesNumber name.now (rows_of (found_of given.now))) }
    ensures none { OnErr result
        (GivesNumberBelow (2 ^ 32) name.now (rows_of (found_of given.now)) → ⊥) }
    ensures err { IfErr result IsRefusal }
{
    match number(given, name) {
        Some(number) => Ok(number),
        None => Err(no_number(alloc, given, name, text)),
    }
}

/// The number of the agent that was given.
pub(crate) fn agent_id(
    alloc: Global,
    given: &ArgMatches<'_>,
    text: &NumberText,
) -> Result<u16, LineFault>
    ensures ok { IfOk result (GivesNumber (codes "id") (rows_of (found_of given.now))) }
    ensures none { OnErr result
        (GivesNumberBelow (2 ^ 16) (codes "id") (rows_of (found_of given.now)) → ⊥) }
    ensures err { IfErr result IsRefusal }
{
    match short_number(given, "id") {
        Some(id) => Ok(id),
        None => Err(no_number(alloc, given, "id", text)),
    }
}

/// The number that an option was given, if it was given one. The text is what is said of a word
/// that is none.
pub(crate) fn optional_number(
    alloc: Global,
    given: &ArgMatches<'_>,
    name: &str,
    text: &str,
) -> Result<Option<u16>, LineFault>
    ensures ok { IfOk result (MayGiveNumber name.now (rows_of (found_of given.now))) }
    ensures none { OnErr result
        (GivesNumbers (2 ^ 16) name.now (rows_of (found_of given.now)) → ⊥) }
    ensures err { IfErr result IsRefusal }
{
    let Some(digits) = given.get_str(name) else {
        return Ok(None);
    };
    match spelled_short(digits) {
        Some(number) => Ok(Some(number)),
        None => Err(LineFault::bad_command(alloc, text)),
    }
}

/// The same of a number below 2^32 that is no less than the least.
pub(crate) fn optional_long_number(
    alloc: Global,
    given: &ArgMatches<'_>,
    name: &str,
    least: u32,
    text: &str,
) -> Result<Option<u32>, LineFault>
    ensures ok { IfOk result (MayGiveNumberFrom least name.now (rows_of (found_of given.now))) }
    ensures none { OnErr result
        (GivesNumbersFrom least name.now (rows_of (found_of given.now)) → ⊥) }
    ensures err { IfErr result IsRefusal }
{
    let Some(digits) = given.get_str(name) else {
        return Ok(None);
    };
    match spelled_from(least, digits) {
        Some(number) => Ok(Some(number)),
        None => Err(LineFault::bad_command(alloc, text)),
    }
}

/// What is claimed of a tape, if something is.
pub(crate) fn tape_claim(alloc: Global, given: &ArgMatches<'_>) -> Result<TapeClaim, LineFault>
    ensures ok { IfOk result (MakesClaim (codes "tape") (rows_of (found_of given.now))) }
    ensures none { OnErr result (GivesClaim (codes "tape") (rows_of (found_of given.now)) → ⊥) }
    ensures err { IfErr result IsRefusal }
{
    let Some(word) = given.get_str("tape") else {
        return Ok(TapeClaim::Any);
    };
    match claim_of(word) {
        Some(claim) => Ok(claim),
        None => Err(LineFault::bad_command(alloc, help::NO_CLAIM)),
    }
}

/// The claim that a word makes, if it makes one.
fn claim_of(word: &str) -> Option<TapeClaim>
    ensures { MatchOption result ((claim : TapeClaim) → SaysClaim claim word.now → ⊥)
        (λ claim. SaysClaim claim word.now) }
{
    match word {
        "new" => Some(TapeClaim::New),
        "kept" => Some(TapeClaim::Kept),
        _ => None,
    }
}

/// The cell that was given for an option, if one was; `text` says what is wanted.
pub(crate) fn optional_cell(
    alloc: Global,
    given: &ArgMatches<'_>,
    name: &str,
    text: &str,
) -> Result<Option<Cell>, LineFault>
    ensures ok { IfOk result (MayGiveCell name.now (rows_of (found_of given.now))) }
    ensures none { OnErr result (GivesCells name.now (rows_of (found_of given.now)) → ⊥) }
    ensures err { IfErr result IsRefusal }
{
    let Some(values) = given.get_strs(name) else {
        return Ok(None);
    };
    match cell_of(values) {
        Some(cell) => Ok(Some(cell)),
        None => Err(LineFault::bad_command(alloc, text)),
    }
}

/// The cell whose column and row are spelled, if there are two such values.
fn cell_of(values: &[&str]) -> Option<Cell>
    ensures { MatchOption result ((cell : Cell) → cell.x < 2 ^ 16 → cell.y < 2 ^ 16
        → SpellsCell cell (map (λ v. v.now) values.now) → ⊥)
        (λ cell. SpellsCell cell (map (λ v. v.now) values.now)) }
{
    match values {
        [x, y] => Some(Cell {
            x: spelled_short(x)?,
            y: spelled_short(y)?,
        }),
        _ => None,
    }
}

/// Says that the word that was given is no number of the kind that is wanted.
fn no_number(alloc: Global, given: &ArgMatches<'_>, name: &str, text: &NumberText) -> LineFault
    ensures { IsRefusal result }
{
    let Ok(word) = shown(alloc, given.get_str(name).unwrap_or("")) else {
        return LineFault::OutOfMemory;
    };
    let wanted = text.wanted;
    let usage = text.usage;
    match format!(in alloc;
        "error: invalid value '{word}' for '<{name}>': {wanted}, in digits alone\n\nUsage: {usage}\n\nFor more information, try '--help'.\n"
    ) {
        Ok(text) => LineFault::BadCommand(text),
        Err(_) => LineFault::OutOfMemory,
    }
}

/// Says that the words are no command.
pub(crate) fn no_command(alloc: Global) -> LineFault
    ensures { IsRefusal result }
{
    LineFault::bad_command(alloc, help::NO_COMMAND)
}

/// The number below 2^16 that an argument was given, if that is one.
fn short_number(given: &ArgMatches<'_>, name: &str) -> Option<u16>
    ensures { MatchOption result
        (GivesNumberBelow (2 ^ 16) name.now (rows_of (found_of given.now)) → ⊥)
        (GivesNumber name.now (rows_of (found_of given.now))) }
{
    u16::try_from(number(given, name)?).ok()
}

/// The number that an argument was given, if that is one.
fn number(given: &ArgMatches<'_>, name: &str) -> Option<u32>
    ensures { MatchOption result
        (GivesNumberBelow (2 ^ 32) name.now (rows_of (found_of given.now)) → ⊥)
        (GivesNumber name.now (rows_of (found_of given.now))) }
{
    spelled(given.get_str(name)?)
}

/// The number that digits spell, if there is nothing but digits.
fn spelled(digits: &str) -> Option<u32>
    ensures { MatchOption result ((n : ℕ) → n < 2 ^ 32 → SpellsNumber n digits.now → ⊥)
        (λ n. SpellsNumber n digits.now) }
{
    if are_digits(digits) {
        digits.parse().ok()
    } else {
        None
    }
}

/// The same of a number below 2^16.
fn spelled_short(digits: &str) -> Option<u16>
    ensures { MatchOption result ((n : ℕ) → n < 2 ^ 16 → SpellsNumber n digits.now → ⊥)
        (λ n. SpellsNumber n digits.now) }
{
    u16::try_from(spelled(digits)?).ok()
}

/// The same of a number that is no less than the least.
fn spelled_from(least: u32, digits: &str) -> Option<u32>
    ensures { MatchOption result ((n : ℕ) → least ≤ n → n < 2 ^ 32 → SpellsNumber n digits.now → ⊥)
        (λ n. (least ≤ n) × SpellsNumber n digits.now) }
{
    let number = spelled(digits)?;
    if number < least { None } else { Some(number) }
}

fn are_digits(text: &str) -> bool
    ensures { result ≡ list_all is_ascii_digit text.now }
{
    text.bytes().all(|b| b.is_ascii_digit())
}

/// The word that an argument was given.
pub(crate) fn word(alloc: Global, given: &ArgMatches<'_>, name: &str) -> Result<String, LineFault>
    ensures ok { IfOk result (λ s. first_of name.now (rows_of (found_of given.now))
        ≡ Some (string_bytes s)) }
    ensures err { IfErr result
        (λ e. IsTrue (is_some (first_of name.now (rows_of (found_of given.now))))
        → e ≡ LineFault.OutOfMemory) }
    ensures refusal { IfErr result IsRefusal }
{
    match given.get_str(name) {
        Some(text) => Ok(String::from_str(alloc, text)?),
        None => Err(no_command(alloc)),
    }
}

/// The name of all tapes, in which numbers stand for `%`.
pub(crate) fn tapes_word(alloc: Global, given: &ArgMatches<'_>) -> Result<String, LineFault>
    ensures ok { IfOk result (λ s. first_of (codes "tapes") (rows_of (found_of given.now))
        ≡ Some (string_bytes s)) }
    ensures err { IfErr result
        (λ e. IsTrue (is_some (first_of (codes "tapes") (rows_of (found_of given.now))))
        → GivesPattern (codes "tapes") (rows_of (found_of given.now))
        → e ≡ LineFault.OutOfMemory) }
    ensures refusal { IfErr result IsRefusal }
{
    let tapes = word(alloc, given, "tapes")?;
    if is_pattern(&tapes) {
        Ok(tapes)
    } else {
        Err(LineFault::bad_command(alloc, help::NO_PATTERN))
    }
}

/// Whether a name has a `%`.
fn is_pattern(name: &str) -> bool
    ensures { result ≡ list_any (λ c. c == 37) name.now }
{
    name.bytes().any(|byte| byte == b'%')
}

/// The word that an argument was given, if it was given one.
pub(crate) fn optional_word(
    alloc: Global,
    given: &ArgMatches<'_>,
    name: &str,
) -> Result<Option<String>, AllocError>
    ensures { IfOk result (λ s. first_of name.now (rows_of (found_of given.now))
        ≡ option_map string_bytes s) }
{
    match given.get_str(name) {
        Some(text) => Ok(Some(String::from_str(alloc, text)?)),
        None => Ok(None),
    }
}

/// Whether an explanation is asked for.
fn asks_to_explain(given: &ArgMatches<'_>) -> bool
    ensures { AsksToExplain (rows_of (found_of given.now)) result }
{
    has_flag(given, "explain")
}

/// Whether a flag was given.
pub(crate) fn has_flag(given: &ArgMatches<'_>, name: &str) -> bool
    ensures { result ≡ true ↔ IsFlagGiven name.now (rows_of (found_of given.now)) }
{
    // `get_flag` promises nothing where the text is neither `true` nor `false`
    given.get_one(name).unwrap_or(false)
}
