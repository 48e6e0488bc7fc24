//! The words of the command line as they are taken.
ghost use Rattle.std.specs.Prelude.{◌≡◌, ◌++◌, IfOk, map, string_bytes};
ghost use Rattle.command_line.specs.Words.{spelled_out, spelled_word, with_all_spelled};

use std::alloc::{AllocError, Global};

/// What `--all` alone stands for.
const ALL: &str = "--all=1000";

/// The words with `--all=1000` for `--all`, where they are those of `check`: so that its option
/// takes a value behind `=` alone.
pub(crate) fn spelled_out(alloc: Global, words: &[String]) -> Result<Vec<String>, AllocError>
    ensures { IfOk result (λ spelled. map string_bytes spelled.items
        ≡ spelled_out (map string_bytes words.now)) }
{
    let mut spelled = Vec::with_capacity(alloc, words.len())?;
    match words {
        [name, command, rest @ ..] => {
            spelled.push(name.clone()?)?;
            spelled.push(command.clone()?)?;
            if command.as_str() == "check" {
                push_spelled(alloc, &mut spelled, rest)?;
            } else {
                push_all(&mut spelled, rest)?;
            }
        }
        _ => push_all(&mut spelled, words)?,
    }
    Ok(spelled)
}

/// Adds words as they are.
fn push_all(spelled: &mut Vec<String>, words: &[String]) -> Result<(), AllocError>
    ensures { IfOk result (λ _. map string_bytes spelled.new.items
        ≡ map string_bytes spelled.old.items ++ map string_bytes words.now) }
{
    for word in words {
        spelled.push(word.clone()?)?;
    }
    Ok(())
}

/// Adds words, up to a `--` with what stands for `--all`.
fn push_spelled(
    alloc: Global,
    spelled: &mut Vec<String>,
    words: &[String],
) -> Result<(), AllocError>
    ensures { IfOk result (λ _. map string_bytes spelled.new.items
        ≡ map string_bytes spelled.old.items ++ with_all_spelled (map string_bytes words.now)) }
{
    for (at, word) in words.iter().enumerate() {
        if word.as_str() == "--" {
            return push_all(spelled, &words[at..]);
        }
        spelled.push(spelled_word(alloc, word)?)?;
    }
    Ok(())
}

fn spelled_word(alloc: Global, word: &str) -> Result<String, AllocError>
    ensures { IfOk result (λ spelled. string_bytes spelled ≡ spelled_word word.now) }
{
    String::from_str(alloc, if word == "--all" { ALL } else { word })
}
