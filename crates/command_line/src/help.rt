//! What help says of the program, and what is said of words that are refused.

/// A word of a command: its name and what help says of it.
pub(crate) enum Word<'a> {
    /// Stands in its place, and has to be there.
    Required(&'a str, &'a str),
    /// Takes a value, as `--name VALUE`.
    Named(&'a str, &'a str),
    /// Takes the column and the row of a cell, as `--name X Y`.
    Cell(&'a str, &'a str),
    /// Is there or not, as `--name`.
    Flag(&'a str, &'a str),
}

/// The flag that each command has.
pub(crate) const EXPLAIN: Word<'static> = Word::Flag(
    "explain",
    "Explains a fault, behind its line",
);

/// A command with its words. `about` is one line, and `after_help` stands below the words.
pub(crate) struct CommandText<'a> {
    pub(crate) name: &'a str,
    pub(crate) about: &'a str,
    pub(crate) after_help: &'a str,
    pub(crate) words: &'a [Word<'a>],
}

/// The version, and in a second line the kit that proved it, as `tools/dist.py` finds it.
pub(crate) const VERSION: &str = "0.2.0-dev
proved by rattle-kit-13f logic dac8208d650f15bf";

pub(crate) const PROGRAM_ABOUT: &str =
    "Reads maps, scenarios and plans, answers what they hold, and runs plans";

pub(crate) const PROGRAM_AFTER_HELP: &str = "\
Answers go to standard output. A fault is one line on standard error.

Status:
  0  done
  1  a text or a plan has a fault, or the answer is no
  2  a bad command line
  3  a file can't be opened (--explain says which, and why), a device failed, or
     memory was refused

`mapf help COMMAND` shows the answer, the statuses and an example of a command.
`mapf help faults` lists all faults, and `mapf help FAULT` shows one, and what
to do about it. With --explain a command says more about its fault than the
line.";

/// What is said of a word that is no number, and of its command.
pub(crate) struct NumberText {
    pub(crate) wanted: &'static str,
    pub(crate) usage: &'static str,
}

const NUMBER_WANTED: &str = "a number from 0 to 4294967295 is wanted";

pub(crate) const ROW_NUMBER: NumberText = NumberText {
    wanted: NUMBER_WANTED,
    usage: "mapf row [OPTIONS] <map> <scen> <row>",
};

pub(crate) const CUT_TIME: NumberText = NumberText {
    wanted: NUMBER_WANTED,
    usage: "mapf cut [OPTIONS] <map> <plan> <time>",
};

const AGENT_WANTED: &str = "the number of an agent, from 0 to 65535, is wanted";

pub(crate) const AGENT_ID: NumberText = NumberText {
    wanted: AGENT_WANTED,
    usage: "mapf agent [OPTIONS] <map> <plan> <id> <file>",
};

pub(crate) const TAPE_ID: NumberText = NumberText {
    wanted: AGENT_WANTED,
    usage: "mapf tape [OPTIONS] <map> <plan> <id> <file>",
};

pub(crate) const LOST_ID: NumberText = NumberText {
    wanted: AGENT_WANTED,
    usage: "mapf lost [OPTIONS] <map> <plan> <tapes> <id>",
};

pub(crate) const NEW_NUMBER: NumberText = NumberText {
    wanted: NUMBER_WANTED,
    usage: "mapf anew [OPTIONS] <map> <plan> <tapes> <number>",
};

/// What is said of a word that is no number of an agent.
pub(crate) const NO_AGENT_NUMBER: &str =
    "error: invalid value for '--agent <agent>': the number of an agent, from 0 to 65535, is wanted, in digits alone

Usage: mapf path [OPTIONS] <map> <plan>

For more information, try '--help'.
";

pub(crate) const NO_LEFT_OUT: &str =
    "error: invalid value for '--without <without>': the number of an agent, from 0 to 65535, is wanted, in digits alone

Usage: mapf anew [OPTIONS] <map> <plan> <tapes> <number>

For more information, try '--help'.
";

/// What is said of a word that is no number of agents.
pub(crate) const NO_AGENT_COUNT: &str =
    "error: invalid value for '--agents <agents>': a number from 0 to 65535 is wanted, in digits alone

Usage: mapf check [OPTIONS] <map> <plan>

For more information, try '--help'.
";

/// What is said of words that are no numbers of rows.
pub(crate) const NO_FROM: &str =
    "error: invalid value for '--from <from>': a number from 0 to 4294967295 is wanted, in digits alone

Usage: mapf rows [OPTIONS] <map> <scen>

For more information, try '--help'.
";

pub(crate) const NO_TO: &str =
    "error: invalid value for '--to <to>': a number from 0 to 4294967295 is wanted, in digits alone

Usage: mapf rows [OPTIONS] <map> <scen>

For more information, try '--help'.
";

/// What is said of a word that is no number of faults.
pub(crate) const NO_FAULT_COUNT: &str =
    "error: invalid value for '--all=<all>': a number from 1 to 4294967295 is wanted, in digits alone

Usage: mapf check [OPTIONS] <map> <plan>

For more information, try '--help'.
";

/// What is said of a word that makes no claim of a tape.
pub(crate) const NO_PATTERN: &str =
    "error: invalid value for '<tapes>': a name with % for an agent's number is wanted

Usage: mapf <status|lost|handover|anew> <map> <plan> <tapes>

For more information, try '--help'.
";

pub(crate) const NO_CLAIM: &str = "error: invalid value for '--tape <tape>': new or kept is wanted

Usage: mapf agent [OPTIONS] <map> <plan> <id> <file>

For more information, try '--help'.
";

/// What is said of words that are no cell.
pub(crate) const NO_BLOCK: &str =
    "error: invalid value for '--block <X> <Y>': two numbers from 0 to 65535 are wanted, in digits alone

Usage: mapf map [OPTIONS] <file>

For more information, try '--help'.
";

pub(crate) const NO_CELL: &str =
    "error: invalid value for '--cell <X> <Y>': two numbers from 0 to 65535 are wanted, in digits alone

Usage: mapf deps [OPTIONS] <map> <plan>

For more information, try '--help'.
";

/// For words that `clap` takes and that are no command: there are none.
pub(crate) const NO_COMMAND: &str =
    "error: the words are no command\n\nFor more information, try '--help'.\n";
