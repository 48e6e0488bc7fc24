//! Calling `mapf_cmd`: a command over readers and writers of the caller's own.
ghost use Rattle.std.specs.Prelude.{None, false};
ghost use Rattle.ending.specs.Ending.{EndsAndTells};
ghost use Rattle.check_commands.specs.CheckCommand.{AnswersCheck};

use mapf_cmd::{CheckTerms, check_cmd};
use std::alloc::Global;
use std::io::{Read, Write};
use text_io::Counted;

/// Writes the verdict on a plan in words, and answers the exit status of `mapf check`.
pub fn verdict_on<M: Read, P: Read, W: Write, E: Write>(
    alloc: Global,
    map: &mut Counted<M>,
    plan: &mut Counted<P>,
    out: &mut Counted<W>,
    err: &mut Counted<E>,
) -> u8
    ensures { EndsAndTells
        (AnswersCheck M.remaining P.remaining W.contents
        (record { due = None; all = None; bound = false; no_rotation = false; json = false })
        map.old map.new plan.old plan.new out.old out.new)
        E.contents err.old err.new result }
{
    let terms = CheckTerms {
        due: None,
        all: None,
        bound: false,
        no_rotation: false,
        json: false,
    };
    check_cmd(alloc, map, plan, &terms, out, err)
}
