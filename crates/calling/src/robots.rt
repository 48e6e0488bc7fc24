//! Calling `robot`: an agent over a tape in memory is spoken to line by line.
ghost use Rattle.std.specs.Prelude.{◌≡◌, IfSome, is_some};
ghost use Rattle.model.specs.Timetable.{Timetable};
ghost use Rattle.depgraph.specs.AgentParts.{IsPartOf};
ghost use Rattle.robot.specs.Dialogue.{Talks};

use agent::Tape;
use robot::{TalkFault, Talker, talk};
use std::alloc::Global;
use std::io::{Read, Write};
use text_io::Counted;

/// Answers each line of the input for an agent. Any tape does: `FileTape` keeps it in a file.
pub fn converse<R: Read, W: Write, T: Tape>(
    alloc: Global,
    talker: &mut Talker<'_, T>,
    input: &mut Counted<R>,
    output: &mut Counted<W>,
) -> Result<(), TalkFault>
    requires { IfSome talker.old.heeded (λ p. p ≡ talker.old.agent.part) }
    ensures { (tt : Timetable) → IsPartOf tt talker.old.agent.part
        → Talks R.remaining W.contents T.state (is_some talker.old.heeded) tt input.old input.new
        output.old output.new talker.old.agent talker.new.agent result }
{
    talk(alloc, talker, input, output)
}
