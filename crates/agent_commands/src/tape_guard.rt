//! What is looked at before a record is stored, and what is noted behind the first one.
ghost use Rattle.std.specs.Prelude.{◌≡◌};

use crate::agent_files::{AgentFiles, FileId};
use crate::beside_name::BesideName;
use robot::Guard;

/// Holds while a path names a file, also by links, and marks the file of the plan where a first
/// record was stored.
#[derive(Drop)]
pub(crate) struct TapeGuard<'a, R> {
    rt: &'a R,
    path: &'a str,
    file: FileId,
    /// The file of the plan, where that is still to be marked.
    unmarked: Option<BesideName>,
}

impl<'a, R> TapeGuard<'a, R> {
    pub(crate) fn new(
        rt: &'a R,
        path: &'a str,
        file: FileId,
        unmarked: Option<BesideName>,
    ) -> TapeGuard<'a, R>
        ensures { result.unmarked ≡ unmarked }
    {
        TapeGuard {
            rt,
            path,
            file,
            unmarked,
        }
    }
}

impl<R: AgentFiles> Guard for TapeGuard<'_, R> {
    ghost use Rattle.agent_commands.specs.FileDeeds.FileDeed.{names_tape};
    ghost use Rattle.agent_commands.specs.Code.Plans.{IsMarkNoted};

    ghost has_allowed = { λ guard. R.was_done names_tape };

    ghost has_noted = { λ old new. IsMarkNoted R.was_done old.unmarked new.unmarked };

    fn holds(&self) -> bool {
        self.rt.names_tape(self.path, self.file)
    }

    fn take_note(&mut self) -> bool {
        if let Some(plan) = &self.unmarked {
            if self.rt.set_mark(plan).is_err() {
                return false;
            }
        }
        self.unmarked = None;
        true
    }
}
