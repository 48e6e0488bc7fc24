//! What the definitions of endings mean: a law, which holds of all runs and needs no code.
ghost use Rattle.std.specs.Prelude.{◌≡◌, ℕ, List, Some, slice_get};
ghost use Rattle.depgraph.specs.Rotations.{Turn, AreRotations};
ghost use Rattle.model.specs.declared.version.Version.{Version};
ghost use Rattle.model.specs.Completion.{IsUnfinished};
ghost use Rattle.model.specs.History.{History};
ghost use Rattle.model.specs.Rules.{IsRun};
ghost use Rattle.model.specs.Timetable.{Timetable, IsConflictFree};
ghost use Rattle.executor.specs.Endings.{IsBlockedBy};

/// A rotation that is listed is never finished in a run, so the one that blocks a run is always the
/// first.
pub fn blocking_rotations()
    ensures never_finished { (version : Version) (tt : Timetable) (h : History) (turns : List Turn)
        (n : ℕ) (turn : Turn) → IsConflictFree tt → IsRun version tt h
        → AreRotations tt turns → slice_get turns n ≡ Some turn
        → IsUnfinished tt h turn.step turn.agents }
    ensures first { (version : Version) (tt : Timetable) (h : History) (n : ℕ) → IsConflictFree tt
        → IsRun version tt h → IsBlockedBy tt h n → n ≡ 0 }
{
    model::laws::rotations_never_begin();
    model::laws::counters();
}
