//! Where the cells of the agents' paths stand in one list of all. Of each agent it is known where
//! its path ends there.
ghost use Rattle.std.specs.Prelude.{◌≡◌, ◌<◌, ◌≤◌, ℕ, length, get_or, MatchOption};
ghost use Rattle.depgraph.specs.Code.Entries.{begin_in, IsEntry};

/// Where an agent's path begins: at the end of the one before.
pub(crate) fn begin_in(ends: &[usize], agent: usize) -> usize
    requires { agent ≤ length ends.now }
    ensures { result ≡ begin_in ends.now agent }
{
    if agent == 0 { 0 } else { ends[agent - 1] }
}

/// The entry of the cell with this index in an agent's path, if there is one.
pub(crate) fn entry_at(ends: &[usize], agent: u32, index: usize) -> Option<usize>
    requires { (i : ℕ) → i < length ends.now → begin_in ends.now i ≤ get_or ends.now i 0 }
    ensures { MatchOption result ((e : ℕ) → IsEntry ends.now agent index e → ⊥)
        (λ e. IsEntry ends.now agent index e) }
{
    let end = *ends.get(agent as usize)?;
    let begin = begin_in(ends, agent as usize);
    if index < end - begin {
        Some(begin + index)
    } else {
        None
    }
}
