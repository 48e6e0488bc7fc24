//! What the tapes of all agents have.
ghost use Rattle.std.specs.Prelude.{◌≡◌, ◌<◌, ◌≤◌, ◌*◌, Some, IfOk, length};
ghost use Rattle.model.specs.Timetable.{Track, moves, track_of};
ghost use Rattle.fleet_commands.specs.FoundTapes.{is_known, AreFoundIn, AreWithinMoves};
ghost use Rattle.fleet_commands.specs.FoundTapes.{IsFoundIn, begun_by, finished_by};

use agent::Records;
use agent_commands::{AgentFault, ReadFiles, read_records};
use depgraph::Dependencies;
use robot::FileTapeFault;
use std::alloc::{AllocError, Global};
use text_io::Counted;

/// Reads the tape of each agent, in the file that has this name with the agent's number in place of
/// each `%`: how many whole records it has, or why no agent is opened on it.
pub(crate) fn read_tapes<R: ReadFiles + AllocGlobal>(
    rt: &R,
    dependencies: &Dependencies,
    name: &str,
) -> Result<Vec<Result<u32, AgentFault>>, AllocError>
    ensures found { IfOk result
        (λ found. AreFoundIn R.was_done dependencies.now found.items) }
    ensures within { IfOk result (λ found. AreWithinMoves dependencies.now found.items) }
{
    let mut found = Vec::new(rt.alloc());
    for agent in 0..dependencies.agents() {
        let path = name_of(rt.alloc(), name, agent)?;
        found.push(read_tape(rt, dependencies, agent, &path)?)?;
    }
    Ok(found)
}

/// The name of an agent's tape.
pub(crate) fn name_of(alloc: Global, name: &str, agent: u32) -> Result<String, AllocError> {
    let number = format!(in alloc; "{agent}")?;
    name.replace(alloc, "%", &number)
}

/// Reads the tape of an agent.
fn read_tape<R: ReadFiles + AllocGlobal>(
    rt: &R,
    dependencies: &Dependencies,
    agent: u32,
    path: &str,
) -> Result<Result<u32, AgentFault>, AllocError>
    requires { agent < length dependencies.now.tracks }
    ensures found { IfOk result (IsFoundIn R.was_done dependencies.now agent) }
    ensures within { (track : Track) → track_of dependencies.now agent ≡ Some track
        → IfOk result (λ found. IfOk found (λ records. records ≤ 2 * moves track)) }
{
    let mut file = match rt.open_to_read(path) {
        Ok(file) => Counted::new(file),
        Err(fault) => return Ok(Err(fault)),
    };
    // There are few enough for their numbers.
    let _agents = dependencies.agents();
    let part = dependencies.part(agent as u16).unwrap();
    unless_refused(read_records(rt.alloc(), part, &mut file))
}

/// That memory was refused is said of no tape.
pub(crate) fn unless_refused<T: Drop>(
    found: Result<T, AgentFault>,
) -> Result<Result<T, AgentFault>, AllocError>
    ensures { IfOk result (λ it. it ≡ found) }
{
    match found {
        Err(AgentFault::File(FileTapeFault::OutOfMemory)) => Err(AllocError),
        found => Ok(found),
    }
}

/// How many moves of an agent are finished by its tape; none where no agent is opened on that.
pub(crate) fn finished_by(found: &[Result<u32, AgentFault>], agent: u16) -> u32
    ensures { result ≡ finished_by found.now agent }
{
    match found.get(usize::from(agent)) {
        Some(Ok(records)) => Records { count: *records }.done(),
        _ => 0,
    }
}

/// How many moves of an agent are begun by its tape; none where no agent is opened on that.
pub(crate) fn begun_by(found: &[Result<u32, AgentFault>], agent: u16) -> u32
    ensures { result ≡ begun_by found.now agent }
{
    match found.get(usize::from(agent)) {
        Some(Ok(records)) => Records { count: *records }.begun(),
        _ => 0,
    }
}

/// Whether the agent is opened on its tape.
pub(crate) fn is_known(found: &[Result<u32, AgentFault>], agent: u16) -> bool
    ensures { result ≡ is_known found.now agent }
{
    match found.get(usize::from(agent)) {
        Some(it) => it.is_ok(),
        None => false,
    }
}
