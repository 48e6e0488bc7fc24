//! Commands over readers and writers of the caller's own.
use crate::endings::{End, Out, Outputs, reader};
use crate::texts::{BEHIND, CORNER, EVENTS, LANE, REPLIES, ROW, TASKS};
use grid::Cell;
use mapf_cmd::{
    BoundForm, CheckTerms, RowsAsked, block_cmd, bound_cmd, check_cmd, check_fit_cmd,
    continues_cmd, cut_cmd, deps_cell_cmd, deps_cmd, map_cmd, optimal_cmd, path_cmd, row_cmd,
    rows_cmd, run_cmd, scen_cmd, tape_cmd,
};
use std::alloc::Global;

/// A command on the corner and its scenario, or else on the lane and the plan `BEHIND`.
#[derive(Clone, Copy, Debug)]
enum Command {
    Map,
    /// Writes the corner with a cell out of bounds.
    Block,
    Scen,
    Row,
    Rows,
    Check,
    CheckFit,
    Bound,
    Deps,
    DepsOfCell,
    Path,
    /// Cuts the plan at time 1.
    Cut,
    /// Asks whether the plan goes on from itself.
    Continues,
    Optimal,
    Run,
    /// Says what an empty tape keeps.
    Tape,
}

const ACCEPTED: &str = "accepted agents 2 cost 2 makespan 1\n";

/// Each command with what it writes.
static COMMANDS: [(Command, &str); 16] = [
    (Command::Map, CORNER),
    (
        Command::Block,
        "type octile\nheight 2\nwidth 3\nmap\n..@\n.@.\n",
    ),
    (Command::Scen, ROW),
    (Command::Row, "shortest 2 0 listed 2.00000000 agrees\n"),
    (
        Command::Rows,
        "0 shortest 2 0 listed 2.00000000 agrees\nrows 1 agree 1 differ 0 unreachable 0 size 0\n",
    ),
    (Command::Check, ACCEPTED),
    (Command::CheckFit, ACCEPTED),
    (Command::Bound, "cost 2 of 2 makespan 1 of 1\n"),
    (
        Command::Deps,
        "agents 2 moves 2 needs 1 rotations 0\nneed 1 0 0 1\n",
    ),
    (Command::DepsOfCell, "visit 0 0 0\nvisit 1 1 1\n"),
    (Command::Path, "0 0 0\n1 1 0\n"),
    (
        Command::Cut,
        "mapf-plan 1\nnumber 7\nagents 2\nagent 1 0 e\nagent 0 0 e\n",
    ),
    (Command::Continues, "continues from 2, adds 0 moves\n"),
    (Command::Optimal, "optimal cost 2 nodes 1\n"),
    (Command::Run, REPLIES),
    (Command::Tape, "at 1 0 done 0\nrecords 0 torn 0\n"),
];

/// Says that no plan with the ends of `BEHIND` costs less.
const PROOF: &str = "mapf-proof 1\nobjective cost\nbound 2\nleaf\n";

const TERMS: CheckTerms = CheckTerms {
    due: None,
    all: None,
    bound: false,
    no_rotation: false,
    json: false,
};

const ALL_ROWS: RowsAsked = RowsAsked {
    from: None,
    to: None,
    straight: false,
    progress: false,
};

const IN_WORDS: BoundForm = BoundForm {
    agents: false,
    json: false,
};

fn perform(alloc: Global, command: Command, out: &mut Out<'_>, err: &mut Out<'_>) -> u8 {
    let (map, scen) = (&mut reader(CORNER), &mut reader(ROW));
    match command {
        Command::Map => map_cmd(alloc, map, out, err),
        Command::Block => block_cmd(alloc, map, Cell { x: 2, y: 0 }, out, err),
        Command::Scen => scen_cmd(alloc, scen, out, err),
        Command::Row => row_cmd(alloc, map, scen, 0, out, err),
        Command::Rows => rows_cmd(alloc, map, scen, &ALL_ROWS, out, err),
        _ => perform_on_plan(alloc, command, out, err),
    }
}

fn perform_on_plan(alloc: Global, command: Command, out: &mut Out<'_>, err: &mut Out<'_>) -> u8 {
    let (map, plan) = (&mut reader(LANE), &mut reader(BEHIND));
    match command {
        Command::Check => check_cmd(alloc, map, plan, &TERMS, out, err),
        Command::CheckFit => {
            check_fit_cmd(alloc, map, plan, &mut reader(TASKS), &TERMS, out, err)
        }
        Command::Bound => bound_cmd(alloc, map, plan, IN_WORDS, out, err),
        Command::DepsOfCell => deps_cell_cmd(alloc, map, plan, Cell { x: 1, y: 0 }, out, err),
        Command::Path => path_cmd(alloc, map, plan, Some(1), out, err),
        Command::Cut => cut_cmd(alloc, map, plan, 1, out, err),
        Command::Continues => continues_cmd(alloc, map, plan, &mut reader(BEHIND), out, err),
        Command::Optimal => optimal_cmd(alloc, map, plan, &mut reader(PROOF), false, out, err),
        Command::Run => run_cmd(alloc, map, plan, &mut reader(EVENTS), false, out, err),
        Command::Tape => tape_cmd(alloc, map, plan, 0, &mut reader(""), out, err),
        _ => deps_cmd(alloc, map, plan, out, err),
    }
}

fn end_of(alloc: Global, command: Command, text: &str) -> End {
    let Ok(mut outputs) = Outputs::new(alloc) else {
        return End::Wanting;
    };
    let Outputs { out, err } = &mut outputs;
    let status = perform(alloc, command, &mut Out::new(out), &mut Out::new(err));
    outputs.end(status, text)
}

#[test]
fn commands(rt: HostRuntime) {
    for &(command, text) in &COMMANDS {
        let mut end = end_of(rt.alloc(), command, text);
        if end == End::Wanting {
            end = end_of(rt.alloc(), command, text);
        }
        assert_eq!(rt; end, End::Right, "at {command:?}");
    }
}
