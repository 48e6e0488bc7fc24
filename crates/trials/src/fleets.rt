//! Commands that open the files of tapes.
use crate::endings::{End, Out, Outputs, reader};
use crate::texts::LANE;
use mapf_cmd::{AgentFiles, NewPlan, agent_cmd, anew_cmd, handover_cmd, lost_cmd, status_cmd};
use std::rt::Env;
use std::test::Fail;
use std::{env, fs, io, process};

/// One agent, which makes one move.
const ALONE: &str = "mapf-plan 1\nnumber 7\nagents 1\nagent 1 0 e\n";

#[derive(Clone, Copy, Debug)]
enum Command {
    /// Makes the move, by which the tape is written.
    Agent,
    Status,
    Lost,
    Handover,
    Anew,
}

/// The commands in their order, each with what it writes.
static COMMANDS: [(Command, &str); 5] = [
    (Command::Agent, "at 1 0 done 0\nmoving 2 0\narrived 2 0\n"),
    (Command::Status, "0 at 2 0 done 1 of 1 arrived\n"),
    (Command::Lost, "at 2 0 done 1\n"),
    (Command::Handover, ALONE),
    (
        Command::Anew,
        "mapf-plan 1\nnumber 8\nagents 1\nagent 2 0 =\n",
    ),
];

const ANEW: NewPlan = NewPlan {
    number: 8,
    without: None,
};

/// Performs a command on the tapes that have the agent's number behind these words.
fn perform<R: AgentFiles + AllocGlobal>(
    rt: &R,
    command: Command,
    tape: &str,
    out: &mut Out<'_>,
    err: &mut Out<'_>,
) -> u8 {
    let (map, plan) = (&mut reader(LANE), &mut reader(ALONE));
    match command {
        Command::Agent => {
            let input = &mut reader("start\nfinish\n");
            agent_cmd(rt, map, plan, 0, tape, input, out, err)
        }
        Command::Status => status_cmd(rt, map, plan, tape, false, out, err),
        Command::Lost => lost_cmd(rt, map, plan, tape, 0, out, err),
        Command::Handover => handover_cmd(rt, map, plan, tape, out, err),
        Command::Anew => anew_cmd(rt, map, plan, tape, ANEW, out, err),
    }
}

fn end_of<R: AgentFiles + AllocGlobal>(rt: &R, command: Command, tape: &str, text: &str) -> End {
    let Ok(mut outputs) = Outputs::new(rt.alloc()) else {
        return End::Wanting;
    };
    let Outputs { out, err } = &mut outputs;
    let status = perform(rt, command, tape, &mut Out::new(out), &mut Out::new(err));
    outputs.end(status, text)
}

/// The name of a tape's file that no other process has.
fn name_of_tape<R: Env + AllocGlobal>(rt: &R, process: u32) -> io::Result<String> {
    let folder = env::temp_dir(rt)?;
    Ok(format!(in rt.alloc(); "{}/mapf-trials-{process}", folder.display())?)
}

#[test]
fn commands(rt: HostRuntime) -> Result<(), Fail> {
    let number = process::id(rt.process());
    let tape = match name_of_tape(&rt, number) {
        Ok(tape) => tape,
        Err(_) => name_of_tape(&rt, number)?,
    };
    for &(command, text) in &COMMANDS {
        let mut end = end_of(&rt, command, tape.as_str(), text);
        if end == End::Wanting {
            end = end_of(&rt, command, tape.as_str(), text);
        }
        assert_eq!(rt; end, End::Right, "at {command:?}");
    }
    if fs::remove_file(&rt, tape.as_str()).is_err() {
        fs::remove_file(&rt, tape.as_str())?;
    }
    Ok(())
}
