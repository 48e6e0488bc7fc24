//! Small fleets, and what has to come out.
#![tactic(auto)]

ghost use Rattle.model.specs.Examples.{row};
ghost use Rattle.fleet.specs.Fleets.{IsFleet};
ghost use Rattle.fleet.specs.OwnPlans.{IsFleetBy, SharesMoves};
ghost use Rattle.fleet_trials.specs.Examples.{led, led_states, UnheardRound};
ghost use Rattle.fleet_trials.specs.Examples.{extended, extended_states, OtherWays, StoppedDrive};
ghost use Rattle.fleet_trials.specs.ReadAndWritten.{row_processes, row_transcript};
ghost use Rattle.fleet_trials.specs.ReadAndWritten.{row_deeds, row_tapes};
ghost use Rattle.transcripts.specs.Transcripts.{IsTranscript, RunsBy};

/// A fleet of two, whose leader is killed in the middle of a write, and which its follower hears
/// only later, beside what nobody said, and by the other version of messages; and a round that
/// brings nobody on, since the one that is waited for is not heard in it. And a fleet that goes
/// over to a longer plan, which nobody does who moves otherwise; and how far drives may have gone
/// ahead that stopped.
pub fn examples()
    ensures led { IsFleet row led led_states }
    ensures unheard { UnheardRound }
    ensures extended { IsFleetBy (SharesMoves row) extended extended_states }
    ensures other_ways { OtherWays }
    ensures stopped { StoppedDrive }
{}

/// What the same two read and wrote: the leader's first process is killed within a start whose
/// record is stored, and the follower hears what the second one said.
pub fn read_and_written()
    ensures { IsTranscript (RunsBy row) row_processes row_transcript row_deeds row_tapes }
{}
