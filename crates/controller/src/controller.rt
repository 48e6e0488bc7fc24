//! The control loop of a robot.
ghost use Rattle.std.specs.Prelude.{◌≡◌, ◌+◌, ◌≤◌, ℕ, Some, Err, slice_get};
ghost use Rattle.model.specs.Timetable.{Track, Timetable, track_of};
ghost use Rattle.depgraph.specs.AgentParts.{IsPartOf};
ghost use Rattle.agent.specs.Agents.{state_of};
ghost use Rattle.agent.specs.States.{finished_moves, begun_moves};
ghost use Rattle.controller.specs.Steps.{told_of_hearing, told_of_refusal};

use crate::command::{Alarm, Command, Way};
use crate::control::{Control, Due};
use crate::places::{furthest, place_of};
use agent::{Agent, HearFault, Refusal, Tape};
use carrier_text::Report;
use depgraph::Part;
use grid::Cell;
use model::Version;
use robot::older_tape;
use std::marker::Model;

/// How a control loop is to work.
#[derive(Clone, Copy, Debug, PartialEq, Eq)]
pub struct Settings {
    /// How many cells behind the next one the drive may be told of.
    pub ahead: u16,
    /// Of which version the messages are that it sends.
    pub version: Version,
}

/// The control loop of a robot, over the robot's agent. Whatever comes from outside is given to
/// `report`, `hear`, `tick` or `stop`; behind each of these `next` is called until it answers
/// nothing.
#[derive(Drop)]
pub struct Controller<'g, T: Tape> {
    agent: Agent<'g, T>,
    /// The agent's part.
    part: Part<'g>,
    settings: Settings,
    control: Control,
}

impl<'g, T: Tape> Model for Controller<'g, T> {
    ghost use Rattle.std.specs.Prelude.{◌≡◌};
    ghost use Rattle.controller.specs.Robots.{RobotOn};

    ghost Value = { RobotOn T };

    ghost view = { λ c. record { agent = c.agent; settings = c.settings; control = c.control } };

    ghost invariant = { λ c. c.part ≡ c.agent.part };
}

impl<'g, T: Tape> Controller<'g, T> {
    ghost use Rattle.controller.specs.Controls as controls;
    ghost use Rattle.controller.specs.Places.{IsFurthestNew};
    ghost use Rattle.controller.specs.Robots.{robot_of, with_control, IsSameRobot};
    ghost use Rattle.controller.specs.Steps.{due_in, WorksOn, TakesMessage, TakesReport};
    ghost use Rattle.controller.specs.Steps.{TakesTick, FinishesMove, StartsMove, LetsGo};
    ghost use Rattle.controller.specs.Steps.{TellsOthers, IsStored};

    /// The loop of an agent whose tape was just opened. It listens for so many ticks before it
    /// begins a move.
    pub fn new(
        agent: Agent<'g, T>,
        part: Part<'g>,
        settings: Settings,
        listens: u32,
    ) -> Controller<'g, T>
        requires { part ≡ agent.part }
        ensures agent { result.agent ≡ agent.entry }
        ensures settings { result.settings ≡ settings }
        ensures control { (far : ℕ) × (result.control ≡ controls.opened far listens)
            × IsFurthestNew agent.entry.part.cells (finished_moves (state_of T.state agent.entry))
            (begun_moves (state_of T.state agent.entry) + settings.ahead) far }
    {
        let begun = begun(&agent, &part);
        let far = furthest(&part, agent.done(), begun + u32::from(settings.ahead));
        Controller {
            agent,
            part,
            settings,
            control: Control::opened(far, listens),
        }
    }

    /// Where the agent is by its tape, to be shown.
    pub fn stored(&self) -> Command
        ensures { (tt : Timetable) → IsPartOf tt self.now.agent.part → (track : Track)
            → track_of tt self.now.agent.part.agent ≡ Some track
            → IsStored track (state_of T.state self.now.agent) result }
    {
        Command::Stored(self.agent.held(), self.agent.done())
    }

    /// The cell of the agent's path with this place.
    pub fn cell(&self, place: u32) -> Option<Cell>
        ensures { result ≡ slice_get self.now.agent.part.cells place }
    {
        self.part.cell(place)
    }

    /// Takes a report of the drive.
    pub fn report(&mut self, report: Report)
        ensures same { self.new.agent ≡ self.old.agent }
        ensures settings { self.new.settings ≡ self.old.settings }
        ensures takes { (tt : Timetable) → IsPartOf tt self.old.agent.part → (track : Track)
            → track_of tt self.old.agent.part.agent ≡ Some track
            → TakesReport track report (robot_of T.state self.old) (robot_of T.state self.new) }
    {
        self.control = match place_of(&self.part, report, self.agent.done(), self.control.far) {
            Some(place) => self.control.placed(place),
            None => self.control.misplaced(),
        };
    }

    /// Takes a message of another robot.
    pub fn hear(&mut self, message: &[u8]) -> Option<Command>
        ensures same { IsSameRobot self.old self.new }
        ensures takes { (tt : Timetable) → IsPartOf tt self.old.agent.part → (track : Track)
            → track_of tt self.old.agent.part.agent ≡ Some track
            → TakesMessage tt self.old.agent.part.agent track message.now
            (robot_of T.state self.old) result (robot_of T.state self.new) }
    {
        if let Some(word) = older_tape(&self.agent, &self.part, message) {
            self.control = self.control.stale();
            return Some(Command::Alarm(Alarm::StaleTape(word)));
        }
        match self.agent.hear(message) {
            Ok(_) => {
                self.control = self.control.heard();
                None
            }
            Err(fault) => Some(dropped_for(fault)),
        }
    }

    /// Some time has passed.
    pub fn tick(&mut self) -> Option<Command>
        ensures same { self.new.agent ≡ self.old.agent }
        ensures settings { self.new.settings ≡ self.old.settings }
        ensures takes { TakesTick (robot_of T.state self.old) result
            (robot_of T.state self.new) }
    {
        self.control = self.control.ticked();
        if self.control.is_misplaced {
            Some(Command::Alarm(Alarm::Misplaced))
        } else {
            None
        }
    }

    /// Begins no move any more.
    pub fn stop(&mut self)
        ensures { self.new ≡ record self.old { control = controls.stopped self.old.control } }
    {
        self.control = self.control.stopped();
    }

    /// Does what is due, and answers what the carrier has to do; nothing, if nothing is due.
    pub fn next(&mut self) -> Option<Command>
        ensures same { IsSameRobot self.old self.new }
        ensures does { (tt : Timetable) → IsPartOf tt self.old.agent.part → (track : Track)
            → track_of tt self.old.agent.part.agent ≡ Some track
            → WorksOn self.old.settings tt self.old.agent.part.agent track
            (robot_of T.state self.old) result (robot_of T.state self.new) }
    {
        match self.due() {
            Due::Finish => Some(self.finish()),
            Due::Start => Some(self.start()),
            Due::Go => Some(self.go()),
            Due::Ask => {
                self.control = self.control.asked();
                Some(Command::Ask)
            }
            Due::Tell => Some(self.tell()),
            Due::Nothing => None,
        }
    }

    /// What is due.
    fn due(&self) -> Due
        ensures { result ≡ due_in (robot_of T.state self.now) }
    {
        if self.agent.is_broken() {
            Due::Nothing
        } else {
            self.control.due(self.agent.done(), self.agent.is_moving())
        }
    }

    /// Stores that the move at hand is finished.
    fn finish(&mut self) -> Command
        ensures same { IsSameRobot self.old self.new }
        ensures does { (tt : Timetable) → IsPartOf tt self.old.agent.part → (track : Track)
            → track_of tt self.old.agent.part.agent ≡ Some track
            → FinishesMove tt self.old.agent.part.agent track (robot_of T.state self.old) result
            (robot_of T.state self.new) }
    {
        match self.agent.finish() {
            Ok(cell) => {
                self.control = self.control.finished();
                Command::Arrived(cell)
            }
            Err(refusal) => told_of(refusal),
        }
    }

    /// Stores that the next move begins.
    fn start(&mut self) -> Command
        ensures same { IsSameRobot self.old self.new }
        ensures does { (tt : Timetable) → IsPartOf tt self.old.agent.part → (track : Track)
            → track_of tt self.old.agent.part.agent ≡ Some track
            → StartsMove tt self.old.agent.part.agent track (robot_of T.state self.old) result
            (robot_of T.state self.new) }
    {
        let answer = self.agent.start();
        let begun = begun(&self.agent, &self.part);
        match answer {
            Ok(_) => {
                self.control = self.control.started(begun);
                self.stored()
            }
            Err(refusal) => {
                self.control = self.control.not_started(begun);
                told_of(refusal)
            }
        }
    }

    /// Lets the drive go on to the end of the move at hand, and into the cells behind that are
    /// free.
    fn go(&mut self) -> Command
        ensures same { IsSameRobot self.old self.new }
        ensures does { (tt : Timetable) → IsPartOf tt self.old.agent.part → (track : Track)
            → track_of tt self.old.agent.part.agent ≡ Some track
            → LetsGo self.old.settings tt self.old.agent.part.agent track
            (robot_of T.state self.old) result (robot_of T.state self.new) }
    {
        let begun = begun(&self.agent, &self.part);
        let ahead = self.control.most_ahead(self.settings.ahead);
        let first = self.agent.done();
        let last = furthest(&self.part, first, begun + ahead);
        let free = self.agent.ahead(last.saturating_sub(begun));
        let last = begun.saturating_add(free);
        self.control = self.control.gone(last);
        Command::Go(Way { first, last })
    }

    /// Tells the others what the agent knows.
    fn tell(&mut self) -> Command
        ensures same { IsSameRobot self.old self.new }
        ensures does { (tt : Timetable) → IsPartOf tt self.old.agent.part → (track : Track)
            → track_of tt self.old.agent.part.agent ≡ Some track
            → TellsOthers self.old.settings.version tt self.old.agent.part.agent track
            (robot_of T.state self.old) result (robot_of T.state self.new) }
    {
        self.control = self.control.told();
        match self.settings.version {
            Version::One => match self.agent.say() {
                Ok(message) => Command::Say(message),
                Err(refusal) => told_of(refusal),
            },
            Version::Two => match self.agent.tell() {
                Ok(message) => Command::Tell(message),
                Err(_) => Command::Alarm(Alarm::OutOfMemory),
            },
        }
    }

    /// Whether a record couldn't be stored. Nothing is due then any more: the tape is to be opened
    /// again.
    pub fn is_broken(&self) -> bool
        ensures { result ≡ self.now.agent.broken }
    {
        self.agent.is_broken()
    }

    /// The tape, taken from the agent.
    pub fn into_tape(self) -> T
        ensures { result ≡ self.entry.agent.tape }
    {
        self.agent.into_tape()
    }
}

/// What it comes to that a message is not heard.
fn dropped_for(fault: HearFault) -> Command
    ensures { Some result ≡ told_of_hearing (Err fault) }
{
    match fault {
        HearFault::OutOfMemory => Command::Alarm(Alarm::OutOfMemory),
        HearFault::Message(_)
        | HearFault::WrongPlan
        | HearFault::NoSuchAgent
        | HearFault::TooMany
        | HearFault::Broken => Command::Dropped(fault),
    }
}

/// Why nothing was stored, or told.
fn told_of(refusal: Refusal) -> Command
    ensures { result ≡ told_of_refusal refusal }
{
    match refusal {
        Refusal::Waits { agent, count } => Command::Waits { agent, count },
        Refusal::AtEnd => Command::Done,
        // The other ones aren't answered where this is asked.
        Refusal::StoreFailed | Refusal::Broken | Refusal::AlreadyMoving | Refusal::NotMoving => {
            Command::Alarm(Alarm::StoreFailed)
        }
    }
}

/// How many moves are begun.
fn begun<T: Tape>(agent: &Agent<'_, T>, part: &Part<'_>) -> u32
    requires { part.now ≡ agent.now.part }
    ensures begun { result ≡ begun_moves (state_of T.state agent.now) }
    ensures few { result ≤ 65535 }
{
    let _few = part.own_moves();
    if agent.is_moving() {
        agent.done() + 1
    } else {
        agent.done()
    }
}
