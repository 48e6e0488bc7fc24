//! What a control loop keeps beside its agent, and what it does next.
ghost use Rattle.std.specs.Prelude.{◌≡◌, ◌↔◌, IsTrue, Bool};
ghost use Rattle.controller.specs.Controls.{due_for, may_start};
ghost use Rattle.controller.specs.Controls as controls;

/// What a control loop keeps beside its agent. A place is one on the agent's path, from 0 on.
#[derive(Clone, Copy, Debug, PartialEq, Eq)]
pub struct Control {
    /// In which place the drive is by its last report, if that fits.
    pub drive: Option<u32>,
    /// Whether its last report fits no place.
    pub is_misplaced: bool,
    /// The furthest place in which the drive may be.
    pub far: u32,
    /// For how many more ticks it listens before it begins a move.
    pub listens: u32,
    /// Whether it begins no move any more.
    pub is_stopped: bool,
    /// Whether its tape is an older one.
    pub is_stale: bool,
    pub wants: Wants,
}

/// What a control loop wants to do, as soon as it may.
#[derive(Clone, Copy, Debug, PartialEq, Eq)]
pub struct Wants {
    pub start: bool,
    pub go: bool,
    pub ask: bool,
    pub tell: bool,
}

/// What a control loop does next.
#[derive(Clone, Copy, Debug, PartialEq, Eq)]
pub enum Due {
    /// It stores that a move is finished.
    Finish,
    /// It stores that a move begins.
    Start,
    /// It lets the drive go on.
    Go,
    /// It asks the drive where it is.
    Ask,
    /// It tells the others.
    Tell,
    Nothing,
}

impl Control {
    /// That of an agent whose tape was just opened.
    pub(crate) fn opened(far: u32, listens: u32) -> Control
        ensures { result ≡ controls.opened far listens }
    {
        Control {
            drive: None,
            is_misplaced: false,
            far,
            listens,
            is_stopped: false,
            is_stale: false,
            wants: Wants {
                start: true,
                go: true,
                ask: true,
                tell: true,
            },
        }
    }

    /// What is next for an agent that isn't broken, and has finished so many moves.
    pub(crate) fn due(&self, done: u32, is_moving: bool) -> Due
        ensures { result ≡ due_for self.now done is_moving }
    {
        match self.drive {
            _ if self.is_stale => self.due_to_tell(),
            None => self.due_to_ask(),
            Some(place) if is_moving => self.due_on_the_way(place, done),
            Some(place) => self.due_standing(place, done),
        }
    }

    /// What is next on the way to a cell, while the drive is in a place.
    fn due_on_the_way(&self, place: u32, done: u32) -> Due
        ensures { result ≡ controls.due_on_the_way self.now place done }
    {
        if place > done {
            Due::Finish
        } else {
            self.due_to_go()
        }
    }

    /// What is next for an agent that stands, while the drive is in a place.
    fn due_standing(&self, place: u32, done: u32) -> Due
        ensures { result ≡ controls.due_standing self.now place done }
    {
        if self.may_start(place, done) {
            Due::Start
        } else if self.is_stopped {
            self.due_to_go()
        } else {
            self.due_to_ask()
        }
    }

    fn due_to_go(&self) -> Due
        ensures { result ≡ controls.due_to_go self.now }
    {
        if self.wants.go && self.listens == 0 {
            Due::Go
        } else {
            self.due_to_ask()
        }
    }

    fn due_to_ask(&self) -> Due
        ensures { result ≡ controls.due_to_ask self.now }
    {
        if self.wants.ask {
            Due::Ask
        } else {
            self.due_to_tell()
        }
    }

    fn due_to_tell(&self) -> Due
        ensures { result ≡ controls.due_to_tell self.now }
    {
        if self.wants.tell {
            Due::Tell
        } else {
            Due::Nothing
        }
    }

    /// Whether a move may begin. Where the drive is ahead of the tape, it has begun already.
    fn may_start(&self, place: u32, done: u32) -> bool
        ensures { result ≡ may_start self.now place done }
    {
        self.wants.start && (place > done || (self.listens == 0 && !self.is_stopped))
    }

    /// How many moves behind the one at hand the drive may be told of.
    pub(crate) fn most_ahead(&self, ahead: u16) -> u32
        ensures { result ≡ controls.most_ahead self.now ahead }
    {
        if self.is_stopped { 0 } else { u32::from(ahead) }
    }

    /// The drive reports that it is in a place.
    pub(crate) fn placed(self, place: u32) -> Control
        ensures { result ≡ controls.placed self place }
    {
        Control {
            drive: Some(place),
            is_misplaced: false,
            wants: self.wants.starting(),
            ..self
        }
    }

    /// The drive reports what fits no place.
    pub(crate) fn misplaced(self) -> Control
        ensures { result ≡ controls.misplaced self }
    {
        Control {
            drive: None,
            is_misplaced: true,
            ..self
        }
    }

    /// Some time has passed.
    pub(crate) fn ticked(self) -> Control
        ensures { result ≡ controls.ticked self }
    {
        Control {
            listens: self.listens.saturating_sub(1),
            wants: Wants {
                start: true,
                go: true,
                ask: true,
                tell: true,
            },
            ..self
        }
    }

    /// Something was heard.
    pub(crate) fn heard(self) -> Control
        ensures { result ≡ controls.heard self }
    {
        Control {
            wants: self.wants.starting(),
            ..self
        }
    }

    /// A message showed that the tape is an older one.
    pub(crate) fn stale(self) -> Control
        ensures { result ≡ controls.stale self }
    {
        Control {
            is_stale: true,
            ..self
        }
    }

    /// No move begins any more.
    pub(crate) fn stopped(self) -> Control
        ensures { result ≡ controls.stopped self }
    {
        Control {
            is_stopped: true,
            wants: Wants {
                go: true,
                ..self.wants
            },
            ..self
        }
    }

    /// A move was begun, and so many are now.
    pub(crate) fn started(self, begun: u32) -> Control
        ensures { result ≡ controls.started self begun }
    {
        Control {
            far: self.far.max(begun),
            wants: Wants {
                start: false,
                go: true,
                ..self.wants
            },
            ..self
        }
    }

    /// No move could be begun. Where the write failed, it may be begun by the tape all the same.
    pub(crate) fn not_started(self, begun: u32) -> Control
        ensures { result ≡ controls.not_started self begun }
    {
        Control {
            far: self.far.max(begun),
            wants: Wants {
                start: false,
                ..self.wants
            },
            ..self
        }
    }

    /// A move was finished.
    pub(crate) fn finished(self) -> Control
        ensures { result ≡ controls.finished_move self }
    {
        Control {
            wants: Wants {
                start: true,
                tell: true,
                ..self.wants
            },
            ..self
        }
    }

    /// The drive was told to go on, up to a place.
    pub(crate) fn gone(self, far: u32) -> Control
        ensures { result ≡ controls.gone self far }
    {
        Control {
            far: self.far.max(far),
            wants: Wants {
                go: false,
                ..self.wants
            },
            ..self
        }
    }

    /// The drive was asked.
    pub(crate) fn asked(self) -> Control
        ensures { result ≡ controls.asked_drive self }
    {
        Control {
            wants: Wants {
                ask: false,
                ..self.wants
            },
            ..self
        }
    }

    /// The others were told.
    pub(crate) fn told(self) -> Control
        ensures { result ≡ controls.told_others self }
    {
        Control {
            wants: Wants {
                tell: false,
                ..self.wants
            },
            ..self
        }
    }
}

impl Wants {
    fn starting(self) -> Wants
        ensures { result ≡ controls.starting self }
    {
        Wants {
            start: true,
            ..self
        }
    }
}
