//! What to do where a fault is seen.

/// What to do about a fault.
struct Advice {
    /// What it is a fault of.
    of: &'static str,
    name: &'static str,
    /// Lines, each ended by an LF.
    text: &'static str,
}

/// What to do about the fault of this name, or nothing where there is no more to say.
pub(crate) fn advice_on(name: &str, of: &str) -> &'static str {
    let name = name.as_bytes();
    for advice in &ADVICE {
        if advice.name.as_bytes() == name && advice.of == of {
            return advice.text;
        }
    }
    ""
}

const TAPE: &str = "a tape";

const MESSAGE: &str = "a message";

const REPLY: &str = "a reply";

const SIGNED: &str = "a signed message";

const OF_ANOTHER_PLAN: &str =
    "Give the agent the tape that it had with this plan, or a new file for a new run.\n";

const CHANGED_ON_THE_WAY: &str =
    "Nothing was heard. Drop it: its bytes were changed on the way, or are another program's.\n";

static ADVICE: [Advice; 38] = [
    Advice {
        of: "a command",
        name: "OpenFailed",
        text: "With `--explain` the command says which file it is, and what the system says of it.\n",
    },
    Advice {
        of: "a command",
        name: "BadTape",
        text: "A robot whose tape is lost may stand anywhere: leave it out (`--without`) when it is off the floor.\n",
    },
    Advice {
        of: "a command",
        name: "SameNumber",
        text: "Draw a number: what the robots still say of the old plan is false of the new one.\n",
    },
    Advice {
        of: "a command",
        name: "NotOneRun",
        text: "Some tape is an older copy, or of another run with this number. Look where the robots stand, and plan from there.\nIf agents move while `mapf status` reads their tapes, ask it again: only what stays is so.\n",
    },
    Advice {
        of: "a command",
        name: "PlansPart",
        text: "Stop the robots that have one of the two plans, before they come to that time. Then give all the same plan.\n",
    },
    Advice {
        of: TAPE,
        name: "TooLong",
        text: OF_ANOTHER_PLAN,
    },
    Advice {
        of: TAPE,
        name: "WrongPlan",
        text: OF_ANOTHER_PLAN,
    },
    Advice {
        of: TAPE,
        name: "WrongAgent",
        text: OF_ANOTHER_PLAN,
    },
    Advice {
        of: TAPE,
        name: "Damaged",
        text: "The tape is lost: make no new one, and do not drive. Others may have entered cells that the robot gave up.\nLook where it stands, and begin a new run from there.\n",
    },
    Advice {
        of: TAPE,
        name: "TapeExists",
        text: "A robot that goes on is started with `--tape kept`. One that begins a new run gets a new file.\n",
    },
    Advice {
        of: TAPE,
        name: "NoTape",
        text: "Make no new one: with that the agent stands at its start for all others, wherever it is, and they may enter\nits cells. Find its tape; or look where it stands, and begin a new run from there.\n",
    },
    Advice {
        of: TAPE,
        name: "PlanDamaged",
        text: "Look what that file is. Where it is another one, give the tape another name.\n",
    },
    Advice {
        of: TAPE,
        name: "TapeEmptied",
        text: "The tape is lost: make no new one. Look where the robot stands, and begin a new run from there.\n",
    },
    Advice {
        of: TAPE,
        name: "OtherPlan",
        text: "Give the robot the plan that it had, or one that goes on from it. For a new run, with a new number, it gets a new tape.\n",
    },
    Advice {
        of: TAPE,
        name: "TapeInUse",
        text: "Another process is this agent, or was given its tape: end it first.\n",
    },
    Advice {
        of: TAPE,
        name: "TapeFailed",
        text: "Look at the disk. The robot stays where it is until the tape can be read and synced.\n",
    },
    Advice {
        of: MESSAGE,
        name: "BadLength",
        text: CHANGED_ON_THE_WAY,
    },
    Advice {
        of: MESSAGE,
        name: "BadMagic",
        text: CHANGED_ON_THE_WAY,
    },
    Advice {
        of: MESSAGE,
        name: "BadVersion",
        text: CHANGED_ON_THE_WAY,
    },
    Advice {
        of: MESSAGE,
        name: "BadEntry",
        text: CHANGED_ON_THE_WAY,
    },
    Advice {
        of: MESSAGE,
        name: "WrongPlan",
        text: "Nothing was heard. It is left over from another run; where it comes again and again, a robot runs by another plan: stop it.\n",
    },
    Advice {
        of: MESSAGE,
        name: "TooMany",
        text: "Nothing was heard. Its sender runs by another plan that has the same number: stop the fleet.\n",
    },
    Advice {
        of: SIGNED,
        name: "NotSigned",
        text: "Start each robot of the fleet with `--keys`. Where all have keys, a stranger speaks: find out who.\n",
    },
    Advice {
        of: SIGNED,
        name: "BadTag",
        text: "Where all messages of one robot are dropped, its keys are others: give it the file of the fleet.\n",
    },
    Advice {
        of: SIGNED,
        name: "OtherRun",
        text: "Look for a robot that still drives that plan, and stop it.\n",
    },
    Advice {
        of: SIGNED,
        name: "UnknownSender",
        text: "Give all robots one file of keys, made for as many robots as the plan has agents.\n",
    },
    Advice {
        of: SIGNED,
        name: "NotItsSender",
        text: "Somebody has the keys of the fleet: stop all robots, make new keys, and begin a new run.\n",
    },
    Advice {
        of: SIGNED,
        name: "NotNewer",
        text: "A few are nothing. Where they go on, messages are played back, or the count of the sender is an older one.\n",
    },
    Advice {
        of: SIGNED,
        name: "NotItsTopic",
        text: "A robot sends under a wrong number, or a stranger speaks. Let the broker hold each robot to its own topic.\n",
    },
    Advice {
        of: REPLY,
        name: "BadLine",
        text: "`mapf help agent` lists the lines that are answered.\n",
    },
    Advice {
        of: REPLY,
        name: "Broken",
        text: "End the agent and start it again on its tape.\n",
    },
    Advice {
        of: REPLY,
        name: "StoreFailed",
        text: "Don't drive. Start the agent again on its tape, and go by its first line; look at the disk.\n",
    },
    Advice {
        of: REPLY,
        name: "StaleTape",
        text: "Stop the robot: its tape is lost, and others may have entered the cells that it gave up.\n",
    },
    Advice {
        of: REPLY,
        name: "AlreadyMoving",
        text: "Drive on, and say `finish` once the robot stands in the next cell.\n",
    },
    Advice {
        of: REPLY,
        name: "NotMoving",
        text: "A move begins with `start`.\n",
    },
    Advice {
        of: REPLY,
        name: "AtEnd",
        text: "The robot is where its plan ends. Nothing is left to do but to say so.\n",
    },
    Advice {
        of: REPLY,
        name: "Waits",
        text: "Stand still, and ask again when a message was heard. Where none comes, ask the other robot to say how far it is.\n",
    },
    Advice {
        of: REPLY,
        name: "NoSuchMessage",
        text: "Messages count from 0, in the order in which they were said.\n",
    },
];
