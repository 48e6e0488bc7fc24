//! The faults of plans on their maps, beside scenarios and beside older plans, and of commands.
use crate::table::Entry;

/// The faults of a plan on its map.
pub(crate) fn course_entries() -> &'static [Entry] {
    &COURSES
}

static COURSES: [Entry; 4] = [
    Entry {
        name: "BadStart",
        numbers: "agent",
        sentence: "The agent starts off the map, or where nobody can stand.",
        example: "type octile\nheight 1\nwidth 3\nmap\n...\nmapf-plan 1\nnumber 7\nagents 1\nagent 3 0 -\n",
        answer: "BadStart 0",
    },
    Entry {
        name: "BadMove",
        numbers: "agent step",
        sentence: "The act with this number, from 0, leads off the map or into a cell that can't be entered from there.",
        example: "type octile\nheight 1\nwidth 3\nmap\n...\nmapf-plan 1\nnumber 7\nagents 1\nagent 1 0 ee\n",
        answer: "BadMove 0 1",
    },
    Entry {
        name: "Vertex",
        numbers: "agent agent time column row",
        sentence: "Both agents are in the same cell at this time.",
        example: "type octile\nheight 1\nwidth 3\nmap\n...\nmapf-plan 1\nnumber 7\nagents 2\nagent 0 0 e\nagent 2 0 w\n",
        answer: "Vertex 0 1 1 1 0",
    },
    Entry {
        name: "Swap",
        numbers: "agent agent step",
        sentence: "In this step each of the agents enters the cell that the other leaves.",
        example: "type octile\nheight 1\nwidth 3\nmap\n...\nmapf-plan 1\nnumber 7\nagents 2\nagent 0 0 e\nagent 1 0 w\n",
        answer: "Swap 0 1 0",
    },
];

/// The faults of a plan beside a scenario.
pub(crate) fn fit_entries() -> &'static [Entry] {
    &FITS
}

static FITS: [Entry; 6] = [
    Entry {
        name: "TooFewRows",
        numbers: "",
        sentence: "The scenario has fewer rows than agents are due: as many as the plan has, or with `--agents` so many.",
        example: "",
        answer: "rejected TooFewRows",
    },
    Entry {
        name: "AgentCount",
        numbers: "",
        sentence: "The plan has more or fewer agents than are due: with `--agents` so many, and each with a row where there is a scenario.",
        example: "",
        answer: "rejected AgentCount",
    },
    Entry {
        name: "SizeDiffers",
        numbers: "row",
        sentence: "The row is of a map with another width or height.",
        example: "",
        answer: "SizeDiffers 0",
    },
    Entry {
        name: "StartDiffers",
        numbers: "agent",
        sentence: "The agent doesn't start where the row with its number does.",
        example: "",
        answer: "rejected StartDiffers 0",
    },
    Entry {
        name: "GoalDiffers",
        numbers: "agent",
        sentence: "The agent doesn't end where the row with its number does.",
        example: "",
        answer: "rejected GoalDiffers 0",
    },
    Entry {
        name: "Rotation",
        numbers: "step agent ..",
        sentence: "In this step the agents go round, each into the cell that the next one leaves, and with `--no-rotation` none may.",
        example: "",
        answer: "rejected Rotation 0 0 1 2 3",
    },
];

/// The faults of a plan that doesn't go on from another.
pub(crate) fn departing_entries() -> &'static [Entry] {
    &DEPARTINGS
}

static DEPARTINGS: [Entry; 3] = [
    Entry {
        name: "OtherNumber",
        numbers: "",
        sentence: "The new plan has another number than the old one.",
        example: "",
        answer: "OtherNumber",
    },
    Entry {
        name: "OtherCount",
        numbers: "",
        sentence: "The new plan has more or fewer agents than the old one.",
        example: "",
        answer: "OtherCount",
    },
    Entry {
        name: "Departs",
        numbers: "agent time",
        sentence: "At this time, not past the old plan's last act, the agent is in another cell by the new one, and nobody is earlier.",
        example: "",
        answer: "Departs 0 1",
    },
];

/// The faults of a command.
pub(crate) fn command_entries() -> &'static [Entry] {
    &COMMANDS
}

static COMMANDS: [Entry; 15] = [
    Entry {
        name: "NoSuchRow",
        numbers: "",
        sentence: "The scenario has no row with this number. Rows count from 0.",
        example: "",
        answer: "NoSuchRow",
    },
    Entry {
        name: "NoSuchCell",
        numbers: "x y",
        sentence: "The map has no cell in this column and row. Both count from 0.",
        example: "",
        answer: "NoSuchCell 3 0",
    },
    Entry {
        name: "NoSuchAgent",
        numbers: "",
        sentence: "The plan has no agent with this number. Agents count from 0.",
        example: "type octile\nheight 1\nwidth 3\nmap\n...\nmapf-plan 1\nnumber 7\nagents 2\nagent 1 0 e\nagent 0 0 e\nmapf-events 1\nstart 2\n",
        answer: "refused NoSuchAgent",
    },
    Entry {
        name: "BadTape",
        numbers: "agent",
        sentence: "The tape of this agent has a fault: which one, `mapf status` says.",
        example: "",
        answer: "",
    },
    Entry {
        name: "SameNumber",
        numbers: "",
        sentence: "The new plan was to have the number of the old one, and would be taken for it.",
        example: "",
        answer: "",
    },
    Entry {
        name: "NotOneRun",
        numbers: "",
        sentence: "The tapes are not those of one run of the plan: by them a move began too early, a rotation began, or two agents would meet.\n`mapf status` adds numbers: the agent that began too early, the one for which it had to wait, and until how many\nmoves; or the number of the rotation alone.",
        example: "",
        answer: "",
    },
    Entry {
        name: "PlansPart",
        numbers: "agent agent time",
        sentence: "By the plans beside their tapes the two agents do other things from this time on, and neither plan goes on from the other.",
        example: "",
        answer: "",
    },
    Entry {
        name: "OutOfRange",
        numbers: "",
        sentence: "A search found a length that it can't prove. Please report it: this should never come.",
        example: "",
        answer: "",
    },
    Entry {
        name: "BadTable",
        numbers: "",
        sentence: "A search found distances that prove nothing. Please report it: this should never come.",
        example: "",
        answer: "",
    },
    Entry {
        name: "NotTight",
        numbers: "",
        sentence: "A search found a distance that no step explains. Please report it: this should never come.",
        example: "",
        answer: "",
    },
    Entry {
        name: "BadWalk",
        numbers: "",
        sentence: "A search found a walk that is none. Please report it: this should never come.",
        example: "",
        answer: "",
    },
    Entry {
        name: "OpenFailed",
        numbers: "",
        sentence: "A file can't be opened: there is none of this name, or it may not be read; an agent's tape may not be made or written, or is no file of bytes.",
        example: "",
        answer: "OpenFailed",
    },
    Entry {
        name: "ReadFailed",
        numbers: "",
        sentence: "The system failed to read a file: the file is a folder, or its disk or the network has a fault.",
        example: "",
        answer: "ReadFailed",
    },
    Entry {
        name: "WriteFailed",
        numbers: "",
        sentence: "Standard output didn't take all that is written: its reader has gone, or the disk is full.",
        example: "",
        answer: "WriteFailed",
    },
    Entry {
        name: "OutOfMemory",
        numbers: "",
        sentence: "The system gave no memory. Nothing is known of whether the texts are right.",
        example: "",
        answer: "OutOfMemory",
    },
];
