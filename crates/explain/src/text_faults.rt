//! The faults of texts.
use crate::table::Entry;

/// The faults of a map.
pub(crate) fn map_entries() -> &'static [Entry] {
    &MAP
}

static MAP: [Entry; 8] = [
    Entry {
        name: "BadHeader",
        numbers: "line",
        sentence: "Line 1 is `type octile`, line 2 `height` and a number, line 3 `width` and a number, line 4 `map`; this one isn't.",
        example: "type octal\nheight 1\nwidth 2\nmap\n..\n",
        answer: "BadHeader 1",
    },
    Entry {
        name: "BadNumber",
        numbers: "line",
        sentence: "A height or a width is a number from 1 on, in digits alone; this one isn't.",
        example: "type octile\nheight one\nwidth 2\nmap\n..\n",
        answer: "BadNumber 2",
    },
    Entry {
        name: "TooLarge",
        numbers: "line",
        sentence: "A height and a width are at most 65535 each, and a map has at most 4194304 cells.",
        example: "type octile\nheight 2048\nwidth 2049\nmap\n",
        answer: "TooLarge 3",
    },
    Entry {
        name: "BadTerrain",
        numbers: "line column",
        sentence: "A cell of a row is one of . G (land) S (swamp) W (water) @ O (out of bounds) T (trees); this one isn't.",
        example: "type octile\nheight 1\nwidth 2\nmap\n.x\n",
        answer: "BadTerrain 5 2",
    },
    Entry {
        name: "ShortRow",
        numbers: "line",
        sentence: "The row ends before it has as many cells as the width.",
        example: "type octile\nheight 1\nwidth 2\nmap\n.\n",
        answer: "ShortRow 5",
    },
    Entry {
        name: "MissingRows",
        numbers: "line",
        sentence: "The text ends before it has as many rows as the height.",
        example: "type octile\nheight 2\nwidth 2\nmap\n..\n",
        answer: "MissingRows 6",
    },
    Entry {
        name: "LongRow",
        numbers: "line",
        sentence: "The row goes on behind as many cells as the width.",
        example: "type octile\nheight 1\nwidth 2\nmap\n...\n",
        answer: "LongRow 5",
    },
    Entry {
        name: "TextAfter",
        numbers: "line",
        sentence: "Behind as many rows as the height only blanks and empty lines may follow.",
        example: "type octile\nheight 1\nwidth 2\nmap\n..\n..\n",
        answer: "TextAfter 6",
    },
];

/// The faults of a scenario.
pub(crate) fn scenario_entries() -> &'static [Entry] {
    &SCENARIO
}

static SCENARIO: [Entry; 6] = [
    Entry {
        name: "LineTooLong",
        numbers: "line",
        sentence: "A line has at most 4096 bytes.",
        example: "",
        answer: "LineTooLong 2",
    },
    Entry {
        name: "NoVersion",
        numbers: "",
        sentence: "The first line that isn't blank must be `version 1`.",
        example: "version 2\n",
        answer: "NoVersion",
    },
    Entry {
        name: "FieldCount",
        numbers: "line",
        sentence: "A row has nine fields: bucket, map name, width, height, x and y of the start, x and y of the goal, listed length.",
        example: "version 1\n0 a.map 3 2 0 0 2 0\n",
        answer: "FieldCount 2",
    },
    Entry {
        name: "BadNumber",
        numbers: "line field",
        sentence: "This field of the row must be a number in digits alone, within its range.",
        example: "version 1\n0 a.map 3 0 0 0 2 0 2\n",
        answer: "BadNumber 2 4",
    },
    Entry {
        name: "OutOfGrid",
        numbers: "line",
        sentence: "A coordinate of the start or the goal isn't below the row's own width or height: both count from 0.",
        example: "version 1\n0 a.map 3 2 0 0 3 0 3\n",
        answer: "OutOfGrid 2",
    },
    Entry {
        name: "BadLength",
        numbers: "line",
        sentence: "The listed length, field 9, must be 1 to 7 digits, perhaps with a point and 1 to 12 digits.",
        example: "version 1\n0 a.map 3 2 0 0 2 0 2.\n",
        answer: "BadLength 2",
    },
];

/// The faults of a plan.
pub(crate) fn plan_entries() -> &'static [Entry] {
    &PLAN
}

static PLAN: [Entry; 7] = [
    Entry {
        name: "TooMany",
        numbers: "line",
        sentence: "More than the limits allow: 65553 bytes in a line, 10000 agents, 65535 acts of an agent, 16777216 acts in all.",
        example: "mapf-plan 1\nnumber 7\nagents 10001\n",
        answer: "TooMany 3",
    },
    Entry {
        name: "Unfinished",
        numbers: "line",
        sentence: "The text ends before the LF of a line that is due.",
        example: "mapf-plan 1\nnumber 7\nagents 1\n",
        answer: "Unfinished 4",
    },
    Entry {
        name: "BadHeader",
        numbers: "line",
        sentence: "Line 1 is `mapf-plan 1`, line 2 `number` and a number, line 3 `agents` and a number, with one space between; this one isn't.",
        example: "mapf-plan 2\n",
        answer: "BadHeader 1",
    },
    Entry {
        name: "BadAgent",
        numbers: "line",
        sentence: "A line of an agent is `agent`, the column and the row of its start, and its acts, with one space between each two; this one isn't.",
        example: "mapf-plan 1\nnumber 7\nagents 1\nagent 0 0\n",
        answer: "BadAgent 4",
    },
    Entry {
        name: "BadNumber",
        numbers: "line",
        sentence: "A number must be digits alone, without zeros in front, and within its range.",
        example: "mapf-plan 1\nnumber 07\n",
        answer: "BadNumber 2",
    },
    Entry {
        name: "BadAct",
        numbers: "line column",
        sentence: "An act is one of n e s w - (north, east, south, west, wait); `=` alone stands for no acts.",
        example: "mapf-plan 1\nnumber 7\nagents 1\nagent 0 0 eE\n",
        answer: "BadAct 4 12",
    },
    Entry {
        name: "TextAfter",
        numbers: "line",
        sentence: "Nothing may follow the lines of as many agents as line 3 announces.",
        example: "mapf-plan 1\nnumber 7\nagents 0\n\n",
        answer: "TextAfter 4",
    },
];

/// The faults of a list of events.
pub(crate) fn event_entries() -> &'static [Entry] {
    &EVENTS
}

static EVENTS: [Entry; 3] = [
    Entry {
        name: "NoHeader",
        numbers: "",
        sentence: "Line 1 must be `mapf-events 1` or `mapf-events 2`, ended by an LF.",
        example: "mapf-events 3\n",
        answer: "NoHeader",
    },
    Entry {
        name: "BadEvent",
        numbers: "line",
        sentence: "A line is one of `start I`, `finish I`, `say I`, `deliver I M`, `restart I`, `tear I N`, of at most 64 bytes; this one isn't.",
        example: "mapf-events 1\nstart one\n",
        answer: "BadEvent 2",
    },
    Entry {
        name: "Unfinished",
        numbers: "line",
        sentence: "The text ends before the LF of this line.",
        example: "mapf-events 1\nstart 0",
        answer: "Unfinished 2",
    },
];

/// The faults of a proof.
pub(crate) fn proof_entries() -> &'static [Entry] {
    &PROOF
}

static PROOF: [Entry; 9] = [
    Entry {
        name: "BadHeader",
        numbers: "line",
        sentence: "Line 1 is `mapf-proof 1`, line 2 `objective cost` or `objective makespan`, line 3 `bound` and a number; this one isn't.",
        example: "type octile\nheight 1\nwidth 3\nmap\n...\nmapf-plan 1\nnumber 7\nagents 1\nagent 0 0 e\nmapf-proof 2\n",
        answer: "BadHeader 1",
    },
    Entry {
        name: "BadNode",
        numbers: "line",
        sentence: "A node is `vertex I J T X Y`, `swap I J T X Y U V`, `at I T X Y`, `goes I T X Y U V`, `stays I T` or `leaf`, of two agents that differ, and of two cells that share a side; this one isn't.",
        example: "type octile\nheight 1\nwidth 3\nmap\n...\nmapf-plan 1\nnumber 7\nagents 1\nagent 0 0 e\nmapf-proof 1\nobjective cost\nbound 1\nvertex 0 0 1 1 0\n",
        answer: "BadNode 4",
    },
    Entry {
        name: "BadNumber",
        numbers: "line",
        sentence: "A number must be digits alone, without zeros in front, a bound below 4294967296 and any other below 65536.",
        example: "type octile\nheight 1\nwidth 3\nmap\n...\nmapf-plan 1\nnumber 7\nagents 1\nagent 0 0 e\nmapf-proof 1\nobjective cost\nbound 01\n",
        answer: "BadNumber 3",
    },
    Entry {
        name: "TooMany",
        numbers: "line",
        sentence: "More than the limits allow: 128 bytes in a line, 65535 nodes above one, 4294967295 nodes in all.",
        example: "",
        answer: "TooMany 4",
    },
    Entry {
        name: "Unfinished",
        numbers: "line",
        sentence: "The text ends before the LF of a line that is due: each node that is no leaf has two children.",
        example: "type octile\nheight 1\nwidth 3\nmap\n...\nmapf-plan 1\nnumber 7\nagents 1\nagent 0 0 e\nmapf-proof 1\nobjective cost\nbound 1\nstays 0 1\nleaf\n",
        answer: "Unfinished 6",
    },
    Entry {
        name: "TextAfter",
        numbers: "line",
        sentence: "Nothing may follow the last leaf that is due.",
        example: "type octile\nheight 1\nwidth 3\nmap\n...\nmapf-plan 1\nnumber 7\nagents 1\nagent 0 0 e\nmapf-proof 1\nobjective cost\nbound 1\nleaf\nleaf\n",
        answer: "TextAfter 5",
    },
    Entry {
        name: "NoSuchAgent",
        numbers: "line",
        sentence: "The node names an agent that the plan has not. Agents count from 0.",
        example: "type octile\nheight 1\nwidth 3\nmap\n...\nmapf-plan 1\nnumber 7\nagents 1\nagent 0 0 e\nmapf-proof 1\nobjective cost\nbound 1\nstays 1 1\n",
        answer: "refused NoSuchAgent 4",
    },
    Entry {
        name: "OffMap",
        numbers: "line",
        sentence: "The node names a cell that is not on the map. Columns and rows count from 0.",
        example: "type octile\nheight 1\nwidth 3\nmap\n...\nmapf-plan 1\nnumber 7\nagents 1\nagent 0 0 e\nmapf-proof 1\nobjective cost\nbound 1\nat 0 1 3 0\n",
        answer: "refused OffMap 4",
    },
    Entry {
        name: "LeafTooLow",
        numbers: "line least",
        sentence: "Under what the nodes above the leaf ask, the agents by themselves cost so much at least, which is below the bound.",
        example: "type octile\nheight 1\nwidth 3\nmap\n...\nmapf-plan 1\nnumber 7\nagents 1\nagent 0 0 e\nmapf-proof 1\nobjective cost\nbound 2\nleaf\n",
        answer: "refused LeafTooLow 4 1",
    },
];
