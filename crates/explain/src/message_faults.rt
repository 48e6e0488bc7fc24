//! The faults of tapes and messages, and why an agent refuses what it is told.
use crate::table::Entry;

/// The faults of a tape.
pub(crate) fn tape_entries() -> &'static [Entry] {
    &TAPES
}

static TAPES: [Entry; 12] = [
    Entry {
        name: "NoRoom",
        numbers: "",
        sentence: "The tape has no room for two records a move.",
        example: "",
        answer: "",
    },
    Entry {
        name: "TooLong",
        numbers: "",
        sentence: "The tape has more records than two for each move of the agent, so it is none of this plan.",
        example: "",
        answer: "",
    },
    Entry {
        name: "TapeFailed",
        numbers: "",
        sentence: "The system failed to lock, to read or to sync the tape, or to read or write the plan beside it.",
        example: "",
        answer: "",
    },
    Entry {
        name: "Damaged",
        numbers: "record",
        sentence: "The record with this number, from 0, is not the one that is due there: the file was changed, or is no tape.",
        example: "",
        answer: "",
    },
    Entry {
        name: "WrongPlan",
        numbers: "record",
        sentence: "The record is of a plan with another number.",
        example: "",
        answer: "",
    },
    Entry {
        name: "WrongAgent",
        numbers: "record",
        sentence: "The record is of another agent.",
        example: "",
        answer: "",
    },
    Entry {
        name: "NoTape",
        numbers: "",
        sentence: "There is no file of this name, or none with `.plan` behind it, which says to which plan it belongs, and none was made:\n`mapf tape` makes none, nor does `mapf agent` with `--tape kept`.",
        example: "",
        answer: "",
    },
    Entry {
        name: "PlanDamaged",
        numbers: "",
        sentence: "What is beside the tape, in the file of its name with `.plan` behind it, is none that `mapf agent` wrote.",
        example: "",
        answer: "",
    },
    Entry {
        name: "TapeEmptied",
        numbers: "",
        sentence: "A record was stored on the tape, as the file of its name with `.plan` behind it says, and it has none.",
        example: "",
        answer: "",
    },
    Entry {
        name: "OtherPlan",
        numbers: "",
        sentence: "The tape belongs to another plan, that in the file of its name with `.plan` behind it, and none of the two goes on from the other.",
        example: "",
        answer: "",
    },
    Entry {
        name: "TapeInUse",
        numbers: "",
        sentence: "Another process holds the tape.",
        example: "",
        answer: "",
    },
    Entry {
        name: "TapeExists",
        numbers: "",
        sentence: "With `--tape new` the file has to be without a record, and has some.",
        example: "",
        answer: "",
    },
];

/// The faults of a message.
pub(crate) fn message_entries() -> &'static [Entry] {
    &MESSAGES
}

static MESSAGES: [Entry; 6] = [
    Entry {
        name: "BadLength",
        numbers: "",
        sentence: "The message is shorter or longer than its first bytes say: version 1 has twelve bytes, version 2 ten and six for each entry.",
        example: "",
        answer: "",
    },
    Entry {
        name: "BadMagic",
        numbers: "",
        sentence: "The first byte isn't 46, so these bytes are no message.",
        example: "",
        answer: "",
    },
    Entry {
        name: "BadVersion",
        numbers: "",
        sentence: "The second byte is no version that is known, which are 01 and 02.",
        example: "",
        answer: "",
    },
    Entry {
        name: "BadEntry",
        numbers: "entry",
        sentence: "The entry, from 0, has the number 0, or an agent that isn't greater than the one before.",
        example: "",
        answer: "",
    },
    Entry {
        name: "WrongPlan",
        numbers: "",
        sentence: "The message is of a plan with another number.",
        example: "",
        answer: "",
    },
    Entry {
        name: "TooMany",
        numbers: "",
        sentence: "The message tells of more moves than an agent has.",
        example: "",
        answer: "",
    },
];

/// Why `robot.py` drops what others say, before its agent hears of it.
pub(crate) fn signed_entries() -> &'static [Entry] {
    &SIGNED
}

static SIGNED: [Entry; 7] = [
    Entry {
        name: "NotSigned",
        numbers: "",
        sentence: "The robot has keys, and dropped a message that is not signed.",
        example: "",
        answer: "",
    },
    Entry {
        name: "BadTag",
        numbers: "",
        sentence: "The robot dropped a message whose signature is wrong: it is forged or damaged, or its sender has other keys.",
        example: "",
        answer: "",
    },
    Entry {
        name: "OtherRun",
        numbers: "",
        sentence: "The robot dropped a message that is signed for a plan with another number.",
        example: "",
        answer: "",
    },
    Entry {
        name: "UnknownSender",
        numbers: "",
        sentence: "The robot dropped a message because its file of keys has no key of the sender.",
        example: "",
        answer: "",
    },
    Entry {
        name: "NotItsSender",
        numbers: "",
        sentence: "The robot dropped a message that is signed by one robot and names another as its sender.",
        example: "",
        answer: "",
    },
    Entry {
        name: "NotNewer",
        numbers: "",
        sentence: "The robot dropped a message that is no newer than one that it heard before from the same sender.",
        example: "",
        answer: "",
    },
    Entry {
        name: "NotItsTopic",
        numbers: "",
        sentence: "The robot dropped a message that names another sender than the topic under which the broker handed it on.",
        example: "",
        answer: "",
    },
];

/// The faults of a reply.
pub(crate) fn reply_entries() -> &'static [Entry] {
    &REPLIES
}

static REPLIES: [Entry; 10] = [
    Entry {
        name: "BadLine",
        numbers: "",
        sentence: "The line is none that an agent answers, or is too long.",
        example: "",
        answer: "refused BadLine",
    },
    Entry {
        name: "StaleTape",
        numbers: "agent count",
        sentence: "The other agent says that this one has finished so many moves, and its tape, which was to be kept, has fewer: it is an older one.",
        example: "",
        answer: "refused StaleTape 0 1",
    },
    Entry {
        name: "NoSuchMessage",
        numbers: "",
        sentence: "So many messages were not said yet.",
        example: "type octile\nheight 1\nwidth 3\nmap\n...\nmapf-plan 1\nnumber 7\nagents 2\nagent 1 0 e\nagent 0 0 e\nmapf-events 1\ndeliver 1 0\n",
        answer: "refused NoSuchMessage",
    },
    Entry {
        name: "BadTear",
        numbers: "",
        sentence: "A record has ten bytes, and a write can't be torn behind them.",
        example: "type octile\nheight 1\nwidth 3\nmap\n...\nmapf-plan 1\nnumber 7\nagents 2\nagent 1 0 e\nagent 0 0 e\nmapf-events 1\ntear 0 11\n",
        answer: "refused BadTear",
    },
    Entry {
        name: "Broken",
        numbers: "",
        sentence: "A write of this agent failed, and it must restart before it does anything else.",
        example: "type octile\nheight 1\nwidth 3\nmap\n...\nmapf-plan 1\nnumber 7\nagents 2\nagent 1 0 e\nagent 0 0 e\nmapf-events 1\ntear 0 5\nstart 0\nsay 0\n",
        answer: "refused Broken",
    },
    Entry {
        name: "AlreadyMoving",
        numbers: "",
        sentence: "The agent has begun a move and not finished it.",
        example: "type octile\nheight 1\nwidth 3\nmap\n...\nmapf-plan 1\nnumber 7\nagents 2\nagent 1 0 e\nagent 0 0 e\nmapf-events 1\nstart 0\nstart 0\n",
        answer: "refused AlreadyMoving",
    },
    Entry {
        name: "AtEnd",
        numbers: "",
        sentence: "The agent has no move left.",
        example: "type octile\nheight 1\nwidth 3\nmap\n...\nmapf-plan 1\nnumber 7\nagents 2\nagent 1 0 e\nagent 0 0 e\nmapf-events 1\nstart 0\nfinish 0\nstart 0\n",
        answer: "refused AtEnd",
    },
    Entry {
        name: "Waits",
        numbers: "agent count",
        sentence: "The agent waits: it hasn't heard yet that the other agent has finished so many moves.",
        example: "type octile\nheight 1\nwidth 3\nmap\n...\nmapf-plan 1\nnumber 7\nagents 2\nagent 1 0 e\nagent 0 0 e\nmapf-events 1\nstart 1\n",
        answer: "refused Waits 0 1",
    },
    Entry {
        name: "NotMoving",
        numbers: "",
        sentence: "The agent has no move to finish.",
        example: "type octile\nheight 1\nwidth 3\nmap\n...\nmapf-plan 1\nnumber 7\nagents 2\nagent 1 0 e\nagent 0 0 e\nmapf-events 1\nfinish 0\n",
        answer: "refused NotMoving",
    },
    Entry {
        name: "StoreFailed",
        numbers: "",
        sentence: "The agent couldn't store its move, and must restart.",
        example: "type octile\nheight 1\nwidth 3\nmap\n...\nmapf-plan 1\nnumber 7\nagents 2\nagent 1 0 e\nagent 0 0 e\nmapf-events 1\ntear 0 5\nstart 0\n",
        answer: "refused StoreFailed",
    },
];
