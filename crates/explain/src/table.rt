//! All faults and refusals, with a sentence and, where texts show it, a smallest example.
use crate::files::format_name;
use crate::message_faults::{message_entries, reply_entries, signed_entries, tape_entries};
use crate::other_faults::{command_entries, course_entries, departing_entries, fit_entries};
use crate::page::Page;
use crate::text_faults::{
    event_entries, map_entries, plan_entries, proof_entries, scenario_entries,
};
use crate::told::Told;

/// What is known of a fault.
pub(crate) struct Entry {
    pub(crate) name: &'static str,
    /// The names of its numbers.
    pub(crate) numbers: &'static str,
    pub(crate) sentence: &'static str,
    /// Texts, one behind the other, or nothing.
    pub(crate) example: &'static str,
    /// What is answered to the example.
    pub(crate) answer: &'static str,
}

/// How many groups of faults there are.
pub(crate) const GROUPS: usize = 13;

/// What the faults of a group are faults of.
pub(crate) fn group_name(group: usize) -> &'static str {
    match group {
        0 => "a map",
        1 => "a scenario",
        2 => "a plan",
        3 => "a list of events",
        4 => "a proof",
        5 => "a plan on its map",
        6 => "a plan beside a scenario",
        7 => "a plan beside an older one",
        8 => "a command",
        9 => "a tape",
        10 => "a message",
        11 => "a signed message",
        _ => "a reply",
    }
}

/// The faults of a group.
pub(crate) fn group_entries(group: usize) -> &'static [Entry] {
    match group {
        0 => map_entries(),
        1 => scenario_entries(),
        2 => plan_entries(),
        3 => event_entries(),
        4 => proof_entries(),
        5 => course_entries(),
        6 => fit_entries(),
        7 => departing_entries(),
        8 => command_entries(),
        9 => tape_entries(),
        10 => message_entries(),
        11 => signed_entries(),
        _ => reply_entries(),
    }
}

/// Puts what is wrong where this fault is told: of a file like its own, or of any.
pub(crate) fn put_sentence(told: &Told<'_>, page: &mut Page) {
    let name = told.fault.text();
    let format = format_name(told.origin);
    let mut found = "";
    for group in 0..GROUPS {
        let is_of_kind = group_name(group) == format;
        for entry in group_entries(group) {
            if entry.name == name && (found.is_empty() || is_of_kind) {
                found = entry.sentence;
            }
        }
    }
    page.say(found);
    page.say("\n");
}
