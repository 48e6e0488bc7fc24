//! Help on faults.
use crate::advice::advice_on;
use crate::page::{Page, Style};
use crate::table::{Entry, GROUPS, group_entries, group_name};

/// A text for people on one fault or on all.
#[derive(Drop)]
pub struct FaultHelp {
    page: Page,
}

impl FaultHelp {
    /// The text, ended by an LF.
    pub fn as_bytes(&self) -> &[u8] {
        self.page.as_bytes()
    }
}

/// Help on the fault of this name, or on all where the topic is `faults`, in small or capital
/// letters. Any other topic has none.
pub fn fault_help(topic: &str) -> Option<FaultHelp> {
    let mut page = Page::new(Style::Plain);
    if topic.eq_ignore_ascii_case("faults") {
        put_all(&mut page);
    } else {
        for group in 0..GROUPS {
            put_named(topic, group, &mut page);
        }
    }
    if page.as_bytes().is_empty() {
        None
    } else {
        Some(FaultHelp { page })
    }
}

/// Puts a line for each fault, below what it is a fault of.
fn put_all(page: &mut Page) {
    for group in 0..GROUPS {
        let of = group_name(group);
        page.fill("Of {}:\n", &[of]);
        for entry in group_entries(group) {
            page.say("  ");
            put_form(entry, page);
            page.say(": ");
            page.say(entry.sentence);
            page.say("\n");
        }
    }
    page.say("\n`mapf help FAULT` shows one of them, with an example.\n");
}

/// Puts the name with its numbers.
fn put_form(entry: &Entry, page: &mut Page) {
    page.say(entry.name);
    if !entry.numbers.is_empty() {
        page.say(" ");
        page.say(entry.numbers);
    }
}

/// Puts the faults of a group that have this name.
fn put_named(name: &str, group: usize, page: &mut Page) {
    for entry in group_entries(group) {
        if entry.name.eq_ignore_ascii_case(name) {
            if !page.as_bytes().is_empty() {
                page.say("\n");
            }
            put_entry(entry, group_name(group), page);
        }
    }
}

/// Puts a fault with its example.
fn put_entry(entry: &Entry, of: &str, page: &mut Page) {
    put_form(entry, page);
    page.fill(", of {}\n", &[of]);
    page.say(entry.sentence);
    page.say("\n");
    page.say(advice_on(entry.name, of));
    if !entry.example.is_empty() {
        page.say("Example:\n");
        for line in entry.example.lines() {
            page.fill("  {}\n", &[line]);
        }
        let answer = entry.answer;
        page.fill("is answered by `{}`.\n", &[answer]);
    }
}
