//! Which messages of a plan are heard.
ghost use Rattle.std.specs.Prelude.{◌≡◌};
ghost use Rattle.model.specs.Timetable.{Timetable};
ghost use Rattle.depgraph.specs.AgentParts.{IsPartOf};
ghost use Rattle.agent.specs.States.{message_refusal};
ghost use Rattle.agent.specs.Code.Listing.{entries_of};

use crate::entries::Entries;
use crate::refusal::HearFault;
use depgraph::Part;

/// Why a message of the plan is not heard, by its sender and its entries.
pub(crate) fn refusal_of(part: &Part<'_>, from: u16, entries: Entries<'_>) -> Option<HearFault>
    ensures { (tt : Timetable) → IsPartOf tt part.now
        → result ≡ message_refusal tt
        (record { sender = from; entries = entries_of entries.entry }) }
{
    if u32::from(from) >= part.agents() {
        return Some(HearFault::NoSuchAgent);
    }
    let mut too_many = false;
    'entries: for at in 0..entries.count() {
        let entry = entries.entry(at);
        let Some(moves) = part.moves(u32::from(entry.agent)) else {
            return Some(HearFault::NoSuchAgent);
        };
        too_many = too_many || entry.done > moves;
    }
    if too_many {
        Some(HearFault::TooMany)
    } else {
        None
    }
}
