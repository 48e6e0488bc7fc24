//! Which cells more than one agent comes into.
ghost use Rattle.std.specs.Prelude.{◌≡◌, ◌≢◌, ◌<◌, ◌^◌, ℕ, length};
ghost use Rattle.std.specs.Prelude.{get_or, true, false, Some, None, IfOk};
ghost use Rattle.depgraph.specs.Code.Following.{AreEntries, AreShared};
ghost use Rattle.depgraph.specs.Code.Meetings.{IsOwnerSeen};

use std::alloc::{AllocError, Global};

/// Who came first into each cell, and whether others came too.
#[derive(Drop)]
pub(crate) struct Owners {
    owners: Vec<Option<u16>>,
    shared: Vec<bool>,
}

impl Owners {
    /// An agent comes into the cell with a number.
    fn see(&mut self, number: u32, agent: u16)
        requires owner { number < length self.old.owners.items }
        requires shared { number < length self.old.shared.items }
        ensures { IsOwnerSeen number agent self.old self.new }
    {
        let number = number as usize;
        match self.owners[number] {
            None => self.owners[number] = Some(agent),
            Some(owner) => {
                if owner != agent {
                    self.shared[number] = true;
                }
            }
        }
    }
}

/// For each number below a limit, whether more than one agent comes into the cell with it.
pub(crate) fn shared_cells(
    alloc: Global,
    times: &[u16],
    ends: &[usize],
    numbers: &[u32],
    limit: usize,
) -> Result<Vec<bool>, AllocError>
    requires { AreEntries times.now ends.now numbers.now limit }
    ensures { IfOk result (λ shared. AreShared ends.now numbers.now limit shared.items) }
{
    let mut owners = Owners {
        owners: vec![in alloc; None; limit]?,
        shared: vec![in alloc; false; limit]?,
    };
    let mut entry = 0;
    for agent in 0..ends.len() {
        while entry < ends[agent] {
            owners.see(numbers[entry], agent as u16);
            entry += 1;
        }
    }
    Ok(owners.shared)
}
