//! The first faults of all.
ghost use Rattle.std.specs.Prelude.{◌≡◌, ◌+◌, ◌<◌, ◌≤◌, ◌↔◌, []};
ghost use Rattle.std.specs.Prelude.{◌∷◌, ◌++◌, length, take, IsTrue, OnOk};

use model::PlanFault;
use std::alloc::{AllocError, Global};

/// Faults in their order: one more than are wanted, so that it is known whether there are more.
#[derive(Drop)]
pub(crate) struct Listing {
    pub(crate) faults: Vec<PlanFault>,
    /// So many are wanted.
    pub(crate) most: u32,
}

impl Listing {
    pub(crate) fn new(alloc: Global, most: u32) -> Listing
        ensures faults { result.faults.items ≡ [] }
        ensures most { result.most ≡ most }
    {
        Listing {
            faults: Vec::new(alloc),
            most,
        }
    }

    pub(crate) fn is_full(&self) -> bool
        ensures { IsTrue result ↔ (self.now.most < length self.now.faults.items) }
    {
        self.faults.len() > self.most as usize
    }

    pub(crate) fn into_faults(self) -> Vec<PlanFault>
        ensures { result.items ≡ self.faults.items }
    {
        self.faults
    }

    /// Adds a fault, unless the listing is full.
    pub(crate) fn push(&mut self, fault: PlanFault) -> Result<(), AllocError>
        requires { length self.old.faults.items ≤ self.old.most + 1 }
        ensures most { self.new.most ≡ self.old.most }
        ensures faults { OnOk result
            (self.new.faults.items ≡ take (self.old.most + 1) (self.old.faults.items ++ fault ∷ [])) }
    {
        if !self.is_full() {
            self.faults.push(fault)?;
        }
        Ok(())
    }
}
