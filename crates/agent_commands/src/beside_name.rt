//! The names of the files beside a tape.
ghost use Rattle.std.specs.Prelude.{◌≡◌, ◌++◌, codes, string_bytes, IfOk};

use std::alloc::{AllocError, Global};

/// The name of the file that keeps the plan of a tape.
#[derive(Drop)]
pub struct BesideName(String);

impl BesideName {
    pub(crate) fn of(alloc: Global, tape: &str) -> Result<BesideName, AllocError>
        ensures { IfOk result (λ name. string_bytes name.0 ≡ tape.now ++ codes ".plan") }
    {
        Ok(BesideName(name_beside(alloc, tape)?))
    }

    pub(crate) fn as_str(&self) -> &str
        ensures { result.now ≡ string_bytes self.now.0 }
    {
        self.0.as_str()
    }
}

/// The name under which that file is written.
#[derive(Drop)]
pub struct DraftName(String);

impl DraftName {
    pub(crate) fn of(alloc: Global, tape: &str) -> Result<DraftName, AllocError>
        ensures { IfOk result (λ name. string_bytes name.0 ≡ tape.now ++ codes ".plan.new") }
    {
        Ok(DraftName(format!(in alloc; "{tape}.plan.new")?))
    }

    pub(crate) fn as_str(&self) -> &str
        ensures { result.now ≡ string_bytes self.now.0 }
    {
        self.0.as_str()
    }
}

/// The name of the file beside a tape.
pub fn name_beside(alloc: Global, tape: &str) -> Result<String, AllocError>
    ensures { IfOk result (λ name. string_bytes name ≡ tape.now ++ codes ".plan") }
{
    format!(in alloc; "{tape}.plan")
}
