//! How a sender counts what it seals, through kills and power cuts.
ghost use Rattle.std.specs.Prelude.{◌≡◌, ◌+◌, ◌⊎◌, ℕ, Bool, is_ok, IfOk, OnOk, OnErr};
ghost use Rattle.std.specs.Prelude.{MatchResult};
ghost use Rattle.text_io.specs.Counted.{one_more};
ghost use Rattle.signing.specs.Counting.{Counting, IsCounting, IsNoBlock, CountsOn, CountsNone};

use std::marker::Model;

/// So many counts are reserved at a time.
const BLOCK: u64 = 1000;

/// A count can't be kept, or read.
#[derive(Clone, Copy, Debug, PartialEq, Eq)]
pub struct CountFailed;

/// Where a sender keeps a count below which all may have been used, so that it is still there after
/// a kill or a power cut.
pub trait CountStore: Drop {
    // The count that is kept, whether it can be read, and how often one couldn't be kept: that
    // number stays at the greatest value.
    ghost kept: { Self → ℕ };

    ghost is_readable: { Self → Bool };

    ghost failures: { Self → ℕ };

    /// The count that is kept.
    fn count(&self) -> Result<u64, CountFailed>
        ensures count { IfOk result (λ count. count ≡ kept self.now) }
        ensures readable { is_ok result ≡ is_readable self.now };

    /// Keeps this count in place of the one before. Where that fails, either may be kept.
    fn keep(&mut self, count: u64) -> Result<(), CountFailed>
        ensures ok { OnOk result ((kept self.new ≡ count)
            × (failures self.new ≡ failures self.old)) }
        ensures err { OnErr result (((kept self.new ≡ kept self.old) ⊎ (kept self.new ≡ count))
            × (failures self.new ≡ one_more (failures self.old))) };
}

/// The counts of one process.
#[derive(Drop)]
pub struct Counter<S: CountStore> {
    store: S,
    next: u64,
    end: u64,
}

impl<S: CountStore> Model for Counter<S> {
    ghost Value = { Counting };

    ghost view = { λ c. record {
      kept = S.kept c.store;
      failures = S.failures c.store;
      next = c.next;
      end = c.end;
    } };

    ghost invariant = { λ c. IsCounting (record {
      kept = S.kept c.store;
      failures = S.failures c.store;
      next = c.next;
      end = c.end;
    }) };
}

impl<S: CountStore> Counter<S> {
    /// Begins behind all that is kept.
    pub fn new(store: S) -> Result<Counter<S>, CountFailed>
        ensures ok { IfOk result (λ counter. counter ≡ record {
          kept = S.kept store;
          failures = S.failures store;
          next = S.kept store;
          end = S.kept store;
        }) }
        ensures readable { is_ok result ≡ S.is_readable store }
    {
        let count = store.count()?;
        Ok(Counter {
            store,
            next: count,
            end: count,
        })
    }

    /// The next count. Where none is reserved, a block of them is kept first.
    pub fn take(&mut self) -> Result<u64, CountFailed>
        ensures { MatchResult result (CountsOn self.old self.new)
            (λ _. CountsNone self.old self.new) }
    {
        if self.next == self.end {
            self.reserve()?;
        }
        let count = self.next;
        self.next += 1;
        Ok(count)
    }

    /// Keeps a block more.
    fn reserve(&mut self) -> Result<(), CountFailed>
        ensures ok { OnOk result ((self.new.next ≡ self.old.next)
            × (self.new.end ≡ self.old.end + 1000) × (self.new.kept ≡ self.new.end)
            × (self.new.failures ≡ self.old.failures)) }
        ensures err { OnErr result ((self.new.next ≡ self.old.next)
            × (self.new.end ≡ self.old.end) × IsNoBlock self.old self.new) }
    {
        if self.end > u64::MAX - BLOCK {
            return Err(CountFailed);
        }
        let end = self.end + BLOCK;
        self.store.keep(end)?;
        self.end = end;
        Ok(())
    }
}
