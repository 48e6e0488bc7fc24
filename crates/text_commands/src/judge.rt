//! Judging rows of a scenario, one after another, on one map.
ghost use Rattle.std.specs.Prelude.{◌≡◌, ◌⊎◌, ◌+◌, ◌^◌, ◌<◌, IfOk, MatchResult};
ghost use Rattle.walks.specs.declared.certificate.CertFault.TheVariants.{NotTight};
ghost use Rattle.least_steps.specs.LeastSteps.{IsLeastSteps};
ghost use Rattle.text_commands.specs.Code.Judging.{PutsRow};
ghost use Rattle.text_commands.specs.RowsCommand.{HasNoLine, IsRowJudged, IsRowLine};

use crate::row_command::is_for;
use crate::row_fault::RowFault;
use crate::row_line::{RowLine, send_row_line};
use crate::row_verdict::RowVerdict;
use crate::rows_fault::RowsFault;
use crate::tally::Tally;
use grid::Map;
use least_steps::{StepFault, StepSearch};
use scenario::Row;
use std::alloc::{AllocError, Global};
use std::io::Write;
use std::marker::Model;
use text_io::Sink;
use walks::CertFault;

/// A map on which rows are judged, with what finds the least walks on it; of straight steps alone,
/// where `straight` is set.
#[derive(Drop)]
pub(crate) struct Judge<'a> {
    alloc: Global,
    map: &'a Map,
    straight: bool,
    search: StepSearch<'a>,
}

impl<'a> Model for Judge<'a> {
    ghost use Rattle.std.specs.Prelude.{◌≡◌};
    ghost use Rattle.text_commands.specs.Code.Judging.{Judgement};

    ghost Value = { Judgement };

    ghost view = { λ j. record { map = j.map.now; straight = j.straight } };

    ghost invariant = { λ j. j.search ≡ j.map.now };
}

impl Judge<'_> {
    /// Nothing is judged yet.
    pub(crate) fn on<'a>(
        alloc: Global,
        map: &'a Map,
        straight: bool,
    ) -> Result<Judge<'a>, AllocError>
        ensures { IfOk result (λ j. j ≡ record { map = map.now; straight = straight }) }
    {
        let search = StepSearch::on(alloc, map)?;
        Ok(Judge {
            alloc,
            map,
            straight,
            search,
        })
    }

    /// Where what is needed is allocated.
    pub(crate) fn alloc(&self) -> Global {
        self.alloc
    }

    /// What a row comes to.
    fn judge(&mut self, row: &Row) -> Result<RowLine, RowFault>
        ensures same { self.new ≡ self.old }
        ensures line { MatchResult result (IsRowLine self.old.straight self.old.map row.now)
            (HasNoLine self.old.map row.now) }
    {
        if !is_for(row, self.map) {
            return Ok(RowLine::OtherSize);
        }
        if self.straight {
            Ok(RowLine::Stepped(least(&mut self.search, row)?))
        } else {
            Ok(RowLine::Judged(verdict(&mut self.search, row)?))
        }
    }

    /// Judges a row, puts the line behind its number, and counts it.
    pub(crate) fn put_next<W: Write>(
        &mut self,
        row: &Row,
        number: u128,
        before: &Tally,
        sink: &mut Sink<'_, W>,
    ) -> Result<Tally, RowsFault>
        requires { before.now.rows + 1 < 2 ^ 64 }
        ensures same { self.new ≡ self.old }
        ensures puts { PutsRow W.contents self.old row.now number before.now sink.old
            sink.new result }
    {
        let line = self.judge(row)?;
        send_row_line(sink, number, &line)?;
        Ok(before.with(&line))
    }
}

/// The least number of straight steps from a row's start to its goal.
fn least(search: &mut StepSearch<'_>, row: &Row) -> Result<Option<u32>, RowFault>
    ensures same { search.new ≡ search.old }
    ensures least { MatchResult result (IsLeastSteps search.old row.now.start row.now.goal)
        (λ fault. (fault ≡ RowFault.OutOfMemory) ⊎ (fault ≡ RowFault.Certificate NotTight)) }
{
    match search.least(row.start(), row.goal()) {
        Ok(steps) => Ok(steps),
        Err(fault) => Err(row_fault(fault)),
    }
}

/// Whether the length that a row lists is that of a shortest walk from its start to its goal.
fn verdict(search: &mut StepSearch<'_>, row: &Row) -> Result<RowVerdict, RowFault>
    ensures same { search.new ≡ search.old }
    ensures judged { MatchResult result (IsRowJudged search.old row.now)
        (λ fault. (fault ≡ RowFault.OutOfMemory) ⊎ (fault ≡ RowFault.Certificate NotTight)) }
{
    match search.shortest(row.start(), row.goal()) {
        Ok(shortest) => Ok(RowVerdict::new(shortest, row.listed())),
        Err(fault) => Err(row_fault(fault)),
    }
}

fn row_fault(fault: StepFault) -> RowFault
    ensures { (result ≡ RowFault.OutOfMemory) ⊎ (result ≡ RowFault.Certificate NotTight) }
{
    match fault {
        StepFault::OutOfMemory => RowFault::OutOfMemory,
        StepFault::NotTight => RowFault::Certificate(CertFault::NotTight),
    }
}
