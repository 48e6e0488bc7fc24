//! Scenarios and their rows.
ghost use Rattle.std.specs.Prelude.{◌≡◌, ◌+◌, ◌^◌, ◌<◌, ◌≤◌, IfOk};
ghost use Rattle.std.specs.Arc.{arc_slice_items};
ghost use Rattle.scenario.specs.Query.{Query, IsQuery};
ghost use Rattle.scenario.specs.Code.Parsing.{query_by};

use crate::Listed;
use crate::numbers::Numbers;
use grid::Cell;
use std::alloc::AllocError;
use std::marker::Model;
use std::sync::ArcSlice;

/// A query from a start to a goal, on a map of a width and a height, and the length that is listed
/// for it.
#[derive(Debug, Drop)]
pub struct Row {
    bucket: u32,
    /// Rows side by side share a name that is the same.
    name: ArcSlice<u8>,
    width: u32,
    height: u32,
    start: Cell,
    goal: Cell,
    listed: Listed,
}

impl Model for Row {
    ghost Value = { Query };

    ghost view = { λ r. record {
      bucket = r.bucket;
      name = arc_slice_items r.name;
      width = r.width;
      height = r.height;
      start = r.start;
      goal = r.goal;
      listed = r.listed.n;
      decimals =
          r.listed.d;
    } };

    ghost invariant = { λ r. IsQuery (record {
      bucket = r.bucket;
      name = arc_slice_items r.name;
      width = r.width;
      height = r.height;
      start = r.start;
      goal = r.goal;
      listed = r.listed.n;
      decimals =
          r.listed.d;
    }) };
}

impl Row {
    /// The row with these numbers.
    pub(crate) fn from_numbers(numbers: &Numbers, name: ArcSlice<u8>, listed: Listed) -> Row
        requires { IsQuery (query_by numbers.now (arc_slice_items name) listed) }
        ensures { result ≡ query_by numbers.now (arc_slice_items name) listed }
    {
        Row {
            bucket: numbers.bucket,
            name,
            width: numbers.width,
            height: numbers.height,
            start: numbers.start(),
            goal: numbers.goal(),
            listed,
        }
    }

    /// The bucket of the benchmark that the row is in.
    pub fn bucket(&self) -> u32
        ensures { result ≡ self.now.bucket }
    {
        self.bucket
    }

    /// The name of the map, as it stands in the text.
    pub fn name(&self) -> &[u8]
        ensures { result.now ≡ self.now.name }
    {
        self.name.as_slice()
    }

    /// The same name, for another row.
    pub(crate) fn shared_name(&self) -> Result<ArcSlice<u8>, AllocError>
        ensures { IfOk result (λ name. arc_slice_items name ≡ self.now.name) }
    {
        self.name.clone()
    }

    /// How many cells a row of the map has.
    pub fn width(&self) -> u32
        ensures width { result ≡ self.now.width }
        ensures within { IsQuery self.now }
    {
        self.width
    }

    /// How many rows the map has.
    pub fn height(&self) -> u32
        ensures height { result ≡ self.now.height }
        ensures within { IsQuery self.now }
    {
        self.height
    }

    pub fn start(&self) -> Cell
        ensures { result ≡ self.now.start }
    {
        self.start
    }

    pub fn goal(&self) -> Cell
        ensures { result ≡ self.now.goal }
    {
        self.goal
    }

    /// The length that the row lists for a shortest walk. It is read as it stands, right or wrong.
    pub fn listed(&self) -> Listed
        ensures number { result.n ≡ self.now.listed }
        ensures decimals { result.d ≡ self.now.decimals }
    {
        self.listed
    }
}

/// The rows of a scenario, in order.
#[derive(Debug, Drop)]
pub struct Scenario {
    rows: Vec<Row>,
}

impl Model for Scenario {
    ghost use Rattle.std.specs.Prelude.{List};
    ghost use Rattle.std.specs.List.{AllByRecursion};
    ghost use Rattle.scenario.specs.Query.{Query, IsQuery};

    ghost Value = { List Query };

    ghost view = { λ s. s.rows.items };

    ghost invariant = { λ s. AllByRecursion IsQuery s.rows.items };
}

impl Scenario {
    ghost use Rattle.std.specs.List.{AllByRecursion};

    pub fn rows(&self) -> &[Row]
        ensures rows { result.now ≡ self.now }
        ensures within { AllByRecursion IsQuery self.now }
    {
        self.rows.as_slice()
    }

    pub(crate) fn from_rows(rows: Vec<Row>) -> Scenario
        requires { AllByRecursion IsQuery rows.items }
        ensures { result ≡ rows.items }
    {
        Scenario { rows }
    }
}
