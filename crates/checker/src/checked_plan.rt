//! Plans that were found valid.
ghost use Rattle.std.specs.Prelude.{◌≡◌, length, map, option_map, option_copied};
ghost use Rattle.model.specs.Timetable.{cell_at, track_of};
ghost use Rattle.model.specs.Costs.{cost, sum_of_costs, makespan};
ghost use Rattle.checker.specs.Checking.{Checked, IsChecked, cells_of};
ghost use Rattle.checker.specs.Code.Tracks.{track_along, HasCourse};

use crate::cells::{Cells, cell_after};
use grid::Cell;
use plan_text::Course;
use std::marker::Model;

/// A plan that is valid on a map, with that map's size. What its agents wait at their ends is left
/// out of their acts.
#[derive(Debug, Drop)]
pub struct CheckedPlan {
    number: u32,
    courses: Vec<Course>,
    width: u32,
    height: u32,
}

impl Model for CheckedPlan {
    ghost Value = { Checked };

    ghost view = { λ c. record {
      width = c.width;
      height = c.height;
      timetable = record { number = c.number; tracks = map track_along c.courses.items };
    } };

    ghost invariant = { λ c. IsChecked (record {
      width = c.width;
      height = c.height;
      timetable = record { number = c.number; tracks = map track_along c.courses.items };
    }) };
}

impl CheckedPlan {
    /// The plan with these courses, none of which ends in a wait.
    pub(crate) fn from_courses(
        number: u32,
        courses: Vec<Course>,
        width: u32,
        height: u32,
    ) -> CheckedPlan
        requires { IsChecked
            (record {
              width = width;
              height = height;
              timetable = record { number = number; tracks = map track_along courses.items };
            }) }
        ensures { result ≡ record {
          width = width;
          height = height;
          timetable = record { number = number; tracks = map track_along courses.items };
        } }
    {
        CheckedPlan {
            number,
            courses,
            width,
            height,
        }
    }

    /// The plan's number.
    pub fn number(&self) -> u32
        ensures number { result ≡ self.now.timetable.number }
        ensures within { IsChecked self.now }
    {
        self.number
    }

    /// How many cells a row of the map has that the plan was checked on.
    pub fn width(&self) -> u32
        ensures { result ≡ self.now.width }
    {
        self.width
    }

    /// How many rows that map has.
    pub fn height(&self) -> u32
        ensures { result ≡ self.now.height }
    {
        self.height
    }

    /// How many agents there are.
    pub fn agents(&self) -> u32
        ensures agents { result ≡ length self.now.timetable.tracks }
        ensures within { IsChecked self.now }
    {
        self.courses.len() as u32
    }

    /// The cell in which an agent is at a time, also past its end; `None` where there is no such
    /// agent. It takes a step for each act before the time.
    pub fn position(&self, agent: u32, time: u32) -> Option<Cell>
        ensures { result ≡ option_map (λ track. cell_at track time)
            (track_of self.now.timetable agent) }
    {
        match self.course(agent) {
            Some(course) => Some(cell_after(course.start(), course.acts(), time)),
            None => None,
        }
    }

    /// The cells of an agent, one for each time from 0 to that at which it comes to rest.
    pub fn cells(&self, agent: u32) -> Option<Cells<'_>>
        ensures { result ≡ option_map cells_of (track_of self.now.timetable agent) }
    {
        match self.course(agent) {
            Some(course) => Some(Cells::new(course.start(), course.acts())),
            None => None,
        }
    }

    /// The least time from which an agent stays for ever.
    pub fn cost(&self, agent: u32) -> Option<u32>
        ensures { result ≡ option_map cost (track_of self.now.timetable agent) }
    {
        match self.course(agent) {
            Some(course) => Some(course.acts().len() as u32),
            None => None,
        }
    }

    /// The sum of the agents' costs.
    pub fn sum_of_costs(&self) -> u64
        ensures { result ≡ sum_of_costs self.now.timetable }
    {
        let mut sum = 0;
        for course in &self.courses {
            sum += course.acts().len() as u64;
        }
        sum
    }

    /// The greatest of the agents' costs; 0 without agents.
    pub fn makespan(&self) -> u32
        ensures { result ≡ makespan self.now.timetable }
    {
        let mut greatest = 0;
        for course in &self.courses {
            greatest = greatest.max(course.acts().len() as u32);
        }
        greatest
    }

    /// The cell in which an agent comes to rest.
    pub fn rest(&self, agent: u32) -> Option<Cell>
        ensures { result ≡ option_map (λ track. cell_at track (cost track))
            (track_of self.now.timetable agent) }
    {
        match self.cost(agent) {
            Some(cost) => self.position(agent, cost),
            None => None,
        }
    }

    fn course(&self, agent: u32) -> Option<&Course>
        ensures { HasCourse self.now agent (option_copied result) }
    {
        self.courses.get(agent as usize)
    }
}
