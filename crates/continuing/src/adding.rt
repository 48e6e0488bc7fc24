//! How many moves a plan adds to another.
ghost use Rattle.std.specs.Prelude.{◌≡◌, ◌≤◌, count_by};
ghost use Rattle.plan_text.specs.Limits.{acts_in, most_acts_in_all};
ghost use Rattle.continuing.specs.Adding.{AddsMoves, changes_cell, moves_made};
ghost use Rattle.continuing.specs.Continuing.{Continues};

use model::Act;
use plan_text::{Course, Plan};

/// How many moves the new plan has more than the old one, all of whose moves it has.
pub fn added_moves(old: &Plan, new: &Plan) -> usize
    requires { Continues old.now new.now }
    ensures { AddsMoves old.now new.now result }
{
    moves(new.courses()) - moves(old.courses())
}

/// How many moves the agents make together.
fn moves(courses: &[Course]) -> usize
    requires { acts_in courses.now ≤ most_acts_in_all }
    ensures { result ≡ moves_made courses.now }
{
    let mut count = 0;
    for course in courses {
        count += moves_among(course.acts());
    }
    count
}

/// How many of the acts are moves.
fn moves_among(acts: &[Act]) -> usize
    ensures { result ≡ count_by changes_cell acts.now }
{
    acts.iter().filter(|act| changes_cell(**act)).count()
}

fn changes_cell(act: Act) -> bool
    ensures { result ≡ changes_cell act }
{
    !matches!(act, Act::Wait)
}
