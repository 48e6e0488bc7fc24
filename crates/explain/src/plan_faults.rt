//! What a plan must not do.
use crate::files::{NamedFile, file_of, shown_path};
use crate::lines::Line;
use crate::map_words::{Size, map_size};
use crate::page::Page;
use crate::picture::{put_picture, terrain_at};
use crate::plan_words::FIRST_AGENT;
use crate::table::put_sentence;
use crate::told::Told;
use crate::walks::{Course, Place, find_agent};
use grid::Terrain;
use std::rt::Files;
use text_io::{FaultName, Origin};

/// An agent that a fault names, with its letter in the picture.
#[derive(Clone, Copy)]
struct Agent<'a> {
    letter: char,
    number: u64,
    course: Course<'a>,
}

/// Explains a fault of a plan on its map.
pub(crate) fn explain_plan<R: Files>(
    rt: &R,
    files: &[NamedFile<'_>],
    told: &Told<'_>,
    page: &mut Page,
) {
    let map = file_of(files, Origin::Map);
    let plan = file_of(files, told.origin);
    if let (Some(map), Some(plan)) = (map, plan) {
        put_title(map, plan, told.number(0), page);
        explain_on_map(rt, [map.path, plan.path], told, page);
    }
}

/// Explains a fault of a plan, with the line of the first agent that it names.
fn explain_on_map<R: Files>(rt: &R, paths: [&str; 2], told: &Told<'_>, page: &mut Page) {
    let [_, plan] = paths;
    let number = told.number(0);
    let mut line = Line::new();
    find_agent(rt, plan, number, &mut line);
    match Course::read(&line) {
        Some(course) => {
            let first = Agent {
                letter: 'a',
                number,
                course,
            };
            explain_agent(rt, paths, first, told, page);
        }
        None => {
            page.say("The plan can't be read once more here.\n");
            put_sentence(told, page);
        }
    }
}

fn explain_agent<R: Files>(
    rt: &R,
    paths: [&str; 2],
    first: Agent<'_>,
    told: &Told<'_>,
    page: &mut Page,
) {
    let [map, _] = paths;
    match told.fault {
        FaultName::BadStart => bad_start(rt, map, first, page),
        FaultName::BadMove => bad_move(rt, map, first, told.number(1), page),
        _ => explain_both(rt, paths, first, told, page),
    }
}

fn put_title(map: NamedFile<'_>, plan: NamedFile<'_>, agent: u64, page: &mut Page) {
    page.say(shown_path(plan));
    page.fill(
        ":{}, a plan on the map ",
        &[agent.saturating_add(FIRST_AGENT)],
    );
    page.fill("{}:\n", &[shown_path(map)]);
}

/// Puts where agents are and what they do, from two steps before a time to one after.
fn put_times(agents: &[Agent<'_>], time: u64, page: &mut Page) {
    let from = time.saturating_sub(2);
    let upto = time.saturating_add(2);
    let start = page.len();
    page.say("time");
    for (place, at) in (from..upto).enumerate() {
        page.align(start, column_of(place));
        page.show(at);
    }
    page.say("\n");
    for agent in agents {
        put_course(*agent, from, upto, page);
    }
}

/// Puts where an agent is and what it does at these times.
fn put_course(agent: Agent<'_>, from: u64, upto: u64, page: &mut Page) {
    let Agent {
        letter,
        number,
        course,
    } = agent;
    let start = page.len();
    page.fill("{} agent ", &[letter]);
    page.show(number);
    for (place, at) in (from..upto).enumerate() {
        let act = char::from(course.act(at));
        page.align(start, column_of(place));
        put_place(course.place(at), page);
        page.fill("  {}", &[act]);
    }
    page.say("\n");
}

/// The column in which the time with this place among those that are shown stands.
fn column_of(place: usize) -> usize {
    place.saturating_mul(14).saturating_add(16)
}

/// Says what is at a place that can't be entered.
fn put_ground<R: Files>(rt: &R, path: &str, place: Place, page: &mut Page) {
    match terrain_at(rt, path, place) {
        None => put_off(map_size(rt, path), page),
        Some(terrain) => put_terrain(terrain, page),
    }
}

/// Says that a place is off a map of this size.
fn put_off(size: Option<Size>, page: &mut Page) {
    page.say("off the map");
    if let Some(Size { width, height }) = size {
        let (last_x, last_y) = (width.saturating_sub(1), height.saturating_sub(1));
        page.fill(
            ", whose columns are 0 to {} and rows 0 to {}",
            &[last_x, last_y],
        );
    }
}

fn put_terrain(terrain: Terrain, page: &mut Page) {
    let character = char::from(terrain.character());
    page.say(terrain_name(terrain));
    page.fill(" (`{}`)", &[character]);
}

fn terrain_name(terrain: Terrain) -> &'static str {
    match terrain {
        Terrain::Floor | Terrain::Grass => "land",
        Terrain::Void | Terrain::OutOfBounds => "out of bounds",
        Terrain::Trees => "trees, which block",
        Terrain::Swamp => "swamp",
        Terrain::Water => "water",
    }
}

fn bad_start<R: Files>(rt: &R, map: &str, agent: Agent<'_>, page: &mut Page) {
    let Agent { number, course, .. } = agent;
    let place = course.place(0);
    page.fill("Agent {} starts in ", &[number]);
    put_cell(place, page);
    page.say(", which is ");
    put_ground(rt, map, place, page);
    page.say(".\n");
    put_exchanged(rt, map, place, page);
    let marks = [(b'a', Some(place)), (b'a', None), (b'a', None)];
    put_picture(rt, map, place, 0, &marks, page);
}

fn put_cell(place: Place, page: &mut Page) {
    let Place { x, y } = place;
    page.fill("column {}, row {}", &[x, y]);
}

/// Says that a place off the map has its column and its row exchanged, where that may be; elsewhere
/// it would be a guess.
fn put_exchanged<R: Files>(rt: &R, map: &str, place: Place, page: &mut Page) {
    let Place { x, y } = place;
    let is_off = terrain_at(rt, map, place).is_none();
    if is_off && terrain_at(rt, map, Place { x: y, y: x }).is_some_and(is_free) {
        page.fill(
            "Column {}, row {} is free: the column comes first.\n",
            &[y, x],
        );
    }
}

/// Whether an agent may stand there.
fn is_free(terrain: Terrain) -> bool {
    matches!(
        terrain,
        Terrain::Floor | Terrain::Grass | Terrain::Swamp | Terrain::Water
    )
}

fn bad_move<R: Files>(rt: &R, map: &str, agent: Agent<'_>, step: u64, page: &mut Page) {
    let from = agent.course.place(step);
    let to = agent.course.place(step.saturating_add(1));
    put_move(agent, step, to, page);
    put_refused(rt, map, to, page);
    put_times(&[agent], step, page);
    let marks = [(b'x', Some(to)), (b'a', Some(from)), (b'x', None)];
    put_picture(rt, map, from, step, &marks, page);
}

fn put_move(agent: Agent<'_>, step: u64, to: Place, page: &mut Page) {
    let Agent { number, course, .. } = agent;
    let act = char::from(course.act(step));
    page.fill("In step {} agent {} moves by `", &[step, number]);
    page.fill("{}` to ", &[act]);
    put_cell(to, page);
}

/// Says why a move can't enter a place.
fn put_refused<R: Files>(rt: &R, map: &str, to: Place, page: &mut Page) {
    page.say(", which is ");
    put_ground(rt, map, to, page);
    page.say(".\n");
    if terrain_at(rt, map, to).is_some_and(is_free) {
        page.say("Between land and water, and between swamp and water, there is no move.\n");
    }
}

/// Explains a fault that names two agents.
fn explain_both<R: Files>(
    rt: &R,
    paths: [&str; 2],
    first: Agent<'_>,
    told: &Told<'_>,
    page: &mut Page,
) {
    let [map, plan] = paths;
    let number = told.number(1);
    let mut line = Line::new();
    find_agent(rt, plan, number, &mut line);
    if let Some(course) = Course::read(&line) {
        let second = Agent {
            letter: 'b',
            number,
            course,
        };
        match told.fault {
            FaultName::Swap => swap(rt, map, [first, second], told.number(2), page),
            _ => vertex(rt, map, [first, second], told.number(2), page),
        }
    }
}

/// Two agents that exchange cells.
fn swap<R: Files>(rt: &R, map: &str, agents: [Agent<'_>; 2], step: u64, page: &mut Page) {
    let [first, second] = agents;
    let (from, to) = (first.course.place(step), second.course.place(step));
    put_swap([first.number, second.number], [from, to], step, page);
    put_times(&agents, step, page);
    let marks = [(b'x', None), (b'a', Some(from)), (b'b', Some(to))];
    put_picture(rt, map, from, step, &marks, page);
}

fn put_swap(numbers: [u64; 2], places: [Place; 2], step: u64, page: &mut Page) {
    let ([i, j], [from, to]) = (numbers, places);
    page.fill("In step {} agent {} moves from ", &[step, i]);
    put_place(from, page);
    page.say(" to ");
    put_place(to, page);
    page.fill(
        ", and agent {} the other way: they would pass through each other.\n",
        &[j],
    );
}

fn put_place(place: Place, page: &mut Page) {
    let Place { x, y } = place;
    page.fill("{} {}", &[x, y]);
}

/// Two agents in a cell.
fn vertex<R: Files>(rt: &R, map: &str, agents: [Agent<'_>; 2], time: u64, page: &mut Page) {
    let [first, second] = agents;
    let cell = first.course.place(time);
    put_vertex([first.number, second.number], cell, time, page);
    put_end(first, time, page);
    put_end(second, time, page);
    put_times(&agents, time, page);
    let shown = time.saturating_sub(1);
    let (a, b) = (first.course.place(shown), second.course.place(shown));
    let marks = [(b'x', Some(cell)), (b'a', Some(a)), (b'b', Some(b))];
    put_picture(rt, map, cell, shown, &marks, page);
}

fn put_vertex(numbers: [u64; 2], cell: Place, time: u64, page: &mut Page) {
    let [i, j] = numbers;
    page.fill("At time {} agents {} and {} are both in ", &[time, i, j]);
    put_cell(cell, page);
    page.say(".\n");
}

/// Says that the agent has come to its end before this time, where it has.
fn put_end(agent: Agent<'_>, time: u64, page: &mut Page) {
    let Agent { number, course, .. } = agent;
    let end = course.len();
    if end < time {
        page.fill(
            "Agent {} has no act left since time {}, and stays in its last cell for ever.\n",
            &[number, end],
        );
    }
}
