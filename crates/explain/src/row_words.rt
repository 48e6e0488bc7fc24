//! The faults of `mapf row`, and of agents and cells that there aren't.
use crate::files::{NamedFile, file_of, shown_path};
use crate::lines::Line;
use crate::map_words::{Size, map_size};
use crate::page::Page;
use crate::plan_words::announced_agents;
use crate::scen_words::find_filled;
use crate::showing::show_line;
use crate::spans::{Parts, Span, content};
use crate::told::Told;
use std::rt::Files;
use text_io::Origin;

/// Says how many rows a scenario has.
pub(crate) fn no_such_row<R: Files>(rt: &R, files: &[NamedFile<'_>], page: &mut Page) {
    if let Some(file) = file_of(files, Origin::Scenario) {
        put_rows(shown_path(file), count_rows(rt, file.path), page);
    }
}

/// How many rows a scenario has.
fn count_rows<R: Files>(rt: &R, path: &str) -> Option<u64> {
    let mut line = Line::new();
    let filled = find_filled(rt, path, u64::MAX, &mut line);
    if line.is_read() {
        Some(filled.saturating_sub(1))
    } else {
        None
    }
}

fn put_rows(path: &str, count: Option<u64>, page: &mut Page) {
    match count {
        None => page.fill(
            "{} has no row with this number. Rows count from 0.\n",
            &[path],
        ),
        Some(0) => page.fill("{} has no row.\n", &[path]),
        Some(count) => {
            let last = count.saturating_sub(1);
            page.fill("The last row of {} is row ", &[path]);
            page.fill("{}: rows count from 0.\n", &[last]);
        }
    }
}

/// Says which sizes a row and the map have.
pub(crate) fn size_differs<R: Files>(
    rt: &R,
    files: &[NamedFile<'_>],
    told: &Told<'_>,
    page: &mut Page,
) {
    let map = file_of(files, Origin::Map);
    let scen = file_of(files, Origin::Scenario);
    if let (Some(map), Some(scen)) = (map, scen) {
        let row = told.number(0);
        let mut line = Line::new();
        find_filled(rt, scen.path, row.saturating_add(1), &mut line);
        put_place(shown_path(scen), line.number, page);
        put_sizes(row, &line, shown_path(map), map_size(rt, map.path), page);
    }
}

fn put_place(path: &str, number: u64, page: &mut Page) {
    page.say(path);
    page.fill(":{}, read as a scenario:\n", &[number]);
}

/// Says which size the row has, and which the map.
fn put_sizes(row: u64, line: &Line, map: &str, size: Option<Size>, page: &mut Page) {
    let fields = Parts::fields(line.bytes());
    match (fields.get(2), fields.get(3)) {
        (Some(Span { from, .. }), Some(Span { upto, .. })) => {
            put_row_size(row, line, Span { from, upto }, page);
            put_map_size(map, size, page);
            put_map_name(fields.get(1), line.bytes(), page);
        }
        _ => page.fill("Row {} is of a map of another size.\n", &[row]),
    }
}

fn put_row_size(row: u64, line: &Line, size: Span, page: &mut Page) {
    show_line(page, line, size);
    page.fill("Row {} is of a map with width and height ", &[row]);
    page.quote(size.of(line.bytes()));
}

fn put_map_size(map: &str, size: Option<Size>, page: &mut Page) {
    if let Some(Size { width, height }) = size {
        page.fill(", and {} has ", &[map]);
        page.fill("{} and {}", &[width, height]);
    }
    page.say(".\n");
}

fn put_map_name(field: Option<Span>, line: &[u8], page: &mut Page) {
    if let Some(field) = field {
        let name = field.of(line);
        page.say("The row names the map ");
        page.quote(content(name).of(name));
        page.say(".\n");
    }
}

/// Says how many agents a plan has.
pub(crate) fn no_such_agent<R: Files>(rt: &R, files: &[NamedFile<'_>], page: &mut Page) {
    if let Some(plan) = file_of(files, Origin::Plan) {
        put_agents(shown_path(plan), announced_agents(rt, plan.path), page);
    }
}

fn put_agents(path: &str, count: Option<u64>, page: &mut Page) {
    match count {
        Some(0) => page.fill("{} has no agents.\n", &[path]),
        Some(count) => {
            let last = count.saturating_sub(1);
            page.fill("The last agent of {} is agent ", &[path]);
            page.fill("{}: agents count from 0.\n", &[last]);
        }
        None => page.fill(
            "{} has no agent with this number. Agents count from 0.\n",
            &[path],
        ),
    }
}

/// Says how large a map is.
pub(crate) fn no_such_cell<R: Files>(rt: &R, files: &[NamedFile<'_>], page: &mut Page) {
    if let Some(map) = file_of(files, Origin::Map) {
        put_size(shown_path(map), map_size(rt, map.path), page);
    }
}

fn put_size(path: &str, size: Option<Size>, page: &mut Page) {
    match size {
        Some(Size { width, height }) => {
            page.fill("{} has width ", &[path]);
            page.fill(
                "{} and height {}: columns and rows count from 0.\n",
                &[width, height],
            );
        }
        None => page.fill(
            "{} has no cell with these numbers. Columns and rows count from 0.\n",
            &[path],
        ),
    }
}
