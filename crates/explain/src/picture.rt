//! A small picture of a map around a place.
use crate::files::open_again;
use crate::lines::{Line, pass_lines};
use crate::map_words::{Size, map_size};
use crate::page::Page;
use crate::walks::Place;
use grid::Terrain;
use std::io::Read;
use std::rt::Files;
use text_io::{Counted, PIECE, Source};

/// So many columns and rows are shown, where the map has as many.
const COLUMNS: i64 = 11;

const ROWS: i64 = 7;

/// Characters that stand in place of the terrain: later ones over earlier ones.
pub(crate) type Marks = [(u8, Option<Place>); 3];

/// The columns and rows that are shown.
#[derive(Clone, Copy)]
struct Window {
    left: i64,
    right: i64,
    top: i64,
    bottom: i64,
}

impl Window {
    /// As much of a map as there is around the place.
    fn around(size: Size, middle: Place) -> Window {
        let (left, right) = part_of(size.width, middle.x, COLUMNS);
        let (top, bottom) = part_of(size.height, middle.y, ROWS);
        Window {
            left,
            right,
            top,
            bottom,
        }
    }
}

/// The first and the last of so many numbers below `length` that have the middle among them, at its
/// edge where that is near.
fn part_of(length: u64, middle: i64, count: i64) -> (i64, i64) {
    let last = i64::try_from(length).unwrap_or(i64::MAX).saturating_sub(1);
    let first = middle
        .saturating_sub(count / 2)
        .min(last.saturating_sub(count).saturating_add(1))
        .max(0);
    (
        first,
        first.saturating_add(count).saturating_sub(1).min(last),
    )
}

/// Puts the picture, row by row. The map may have changed, and then less is shown.
pub(crate) fn put_picture<R: Files>(
    rt: &R,
    path: &str,
    middle: Place,
    time: u64,
    marks: &Marks,
    page: &mut Page,
) {
    if let Some(size) = map_size(rt, path)
        && let Some(file) = open_again(rt, path)
    {
        let window = Window::around(size, middle);
        put_columns(window, time, page);
        let mut reader = Counted::new(file);
        put_rows(&mut Source::new(&mut reader), window, marks, page);
    }
}

/// Puts which columns are shown.
fn put_columns(window: Window, time: u64, page: &mut Page) {
    let Window { left, right, .. } = window;
    page.fill("      columns {} to {}, ", &[left, right]);
    page.fill("at time {}:\n", &[time]);
}

/// Puts the rows that are shown of a map.
fn put_rows<F: Read>(
    source: &mut Source<'_, F, PIECE>,
    window: Window,
    marks: &Marks,
    page: &mut Page,
) {
    let above = u64::try_from(window.top).unwrap_or(0).saturating_add(4);
    if pass_lines(source, above).is_ok() {
        let mut line = Line::new();
        for y in window.top..window.bottom.saturating_add(1) {
            line.take(source);
            put_row(line.bytes(), y, window, marks, page);
        }
    }
}

/// Puts a row of the picture.
fn put_row(row: &[u8], y: i64, window: Window, marks: &Marks, page: &mut Page) {
    page.begin_frame();
    page.show(format_args!("{y:>5} "));
    page.end_colour();
    for x in window.left..window.right.saturating_add(1) {
        let place = usize::try_from(x).unwrap_or(usize::MAX);
        let terrain = row.get(place).copied().unwrap_or(b' ');
        put_place(terrain, Place { x, y }, marks, page);
    }
    page.say("\n");
}

/// Puts what stands at a place: a mark, or else its terrain.
fn put_place(terrain: u8, place: Place, marks: &Marks, page: &mut Page) {
    let mut mark = None;
    for (character, marked) in marks {
        if *marked == Some(place) {
            mark = Some(*character);
        }
    }
    match mark {
        Some(character) => {
            page.begin_mark();
            page.show_byte(character);
            page.end_colour();
        }
        None => page.show_byte(terrain),
    }
}

/// The terrain of a place; `None` off the map.
pub(crate) fn terrain_at<R: Files>(rt: &R, path: &str, place: Place) -> Option<Terrain> {
    let (x, y) = cell_on(map_size(rt, path)?, place)?;
    let mut line = Line::new();
    line.find(rt, path, y.saturating_add(5));
    let character = line.bytes().get(x).copied()?;
    Terrain::from_character(character)
}

/// The column and the row of a place on a map of this size; `None` off the map.
fn cell_on(size: Size, place: Place) -> Option<(usize, u64)> {
    let x = u64::try_from(place.x).ok()?;
    let y = u64::try_from(place.y).ok()?;
    if x < size.width && y < size.height {
        Some((usize::try_from(x).ok()?, y))
    } else {
        None
    }
}
