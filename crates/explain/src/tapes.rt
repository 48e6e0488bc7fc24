//! The faults of tapes.
use crate::advice::advice_on;
use crate::files::{NamedFile, file_of, format_name, open_again, shown_path};
use crate::page::Page;
use crate::plan_words::plan_number;
use crate::table::put_sentence;
use crate::told::Told;
use std::fs;
use std::io::{Read, Seek, SeekFrom};
use std::rt::Files;
use text_io::{FaultName, Origin};

/// A record of a tape.
type Record = [u8; 10];

/// Explains why a tape was refused.
pub(crate) fn explain_tape<R: Files>(
    rt: &R,
    files: &[NamedFile<'_>],
    told: &Told<'_>,
    page: &mut Page,
) {
    if let Some(tape) = file_of(files, Origin::Tape) {
        let path = shown_path(tape);
        page.fill("{}, a tape:\n", &[path]);
        put_content(rt, tape.path, files, told, page);
        put_sentence(told, page);
        page.say(advice_on(told.fault.text(), format_name(Origin::Tape)));
    }
}

/// Puts what the tape has that it was refused for.
fn put_content<R: Files>(
    rt: &R,
    tape: &str,
    files: &[NamedFile<'_>],
    told: &Told<'_>,
    page: &mut Page,
) {
    match told.fault {
        FaultName::Damaged | FaultName::WrongPlan | FaultName::WrongAgent => {
            if let Some(record) = record_of(rt, tape, told.number(0)) {
                put_record(&record, told.number(0), page);
                put_difference(rt, files, told, &record, page);
            }
        }
        FaultName::TooLong | FaultName::TapeExists => put_length(rt, tape, page),
        _ => {}
    }
}

/// The record with this number.
fn record_of<R: Files>(rt: &R, path: &str, number: u64) -> Option<Record> {
    let mut file = open_again(rt, path)?;
    let mut record = [0; 10];
    file.seek(SeekFrom::Start(number.checked_mul(10)?)).ok()?;
    file.read_exact(&mut record).ok()?;
    Some(record)
}

/// Puts the bytes of a record.
fn put_record(record: &Record, number: u64, page: &mut Page) {
    let at = number.saturating_mul(10);
    page.fill("Record {}, from byte {} on:", &[number, at]);
    for byte in record {
        page.show(format_args!(" {byte:02x}"));
    }
    page.say("\n");
}

/// Puts the value that the record has, and that it should have.
fn put_difference<R: Files>(
    rt: &R,
    files: &[NamedFile<'_>],
    told: &Told<'_>,
    record: &Record,
    page: &mut Page,
) {
    let [_, _, a, b, c, d, high, low, ..] = *record;
    match told.fault {
        FaultName::WrongPlan => {
            let plan = u32::from_be_bytes([a, b, c, d]);
            put_plans(plan, number_due(rt, files), page);
        }
        FaultName::WrongAgent => {
            let agent = u16::from_be_bytes([high, low]);
            page.fill("It is of agent {}.\n", &[agent]);
        }
        _ => put_due(told.number(0), page),
    }
}

/// The number of the plan that is given with the tape.
fn number_due<R: Files>(rt: &R, files: &[NamedFile<'_>]) -> Option<u64> {
    let plan = file_of(files, Origin::Plan)?;
    plan_number(rt, plan.path)
}

/// Puts of which plan a record is, and of which it should be.
fn put_plans(plan: u32, due: Option<u64>, page: &mut Page) {
    page.fill("It is of plan {}", &[plan]);
    if let Some(due) = due {
        page.fill(", and this is plan {}", &[due]);
    }
    page.say(".\n");
}

/// Puts what the record with this number must be.
fn put_due(number: u64, page: &mut Page) {
    let done = number.saturating_add(1) / 2;
    let kind = if number % 2 == 0 {
        "50 01 (moving)"
    } else {
        "50 02 (standing)"
    };
    page.fill("It must begin with {}, and end with ", &[kind]);
    page.fill("{}, the moves that are finished, in two bytes.\n", &[done]);
}

/// Puts how many records a tape has, which can't be told of what is no file of bytes.
fn put_length<R: Files>(rt: &R, path: &str, page: &mut Page) {
    match fs::metadata(rt, path) {
        Ok(metadata) if metadata.is_file() => {
            let length = metadata.len();
            let (whole, rest) = (length / 10, length % 10);
            page.fill(
                "It has {} bytes: {} whole records, and {} bytes behind them.\n",
                &[length, whole, rest],
            );
        }
        Ok(_) => page.say("It is a pipe or a device, and no file of bytes.\n"),
        Err(_) => {}
    }
}
