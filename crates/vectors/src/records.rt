// The records of a file, one after the other.
use crate::bodies::body;
use std::io;
use stored_cases::numbers::Cursor;
use stored_cases::parts::{ABSENT, KINDS, PARTS, find_parts};
use stored_cases::tally::{Found, Tally, count, print_counts};

// The cursor, lost unless the body that began at `start` was `length` bytes long.
fn ended(next: Cursor, start: usize, length: usize) -> Cursor {
    let at = next.at;
    if at < start {
        return next.lose();
    }
    if at - start == length {
        next
    } else {
        next.lose()
    }
}

// The record at the tally's cursor.
fn record(cases: &[u8], counts: &mut [u64; KINDS], tally: Tally, number: u32) -> Tally {
    let at = tally.next;
    let head = at.byte(cases);
    let kind = head.value;
    count(counts, kind);
    let next = head.next;
    let length = next.word(cases);
    let start = length.next;
    let mut places = [ABSENT; PARTS];
    let end = find_parts(cases, kind, start, &mut places);
    let next = ended(end, start.at, length.value as usize);
    let part = if next.lost {
        PARTS
    } else {
        body(cases, kind, &places)
    };
    tally.add(Found { number, kind, part }, next)
}

// All the records.
fn tallied(cases: &[u8], counts: &mut [u64; KINDS], start: Cursor, total: u32) -> Tally {
    let mut tally = Tally::new(start);
    for i in 0..total {
        if tally.is_lost() {
            break;
        }
        tally = record(cases, counts, tally, i);
    }
    tally
}

// Goes through the file, which begins with `GPV2` and the number of its records, and writes what was found.
pub(crate) fn report(rt: &impl Print, cases: &[u8]) -> io::Result<()> {
    let magic = Cursor::new(0).word(cases);
    let next = magic.next;
    let total = next.word(cases);
    let next = total.next;
    let start = if magic.value == 0x47505632 {
        next
    } else {
        next.lose()
    };
    let mut counts = [0u64; KINDS];
    let tally = tallied(cases, &mut counts, start, total.value);
    print_counts(rt, &counts)?;
    tally.print(rt, cases.len())
}
