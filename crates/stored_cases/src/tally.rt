// What has been found so far.
use crate::numbers::Cursor;
use crate::parts::{ANSWER, KINDS, PARTS};
use std::io;

// A record: its number, its kind, and the part that came out different, or `PARTS`.
#[derive(Clone, Copy)]
pub struct Found {
    pub number: u32,
    pub kind: u8,
    pub part: usize,
}

// `first` is the first record that came out different, if one did.
#[derive(Clone, Copy)]
pub struct Tally {
    different: u64,
    first: Found,
    pub next: Cursor,
}

impl Tally {
    pub fn new(next: Cursor) -> Self {
        Self {
            different: 0,
            first: Found {
                number: 0,
                kind: 0,
                part: PARTS,
            },
            next,
        }
    }

    pub fn is_lost(self) -> bool {
        let next = self.next;
        next.lost
    }

    pub fn add(self, found: Found, next: Cursor) -> Self {
        let different = self.different;
        let first = self.first;
        if found.part == PARTS {
            Self {
                different,
                first,
                next,
            }
        } else if different == 0 {
            Self {
                different: 1,
                first: found,
                next,
            }
        } else {
            Self {
                different: one_more(different),
                first,
                next,
            }
        }
    }

    // How many differ, the first of them, and whether the file was one of stored cases to its end.
    pub fn print(self, rt: &impl Print, end: usize) -> io::Result<()> {
        let next = self.next;
        print_count(rt, b"different ", self.different)?;
        if self.different > 0 {
            self.first.print(rt)?;
        }
        if next.lost || next.at != end {
            rt.write_all(b"malformed\n")?;
        }
        Ok(())
    }
}

impl Found {
    fn print(self, rt: &impl Print) -> io::Result<()> {
        print!(rt; "first {} ", self.number)?;
        print_kind(rt, self.kind as usize)?;
        rt.write_all(b" ")?;
        print_part(rt, self.part)?;
        rt.write_all(b"\n")
    }
}

fn one_more(n: u64) -> u64 {
    if n < u64::MAX { n + 1 } else { n }
}

fn print_count(rt: &impl Print, name: &[u8], n: u64) -> io::Result<()> {
    rt.write_all(name)?;
    println!(rt; "{n}")
}

// One of the words, counted from 0.
fn print_word(rt: &impl Print, words: &[u8], number: usize) -> io::Result<()> {
    let mut ahead = number;
    for i in 0..words.len() {
        if words[i] == b' ' {
            if ahead == 0 {
                return Ok(());
            }
            ahead -= 1;
        } else if ahead == 0 {
            rt.write_all(&words[i..i + 1])?;
        }
    }
    Ok(())
}

// What differs in a part that is expected.
fn print_part(rt: &impl Print, part: usize) -> io::Result<()> {
    if ANSWER <= part {
        print_word(rt, b"answer bytes state totals list reasons", part - ANSWER)?;
    }
    Ok(())
}

fn print_kind(rt: &impl Print, kind: usize) -> io::Result<()> {
    print_word(
        rt,
        b"none prepare input output run join ticks wave_write wave_read \
          index input_indexed output_indexed bays_new bay_input bay_output \
          meter_new meter_input meter_output prepare_fast clean why check why_run \
          text_read text_write text_line_of_rule text_name_of_signal \
          text_name_of_clock text_name_of_location",
        kind,
    )
}

// One record more of the kind with the number. A number that is no kind's is not counted.
pub fn count(counts: &mut [u64; KINDS], number: u8) {
    let kind = number as usize;
    if kind < KINDS {
        counts[kind] = one_more(counts[kind]);
    }
}

// A line for each kind.
pub fn print_counts(rt: &impl Print, counts: &[u64; KINDS]) -> io::Result<()> {
    for kind in 1..KINDS {
        print_kind(rt, kind)?;
        print_count(rt, b" ", counts[kind])?;
    }
    Ok(())
}
