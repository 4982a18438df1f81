// The parts of a record, one form for all kinds. A record has some of these parts, in this order; which ones, its kind says.
// independent/README.md describes them.
use crate::numbers::Cursor;

pub const READING: usize = 0;

// Strings that are only read. First a policy or a text, then marks, events or a second text.
pub const FIRST: usize = 1;

pub const SECOND: usize = 2;

// A state, a station, a list of bays, or an index that is to be made.
pub const STATE: usize = 3;

// The events of a run.
pub const THIRD: usize = 4;

pub const REASONS: usize = 5;

// The meter's totals, or the table of ticks.
pub const TOTALS: usize = 6;

pub const RESTS: usize = 7;

// A string that is lent to be written.
pub const WRITTEN: usize = 8;

// The list of what a cleaning strikes out.
pub const STRUCK: usize = 9;

// Also an index that is only read.
pub const WORK_1: usize = 10;

pub const WORK_2: usize = 11;

pub const WORK_3: usize = 12;

pub const WORK_4: usize = 13;

pub const WORK_5: usize = 14;

// A bay, milliseconds, or the number of what a text is asked for.
pub const WORD: usize = 15;

pub const TICK_LENGTH: usize = 16;

pub const REGISTER: usize = 17;

// Also whether ticks are rounded up.
pub const X: usize = 18;

pub const Y: usize = 19;

// From here on, what is expected.
pub const ANSWER: usize = 20;

pub const WRITTEN_AFTER: usize = 21;

pub const STATE_AFTER: usize = 22;

pub const TOTALS_AFTER: usize = 23;

pub const STRUCK_AFTER: usize = 24;

pub const REASONS_AFTER: usize = 25;

// How many there are.
pub const PARTS: usize = 26;

// The kinds of records have the numbers from 1 to below this.
pub const KINDS: usize = 29;

// Where a part begins that a record does not have.
pub const ABSENT: usize = usize::MAX;

// Sets of parts, a bit for each. Those that are all the parts of a kind have its name.
const CHECK: u32 = 1 << FIRST | 1 << ANSWER;

const POLICY: u32 = CHECK | 1 << READING;

const TEXT: u32 = CHECK | 1 << WRITTEN | 1 << WRITTEN_AFTER;

const PREPARE: u32 = POLICY | TEXT;

const JOIN: u32 = TEXT | 1 << SECOND;

const POINT: u32 = CHECK | 1 << WORD;

const MARKED: u32 = POLICY | 1 << SECOND | 1 << STATE;

const INPUT: u32 = MARKED | 1 << X;

const WHY: u32 = INPUT | 1 << Y;

const OUTPUT: u32 = WHY | 1 << STATE_AFTER;

const NEW: u32 = 1 << STATE | 1 << ANSWER | 1 << STATE_AFTER;

const METER: u32 = 1 << REGISTER | 1 << TOTALS | 1 << TOTALS_AFTER;

const WORK: u32 = 31 << WORK_1;

// The parts of a record of each kind.
const PARTS_OF: [u32; KINDS] = [
    0,
    PREPARE, // prepare
    INPUT, // input
    OUTPUT, // output
    MARKED | 1 << THIRD | 1 << WRITTEN | 1 << WRITTEN_AFTER | 1 << STATE_AFTER, // run
    JOIN, // join
    1 << WORD | 1 << TICK_LENGTH | 1 << X | 1 << ANSWER, // ticks
    JOIN, // wave_write
    JOIN, // wave_read
    1 << FIRST | NEW, // index
    INPUT | 1 << WORK_1, // input_indexed
    OUTPUT | 1 << WORK_1, // output_indexed
    NEW, // bays_new
    INPUT | 1 << WORD, // bay_input
    OUTPUT | 1 << WORD, // bay_output
    NEW | METER, // meter_new
    INPUT | 1 << REGISTER, // meter_input
    OUTPUT | METER, // meter_output
    PREPARE | WORK, // prepare_fast
    PREPARE | 1 << STRUCK | 1 << STRUCK_AFTER, // clean
    WHY, // why
    CHECK, // check
    MARKED
        | 1 << THIRD
        | 1 << REASONS
        | 1 << TOTALS
        | 1 << RESTS
        | 1 << WRITTEN
        | WORK
        | 1 << STATE_AFTER
        | 1 << REASONS_AFTER, // why_run
    TEXT, // text_read
    TEXT, // text_write
    POINT, // text_line_of_rule
    POINT, // text_name_of_signal
    POINT, // text_name_of_clock
    POINT, // text_name_of_location
];

// None, if there is no such kind.
fn parts_of(kind: u8) -> u32 {
    let row = kind as usize;
    if row < KINDS { PARTS_OF[row] } else { 0 }
}

impl Cursor {
    // Past the part that begins here. A list begins with how many numbers it has.
    fn past(self, cases: &[u8], part: usize) -> Self {
        let head = self.byte(cases);
        let count = head.value as usize;
        match part {
            FIRST | SECOND | THIRD | WRITTEN | STRUCK | WRITTEN_AFTER | STRUCK_AFTER => {
                self.past_string(cases)
            }
            STATE | WORK_1..=WORK_5 | STATE_AFTER => self.skip(cases, 1 + 2 * count),
            TOTALS | RESTS | TOTALS_AFTER => self.skip(cases, 1 + 4 * count),
            REASONS | REASONS_AFTER => self.skip(cases, 1 + 8 * count),
            ANSWER => self.skip(cases, 8),
            WORD | TICK_LENGTH => self.skip(cases, 4),
            REGISTER => self.skip(cases, 2),
            _ => self.skip(cases, 1),
        }
    }
}

// Stores where each part of the body begins. The cursor is past the body, and lost if there is no such kind.
pub fn find_parts(cases: &[u8], kind: u8, start: Cursor, places: &mut [usize; PARTS]) -> Cursor {
    let parts = parts_of(kind);
    let mut next = if parts == 0 { start.lose() } else { start };
    for part in 0..PARTS {
        if (parts >> part) % 2 == 1 {
            places[part] = next.at;
            next = next.past(cases, part);
        }
    }
    next
}
