// The calls, by the kinds' numbers. What a record does not have is empty or 0, and its entry does not take it.
use stored_cases::given::Given;

// The calls about a policy's text.
fn by_text(kind: u8, word: u32, first: &[u8], written: &mut [u8]) -> u64 {
    match kind {
        23 => groovepawn::groovepawn_text_read(first, written),
        24 => groovepawn::groovepawn_text_write(first, written),
        25 => groovepawn::groovepawn_text_line_of_rule(first, word),
        26 => groovepawn::groovepawn_text_name_of_signal(first, word),
        27 => groovepawn::groovepawn_text_name_of_clock(first, word),
        _ => groovepawn::groovepawn_text_name_of_location(first, word),
    }
}

// The other calls with strings only, and that of ticks.
fn by_strings(
    kind: u8,
    given: Given,
    first: &[u8],
    second: &[u8],
    written: &mut [u8],
    struck: &mut [u8],
) -> u64 {
    match kind {
        1 => groovepawn::groovepawn_prepare(given.reading, first, written),
        5 => groovepawn::groovepawn_join(first, second, written),
        6 => groovepawn::groovepawn_ticks(given.word, given.tick_length, given.x) as u64,
        7 => groovepawn::groovepawn_wave_write(first, second, written),
        8 => groovepawn::groovepawn_wave_read(first, second, written),
        19 => groovepawn::groovepawn_clean(given.reading, first, written, struck),
        21 => groovepawn::groovepawn_check(first),
        _ => by_text(kind, given.word, first, written),
    }
}

// The calls with a state, a station, a list of bays or an index.
fn by_state(
    kind: u8,
    given: Given,
    first: &[u8],
    second: &[u8],
    state: &mut [u16],
    totals: &mut [u32],
    index: &[u16],
) -> u64 {
    let reading = given.reading;
    let x = given.x;
    let y = given.y;
    match kind {
        2 => groovepawn::groovepawn_input(reading, first, second, state, x) as u64,
        3 => groovepawn::groovepawn_output(reading, first, second, state, x, y) as u64,
        9 => groovepawn::groovepawn_index(first, state) as u64,
        10 => groovepawn::groovepawn_input_indexed(reading, first, index, second, state, x) as u64,
        11 => groovepawn::groovepawn_output_indexed(
            reading, first, index, second, state, x, y,
        ) as u64,
        12 => groovepawn::groovepawn_bays_new(state) as u64,
        13 => groovepawn::groovepawn_bay_input(reading, first, second, state, given.word, x) as u64,
        14 => groovepawn::groovepawn_bay_output(
            reading, first, second, state, given.word, x, y,
        ) as u64,
        15 => groovepawn::groovepawn_meter_new(state, totals, given.register) as u64,
        16 => groovepawn::groovepawn_meter_input(
            reading,
            first,
            second,
            state,
            given.register,
            x,
        ) as u64,
        17 => groovepawn::groovepawn_meter_output(
            reading,
            first,
            second,
            state,
            totals,
            given.register,
            x,
            y,
        ) as u64,
        _ => groovepawn::groovepawn_why(reading, first, second, state, x, y),
    }
}

// What the entry of the kind gives.
pub(crate) fn answer(
    kind: u8,
    given: Given,
    first: &[u8],
    second: &[u8],
    state: &mut [u16],
    third: &[u8],
    reasons: &mut [u64],
    totals: &mut [u32],
    rests: &mut [u32],
    written: &mut [u8],
    struck: &mut [u8],
    work_1: &mut [u16],
    work_2: &mut [u16],
    work_3: &mut [u16],
    work_4: &mut [u16],
    work_5: &mut [u16],
) -> u64 {
    match kind {
        4 => groovepawn::groovepawn_run(given.reading, first, second, state, third, written),
        18 => groovepawn::groovepawn_prepare_fast(
            given.reading,
            first,
            written,
            work_1,
            work_2,
            work_3,
            work_4,
            work_5,
        ),
        22 => groovepawn::groovepawn_why_run(
            given.reading,
            first,
            second,
            state,
            third,
            reasons,
            totals,
            rests,
            written,
            work_1,
            work_2,
            work_3,
            work_4,
            work_5,
        ),
        _ => {
            if given.has_state {
                by_state(kind, given, first, second, state, totals, work_1)
            } else {
                by_strings(kind, given, first, second, written, struck)
            }
        }
    }
}
