// The library for a controller in C: each function of `groovepawn` under its own name, with its promise. A slice comes as its start and its length.
#![tactic(auto)]

ghost use Rattle.groovepawn.specs.Calls.{PrepareCall, InputCall, OutputCall, RunCall, JoinCall, TicksCall};
ghost use Rattle.groovepawn.specs.Bays.{NewCall, BayInputCall, BayOutputCall};
ghost use Rattle.groovepawn.specs.Meter.{MeterNewCall, MeterInputCall, MeterOutputCall};
ghost use Rattle.groovepawn.specs.Indexed.{IndexCall, InputIndexedCall, OutputIndexedCall};
ghost use Rattle.groovepawn.specs.Fast.{FastCall};
ghost use Rattle.groovepawn.specs.Check.{CheckCall};
ghost use Rattle.groovepawn.specs.Clean.{CleanCall};
ghost use Rattle.groovepawn.specs.Why.{WhyCall, WhyRunCall};
ghost use Rattle.groovepawn.specs.Text.{TextReadCall, TextWriteCall, TextRuleCall, TextNameCall};
ghost use Rattle.groovepawn.specs.Waves.{WaveWriteCall, WaveReadCall};

// A policy prepared, and the two halves of a tick and runs of them by it.
#[unsafe(no_mangle)]
pub extern "C" fn groovepawn_prepare(reading: u8, file: &[u8], marks: &mut [u8]) -> u64
    ensures { PrepareCall reading file.now marks.old result marks.new }
{
    groovepawn::groovepawn_prepare(reading, file, marks)
}

#[unsafe(no_mangle)]
pub extern "C" fn groovepawn_input(
    reading: u8,
    file: &[u8],
    marks: &[u8],
    state: &[u16],
    x: u8,
) -> u32
    ensures { InputCall reading file.now marks.now state.now x result }
{
    groovepawn::groovepawn_input(reading, file, marks, state, x)
}

#[unsafe(no_mangle)]
pub extern "C" fn groovepawn_output(
    reading: u8,
    file: &[u8],
    marks: &[u8],
    state: &mut [u16],
    x: u8,
    y: u8,
) -> u32
    ensures { OutputCall reading file.now marks.now state.old x y result state.new }
{
    groovepawn::groovepawn_output(reading, file, marks, state, x, y)
}

#[unsafe(no_mangle)]
pub extern "C" fn groovepawn_run(
    reading: u8,
    file: &[u8],
    marks: &[u8],
    state: &mut [u16],
    events: &[u8],
    released: &mut [u8],
) -> u64
    ensures { RunCall reading file.now marks.now state.old events.now released.old result state.new released.new }
{
    groovepawn::groovepawn_run(reading, file, marks, state, events, released)
}

// Several bays.
#[unsafe(no_mangle)]
pub extern "C" fn groovepawn_bays_new(states: &mut [u16]) -> u32
    ensures { NewCall states.old result states.new }
{
    groovepawn::groovepawn_bays_new(states)
}

#[unsafe(no_mangle)]
pub extern "C" fn groovepawn_bay_input(
    reading: u8,
    file: &[u8],
    marks: &[u8],
    states: &[u16],
    bay: u32,
    x: u8,
) -> u32
    ensures { BayInputCall reading file.now marks.now states.now bay x result }
{
    groovepawn::groovepawn_bay_input(reading, file, marks, states, bay, x)
}

#[unsafe(no_mangle)]
pub extern "C" fn groovepawn_bay_output(
    reading: u8,
    file: &[u8],
    marks: &[u8],
    states: &mut [u16],
    bay: u32,
    x: u8,
    y: u8,
) -> u32
    ensures { BayOutputCall reading file.now marks.now states.old bay x y result states.new }
{
    groovepawn::groovepawn_bay_output(reading, file, marks, states, bay, x, y)
}

// A station with a meter.
#[unsafe(no_mangle)]
pub extern "C" fn groovepawn_meter_new(
    station: &mut [u16],
    totals: &mut [u32],
    reading_of_register: u16,
) -> u32
    ensures { MeterNewCall station.old totals.old reading_of_register result station.new totals.new }
{
    groovepawn::groovepawn_meter_new(station, totals, reading_of_register)
}

#[unsafe(no_mangle)]
pub extern "C" fn groovepawn_meter_input(
    reading: u8,
    file: &[u8],
    marks: &[u8],
    station: &[u16],
    reading_of_register: u16,
    x: u8,
) -> u32
    ensures { MeterInputCall reading file.now marks.now station.now reading_of_register x result }
{
    groovepawn::groovepawn_meter_input(reading, file, marks, station, reading_of_register, x)
}

#[unsafe(no_mangle)]
pub extern "C" fn groovepawn_meter_output(
    reading: u8,
    file: &[u8],
    marks: &[u8],
    station: &mut [u16],
    totals: &mut [u32],
    reading_of_register: u16,
    x: u8,
    y: u8,
) -> u32
    ensures { MeterOutputCall reading file.now marks.now station.old totals.old reading_of_register x y result station.new totals.new }
{
    groovepawn::groovepawn_meter_output(
        reading,
        file,
        marks,
        station,
        totals,
        reading_of_register,
        x,
        y,
    )
}

// A rule index, and the halves that go by it.
#[unsafe(no_mangle)]
pub extern "C" fn groovepawn_index(file: &[u8], index: &mut [u16]) -> u32
    ensures { IndexCall file.now index.old result index.new }
{
    groovepawn::groovepawn_index(file, index)
}

#[unsafe(no_mangle)]
pub extern "C" fn groovepawn_input_indexed(
    reading: u8,
    file: &[u8],
    index: &[u16],
    marks: &[u8],
    state: &[u16],
    x: u8,
) -> u32
    ensures { InputIndexedCall reading file.now index.now marks.now state.now x result }
{
    groovepawn::groovepawn_input_indexed(reading, file, index, marks, state, x)
}

#[unsafe(no_mangle)]
pub extern "C" fn groovepawn_output_indexed(
    reading: u8,
    file: &[u8],
    index: &[u16],
    marks: &[u8],
    state: &mut [u16],
    x: u8,
    y: u8,
) -> u32
    ensures { OutputIndexedCall reading file.now index.now marks.now state.old x y result state.new }
{
    groovepawn::groovepawn_output_indexed(reading, file, index, marks, state, x, y)
}

// The second engine.
#[unsafe(no_mangle)]
pub extern "C" fn groovepawn_prepare_fast(
    reading: u8,
    file: &[u8],
    marks: &mut [u8],
    stack: &mut [u16],
    from: &mut [u16],
    ways: &mut [u16],
    bound: &mut [u16],
    place: &mut [u16],
) -> u64
    ensures { FastCall reading file.now marks.old (record { stack = stack.old; from = from.old; ways = ways.old; bound = bound.old; place = place.old }) result marks.new (record { stack = stack.new; from = from.new; ways = ways.new; bound = bound.new; place = place.new }) }
{
    groovepawn::groovepawn_prepare_fast(reading, file, marks, stack, from, ways, bound, place)
}

// The check alone.
#[unsafe(no_mangle)]
pub extern "C" fn groovepawn_check(file: &[u8]) -> u64
    ensures { CheckCall file.now result }
{
    groovepawn::groovepawn_check(file)
}

// Cleaning.
#[unsafe(no_mangle)]
pub extern "C" fn groovepawn_clean(
    reading: u8,
    file: &[u8],
    cleaned: &mut [u8],
    struck: &mut [u8],
) -> u64
    ensures { CleanCall reading file.now cleaned.old struck.old result cleaned.new struck.new }
{
    groovepawn::groovepawn_clean(reading, file, cleaned, struck)
}

// Two policies joined into one.
#[unsafe(no_mangle)]
pub extern "C" fn groovepawn_join(a: &[u8], b: &[u8], out: &mut [u8]) -> u64
    ensures { JoinCall a.now b.now out.old result out.new }
{
    groovepawn::groovepawn_join(a, b, out)
}

// Milliseconds as ticks.
#[unsafe(no_mangle)]
pub extern "C" fn groovepawn_ticks(milliseconds: u32, tick_length: u32, up: u8) -> u32
    ensures { TicksCall milliseconds tick_length up result }
{
    groovepawn::groovepawn_ticks(milliseconds, tick_length, up)
}

// Reasons.
#[unsafe(no_mangle)]
pub extern "C" fn groovepawn_why(
    reading: u8,
    file: &[u8],
    marks: &[u8],
    state: &[u16],
    x: u8,
    y: u8,
) -> u64
    ensures { WhyCall reading file.now marks.now state.now x y result }
{
    groovepawn::groovepawn_why(reading, file, marks, state, x, y)
}

#[unsafe(no_mangle)]
pub extern "C" fn groovepawn_why_run(
    reading: u8,
    file: &[u8],
    marks: &[u8],
    state: &mut [u16],
    events: &[u8],
    words: &mut [u64],
    ticks: &mut [u32],
    rests: &mut [u32],
    prepared: &mut [u8],
    stack: &mut [u16],
    from: &mut [u16],
    ways: &mut [u16],
    bound: &mut [u16],
    place: &mut [u16],
) -> u64
    ensures { WhyRunCall reading file.now marks.now state.old events.now words.old (record { ticks = ticks.old; rests = rests.old; prepared = prepared.old; work = record { stack = stack.old; from = from.old; ways = ways.old; bound = bound.old; place = place.old } }) result state.new words.new (record { ticks = ticks.new; rests = rests.new; prepared = prepared.new; work = record { stack = stack.new; from = from.new; ways = ways.new; bound = bound.new; place = place.new } }) }
{
    groovepawn::groovepawn_why_run(
        reading, file, marks, state, events, words, ticks, rests, prepared, stack, from, ways,
        bound, place,
    )
}

// Policies as text.
#[unsafe(no_mangle)]
pub extern "C" fn groovepawn_text_read(text: &[u8], file: &mut [u8]) -> u64
    ensures { TextReadCall text.now file.old result file.new }
{
    groovepawn::groovepawn_text_read(text, file)
}

#[unsafe(no_mangle)]
pub extern "C" fn groovepawn_text_write(file: &[u8], text: &mut [u8]) -> u64
    ensures { TextWriteCall file.now text.old result text.new }
{
    groovepawn::groovepawn_text_write(file, text)
}

#[unsafe(no_mangle)]
pub extern "C" fn groovepawn_text_line_of_rule(text: &[u8], rule: u32) -> u64
    ensures { TextRuleCall text.now rule result }
{
    groovepawn::groovepawn_text_line_of_rule(text, rule)
}

#[unsafe(no_mangle)]
pub extern "C" fn groovepawn_text_name_of_signal(text: &[u8], signal: u32) -> u64
    ensures { TextNameCall 0 text.now signal result }
{
    groovepawn::groovepawn_text_name_of_signal(text, signal)
}

#[unsafe(no_mangle)]
pub extern "C" fn groovepawn_text_name_of_clock(text: &[u8], clock: u32) -> u64
    ensures { TextNameCall 1 text.now clock result }
{
    groovepawn::groovepawn_text_name_of_clock(text, clock)
}

#[unsafe(no_mangle)]
pub extern "C" fn groovepawn_text_name_of_location(text: &[u8], location: u32) -> u64
    ensures { TextNameCall 2 text.now location result }
{
    groovepawn::groovepawn_text_name_of_location(text, location)
}

// Streams as files for a wave viewer.
#[unsafe(no_mangle)]
pub extern "C" fn groovepawn_wave_write(file: &[u8], events: &[u8], text: &mut [u8]) -> u64
    ensures { WaveWriteCall file.now events.now text.old result text.new }
{
    groovepawn::groovepawn_wave_write(file, events, text)
}

#[unsafe(no_mangle)]
pub extern "C" fn groovepawn_wave_read(file: &[u8], text: &[u8], events: &mut [u8]) -> u64
    ensures { WaveReadCall file.now text.now events.old result events.new }
{
    groovepawn::groovepawn_wave_read(file, text, events)
}
