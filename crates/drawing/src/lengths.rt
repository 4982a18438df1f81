// How long the lines are, before any is written.
ghost use Rattle.std.specs.Prelude.{◌≡◌, ◌+◌, ◌≤◌, ◌<◌, ◌^◌, length, get_or, drop};
ghost use Rattle.texts.specs.Text.{decimal};
ghost use Rattle.drawing.specs.Wave.{time_line, value_lines, event_lines, change_lines, later_lines, wave_text};

// How many digits n has.
fn digits(n: usize) -> usize
    ensures { (result ≡ length (decimal n)) × (result ≤ n + 1) }
{
    if n < 10 {
        return 1;
    }
    digits(n / 10) + 1
}

fn time_length(time: usize) -> usize
    requires { time < 2 ^ 32 }
    ensures { (result ≡ length (time_line time)) × (result ≤ time + 3) }
{
    digits(time) + 2
}

// Three bytes for each of the signals that has a 1 in `shown`.
fn values_length(signals: &[u8], shown: u8) -> usize
    requires { length signals.now ≤ 4 }
    ensures { (result ≡ length (value_lines signals.now shown 0)) × (result ≤ 12) }
{
    let mut total = 0;
    let mut shown_on = shown;
    for _signal in signals {
        total += (shown_on % 2) as usize * 3;
        shown_on /= 2;
    }
    total
}

fn event_length(inputs: &[u8], outputs: &[u8], shown: u8) -> usize
    requires { (length inputs.now ≤ 4) × (length outputs.now ≤ 4) }
    ensures { (result ≡ length (event_lines inputs.now outputs.now shown 0)) × (result ≤ 24) }
{
    values_length(inputs, shown % 16) + values_length(outputs, shown / 16)
}

fn change_length(inputs: &[u8], outputs: &[u8], time: usize, shown: u8) -> usize
    requires { (length inputs.now ≤ 4) × (length outputs.now ≤ 4) × (time < 2 ^ 32) }
    ensures { (result ≡ length (change_lines inputs.now outputs.now time shown 0)) × (result ≤ time + 27) }
{
    if shown == 0 {
        return 0;
    }
    time_length(time) + event_length(inputs, outputs, shown)
}

// From time 1 on.
fn later_length(inputs: &[u8], outputs: &[u8], events: &[u8]) -> usize
    requires { (length inputs.now ≤ 4) × (length outputs.now ≤ 4) × (0 < length events.now) × (length events.now ≤ 16384) }
    ensures { (result ≡ length (later_lines inputs.now outputs.now 1 (get_or events.now 0 0) (drop 1 events.now))) × (result < 2 ^ 32) }
{
    let mut total = 0;
    let mut before = events[0];
    for time in 1..events.len() {
        let event = events[time];
        total += change_length(inputs, outputs, time, before ^ event);
        before = event;
    }
    total + time_length(events.len())
}

pub fn text_length(inputs: &[u8], outputs: &[u8], events: &[u8]) -> usize
    requires { (length inputs.now ≤ 4) × (length outputs.now ≤ 4) × (length events.now ≤ 16384) }
    ensures { result ≡ length (wave_text inputs.now outputs.now events.now) }
{
    let opening = 47 + 21 * inputs.len() + 21 * outputs.len();
    if events.len() == 0 {
        return opening;
    }
    opening + event_length(inputs, outputs, 255) + later_length(inputs, outputs, events)
}
