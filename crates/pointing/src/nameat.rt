// Where a name stands in the text, for tools.
ghost use Rattle.std.specs.Prelude.{◌≡◌, ◌≤◌, ◌<◌, ◌-◌, length};
ghost use Rattle.policy.specs.File.{part};
ghost use Rattle.wording.specs.Words.{words_of};
ghost use Rattle.pointing.specs.NameAt.{declares, word_bit, name_in, names_left, NameAtPromise};
ghost use Rattle.pointing.specs.Said.{kind_number, found_said, name_said, There, Named};

use compiling::LineRefusal;
use compiling::lines::next_line;
use compiling::reader::judge;
use refusals::Refusal;
use words::firsts::word_in;
use words::keywords::keyword;
use words::words::line_end;

// A name in the text: its first byte, and how many bytes it has.
#[derive(Clone, Copy, Debug, PartialEq, Eq)]
pub struct Name {
    pub place: usize,
    pub length: usize,
}

// What a line declares.
#[derive(Clone, Copy, PartialEq, Eq)]
enum Kind {
    Signal,
    Clock,
    Location,
}

// Whether the word k of the language declares one of this kind.
fn word_declares(kind: Kind, k: usize) -> bool
    ensures { word_bit (kind_number kind) k ≡ result }
{
    match kind {
        Kind::Signal => k < 2,
        Kind::Clock => k == 2,
        Kind::Location => k == 3,
    }
}

// Whether the line from `at` to `end` declares one of this kind.
fn declares(text: &[u8], end: usize, at: usize, kind: Kind) -> bool
    requires { (at ≤ end) × (end ≤ length text.now) }
    ensures { result ≡ declares (kind_number kind) (words_of (part text.now at (end - at))) }
{
    let first = word_in(text, end, at);
    if first.end <= first.start {
        return false;
    }
    word_declares(kind, keyword(&text[first.start..first.end]))
}

// The name in the line from `at` to `end`: its third word for a signal, else its second.
fn name_in(text: &[u8], end: usize, at: usize, kind: Kind) -> Option<Name>
    requires { (at ≤ end) × (end ≤ length text.now) }
    ensures said { found_said result ≡ name_in (kind_number kind) at (part text.now at (end - at)) }
    ensures there { There result }
{
    let first = word_in(text, end, at);
    if first.end <= first.start {
        return None;
    }
    let second = word_in(text, end, first.end);
    if second.end <= second.start {
        return None;
    }
    match kind {
        Kind::Signal => {
            let third = word_in(text, end, second.end);
            if third.end <= third.start {
                return None;
            }
            Some(Name {
                place: third.start,
                length: third.end - third.start,
            })
        }
        _ => Some(Name {
            place: second.start,
            length: second.end - second.start,
        }),
    }
}

// The name of the i-th that is declared.
fn find_named(text: &[u8], kind: Kind, i: usize) -> Result<Option<Name>, LineRefusal>
    ensures said { name_said result ≡ names_left (kind_number kind) text.now 0 i }
    ensures there { Named result }
{
    let mut left = i;
    let mut at = 0;
    // A `while`: a step is a line, which ends where `line_end` says.
    while at < text.len() {
        let end = line_end(text, at);
        if declares(text, end, at, kind) {
            if left == 0 {
                return Ok(name_in(text, end, at, kind));
            }
            left -= 1;
        }
        at = next_line(end, text.len());
    }
    Err(LineRefusal::from(Refusal::NoneSuch))
}

// The name of the i-th signal, clock or location of the text, if that is read.
fn name_of(text: &[u8], kind: Kind, i: usize) -> Result<Option<Name>, LineRefusal>
    ensures said { NameAtPromise (kind_number kind) text.now i (name_said result) }
    ensures there { Named result }
{
    let mut none = [0u8; 1];
    judge(text, &mut none)?;
    find_named(text, kind, i)
}

// The inputs first, then the outputs.
pub fn name_of_signal(text: &[u8], i: usize) -> Result<Option<Name>, LineRefusal>
    ensures said { NameAtPromise 0 text.now i (name_said result) }
    ensures there { Named result }
{
    name_of(text, Kind::Signal, i)
}

pub fn name_of_clock(text: &[u8], i: usize) -> Result<Option<Name>, LineRefusal>
    ensures said { NameAtPromise 1 text.now i (name_said result) }
    ensures there { Named result }
{
    name_of(text, Kind::Clock, i)
}

pub fn name_of_location(text: &[u8], i: usize) -> Result<Option<Name>, LineRefusal>
    ensures said { NameAtPromise 2 text.now i (name_said result) }
    ensures there { Named result }
{
    name_of(text, Kind::Location, i)
}
