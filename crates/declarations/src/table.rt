// What the lines so far have said, but for the rules.
ghost use Rattle.std.specs.Prelude.{◌≡◌, List, ℕ, ◌-◌, IfOk};
ghost use Rattle.policy.specs.File.{part};
ghost use Rattle.policy.specs.Rules.{Rule};
ghost use Rattle.wording.specs.Words.{Line};
ghost use Rattle.wording.specs.Reader.{at_line};
ghost use Rattle.words.specs.Spans.{NamesIn};
ghost use Rattle.words.specs.Firsts.{Shaped, InText, count_of, first_held, second_held, word_of};
ghost use Rattle.declarations.specs.Table.{draft_of, table_said, Fit};

use refusals::Refusal;
use words::firsts::Few;
use words::names::{LOCATION_NAMES, which_name};

// Beside the table stand the places of the names, in `starts` and `lengths`, and a byte for each location in `left`: they would be nearly all of it, and
// it goes by value. A source of 64 is none.
#[derive(Clone, Copy)]
pub struct Table {
    pub tags: [u8; 8],
    pub ceilings: [u16; 4],
    pub inputs: usize,
    pub signals: usize,
    pub clocks: usize,
    pub places: usize,
    pub stage: usize,
    pub source: usize,
}

// The words behind `at`.
pub fn read_at(
    text: &[u8],
    few: Few,
    starts: &[usize],
    lengths: &[u8],
    table: Table,
) -> Result<Table, Refusal>
    requires { InText text.now few × Fit table × NamesIn 76 text.now starts.now lengths.now }
    ensures said { (left : List ℕ) (rules : List Rule) (l : Line) → Shaped (count_of few) (word_of text.now (first_held few)) (word_of text.now (second_held few)) l → table_said text.now starts.now lengths.now left rules result ≡ at_line (draft_of text.now starts.now lengths.now left table rules) l }
    ensures fit { IfOk result Fit }
{
    let Few::One(name) = few else {
        return Err(Refusal::BadForm);
    };
    let word = &text[name.start..name.end];
    match which_name(text, starts, lengths, LOCATION_NAMES, table.places, word) {
        Some(location) => {
            if table.source < 64 && location < table.source {
                return Err(Refusal::BadOrder);
            }
            Ok(Table {
                stage: 5,
                source: location,
                ..table
            })
        }
        None => Err(Refusal::BadName),
    }
}
