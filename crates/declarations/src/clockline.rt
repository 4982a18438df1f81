// The words behind `clock`.
ghost use Rattle.std.specs.Prelude.{◌≡◌, List, ℕ, ◌+◌, ◌≤◌, ◌<◌, ◌-◌, length, IfOk};
ghost use Rattle.refusals.specs.Refused.{refusal_in};
ghost use Rattle.policy.specs.File.{part};
ghost use Rattle.policy.specs.Rules.{Rule};
ghost use Rattle.wording.specs.Words.{Line};
ghost use Rattle.wording.specs.Reader.{clock_line};
ghost use Rattle.words.specs.Spans.{NamesIn};
ghost use Rattle.words.specs.Firsts.{Shaped, InText, count_of, first_held, second_held, word_of};
ghost use Rattle.declarations.specs.Table.{draft_of, table_said, Fit};
ghost use Rattle.declarations.specs.ClockLine.{with_clock, clock_refusal};

use crate::fresh::check_name;
use crate::table::Table;
use refusals::Refusal;
use words::firsts::Few;
use words::names::CLOCK_NAMES;
use words::numbers::read_number;

// A clock more, whose name has `size` bytes from `a` on.
fn add_clock(
    text: &[u8],
    a: usize,
    size: u8,
    ceiling: u16,
    starts: &mut [usize],
    lengths: &mut [u8],
    table: Table,
) -> Table
    requires { (a + size ≤ length text.now) × (table.clocks < 4) × (table.stage ≤ 3) × Fit table × NamesIn 76 text.now starts.old lengths.old }
    ensures { ((left : List ℕ) (rules : List Rule) → draft_of text.now starts.new lengths.new left result rules ≡ with_clock (draft_of text.now starts.old lengths.old left table rules) (part text.now a size) ceiling) × Fit result × NamesIn 76 text.now starts.new lengths.new }
{
    let n = table.clocks;
    starts[CLOCK_NAMES + n] = a;
    lengths[CLOCK_NAMES + n] = size;
    let mut ceilings = table.ceilings;
    ceilings[n] = ceiling;
    Table {
        ceilings,
        clocks: n + 1,
        stage: 3,
        ..table
    }
}

// Whether a clock with this ceiling is taken.
fn check_clock(ceiling: u16, clocks: usize) -> Result<(), Refusal>
    ensures { refusal_in result ≡ clock_refusal ceiling clocks }
{
    if ceiling < 1 || 1001 < ceiling {
        return Err(Refusal::BadCeiling);
    }
    if 4 <= clocks {
        return Err(Refusal::NoPlace);
    }
    Ok(())
}

pub fn read_clock(
    text: &[u8],
    few: Few,
    starts: &mut [usize],
    lengths: &mut [u8],
    table: Table,
) -> Result<Table, Refusal>
    requires { InText text.now few × Fit table × NamesIn 76 text.now starts.old lengths.old }
    ensures said { (left : List ℕ) (rules : List Rule) (l : Line) → Shaped (count_of few) (word_of text.now (first_held few)) (word_of text.now (second_held few)) l → table_said text.now starts.new lengths.new left rules result ≡ clock_line (draft_of text.now starts.old lengths.old left table rules) l }
    ensures fit { IfOk result Fit }
    ensures names { NamesIn 76 text.now starts.new lengths.new }
{
    let Few::Two(name, number) = few else {
        return Err(Refusal::BadForm);
    };
    if 3 < table.stage {
        return Err(Refusal::BadForm);
    }
    check_name(text, name.start, name.end, starts, lengths, table)?;
    let ceiling = read_number(&text[number.start..number.end])?;
    check_clock(ceiling, table.clocks)?;
    let size = (name.end - name.start) as u8;
    Ok(add_clock(text, name.start, size, ceiling, starts, lengths, table))
}
