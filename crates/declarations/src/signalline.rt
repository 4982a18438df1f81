// The words behind `input` and `output`.
ghost use Rattle.std.specs.Prelude.{◌≡◌, List, ℕ, ◌+◌, ◌≤◌, ◌<◌, ◌-◌, length, take, IfOk, OnOk};
ghost use Rattle.refusals.specs.Refused.{refusal_in, told};
ghost use Rattle.policy.specs.File.{part};
ghost use Rattle.policy.specs.Rules.{Rule};
ghost use Rattle.wording.specs.Words.{Line};
ghost use Rattle.wording.specs.Reader.{with_input, with_output, input_line, output_line};
ghost use Rattle.words.specs.Spans.{NamesIn};
ghost use Rattle.words.specs.Firsts.{Shaped, InText, count_of, first_span, second_span, first_held, second_held, word_of};
ghost use Rattle.declarations.specs.Table.{draft_of, table_said, Fit};
ghost use Rattle.declarations.specs.Fresh.{name_found};
ghost use Rattle.declarations.specs.SignalLine.{wanted, signal_tag};

use crate::fresh::check_name;
use crate::letters::letter_of;
use crate::table::Table;
use refusals::Refusal;
use words::firsts::Few;

// Whether the second word, if there is one, may be a new name.
fn check_second(
    text: &[u8],
    few: Few,
    starts: &[usize],
    lengths: &[u8],
    table: Table,
) -> Result<(), Refusal>
    requires { InText text.now few × Fit table × NamesIn 76 text.now starts.now lengths.now }
    ensures said { refusal_in result ≡ wanted (count_of few) (name_found text.now starts.now lengths.now table (word_of text.now (second_span few))) }
    ensures short { OnOk result ((second_span few).end - (second_span few).start ≤ 16) }
{
    match few {
        Few::None | Few::One(_) => Ok(()),
        Few::Two(_, name) => check_name(text, name.start, name.end, starts, lengths, table),
        Few::More(_, _) => Err(Refusal::BadForm),
    }
}

// The letter that is declared, where `count` signals of its kind are; 30 where the line has not one word or two.
fn signal_tag(
    text: &[u8],
    few: Few,
    starts: &[usize],
    lengths: &[u8],
    table: Table,
    count: usize,
) -> Result<u8, Refusal>
    requires { InText text.now few × Fit table × NamesIn 76 text.now starts.now lengths.now }
    ensures said { told result ≡ signal_tag (take table.signals table.tags) count (wanted (count_of few) (name_found text.now starts.now lengths.now table (word_of text.now (second_span few)))) (word_of text.now (first_span few)) }
    ensures room { OnOk result ((count < 4) × ((second_span few).end - (second_span few).start ≤ 16)) }
{
    let letter = few.first();
    let tag = letter_of(
        &text[letter.start..letter.end],
        &table.tags[..table.signals],
    )?;
    check_second(text, few, starts, lengths, table)?;
    if 4 <= count {
        return Err(Refusal::NoPlace);
    }
    Ok(tag)
}

// An input more, whose name has `size` bytes from `a` on.
fn add_input(
    text: &[u8],
    a: usize,
    size: u8,
    tag: u8,
    starts: &mut [usize],
    lengths: &mut [u8],
    table: Table,
) -> Table
    requires { (a + size ≤ length text.now) × (table.inputs < 4) × (table.stage ≤ 1) × Fit table × NamesIn 76 text.now starts.old lengths.old }
    ensures { ((left : List ℕ) (rules : List Rule) → draft_of text.now starts.new lengths.new left result rules ≡ with_input (draft_of text.now starts.old lengths.old left table rules) tag (part text.now a size)) × Fit result × NamesIn 76 text.now starts.new lengths.new }
{
    let n = table.signals;
    starts[n] = a;
    lengths[n] = size;
    let mut tags = table.tags;
    tags[n] = tag;
    Table {
        tags,
        inputs: n + 1,
        signals: n + 1,
        stage: 1,
        ..table
    }
}

// An output more.
fn add_output(
    text: &[u8],
    a: usize,
    size: u8,
    tag: u8,
    starts: &mut [usize],
    lengths: &mut [u8],
    table: Table,
) -> Table
    requires { (a + size ≤ length text.now) × (table.signals < table.inputs + 4) × (table.stage ≤ 2) × Fit table × NamesIn 76 text.now starts.old lengths.old }
    ensures { ((left : List ℕ) (rules : List Rule) → draft_of text.now starts.new lengths.new left result rules ≡ with_output (draft_of text.now starts.old lengths.old left table rules) tag (part text.now a size)) × Fit result × NamesIn 76 text.now starts.new lengths.new }
{
    let n = table.signals;
    starts[n] = a;
    lengths[n] = size;
    let mut tags = table.tags;
    tags[n] = tag;
    Table {
        tags,
        signals: n + 1,
        stage: 2,
        ..table
    }
}

// The words behind `input`.
pub fn read_input(
    text: &[u8],
    few: Few,
    starts: &mut [usize],
    lengths: &mut [u8],
    table: Table,
) -> Result<Table, Refusal>
    requires { InText text.now few × Fit table × NamesIn 76 text.now starts.old lengths.old }
    ensures said { (left : List ℕ) (rules : List Rule) (l : Line) → Shaped (count_of few) (word_of text.now (first_held few)) (word_of text.now (second_held few)) l → table_said text.now starts.new lengths.new left rules result ≡ input_line (draft_of text.now starts.old lengths.old left table rules) l }
    ensures fit { IfOk result Fit }
    ensures names { NamesIn 76 text.now starts.new lengths.new }
{
    if 1 < table.stage {
        return Err(Refusal::BadForm);
    }
    let tag = signal_tag(text, few, starts, lengths, table, table.inputs)?;
    let name = few.second();
    let size = (name.end - name.start) as u8;
    Ok(add_input(text, name.start, size, tag, starts, lengths, table))
}

// The words behind `output`.
pub fn read_output(
    text: &[u8],
    few: Few,
    starts: &mut [usize],
    lengths: &mut [u8],
    table: Table,
) -> Result<Table, Refusal>
    requires { InText text.now few × Fit table × NamesIn 76 text.now starts.old lengths.old }
    ensures said { (left : List ℕ) (rules : List Rule) (l : Line) → Shaped (count_of few) (word_of text.now (first_held few)) (word_of text.now (second_held few)) l → table_said text.now starts.new lengths.new left rules result ≡ output_line (draft_of text.now starts.old lengths.old left table rules) l }
    ensures fit { IfOk result Fit }
    ensures names { NamesIn 76 text.now starts.new lengths.new }
{
    if 2 < table.stage {
        return Err(Refusal::BadForm);
    }
    let tag = signal_tag(
        text,
        few,
        starts,
        lengths,
        table,
        table.signals - table.inputs,
    )?;
    let name = few.second();
    let size = (name.end - name.start) as u8;
    Ok(add_output(text, name.start, size, tag, starts, lengths, table))
}
