// One line, by its first word.
ghost use Rattle.std.specs.Prelude.{◌≡◌, List, IfOk, MatchResult, ◌≤◌, ◌<◌, ◌-◌, length};
ghost use Rattle.policy.specs.File.{part};
ghost use Rattle.policy.specs.Rules.{Rule};
ghost use Rattle.wording.specs.Words.{words_of};
ghost use Rattle.words.specs.Spans.{NamesIn};
ghost use Rattle.declarations.specs.Table.{draft_of, table_said, Fit};
ghost use Rattle.compiling.specs.Line.{behind, Took, Stopped};

use crate::ruleline::rule_line;
use conditions::steps::Parsed;
use declarations::clockline::read_clock;
use declarations::placeline::read_location;
use declarations::signalline::{read_input, read_output};
use declarations::table::{Table, read_at};
use refusals::Refusal;
use words::firsts::{few_words, word_in};
use words::keywords::keyword;

// What the lines with one more have said: the rule of this one, if it is a rule's, and all that is declared.
#[derive(Clone, Copy)]
pub struct Taken {
    pub rule: Option<Parsed>,
    pub table: Table,
}

// The words from `at` to `end`, which stand behind the word k: one of the first five of the language.
fn words_behind(
    text: &[u8],
    end: usize,
    at: usize,
    starts: &mut [usize],
    lengths: &mut [u8],
    left: &mut [u8],
    table: Table,
    k: usize,
) -> Result<Table, Refusal>
    requires { (at ≤ end) × (end ≤ length text.now) × (k < 5) × Fit table × NamesIn 76 text.now starts.old lengths.old × (length left.old ≡ 64) }
    ensures said { (rules : List Rule) → table_said text.now starts.new lengths.new left.new rules result ≡ behind k (draft_of text.now starts.old lengths.old left.old table rules) (words_of (part text.now at (end - at))) }
    ensures fit { IfOk result Fit }
    ensures names { NamesIn 76 text.now starts.new lengths.new }
{
    if k == 3 {
        return read_location(text, end, at, starts, lengths, left, table);
    }
    let few = few_words(text, end, at);
    match k {
        0 => read_input(text, few, starts, lengths, table),
        1 => read_output(text, few, starts, lengths, table),
        2 => read_clock(text, few, starts, lengths, table),
        _ => read_at(text, few, starts, lengths, table),
    }
}

// The line from `at` to `end`, after `count` rules.
pub(crate) fn read_line(
    text: &[u8],
    end: usize,
    at: usize,
    starts: &mut [usize],
    lengths: &mut [u8],
    left: &mut [u8],
    table: Table,
    count: usize,
) -> Result<Taken, Refusal>
    requires { (at ≤ end) × (end ≤ length text.now) × Fit table × NamesIn 76 text.now starts.old lengths.old × (length left.old ≡ 64) }
    ensures took { MatchResult result (λ taken. Took text.now (draft_of text.now starts.old lengths.old left.old table) end at count taken (draft_of text.now starts.new lengths.new left.new taken.table)) (λ refusal. Stopped text.now (draft_of text.now starts.old lengths.old left.old table) end at count refusal) }
    ensures names { NamesIn 76 text.now starts.new lengths.new }
{
    let first = word_in(text, end, at);
    if first.end <= first.start {
        return Ok(Taken { rule: None, table });
    }
    let k = keyword(&text[first.start..first.end]);
    if k < 5 {
        let declared = words_behind(text, end, first.end, starts, lengths, left, table, k)?;
        return Ok(Taken {
            rule: None,
            table: declared,
        });
    }
    let parsed = rule_line(text, end, at, starts, lengths, table, count)?;
    let mut with_rule = table;
    with_rule.stage = 5;
    Ok(Taken {
        rule: Some(parsed),
        table: with_rule,
    })
}
