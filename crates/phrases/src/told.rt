// The words of a rule, one after another.
ghost use Rattle.std.specs.Prelude.{◌≡◌, ℕ, ◌≤◌, ◌<◌, length, IfOk};
ghost use Rattle.wording.specs.Words.{words_of};
ghost use Rattle.wording.specs.Names.{through};
ghost use Rattle.words.specs.Spans.{NamesIn};
ghost use Rattle.wording.specs.Reader.{bare, rule_word};
ghost use Rattle.conditions.specs.Steps.{begun_of, parse_said, Masked};
ghost use Rattle.conditions.specs.Conditions.{scope_of};

use crate::chosen::on_word;
use conditions::steps::{Parsed, Part};
use refusals::Refusal;
use words::words::next_word;

// Before its first word.
pub fn unsaid() -> Parsed
    ensures { ((n : ℕ) → n ≤ 4 → begun_of n result ≡ bare n) × Masked result }
{
    Parsed {
        part: Part::Opening,
        clock: 0,
        care: 0,
        value: 0,
        target: 0,
        reset: 0,
        low: [0; 4],
        high: [65535; 4],
    }
}

// All words of the line.
pub fn read_rule(
    text: &[u8],
    tags: &[u8],
    starts: &[usize],
    lengths: &[u8],
    clocks: usize,
    places: usize,
    line: &[u8],
) -> Result<Parsed, Refusal>
    requires { (length tags.now ≤ 8) × (clocks ≤ 4) × (places ≤ 64) × NamesIn 76 text.now starts.now lengths.now }
    ensures said { parse_said clocks result ≡ through (rule_word (scope_of text.now tags.now starts.now lengths.now clocks places)) (bare clocks) (words_of line.now) }
    ensures masked { IfOk result Masked }
{
    let mut parsed = unsaid();
    let mut at = 0;
    // A `while`: a step is a word and the blanks before it.
    while at < line.len() {
        let span = next_word(line, at);
        if span.end <= span.start {
            return Ok(parsed);
        }
        let word = &line[span.start..span.end];
        parsed = on_word(text, tags, starts, lengths, clocks, places, word, parsed)?;
        at = span.end;
    }
    Ok(parsed)
}
