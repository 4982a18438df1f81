// The line of a rule.
ghost use Rattle.std.specs.Prelude.{◌≡◌, List, ℕ, ◌≤◌, ◌<◌, ◌-◌, length, IfOk};
ghost use Rattle.policy.specs.File.{part};
ghost use Rattle.policy.specs.Rules.{Rule};
ghost use Rattle.wording.specs.Words.{words_of};
ghost use Rattle.wording.specs.Names.{through};
ghost use Rattle.wording.specs.Reader.{scope, bare, rule_word, rule_line};
ghost use Rattle.words.specs.Spans.{NamesIn, place_below};
ghost use Rattle.conditions.specs.Steps.{parse_said, Masked};
ghost use Rattle.declarations.specs.Table.{draft_of, Fit};
ghost use Rattle.compiling.specs.RuleLine.{ruled_said};

use conditions::steps::Parsed;
use declarations::table::Table;
use phrases::ended::check_rule;
use phrases::told::read_rule;
use policy::limits::LOCATIONS;
use refusals::Refusal;

// All words of the line from `at` to `end`, by the names that are declared.
fn words_by(
    text: &[u8],
    end: usize,
    at: usize,
    starts: &[usize],
    lengths: &[u8],
    table: Table,
) -> Result<Parsed, Refusal>
    requires { (at ≤ end) × (end ≤ length text.now) × Fit table × NamesIn 76 text.now starts.now lengths.now }
    ensures said { (left : List ℕ) (rules : List Rule) → parse_said table.clocks result ≡ through (rule_word (scope (draft_of text.now starts.now lengths.now left table rules))) (bare table.clocks) (words_of (part text.now at (end - at))) }
    ensures masked { IfOk result Masked }
{
    read_rule(
        text,
        &table.tags[..table.signals],
        starts,
        lengths,
        table.clocks,
        table.places,
        &text[at..end],
    )
}

// The rule of the line from `at` to `end`, as the next after `count` rules.
pub(crate) fn rule_line(
    text: &[u8],
    end: usize,
    at: usize,
    starts: &[usize],
    lengths: &[u8],
    table: Table,
    count: usize,
) -> Result<Parsed, Refusal>
    requires { (at ≤ end) × (end ≤ length text.now) × Fit table × NamesIn 76 text.now starts.now lengths.now }
    ensures said { (left : List ℕ) (rules : List Rule) → length rules ≡ count → ruled_said text.now starts.now lengths.now left table rules result ≡ rule_line (draft_of text.now starts.now lengths.now left table rules) (words_of (part text.now at (end - at))) (place_below 64 table.source) }
    ensures kept { IfOk result (λ p. Masked p × (table.source < 64) × (count < 256)) }
{
    if LOCATIONS <= table.source {
        return Err(Refusal::BadForm);
    }
    let parsed = words_by(text, end, at, starts, lengths, table)?;
    check_rule(parsed, table.ceilings, table.clocks, count)?;
    Ok(parsed)
}
