// The line of a rule, for tools.
ghost use Rattle.std.specs.Prelude.{◌≡◌, ◌<◌, ◌≤◌, ◌-◌, length, get_or, MatchOption};
ghost use Rattle.policy.specs.File.{part};
ghost use Rattle.wording.specs.Words.{words_of};
ghost use Rattle.wording.specs.RuleLines.{is_rule, rule_numbers};
ghost use Rattle.pointing.specs.RuleAt.{RuleAtPromise};
ghost use Rattle.pointing.specs.Said.{rule_said};

use compiling::LineRefusal;
use compiling::lines::next_line;
use compiling::reader::judge;
use refusals::Refusal;
use words::firsts::word_in;
use words::keywords::keyword;
use words::words::line_end;

// Whether the line from `at` to `end` is a rule's: it begins with none of the words that declare.
fn is_rule(text: &[u8], end: usize, at: usize) -> bool
    requires { (at ≤ end) × (end ≤ length text.now) }
    ensures { result ≡ is_rule (words_of (part text.now at (end - at))) }
{
    let first = word_in(text, end, at);
    if first.end <= first.start {
        return false;
    }
    5 <= keyword(&text[first.start..first.end])
}

// The line of the rule i, counted from 1.
fn find_rule(text: &[u8], i: usize) -> Option<usize>
    ensures { MatchOption result (get_or (rule_numbers text.now) i 0 ≡ 0) (λ line. (line ≡ get_or (rule_numbers text.now) i 0) × (0 < line)) }
{
    let mut left = i;
    let mut passed = 0;
    let mut at = 0;
    // A `while`: a step is a line, which ends where `line_end` says.
    while at < text.len() {
        let end = line_end(text, at);
        if is_rule(text, end, at) {
            if left == 0 {
                return Some(passed + 1);
            }
            left -= 1;
        }
        passed += 1;
        at = next_line(end, text.len());
    }
    None
}

// The line of the text's rule i.
pub fn line_of_rule(text: &[u8], i: usize) -> Result<usize, LineRefusal>
    ensures { RuleAtPromise text.now i (rule_said result) }
{
    let mut none = [0u8; 1];
    judge(text, &mut none)?;
    match find_rule(text, i) {
        Some(line) => Ok(line),
        None => Err(LineRefusal::from(Refusal::NoneSuch)),
    }
}
