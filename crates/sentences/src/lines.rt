// The line of a reason.
ghost use Rattle.std.specs.Prelude.{◌++◌, ◌+◌, ◌≤◌, ◌<◌, length};
ghost use Rattle.policy.specs.File.{rule_count, policy_of};
ghost use Rattle.texts.specs.Wrote.{Wrote};
ghost use Rattle.stepping.specs.Ready.{Laid};
ghost use Rattle.explaining.specs.Reasons.{count_of};
ghost use Rattle.explaining.specs.CodeReasons.{reason_said, both_said};
ghost use Rattle.sentences.specs.Text.{rule_words, most_words, rests_words, Named, reason_line, reason_lines};

use crate::asked::put_asked;
use explaining::{Reason, Reasons};
use policy::Layout;
use texts::{put_about, put_bytes};

// A half and words.
fn put_plain(text: &mut [u8], at: usize, half: &[u8], words: &[u8]) -> usize
    requires { at + length half.now + length words.now ≤ length text.old }
    ensures { Wrote text.old at (half.now ++ words.now) result text.new }
{
    let half_end = put_bytes(text, at, half);
    put_bytes(text, half_end, words)
}

// The rule, by its number and what it asks.
fn put_rule(text: &mut [u8], at: usize, half: &[u8], file: &[u8], layout: Layout, i: usize) -> usize
    requires laid { Laid file.now layout × (i < rule_count file.now) }
    requires i_in_bounds { at + length half.now + length (rule_words (policy_of layout.reading file.now) i) ≤ length text.old }
    ensures { Wrote text.old at (half.now ++ rule_words (policy_of layout.reading file.now) i) result text.new }
{
    let half_end = put_bytes(text, at, half);
    let words = put_about(text, half_end, b"rule ", i, b" forbids it: ");
    let end = put_asked(text, words, file, layout, i);
    put_bytes(text, end, b"\n")
}

// A half and how many at the most: `one` follows a 1, and `more` any other number.
fn put_most(text: &mut [u8], at: usize, half: &[u8], k: usize, one: &[u8], more: &[u8]) -> usize
    requires { at + length half.now + length (most_words one.now more.now k) ≤ length text.old }
    ensures { Wrote text.old at (half.now ++ most_words one.now more.now k) result text.new }
{
    let half_end = put_bytes(text, at, half);
    if k == 1 {
        return put_about(text, half_end, b"after it at most ", k, one);
    }
    put_about(text, half_end, b"after it at most ", k, more)
}

fn put_rests(text: &mut [u8], at: usize, half: &[u8], k: usize) -> usize
    requires { at + length half.now + length (rests_words k) ≤ length text.old }
    ensures { Wrote text.old at (half.now ++ rests_words k) result text.new }
{
    if k == 0 {
        return put_plain(text, at, half, b"after it never at rest again\n");
    }
    put_most(
        text,
        at,
        half,
        k,
        b" more time at rest\n",
        b" more times at rest\n",
    )
}

// The line of one half, at most 152 bytes after what stands before its words: `broken` for a violation, and else `half`. None if it is kept.
fn put_reason(
    text: &mut [u8],
    at: usize,
    broken: &[u8],
    half: &[u8],
    file: &[u8],
    layout: Layout,
    reason: Reason,
) -> usize
    requires laid { Laid file.now layout × Named (rule_count file.now) (reason_said reason) × (count_of (reason_said reason) < 65536) }
    requires half_in_bounds { (length half.now ≤ length broken.now) × (at + length broken.now + 152 ≤ length text.old) }
    ensures { Wrote text.old at (reason_line (policy_of layout.reading file.now) broken.now half.now (reason_said reason)) result text.new }
{
    match reason {
        Reason::Kept => at,
        Reason::Rule(i) => put_rule(text, at, broken, file, layout, i),
        Reason::Unmatched => put_plain(text, at, broken, b"no rule allows it\n"),
        Reason::Ticks(k) => put_most(text, at, half, k, b" more tick\n", b" more ticks\n"),
        Reason::Rests(k) => put_rests(text, at, half, k),
    }
}

// The lines of both halves, at most 352 bytes. A violation is the reason for an input only where no output will do.
pub fn put_reasons(text: &mut [u8], at: usize, file: &[u8], layout: Layout, told: Reasons) -> usize
    requires laid { Laid file.now layout × (at + 352 ≤ length text.old) }
    requires named { Named (rule_count file.now) (reason_said told.input) × (count_of (reason_said told.input) < 65536) }
    requires named_2 { Named (rule_count file.now) (reason_said told.output) × (count_of (reason_said told.output) < 65536) }
    ensures { Wrote text.old at (reason_lines (policy_of layout.reading file.now) (both_said told)) result text.new × (result ≤ at + 352) }
{
    let input = told.input;
    let output = told.output;
    let next = put_reason(
        text,
        at,
        b"input: no output will do; with none on, ",
        b"input: ",
        file,
        layout,
        input,
    );
    put_reason(text, next, b"output: ", b"output: ", file, layout, output)
}
