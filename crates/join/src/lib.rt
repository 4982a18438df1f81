// Two policies are joined into one. What the join answers stands in specs/.
#![tactic(auto)]

mod counts;

ghost use Rattle.std.specs.Prelude.{◌≡◌, ◌+◌, ◌≤◌, ◌<◌, ◌^◌, length};
ghost use Rattle.join.specs.Entry.{joined_file, written_over};
ghost use Rattle.join.specs.JoinBytes.{LayoutOf, PartsReady, joined_count, joined_rules, counts_length};
ghost use Rattle.laying.specs.Lay.{LaidAt};
ghost use Rattle.refusals.specs.Refused.{told};
ghost use Rattle.join.specs.Promise.{JoinPromise};

use counts::{counts_length, lay_counts, same_signals, within_limits};
use pairing::lay_rules;
use policy::limits::RULES;
use policy::{Layout, layout_of};
use refusals::Refusal;

// The rules of the join of two checked files, from the slice's start on.
fn lay_joined(a: &[u8], first: Layout, b: &[u8], second: Layout, out: &mut [u8]) -> usize
    requires { PartsReady a.now first b.now second }
    ensures laid_at { LaidAt (joined_rules a.now b.now) out.old 0 out.new result }
    ensures upper_bound { result < 2 ^ 27 }
{
    let start = first.rules_start;
    let end = first.rules_end;
    let other_start = second.rules_start;
    let other_end = second.rules_end;
    lay_rules(
        &a[start..end],
        first,
        &b[other_start..other_end],
        second,
        out,
    )
}

// How many bytes they take: they are laid into a part with no bytes.
fn rules_length(a: &[u8], first: Layout, b: &[u8], second: Layout, out: &mut [u8]) -> usize
    requires { PartsReady a.now first b.now second }
    ensures { (result ≡ length (joined_rules a.now b.now)) × (result < 2 ^ 27) × (out.new ≡ out.old) }
{
    lay_joined(a, first, b, second, &mut out[..0])
}

// The counts, and the rules into the part of the slice that begins after them. The length written is handed back.
fn write_joined(
    a: &[u8],
    first: Layout,
    b: &[u8],
    second: Layout,
    rules: usize,
    out: &mut [u8],
) -> usize
    requires parts_ready { PartsReady a.now first b.now second }
    requires rules_value { (rules ≡ joined_count a.now b.now) × (rules ≤ 256) × (counts_length first second + length (joined_rules a.now b.now) ≤ length out.old) }
    ensures value { result ≡ length (joined_file a.now b.now out.old) }
    ensures out_after { out.new ≡ written_over a.now b.now out.old 0 }
{
    let start = lay_counts(a, first, b, second, rules, out);
    start + lay_joined(a, first, b, second, &mut out[start..])
}

// LargeJoin where there are too many rules, NoRoom where the slice is too short; otherwise the join is written.
fn join_within(
    a: &[u8],
    first: Layout,
    b: &[u8],
    second: Layout,
    out: &mut [u8],
) -> Result<usize, Refusal>
    requires { PartsReady a.now first b.now second }
    ensures { JoinPromise a.now b.now out.old (told result) out.new }
{
    let laid = rules_length(a, first, b, second, out);
    let rules = laid / (7 + 4 * (first.clocks + second.clocks));
    if RULES < rules {
        return Err(Refusal::LargeJoin);
    }
    if out.len() < counts_length(first, second) + laid {
        return Err(Refusal::NoRoom);
    }
    Ok(write_joined(a, first, b, second, rules, out))
}

// The two files are checked already: OtherTags, LargeJoin, NoRoom, or the join.
fn join_checked(
    a: &[u8],
    first: Layout,
    b: &[u8],
    second: Layout,
    out: &mut [u8],
) -> Result<usize, Refusal>
    requires { LayoutOf a.now first × LayoutOf b.now second }
    ensures { JoinPromise a.now b.now out.old (told result) out.new }
{
    if !same_signals(a, first, b, second) {
        return Err(Refusal::OtherTags);
    }
    if !within_limits(first, second) {
        return Err(Refusal::LargeJoin);
    }
    join_within(a, first, b, second, out)
}

// How long the join is. A's refusal comes first, then B's, then OtherTags, LargeJoin, NoRoom. A refusal writes nothing, and bytes past the written part stay.
pub fn join(a: &[u8], b: &[u8], out: &mut [u8]) -> Result<usize, Refusal>
    ensures { JoinPromise a.now b.now out.old (told result) out.new }
{
    let first = layout_of(a)?;
    let second = layout_of(b)?;
    join_checked(a, first, b, second, out)
}
