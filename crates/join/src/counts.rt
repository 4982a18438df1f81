// What stands before the rules: signals, clocks, locations and counts.
ghost use Rattle.std.specs.Prelude.{◌≡◌, ◌+◌, ◌*◌, ◌≤◌, ◌<◌, ◌^◌, length};
ghost use Rattle.join.specs.Entry.{same_signals, said};
ghost use Rattle.pairing.specs.Join.{left_at};
ghost use Rattle.join.specs.JoinBytes.{LayoutOf, PartsReady, limits, clocks_part, left_part, places_part, counts_from, counts_length};
ghost use Rattle.laying.specs.Lay.{LaidAt};

use laying::lay::{copy, put, put_pair};
use policy::limits::{CLOCKS, LOCATIONS, STATES};
use policy::{Layout, may_rest};

// The same tags in the same order.
pub(crate) fn same_signals(a: &[u8], first: Layout, b: &[u8], second: Layout) -> bool
    requires { LayoutOf a.now first × LayoutOf b.now second }
    ensures { result ≡ same_signals (said a.now) (said b.now) }
{
    let a_end = 1 + first.inputs;
    let b_end = 1 + second.inputs;
    let a_last = a_end + 1 + first.outputs;
    let b_last = b_end + 1 + second.outputs;
    a[1..a_end] == b[1..b_end] && a[a_end + 1..a_last] == b[b_end + 1..b_last]
}

// The join has at most 64 locations, 4 clocks and 65,536 states.
pub(crate) fn within_limits(first: Layout, second: Layout) -> bool
    requires locations_bound { (first.locations ≤ 64) × (second.locations ≤ 64) × (first.clocks ≤ 4) × (second.clocks ≤ 4) }
    requires states_bound { (first.states ≤ 65536) × (second.states ≤ 65536) }
    ensures { result ≡ limits first second }
{
    if LOCATIONS < first.locations * second.locations {
        return false;
    }
    if CLOCKS < first.clocks + second.clocks {
        return false;
    }
    first.states * second.states <= STATES
}

// How many bytes stand before the join's rules.
pub(crate) fn counts_length(first: Layout, second: Layout) -> usize
    requires { (first.inputs ≤ 4) × (first.outputs ≤ 4) × (first.clocks + second.clocks ≤ 4) × (first.locations * second.locations ≤ 64) }
    ensures { result ≡ counts_length first second }
{
    6 + first.inputs
        + first.outputs
        + 2 * (first.clocks + second.clocks)
        + first.locations * second.locations
}

// The clocks: their count and ceilings, A's first. The sections stand at p and at q.
fn lay_clocks(
    a: &[u8],
    p: usize,
    firsts: usize,
    b: &[u8],
    q: usize,
    seconds: usize,
    out: &mut [u8],
    at: usize,
) -> usize
    requires firsts_in_bounds { (p + 1 + 2 * firsts ≤ length a.now) × (q + 1 + 2 * seconds ≤ length b.now) }
    requires seconds_bound { (firsts + seconds ≤ 4) × (at < 2 ^ 16) }
    ensures laid_at { LaidAt (clocks_part a.now p firsts b.now q seconds) out.old at out.new result }
    ensures upper_bound { result ≤ at + 9 }
{
    let ceilings = put(firsts + seconds, out, at);
    let others = copy(a, p + 1, 2 * firsts, out, ceilings);
    copy(b, q + 1, 2 * seconds, out, others)
}

// The byte of one location: it must be left if either part must.
fn left_at(a: &[u8], first: Layout, b: &[u8], second: Layout, location: usize) -> usize
    requires { PartsReady a.now first b.now second × (location < first.locations * second.locations) }
    ensures { (result ≡ left_at (said a.now) (said b.now) location) × (result < 256) }
{
    let rests = may_rest(a, first, location / second.locations);
    let other_rests = may_rest(b, second, location % second.locations);
    if rests & other_rests { 0 } else { 1 }
}

// The bytes of all locations, in number order.
fn lay_left(a: &[u8], first: Layout, b: &[u8], second: Layout, out: &mut [u8], at: usize) -> usize
    requires { PartsReady a.now first b.now second × (at < 2 ^ 18) }
    ensures { LaidAt (left_part a.now first b.now second) out.old at out.new result }
{
    let mut next = at;
    for location in 0..first.locations * second.locations {
        next = put(left_at(a, first, b, second, location), out, next);
    }
    next
}

// The locations, and how many rules there are.
fn lay_places(
    a: &[u8],
    first: Layout,
    b: &[u8],
    second: Layout,
    rules: usize,
    out: &mut [u8],
    at: usize,
) -> usize
    requires { PartsReady a.now first b.now second × (rules ≤ 256) × (at < 2 ^ 17) }
    ensures { LaidAt (places_part a.now first b.now second rules) out.old at out.new result }
{
    let left = put(first.locations * second.locations, out, at);
    let count = lay_left(a, first, b, second, out, left);
    put_pair(rules, out, count)
}

// All that stands before the rules. Signals and their tags are A's.
pub(crate) fn lay_counts(
    a: &[u8],
    first: Layout,
    b: &[u8],
    second: Layout,
    rules: usize,
    out: &mut [u8],
) -> usize
    requires { PartsReady a.now first b.now second × (rules ≤ 256) }
    ensures { LaidAt (counts_from a.now first b.now second rules) out.old 0 out.new result }
{
    let p = 2 + first.inputs + first.outputs;
    let q = 2 + second.inputs + second.outputs;
    let clocks = copy(a, 0, p, out, 0);
    let places = lay_clocks(a, p, first.clocks, b, q, second.clocks, out, clocks);
    lay_places(a, first, b, second, rules, out, places)
}
