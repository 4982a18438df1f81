// The list of what was struck, laid into a slice from its start on, as far as the slice reaches. Each function hands back the position after what it lays.
ghost use Rattle.std.specs.Prelude.{◌≡◌, cond, [], ◌∷◌, ◌+◌, ◌≤◌, ◌<◌, ◌^◌, eqb, length, get_or};
ghost use Rattle.policy.specs.File.{rules_of};
ghost use Rattle.policy.specs.Bytes.{pair_bytes};
ghost use Rattle.laying.specs.Lay.{LaidAt};
ghost use Rattle.usage.specs.Clean.{struck_bytes, locations_struck, rules_struck};
ghost use Rattle.usage.specs.Code.{flags_of, Flagged, struck_by};
ghost use Rattle.cleaning.specs.Kinds.{kind_byte};

use laying::lay::{put, put_pair};
use policy::Layout;
use policy::bytes::byte_within;
use policy::limits::{BOUND_SIZE, RULE_HEAD};

// What an entry of the list names.
#[derive(Clone, Copy)]
pub enum Kind {
    Location,
    // A rule whose location goes too.
    RuleWithLocation,
    Rule,
}

// The byte that stands for it.
impl From<Kind> for u8 {
    ghost from_gives = { λ kind byte. byte ≡ kind_byte kind };

    fn from(kind: Kind) -> u8 {
        match kind {
            Kind::Location => 1,
            Kind::RuleWithLocation => 2,
            Kind::Rule => 3,
        }
    }
}

// One entry: the kind, then the old number in two bytes. Where it is kept there is none.
fn lay_unless(kept: bool, kind: Kind, number: usize, out: &mut [u8], at: usize) -> usize
    requires { (number < 65536) × (at < 2 ^ 16) }
    ensures { LaidAt (cond kept [] (kind_byte kind ∷ pair_bytes number)) out.old at out.new result × (result ≤ at + 3) }
{
    if kept {
        return at;
    }
    let next = put(u8::from(kind) as usize, out, at);
    put_pair(number, out, next)
}

// The locations whose flags are not set.
fn lay_locations(entered: &[u8], out: &mut [u8]) -> usize
    requires { length entered.now ≤ 64 }
    ensures laid_at { LaidAt (struck_bytes (locations_struck 0 (flags_of entered.now))) out.old 0 out.new result }
    ensures upper_bound { result ≤ 192 }
{
    let mut next = 0;
    for (location, flag) in entered.iter().enumerate() {
        next = lay_unless(*flag == 1, Kind::Location, location, out, next);
    }
    next
}

// The kind of a rule that is struck.
fn kind_of(entered: &[u8], source: usize) -> Kind
    requires { source < length entered.now }
    ensures { kind_byte result ≡ cond (eqb (get_or entered.now source 0) 1) 3 2 }
{
    if entered[source] == 1 {
        Kind::Rule
    } else {
        Kind::RuleWithLocation
    }
}

// The rules whose flags are not set.
fn lay_rules_struck(
    file: &[u8],
    layout: Layout,
    entered: &[u8],
    used: &[u8],
    out: &mut [u8],
    at: usize,
) -> usize
    requires { Flagged file.now layout entered.now used.now × (at ≤ 192) }
    ensures { LaidAt (struck_bytes (rules_struck (flags_of entered.now) 0 (flags_of used.now) (rules_of file.now))) out.old at out.new result }
{
    let clocks = layout.clocks;
    let size = RULE_HEAD + BOUND_SIZE * clocks;
    let mut next = at;
    let mut p = layout.rules_start;
    for (rule, flag) in used.iter().enumerate() {
        let kind = kind_of(entered, byte_within(file, p));
        next = lay_unless(*flag == 1, kind, rule, out, next);
        p += size;
    }
    next
}

// Locations, then rules.
pub(crate) fn lay_list(
    file: &[u8],
    layout: Layout,
    entered: &[u8],
    used: &[u8],
    out: &mut [u8],
) -> usize
    requires { Flagged file.now layout entered.now used.now }
    ensures { LaidAt (struck_by file.now layout entered.now used.now) out.old 0 out.new result }
{
    let next = lay_locations(entered, out);
    lay_rules_struck(file, layout, entered, used, out, next)
}
