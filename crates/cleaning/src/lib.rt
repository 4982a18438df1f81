// A policy without what is of no use. Locations that no permitted stream from the start leads to go, and so do rules that decide no event there. What clean answers stands in specs/.
#![tactic(auto)]

mod list;
mod rules;

ghost use Rattle.std.specs.Prelude.{◌≡◌, ℕ, ◌<◌, length, get_or};
ghost use Rattle.policy.specs.File.{policy_of};
ghost use Rattle.policy.specs.Number.{states};
ghost use Rattle.stepping.specs.Ready.{Laid};
ghost use Rattle.resting.specs.Table.{bit};
ghost use Rattle.usage.specs.Flags.{entered, used};
ghost use Rattle.usage.specs.Code.{Flagged, cleaned_by, struck_by};
ghost use Rattle.cleaning.specs.Entry.{cleaned_file, struck_list};
ghost use Rattle.refusals.specs.Refused.{told};
ghost use Rattle.cleaning.specs.Promise.{CleanPromise, WritesPromise};

use list::lay_list;
use planning::plan;
use policy::limits::RULES;
use policy::{Layout, layout_under};
use prepare::reached;
use refusals::Refusal;
use rules::lay_policy;
use stepping::State;
use usage::enter::enter;
use usage::use_rules;

// How many bytes were written: of the policy, and of the list of what was struck.
#[derive(Clone, Copy)]
pub struct Lengths {
    pub cleaned: usize,
    pub struck: usize,
}

// Finds the locations that are entered and the rules that are used. Each state has a byte: first it says whether the state is reached, and at the end the first bytes are the locations' flags. Each rule has one: first its plan, and at the end its flag.
fn find(file: &[u8], layout: Layout, marks: &mut [u8], rules: &mut [u8])
    requires { Laid file.now layout × (length marks.old ≡ states (policy_of layout.reading file.now)) × (length rules.old ≡ 256) }
    ensures marks_len_unchanged { (length marks.new ≡ length marks.old) × ((l : ℕ) → l < layout.locations → get_or marks.new l 0 ≡ bit (entered (policy_of layout.reading file.now) l)) }
    ensures rules_len_unchanged { (length rules.new ≡ length rules.old) × ((i : ℕ) → i < layout.rules → get_or rules.new i 0 ≡ bit (used (policy_of layout.reading file.now) i)) }
{
    let locations = layout.locations;
    let size = layout.states / locations;
    plan(file, layout, rules);
    reached(file, layout, rules, marks);
    use_rules(file, layout, marks, rules, size);
    enter(marks, size, locations);
}

// How long the cleaned policy is: it is laid into a part with no bytes.
fn policy_length(file: &[u8], layout: Layout, entered: &[u8], used: &[u8], out: &mut [u8]) -> usize
    requires { Flagged file.now layout entered.now used.now }
    ensures { (result ≡ length (cleaned_by file.now layout entered.now used.now)) × (out.new ≡ out.old) }
{
    lay_policy(file, layout, entered, used, &mut out[..0])
}

fn list_length(file: &[u8], layout: Layout, entered: &[u8], used: &[u8], list: &mut [u8]) -> usize
    requires { Flagged file.now layout entered.now used.now }
    ensures { (result ≡ length (struck_by file.now layout entered.now used.now)) × (list.new ≡ list.old) }
{
    lay_list(file, layout, entered, used, &mut list[..0])
}

// NoRoom where either slice is too short, before a byte is written; otherwise both are written.
fn write(
    file: &[u8],
    layout: Layout,
    entered: &[u8],
    used: &[u8],
    out: &mut [u8],
    list: &mut [u8],
) -> Result<Lengths, Refusal>
    requires { Flagged file.now layout entered.now used.now }
    ensures { WritesPromise (cleaned_by file.now layout entered.now used.now) (struck_by file.now layout entered.now used.now) out.old list.old (told result) out.new list.new }
{
    let cleaned = policy_length(file, layout, entered, used, out);
    let struck = list_length(file, layout, entered, used, list);
    if out.len() < cleaned {
        return Err(Refusal::NoRoom);
    }
    if list.len() < struck {
        return Err(Refusal::NoRoom);
    }
    lay_policy(file, layout, entered, used, out);
    lay_list(file, layout, entered, used, list);
    Ok(Lengths { cleaned, struck })
}

// The file is checked: NoRoom, or both are written. The marks have a byte for each state, and the rules one each.
fn clean_in(
    file: &[u8],
    layout: Layout,
    marks: &mut [u8],
    rules: &mut [u8],
    out: &mut [u8],
    list: &mut [u8],
) -> Result<Lengths, Refusal>
    requires { Laid file.now layout × (length marks.old ≡ 65536) × (length rules.old ≡ 256) }
    ensures { WritesPromise (cleaned_file layout.reading file.now) (struck_list layout.reading file.now) out.old list.old (told result) out.new list.new }
{
    let states = layout.states;
    let locations = layout.locations;
    let count = layout.rules;
    find(file, layout, &mut marks[..states], rules);
    write(
        file,
        layout,
        &marks[..locations],
        &rules[..count],
        out,
        list,
    )
}

// The same, with the memory as it lies on the stack.
fn clean_with(
    file: &[u8],
    layout: Layout,
    marks: &mut [u8; State::STATES],
    rules: &mut [u8; RULES],
    out: &mut [u8],
    list: &mut [u8],
) -> Result<Lengths, Refusal>
    requires { Laid file.now layout }
    ensures { WritesPromise (cleaned_file layout.reading file.now) (struck_list layout.reading file.now) out.old list.old (told result) out.new list.new }
{
    clean_in(file, layout, marks, rules, out, list)
}

// Writes the cleaned policy and the list of what was struck, three bytes each. A refusal writes nothing in both, and bytes past the written parts stay. The memory that it needs, a byte a state and a byte a rule, lies on the stack.
pub fn clean(reading: u8, file: &[u8], out: &mut [u8], list: &mut [u8]) -> Result<Lengths, Refusal>
    ensures { CleanPromise reading file.now out.old list.old (told result) out.new list.new }
{
    let layout = layout_under(reading, file)?;
    let mut marks = [0u8; State::STATES];
    let mut rules = [0u8; RULES];
    clean_with(file, layout, &mut marks, &mut rules, out, list)
}
