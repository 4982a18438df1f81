// A new name of a signal or of a clock.
ghost use Rattle.std.specs.Prelude.{◌≡◌, ◌≤◌, ◌-◌, length, OnOk};
ghost use Rattle.refusals.specs.Refused.{refusal_in};
ghost use Rattle.policy.specs.File.{part};
ghost use Rattle.words.specs.Spans.{NamesIn};
ghost use Rattle.declarations.specs.Table.{Fit};
ghost use Rattle.declarations.specs.Fresh.{name_found};

use crate::table::Table;
use refusals::Refusal;
use words::keywords::is_name;
use words::names::{CLOCK_NAMES, which_name};

// Whether the word from `a` to `b` is a name, of at most 16 bytes, that no signal and no clock has.
pub(crate) fn check_name(
    text: &[u8],
    a: usize,
    b: usize,
    starts: &[usize],
    lengths: &[u8],
    table: Table,
) -> Result<(), Refusal>
    requires { (a ≤ b) × (b ≤ length text.now) × Fit table × NamesIn 76 text.now starts.now lengths.now }
    ensures said { refusal_in result ≡ name_found text.now starts.now lengths.now table (part text.now a (b - a)) }
    ensures short { OnOk result (b - a ≤ 16) }
{
    let word = &text[a..b];
    if !is_name(word) {
        return Err(Refusal::BadForm);
    }
    if which_name(text, starts, lengths, 0, table.signals, word).is_some() {
        return Err(Refusal::BadName);
    }
    if which_name(text, starts, lengths, CLOCK_NAMES, table.clocks, word).is_some() {
        return Err(Refusal::BadName);
    }
    Ok(())
}
