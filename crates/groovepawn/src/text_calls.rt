// Policies as text, for a tool in C: a text compiled into its policy file, a file shown as text, and where the rules and the names of a text stand in it.
ghost use Rattle.std.specs.Prelude.{◌≡◌};
ghost use Rattle.pointing.specs.Said.{name_said};
ghost use Rattle.pointing.specs.Short.{Shaped};
ghost use Rattle.groovepawn.specs.Text.{named_word, TextReadCall, TextWriteCall, TextRuleCall, TextNameCall};

use crate::refusal_word;
use compiling::LineRefusal;
use packing::pack_place;
use pointing::Name;

// Refusals in a line: 4, 7, 30 to 34. Then, of the whole text: 2, 9, 14.
pub fn groovepawn_text_read(text: &[u8], file: &mut [u8]) -> u64
    ensures { TextReadCall text.now file.old result file.new }
{
    match compiling::compile(text, file) {
        Ok(length) => pack_place(0, 0, length),
        Err(stopped) => pack_place(u8::from(stopped.refusal), stopped.line, 0),
    }
}

// Refusals: 1 to 9, 14.
pub fn groovepawn_text_write(file: &[u8], text: &mut [u8]) -> u64
    ensures { TextWriteCall file.now text.old result text.new }
{
    match showing::show(file, text) {
        Ok(length) => length as u64 * 256,
        Err(refusal) => u64::from(refusal_word(refusal)),
    }
}

// Refusals in a line: 4, 7, 30 to 34. Then, of the whole text: 2, 9, 35.
pub fn groovepawn_text_line_of_rule(text: &[u8], rule: u32) -> u64
    ensures { TextRuleCall text.now rule result }
{
    match pointing::line_of_rule(text, rule as usize) {
        Ok(line) => line as u64 % 4294967296 * 256,
        Err(stopped) => {
            u64::from(refusal_word(stopped.refusal)) + stopped.line as u64 % 4294967296 * 256
        }
    }
}

// Of a signal, a clock and a location. A name is short, so that its length does not leave the word.
fn name_word(found: Result<Option<Name>, LineRefusal>) -> u64
    requires { Shaped (name_said found) }
    ensures { result ≡ named_word (name_said found) }
{
    match found {
        Ok(Some(name)) => pack_place(0, name.place, name.length),
        Ok(None) => pack_place(0, 0, 0),
        Err(stopped) => pack_place(u8::from(stopped.refusal), stopped.line, 0),
    }
}

// The inputs first, then the outputs. Refusals as for a rule.
pub fn groovepawn_text_name_of_signal(text: &[u8], signal: u32) -> u64
    ensures { TextNameCall 0 text.now signal result }
{
    name_word(pointing::name_of_signal(text, signal as usize))
}

// Refusals as for a rule.
pub fn groovepawn_text_name_of_clock(text: &[u8], clock: u32) -> u64
    ensures { TextNameCall 1 text.now clock result }
{
    name_word(pointing::name_of_clock(text, clock as usize))
}

// Refusals as for a rule.
pub fn groovepawn_text_name_of_location(text: &[u8], location: u32) -> u64
    ensures { TextNameCall 2 text.now location result }
{
    name_word(pointing::name_of_location(text, location as usize))
}
