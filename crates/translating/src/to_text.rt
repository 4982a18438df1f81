// What `show` decides: the text that it prints.
ghost use Rattle.std.specs.Prelude.{◌≡◌, length};
ghost use Rattle.printing.specs.Reply.{Replied};
ghost use Rattle.translating.specs.ToText.{printed};

use printing::put_refused;
use showing::show;

// The longest text of a policy file.
pub const TEXT: usize = 39420;

fn reply(file: &[u8], text: &mut [u8]) -> usize
    requires { length text.old ≡ 39420 }
    ensures { Replied text.old (printed file.now) result text.new }
{
    match show(file, text) {
        Ok(length) => length,
        Err(refusal) => put_refused(text, 0, u8::from(refusal)),
    }
}

// Writes what `show` prints for the file, and returns its length.
pub fn respond(file: &[u8], text: &mut [u8; TEXT]) -> usize
    ensures { Replied text.old (printed file.now) result text.new }
{
    reply(file, text)
}
