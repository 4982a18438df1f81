// The words that a program is started with. Its own name is word 0.
ghost use Rattle.std.specs.Prelude.{◌≤◌, length};

use std::env::FillError;
use std::rt::Env;

// Puts the word at the start of `into`, and answers its length: 0 where there is none, or no room for it.
pub fn word(rt: &impl Env, number: usize, into: &mut [u8]) -> usize
    ensures { result ≤ length into.new }
{
    match rt.arg(number, into) {
        Ok(length) => length,
        Err(_) => 0,
    }
}

fn is_there(rt: &impl Env, number: usize) -> bool {
    !matches!(rt.arg(number, &mut []), Err(FillError::NotPresent))
}

// How many words there are, the program's own name among them.
pub fn word_count(rt: &impl Env) -> usize {
    for number in 0..usize::MAX {
        if !is_there(rt, number) {
            return number;
        }
    }
    usize::MAX
}
