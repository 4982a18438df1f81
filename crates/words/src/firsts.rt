// The first words of a line that ends at `end`, as positions in the text.
ghost use Rattle.std.specs.Prelude.{◌≡◌, ◌≤◌, length};
ghost use Rattle.words.specs.Firsts.{NextIn, Firsts, first_span, second_span};

use crate::words::{Span, next_word};

// The next word from `at` on. Where there is none, start and end are the same.
#[inline(always)]
pub fn word_in(text: &[u8], end: usize, at: usize) -> Span
    requires { (at ≤ end) × (end ≤ length text.now) }
    ensures { NextIn text.now end at result.start result.end }
{
    next_word(&text[..end], at)
}

// The first two words of a line, and whether there are more.
#[derive(Clone, Copy)]
pub enum Few {
    None,
    One(Span),
    Two(Span, Span),
    More(Span, Span),
}

impl Few {
    // The first word. Where there is none, and where there are more than two, no byte.
    pub fn first(self) -> Span
        ensures { result ≡ first_span self }
    {
        match self {
            Few::One(first) | Few::Two(first, _) => first,
            Few::None | Few::More(_, _) => Span { start: 0, end: 0 },
        }
    }

    // The second word. Where there are not two, no byte.
    pub fn second(self) -> Span
        ensures { result ≡ second_span self }
    {
        match self {
            Few::Two(_, second) => second,
            Few::None | Few::One(_) | Few::More(_, _) => Span { start: 0, end: 0 },
        }
    }
}

pub fn few_words(text: &[u8], line_end: usize, at: usize) -> Few
    requires { (at ≤ line_end) × (line_end ≤ length text.now) }
    ensures { Firsts text.now line_end at result }
{
    let first = word_in(text, line_end, at);
    if first.end <= first.start {
        return Few::None;
    }
    let second = word_in(text, line_end, first.end);
    if second.end <= second.start {
        return Few::One(first);
    }
    let third = word_in(text, line_end, second.end);
    if third.end <= third.start {
        return Few::Two(first, second);
    }
    Few::More(first, second)
}
