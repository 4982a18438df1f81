// The signals of a rule, written.
ghost use Rattle.std.specs.Prelude.{[], ◌∷◌, ◌+◌, ◌*◌, ◌≤◌, length};
ghost use Rattle.texts.specs.Wrote.{Wrote};
ghost use Rattle.wording.specs.Writer.{signal_words};
ghost use Rattle.rule_text.specs.Trail.{trailing, one_signal};

// One byte.
fn put(text: &mut [u8], at: usize, b: u8) -> usize
    requires { at + 1 ≤ length text.old }
    ensures { Wrote text.old at (b ∷ []) result text.new }
{
    text[at] = b;
    at + 1
}

// A signal with a space after it, if the care mask's first bit asks for it.
fn put_signal(text: &mut [u8], at: usize, t: u8, care: u8, value: u8) -> usize
    requires { at + 3 ≤ length text.old }
    ensures { Wrote text.old at (trailing (one_signal t care value)) result text.new }
{
    if care % 2 != 1 {
        return at;
    }
    if value % 2 == 1 {
        let next = put(text, at, t);
        return put(text, next, b' ');
    }
    let next = put(text, at, b'!');
    let next = put(text, next, t);
    put(text, next, b' ')
}

// The signals that the masks ask for, each with a space after it.
pub(crate) fn put_signals(text: &mut [u8], at: usize, tags: &[u8], care: u8, value: u8) -> usize
    requires { at + 3 * length tags.now ≤ length text.old }
    ensures { Wrote text.old at (trailing (signal_words tags.now care value)) result text.new × (result ≤ at + 3 * length tags.now) }
{
    let mut next = at;
    let mut c = care;
    let mut v = value;
    for tag in tags {
        next = put_signal(text, next, *tag, c, v);
        c /= 2;
        v /= 2;
    }
    next
}
