// Numbers read from a slice. Past its end stands 0.
ghost use Rattle.std.specs.Prelude.{◌≡◌, ◌+◌, ◌<◌, length};
ghost use Rattle.policy.specs.File.{byte_at, pair_at};

pub fn byte_at(file: &[u8], at: usize) -> usize
    ensures { (result ≡ byte_at file.now at) × (result < 256) }
{
    file.get(at).map_or(0, |&byte| usize::from(byte))
}

// The number in two bytes, the high byte first. At the end of memory `at + 1` would not fit, so a test comes first.
pub fn pair_at(file: &[u8], at: usize) -> usize
    ensures { (result ≡ pair_at file.now at) × (result < 65536) }
{
    if at < file.len() {
        byte_at(file, at) * 256 + byte_at(file, at + 1)
    } else {
        0
    }
}

// The same numbers where the slice is known to reach so far: no test stands before the read.
pub fn byte_within(file: &[u8], at: usize) -> usize
    requires { at < length file.now }
    ensures { (result ≡ byte_at file.now at) × (result < 256) }
{
    usize::from(file[at])
}

pub fn pair_within(file: &[u8], at: usize) -> usize
    requires { at + 1 < length file.now }
    ensures { (result ≡ pair_at file.now at) × (result < 65536) }
{
    usize::from(u16::from_be_bytes([file[at], file[at + 1]]))
}
