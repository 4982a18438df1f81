// The number that a word says.
ghost use Rattle.std.specs.Prelude.{◌≡◌};
ghost use Rattle.refusals.specs.Refused.{told};
ghost use Rattle.words.specs.Counted.{number_of};

use refusals::Refusal;

// The number that a word says.
pub fn read_number(word: &[u8]) -> Result<u16, Refusal>
    ensures { told result ≡ number_of word.now }
{
    if word.len() == 0 {
        return Err(Refusal::BadForm);
    }
    let mut value: u32 = 0;
    for c in word {
        if !c.is_ascii_digit() {
            return Err(Refusal::BadForm);
        }
        // It grows no further than a refusal needs.
        value = (value * 10 + u32::from(*c - b'0')).min(65536);
    }
    if 65535 < value {
        return Err(Refusal::LargeNumber);
    }
    Ok(value as u16)
}
