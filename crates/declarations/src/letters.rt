// The letter of a signal that is declared.
ghost use Rattle.std.specs.Prelude.{◌≡◌};
ghost use Rattle.refusals.specs.Refused.{told};
ghost use Rattle.wording.specs.Reader.{letter};

use refusals::Refusal;

// The word as a letter that none of the tags is.
pub(crate) fn letter_of(word: &[u8], tags: &[u8]) -> Result<u8, Refusal>
    ensures { told result ≡ letter tags.now word.now }
{
    let [letter] = word else {
        return Err(Refusal::BadForm);
    };
    if !letter.is_ascii_uppercase() {
        return Err(Refusal::BadForm);
    }
    if tags.contains(letter) {
        return Err(Refusal::BadName);
    }
    Ok(*letter)
}
