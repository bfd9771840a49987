//! Numbers in decimal.
ghost use Rattle.std.specs.Prelude.{◌≡◌, ◌^◌};
ghost use Rattle.at_text.specs.Readers.{run, number_below};
ghost use Rattle.at_back.specs.Left.{leads_zero};

/// Whether there is more than one digit, and the first is `0`.
fn leads_zero(word: &[u8]) -> bool
    ensures { result ≡ leads_zero word.now }
{
    word.len() > 1 && word[0] == b'0'
}

/// The number of which the word is the decimal text, where it has 64 bits. It has no leading zero, and the word has no
/// byte but letters, digits and `_`.
pub fn number_of(word: &str) -> Option<u64>
    requires { run word.now ≡ word.now }
    ensures { result ≡ number_below (2 ^ 64) word.now }
{
    if leads_zero(word.as_bytes()) {
        None
    } else {
        word.parse().ok()
    }
}
