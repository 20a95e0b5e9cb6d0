//! Numbers of one to nine decimal digits.
ghost use Rattle.std.specs.Prelude.{◌≡◌, ◌≤◌, length};
ghost use Rattle.fvn_cmd_words.specs.inner.Reading.{read_on, number_of};

// The number that at most nine decimal digits spell.
fn digits(word: &[u8]) -> Option<u64>
    requires { length word.now ≤ 9 }
    ensures { result ≡ read_on 0 word.now }
{
    let mut n: u64 = 0;
    for byte in word {
        if *byte < b'0' {
            return None;
        }
        if b'9' < *byte {
            return None;
        }
        n = 10 * n + u64::from(*byte - b'0');
    }
    Some(n)
}

// The number that the word spells.
#[tactic(auto, unfolding(crate::specs::inner::Reading::number_of))]
pub(crate) fn number(word: &[u8]) -> Option<u64>
    ensures { result ≡ number_of word.now }
{
    if 1 <= word.len() && word.len() <= 9 {
        digits(word)
    } else {
        None
    }
}
