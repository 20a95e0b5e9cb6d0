//! Words that stand for sets of sorts, one bit a sort.
ghost use Rattle.std.specs.Prelude.{◌↔◌, ◌<◌, IsTrue};
ghost use Rattle.fvn_signature.specs.Words.{Has};

/// Whether the word has the bit.
pub fn has(word: u64, k: u16) -> bool
    requires { k < 64 }
    ensures { IsTrue result ↔ Has word k }
{
    (word >> k) & 1 == 1
}
