//! Where bytes come from, and how all of them are read.
ghost use Rattle.std.specs.Prelude.{◌≡◌, ◌≢◌, ◌+◌, ◌^◌, ◌<◌, ◌≤◌, List, Option, ℕ, length, take, IfErr, IfOk, IfSome, OnErr, OnOk, IsErrOf};
ghost use Rattle.std.specs.Io.KnownBytes.{IsAtEnd};
ghost use Rattle.fvn_outside.specs.Faults.{NeverFails, Rose};
ghost use Rattle.fvn_outside.specs.Source.{Takes, TakesAtMost, TakesCount};

use crate::failures::{ReadAll, ReadFailed};
use fvn_base::limits::PIECE;
use std::alloc::Global;

/// Where bytes come from. A source that does not tell its bytes promises nothing of them.
pub trait Source {
    /// The bytes that are left, where the source tells them.
    ghost left: { Self → Option (List ℕ) };

    /// How often the source has failed, up to the last number that it can show.
    ghost faults: { Self → ℕ };

    /// Puts the next bytes at the front of the buffer, and returns how many. Into a buffer with
    /// room it gives none only at the end.
    fn read(&mut self, buffer: &mut [u8]) -> Result<usize, ReadFailed>
        ensures bound { IfOk result (λ n. n ≤ length buffer.new) }
        ensures ok { IfOk result (λ n. Takes (left self.old) (left self.new) (take n buffer.new)) }
        ensures end { IfOk result (λ n. n ≡ 0 → 0 < length buffer.new → IsAtEnd (left self.old)) }

        // A failing read takes nothing, and is counted; no other read is.
        ensures untaken { OnErr result (left self.new ≡ left self.old) }
        ensures fault { OnErr result (Rose (faults self.old) (faults self.new)) }
        ensures uncounted { OnOk result (faults self.new ≡ faults self.old) }
        ensures never_falls { faults self.old ≤ faults self.new };
}

/// Reads all that is left, where that is `limit` bytes at most. At a refusal the bytes that were
/// taken are gone.
pub fn read_all<S: Source>(alloc: Global, source: &mut S, limit: usize) -> Result<Vec<u8>, ReadAll>
    requires { limit < 2 ^ 31 }

    // All that was left is returned, and nothing is left.
    ensures ok { IfOk result
        (λ bytes. IfSome (S.left source.old) (λ left. bytes.items ≡ left)) }
    ensures taken { IfOk result
        (λ bytes. Takes (S.left source.old) (S.left source.new) bytes.items) }
    ensures end { OnOk result (IsAtEnd (S.left source.new)) }
    ensures within { IfOk result (λ bytes. length bytes.items ≤ limit) }

    // More bytes were left than the limit. With one byte more, reading stops.
    ensures too_long { IsErrOf result ReadAll.TooLong →
        IfSome (S.left source.old) (λ left. limit < length left) }
    ensures stopped { IsErrOf result ReadAll.TooLong →
        TakesCount (S.left source.old) (S.left source.new) (limit + 1) }

    ensures fault { IsErrOf result ReadAll.Fault →
        Rose (S.faults source.old) (S.faults source.new) }
    ensures uncounted { ¬ IsErrOf result ReadAll.Fault →
        S.faults source.new ≡ S.faults source.old }
    ensures no_fault { NeverFails S.faults → ¬ IsErrOf result ReadAll.Fault }
    ensures never_falls { S.faults source.old ≤ S.faults source.new }

    // At the other refusals, too, the next bytes were taken.
    ensures part { IfErr result (λ why. why ≢ ReadAll.TooLong →
        TakesAtMost (S.left source.old) (S.left source.new) limit) }
{
    let mut bytes = Vec::new(alloc);
    let mut buffer = [0u8; PIECE];
    loop {
        let most = PIECE.min(limit + 1 - bytes.len());
        let n = source.read(&mut buffer[..most])?;
        if n == 0 {
            return Ok(bytes);
        }
        if n > limit - bytes.len() {
            return Err(ReadAll::TooLong);
        }
        bytes.extend_from_slice(&buffer[..n])?;
    }
}
