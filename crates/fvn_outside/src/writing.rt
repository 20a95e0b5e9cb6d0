//! Where bytes go to, and how all of them are written.
ghost use Rattle.std.specs.Prelude.{◌≡◌, ◌<◌, ◌≤◌, List, Option, ℕ, length, take, IfOk, OnErr, OnOk, IsOk};
ghost use Rattle.fvn_outside.specs.Faults.{NeverFails, Rose};
ghost use Rattle.fvn_outside.specs.Sink.{Appends, AppendsPart};

use crate::failures::WriteFailed;

/// Where bytes go to. A sink that does not tell what was written promises nothing of it.
pub trait Sink {
    /// The bytes that were written, where the sink tells them.
    ghost written: { Self → Option (List ℕ) };

    /// How often the sink has failed, up to the last number that it can show.
    ghost faults: { Self → ℕ };

    /// Adds a front of these bytes at the end, and returns how many.
    fn write(&mut self, bytes: &[u8]) -> Result<usize, WriteFailed>
        ensures bound { IfOk result (λ n. n ≤ length bytes.now) }
        ensures ok { IfOk result
            (λ n. Appends (written self.old) (written self.new) (take n bytes.now)) }

        // A failing write adds nothing; it is counted, and so is one that takes none of the bytes. No
        // other is.
        ensures unwritten { OnErr result (written self.new ≡ written self.old) }
        ensures fault { OnErr result (Rose (faults self.old) (faults self.new)) }
        ensures stuck { IfOk result
            (λ n. n ≡ 0 → 0 < length bytes.now → Rose (faults self.old) (faults self.new)) }
        ensures uncounted { IfOk result (λ n. 0 < n → faults self.new ≡ faults self.old) }
        ensures never_falls { faults self.old ≤ faults self.new };
}

/// Writes all the bytes; it takes no memory.
pub fn write_all<K: Sink>(sink: &mut K, bytes: &[u8]) -> Result<(), WriteFailed>
    ensures ok { OnOk result (Appends (K.written sink.old) (K.written sink.new) bytes.now) }
    ensures part { OnErr result (AppendsPart (K.written sink.old) (K.written sink.new) bytes.now) }
    ensures fault { OnErr result (Rose (K.faults sink.old) (K.faults sink.new)) }
    ensures uncounted { OnOk result (K.faults sink.new ≡ K.faults sink.old) }
    ensures no_fault { NeverFails K.faults → IsOk result }
    ensures never_falls { K.faults sink.old ≤ K.faults sink.new }
{
    let mut done = 0;
    while done < bytes.len() {
        let n = sink.write(&bytes[done..])?;
        if n == 0 {
            return Err(WriteFailed);
        }
        done += n;
    }
    Ok(())
}
