//! A source and a sink that never fail.
ghost use Rattle.std.specs.Prelude.{◌≡◌, ◌+◌, ◌<◌, ◌≤◌, List, Ok, Some, None, ℕ, drop, length, min, take, IfOk};
ghost use Rattle.std.specs.Io.KnownBytes.{IsAtEnd};
ghost use Rattle.fvn_outside.specs.Faults.{NeverFails, last_count};
ghost use Rattle.fvn_outside.specs.Source.{Takes};

use crate::failures::{ReadFailed, WriteFailed};
use crate::memory::copy_front;
use crate::reading::Source;
use crate::writing::Sink;
use std::marker::Model;

/// A source of these bytes that never fails. Contracts see it as the bytes that are left.
#[derive(Drop)]
pub struct SureSource {
    bytes: Vec<u8>,
    taken: usize,
}

impl Model for SureSource {
    ghost Value = { List ℕ };

    ghost view = { λ s. drop s.taken s.bytes.items };

    ghost invariant = { λ s. s.taken ≤ length s.bytes.items };
}

impl SureSource {
    /// The source of these bytes.
    pub fn new(bytes: Vec<u8>) -> SureSource
        ensures left { result ≡ bytes.items }
        ensures never_fails { NeverFails ⟦<SureSource as Source>⟧.faults }
    {
        SureSource { bytes, taken: 0 }
    }
}

impl Source for SureSource {
    ghost left = { λ bytes. Some bytes };

    ghost faults = { λ _. 0 };

    fn read(&mut self, buffer: &mut [u8]) -> Result<usize, ReadFailed>
        ensures bound { IfOk result (λ n. n ≤ length buffer.new) }
        ensures ok { IfOk result (λ n. Takes (Some self.old) (Some self.new) (take n buffer.new)) }
        ensures end { IfOk result (λ n. n ≡ 0 → 0 < length buffer.new → IsAtEnd (Some self.old)) }
        ensures count { result ≡ Ok (min (length self.old) (length buffer.old)) }
    {
        let n = copy_front(&self.bytes[self.taken..], buffer);
        self.taken += n;
        Ok(n)
    }
}

/// A sink that takes every byte, never fails and keeps no byte. Contracts see it as the number of
/// the bytes that it took, up to the last number of 64 bits.
#[derive(Drop)]
pub struct SureSink {
    taken: usize,
}

impl Model for SureSink {
    ghost Value = { ℕ };

    ghost view = { λ s. s.taken };
}

impl SureSink {
    /// The sink that has taken nothing yet.
    pub fn new() -> SureSink
        ensures taken { result ≡ 0 }
        ensures never_fails { NeverFails ⟦<SureSink as Sink>⟧.faults }
    {
        SureSink { taken: 0 }
    }
}

impl Sink for SureSink {
    ghost written = { λ _. None };

    ghost faults = { λ _. 0 };

    fn write(&mut self, bytes: &[u8]) -> Result<usize, WriteFailed>
        ensures all { result ≡ Ok (length bytes.now) }
        ensures counted { self.new ≡ min (self.old + length bytes.now) last_count }
    {
        self.taken = self.taken.saturating_add(bytes.len());
        Ok(bytes.len())
    }
}
