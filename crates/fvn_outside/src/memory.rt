//! A source and a sink in memory, with calls that are to fail.
ghost use Rattle.std.specs.Prelude.{◌≡◌, ◌<◌, ◌≤◌, ◌↔◌, [], ◌++◌, Some, drop, length, min, take, IfOk, IsErr, IsOkUnless, OnErr, vec_capacity};
ghost use Rattle.std.specs.Io.KnownBytes.{IsAtEnd};
ghost use Rattle.fvn_outside.specs.Faults.{Rose};
ghost use Rattle.fvn_outside.specs.Calls.{NextFails, after_call, after_fault, no_calls};
ghost use Rattle.fvn_outside.specs.Memory.{MemorySource, MemorySink, calls_after_write, free_room};
ghost use Rattle.fvn_outside.specs.Sink.{Appends};
ghost use Rattle.fvn_outside.specs.Source.{Takes};

use crate::calls::Calls;
use crate::failures::{ReadAll, ReadFailed, WriteFailed};
use crate::reading::Source;
use crate::writing::Sink;
use std::alloc::Global;
use std::marker::Model;

/// Copies as many bytes as both have, and returns how many.
pub(crate) fn copy_front(from: &[u8], to: &mut [u8]) -> usize
    ensures count { result ≡ min (length from.now) (length to.old) }
    ensures copied { take result to.new ≡ take result from.now }
{
    let n = from.len().min(to.len());
    to[..n].copy_from_slice(&from[..n]);
    n
}

/// A source of bytes in memory, of which some calls are to fail. Contracts see it as a
/// `MemorySource`.
#[derive(Drop)]
pub struct MemSource {
    bytes: Vec<u8>,
    taken: usize,
    piece: usize,
    calls: Calls,
}

impl Model for MemSource {
    ghost Value = { MemorySource };

    ghost view = { λ s. record {
      left = drop s.taken s.bytes.items;
      piece = s.piece;
      calls = s.calls;
    } };

    ghost invariant = { λ s. (s.taken ≤ length s.bytes.items) × (0 < s.piece) };
}

impl MemSource {
    /// The source of these bytes. One call gives `piece` bytes at most; `failing` has the numbers,
    /// from 1, of the calls that fail.
    pub fn new(bytes: Vec<u8>, piece: usize, failing: Vec<u64>) -> MemSource
        requires { 0 < piece }
        ensures { result ≡ record {
          left = bytes.items;
          piece = piece;
          calls = no_calls failing.items;
        } }
    {
        MemSource {
            bytes,
            taken: 0,
            piece,
            calls: Calls::new(failing),
        }
    }
}

impl Source for MemSource {
    ghost left = { λ s. Some s.left };

    ghost faults = { λ s. s.calls.faults };

    fn read(&mut self, buffer: &mut [u8]) -> Result<usize, ReadFailed>
        ensures bound { IfOk result (λ n. n ≤ length buffer.new) }
        ensures ok { IfOk result
            (λ n. Takes (Some self.old.left) (Some self.new.left) (take n buffer.new)) }
        ensures end { IfOk result
            (λ n. n ≡ 0 → 0 < length buffer.new → IsAtEnd (Some self.old.left)) }
        ensures never_falls { self.old.calls.faults ≤ self.new.calls.faults }

        // Exactly the listed calls fail; the others give as many bytes as they can.
        ensures fails { IsErr result ↔ NextFails self.old.calls }
        ensures err { OnErr result
            (self.new ≡ record self.old { calls = after_fault (after_call self.old.calls) }) }
        ensures count { IfOk result
            (λ n. n ≡ min (min (length self.old.left) self.old.piece) (length buffer.old)) }
        ensures after { IfOk result (λ n. self.new ≡ record self.old {
          left = drop n self.old.left;
          calls = after_call self.old.calls;
        }) }
    {
        if self.calls.next_fails() {
            return Err(ReadFailed);
        }
        let left = &self.bytes[self.taken..];
        let n = copy_front(&left[..left.len().min(self.piece)], buffer);
        self.taken += n;
        Ok(n)
    }
}

/// A sink with room for so many bytes in memory, of which some calls are to fail. Contracts see it
/// as a `MemorySink`.
#[derive(Drop)]
pub struct MemSink {
    bytes: Vec<u8>,
    room: usize,
    piece: usize,
    calls: Calls,
}

impl Model for MemSink {
    ghost Value = { MemorySink };

    ghost view = { λ s. record {
      written = s.bytes.items;
      room = s.room;
      piece = s.piece;
      calls = s.calls;
    } };

    ghost invariant = { λ s.
        (length s.bytes.items ≤ s.room) × (s.room ≤ vec_capacity s.bytes) × (0 < s.piece) };
}

impl MemSink {
    /// A sink for `room` bytes in all. One call takes `piece` bytes at most; `failing` has the
    /// numbers, from 1, of the calls that fail. The memory is taken here, and no call takes more.
    pub fn new(
        alloc: Global,
        room: usize,
        piece: usize,
        failing: Vec<u64>,
    ) -> Result<MemSink, ReadAll>
        requires { 0 < piece }
        ensures ok { IfOk result (λ sink. sink ≡ record {
          written = [];
          room = room;
          piece = piece;
          calls = no_calls failing.items;
        }) }
        ensures memory { IsOkUnless result ReadAll.NoMemory }
    {
        let bytes = Vec::with_capacity(alloc, room)?;
        Ok(MemSink {
            bytes,
            room,
            piece,
            calls: Calls::new(failing),
        })
    }

    /// The bytes that were written.
    pub fn written(&self) -> &[u8]
        ensures { result.now ≡ self.now.written }
    {
        self.bytes.as_slice()
    }
}

impl Sink for MemSink {
    ghost written = { λ s. Some s.written };

    ghost faults = { λ s. s.calls.faults };

    fn write(&mut self, bytes: &[u8]) -> Result<usize, WriteFailed>
        ensures bound { IfOk result (λ n. n ≤ length bytes.now) }
        ensures ok { IfOk result
            (λ n. Appends (Some self.old.written) (Some self.new.written) (take n bytes.now)) }
        ensures stuck { IfOk result
            (λ n. n ≡ 0 → 0 < length bytes.now → Rose self.old.calls.faults self.new.calls.faults) }
        ensures uncounted { IfOk result
            (λ n. 0 < n → self.new.calls.faults ≡ self.old.calls.faults) }
        ensures never_falls { self.old.calls.faults ≤ self.new.calls.faults }

        // Exactly the listed calls fail; the others take as many bytes as they can. At a full sink
        // that is none, and a fault.
        ensures fails { IsErr result ↔ NextFails self.old.calls }
        ensures err { OnErr result
            (self.new ≡ record self.old { calls = after_fault (after_call self.old.calls) }) }
        ensures count { IfOk result
            (λ n. n ≡ min (min (length bytes.now) self.old.piece) (free_room self.old)) }
        ensures after { IfOk result (λ n. self.new ≡ record self.old {
          written = self.old.written ++ take n bytes.now;
          calls = calls_after_write self.old;
        }) }
    {
        if self.calls.next_fails() {
            return Err(WriteFailed);
        }
        let free = self.room - self.bytes.len();
        if free == 0 {
            self.calls.fault();
        }
        let n = bytes.len().min(self.piece).min(free);
        self.bytes.extend_from_slice(&bytes[..n]).unwrap();
        Ok(n)
    }
}
