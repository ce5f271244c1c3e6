//! A source and a sink in memory, which move bytes in pieces and fail at chosen calls.

ghost use Rattle.std.specs.Prelude.{◌≡◌, ◌<◌, ◌≤◌, ◌↔◌, ◌++◌, [], IfOk, OnErr, IsErr, IsTrue, length, take, drop};
ghost use Rattle.std.specs.Io.KnownBytes.{Appends, Consumes, Keeps};
ghost use Rattle.outside.specs.Bytes.{IsZeroAtEnd};
ghost use Rattle.outside.specs.Counts.{NeverFalls, Rose};
ghost use Rattle.outside.specs.Memory.{FailsNext, RefusesNext, after_failed_read, after_failed_write, after_read, after_write, given_count, taken_count};

use crate::counts::{is_among, next_count};
use crate::traits::{Failed, Sink, Source};
use std::alloc::Global;
use std::marker::Model;
use values::NoMemory;

/// A source over bytes in memory.
#[derive(Drop)]
pub struct MemorySource {
    bytes: Vec<u8>,
    position: usize,
    piece: usize,
    fails: Vec<u32>,
    calls: u64,
    faults: u64,
}

impl Model for MemorySource {
    ghost use Rattle.std.specs.Prelude.{◌<◌, ◌≤◌, drop, vec_len};
    ghost use Rattle.outside.specs.Memory.{Supply};

    ghost Value = { Supply };

    ghost view = { λ s. record {
      held = drop s.position s.bytes.items;
      piece = s.piece;
      fails = s.fails.items;
      calls = s.calls;
      faults = s.faults;
    } };

    ghost invariant = { λ s. (s.position ≤ vec_len s.bytes) × (0 < s.piece) };
}

impl MemorySource {
    /// Gives the bytes in pieces of at most `piece` bytes. The calls whose numbers, counted from 1,
    /// are among `fails` fail and move nothing.
    pub fn new(bytes: Vec<u8>, piece: usize, fails: Vec<u32>) -> MemorySource
        requires { 0 < piece }
        ensures { result ≡ record { held = bytes.items; piece = piece; fails = fails.items; calls = 0; faults = 0 } }
    {
        MemorySource {
            bytes,
            position: 0,
            piece,
            fails,
            calls: 0,
            faults: 0,
        }
    }
}

impl Source for MemorySource {
    ghost use Rattle.std.specs.Prelude.{Some};

    ghost faults = { λ s. s.faults };

    ghost held = { λ s. Some s.held };

    fn read(&mut self, into: &mut [u8]) -> Result<usize, Failed>
        requires { 0 < length into.old }

        ensures moved { IfOk result (λ n. Consumes (Some self.old.held) (Some self.new.held) (take n into.new)) }
        ensures end { IfOk result (IsZeroAtEnd (Some self.old.held)) }
        ensures counted { NeverFalls self.old.faults self.new.faults }

        // What this source further promises.
        ensures fails_as_told { IsErr result ↔ FailsNext self.old }
        ensures count { IfOk result (λ n. n ≡ given_count self.old (length into.old)) }
        ensures given { IfOk result (λ n. into.new ≡ take n self.old.held ++ drop n into.old) }
        ensures after_ok { IfOk result (λ n. self.new ≡ after_read self.old n) }
        ensures after_err { OnErr result (self.new ≡ after_failed_read self.old) }
        ensures err_into { OnErr result (into.new ≡ into.old) }
    {
        self.calls = next_count(self.calls);
        if is_among(self.calls, &self.fails) {
            self.faults = next_count(self.faults);
            return Err(Failed);
        }
        let rest = &self.bytes[self.position..];
        let count = self.piece.min(into.len()).min(rest.len());
        into[..count].copy_from_slice(&rest[..count]);
        self.position += count;
        Ok(count)
    }
}

/// A sink that keeps the bytes in memory.
#[derive(Drop)]
pub struct MemorySink {
    taken: Vec<u8>,
    room: usize,
    piece: usize,
    fails: Vec<u32>,
    calls: u64,
    faults: u64,
}

impl Model for MemorySink {
    ghost use Rattle.std.specs.Prelude.{◌<◌, ◌≤◌, vec_capacity, vec_len};
    ghost use Rattle.outside.specs.Memory.{Intake};

    ghost Value = { Intake };

    ghost view = { λ s. record {
      taken = s.taken.items;
      room = s.room;
      piece = s.piece;
      fails = s.fails.items;
      calls = s.calls;
      faults = s.faults;
    } };

    ghost invariant = { λ s. (vec_len s.taken ≤ s.room) × (s.room ≤ vec_capacity s.taken) × (0 < s.piece) };
}

impl MemorySink {
    /// Takes memory for `room` bytes, and then bytes in pieces of at most `piece` bytes. The calls
    /// whose numbers, counted from 1, are among `fails` fail and take nothing, and so does each
    /// call where `room` bytes are held.
    pub fn new(
        alloc: Global,
        room: usize,
        piece: usize,
        fails: Vec<u32>,
    ) -> Result<MemorySink, NoMemory>
        requires { 0 < piece }
        ensures { IfOk result (λ sink. sink ≡ record {
          taken = [];
          room = room;
          piece = piece;
          fails = fails.items;
          calls = 0;
          faults = 0;
        }) }
    {
        let taken = Vec::with_capacity(alloc, room)?;
        Ok(MemorySink {
            taken,
            room,
            piece,
            fails,
            calls: 0,
            faults: 0,
        })
    }

    /// The bytes taken so far.
    pub fn bytes(&self) -> &[u8]
        ensures { result.now ≡ self.now.taken }
    {
        self.taken.as_slice()
    }

    fn refuses_next(&self) -> bool
        ensures { IsTrue result ↔ RefusesNext self.now }
    {
        self.room <= self.taken.len() || is_among(next_count(self.calls), &self.fails)
    }
}

impl Sink for MemorySink {
    ghost use Rattle.std.specs.Prelude.{Some};

    ghost faults = { λ s. s.faults };

    ghost taken = { λ s. Some s.taken };

    fn write(&mut self, from: &[u8]) -> Result<usize, Failed>
        requires { 0 < length from.now }

        ensures some { IfOk result (λ n. 0 < n) }
        ensures counted { NeverFalls self.old.faults self.new.faults }

        // What this sink further promises.
        ensures fails_as_told { IsErr result ↔ RefusesNext self.old }
        ensures count { IfOk result (λ n. n ≡ taken_count self.old (length from.now)) }
        ensures after_ok { IfOk result (λ n. self.new ≡ after_write self.old (take n from.now)) }
        ensures after_err { OnErr result (self.new ≡ after_failed_write self.old) }
    {
        let is_refused = self.refuses_next();
        self.calls = next_count(self.calls);
        if is_refused {
            self.faults = next_count(self.faults);
            return Err(Failed);
        }
        let left = self.room - self.taken.len();
        let count = self.piece.min(from.len()).min(left);
        // The memory was taken when the sink was made.
        let _ = self.taken.extend_from_slice(&from[..count]);
        Ok(count)
    }
}
