//! A sink in memory, of which chosen calls fail.
ghost use Rattle.std.specs.Prelude.{◌≡◌, ◌<◌, ◌≤◌, [], Some, IfOk, is_err, vec_len, vec_capacity};
ghost use Rattle.spiel_io.specs.Steps.{Takes};

use crate::numbers::is_listed;
use crate::outside::{Failed, Sink};
use spiel_frac::{List, NoMemory};
use std::alloc::Global;

/// A sink in memory. It tells its bytes, takes at most `most` bytes of a piece and `room` bytes in
/// all, and its calls with given numbers fail.
///
/// Its calls are numbered from 0. A call fails besides where the piece isn't empty and the room is
/// used up. No call takes memory.
#[derive(Drop)]
pub struct MemSink {
    taken: Vec<u8>,
    most: usize,
    room: usize,
    failing: List<u32>,
    calls: u64,
    faults: u64,
    ghost some: { 0 < most },
    ghost reserved: { room ≤ vec_capacity taken },
    ghost within: { vec_len taken ≤ room },
}

impl MemSink {
    ghost use Rattle.spiel_io.specs.MemSink.{IsScript, refuses, sink_state};

    /// An empty sink of this script, with all the memory that it will ever need.
    pub fn new(
        alloc: Global,
        most: usize,
        room: usize,
        failing: List<u32>,
    ) -> Result<MemSink, NoMemory>
        requires { 0 < most }
        ensures taken { IfOk result (λ sink. (sink_state sink).taken ≡ Some []) }
        ensures faults { IfOk result (λ sink. (sink_state sink).faults ≡ 0) }
        ensures script { IfOk result (IsScript most room failing) }
    {
        let taken = Vec::with_capacity(alloc, room)?;
        Ok(MemSink {
            taken,
            most,
            room,
            failing,
            calls: 0,
            faults: 0,
        })
    }

    /// Whether the next call fails.
    fn is_refused(&self, piece: &[u8]) -> bool
        ensures { result ≡ refuses self.now piece.now }
    {
        let is_full = self.room - self.taken.len() == 0;
        is_listed(self.failing.items(), self.calls) || (is_full && !piece.is_empty())
    }

    /// The bytes that it has taken.
    pub fn taken(&self) -> &[u8]
        ensures { (sink_state self.now).taken ≡ Some result.now }
    {
        self.taken.as_slice()
    }

    /// How often a call has failed.
    pub fn faults(&self) -> u64
        ensures { result ≡ (sink_state self.now).faults }
    {
        self.faults
    }
}

impl Sink for MemSink {
    ghost use Rattle.spiel_io.specs.MemSink.{CountsPut, amount, refuses, sink_state};

    ghost state = { sink_state };

    fn put(&mut self, piece: &[u8]) -> Result<usize, Failed>
        ensures takes { Takes piece.now (sink_state self.old) (sink_state self.new) result }
        ensures counts { CountsPut self.old self.new }

        // It fails exactly at the calls in `failing`, and where no room is left for a piece that isn't empty.
        ensures fails { is_err result ≡ refuses self.old piece.now }
        ensures takes_all { IfOk result (λ n. n ≡ amount self.old piece.now) }
    {
        let refused = self.is_refused(piece);
        self.calls = self.calls.saturating_add(1);
        if refused {
            self.faults = self.faults.saturating_add(1);
            return Err(Failed);
        }
        let left = self.room - self.taken.len();
        let count = piece.len().min(self.most.min(left));
        self.taken.extend_from_slice(&piece[..count]).unwrap();
        Ok(count)
    }
}
