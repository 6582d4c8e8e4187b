ghost use Rattle.std.specs.Prelude.{◌≡◌, [], ◌++◌, Some, OnOk, OnErr, IfOk, IsErr, is_err, IsTrue, ◌↔◌};
ghost use Rattle.outside.specs.Count.{counted};
ghost use Rattle.outside.specs.Sink.{AppendsPrefix};
ghost use Rattle.outside.specs.MemorySink.{passes, after_put};

use crate::{PutFailed, Sink};
use std::alloc::{AllocError, Global};
use std::marker::Model;

/// A sink in memory, of a room that is taken when it is made.
#[derive(Drop)]
pub struct MemorySink {
    bytes: Vec<u8>,
    room: usize,
    faults: u64,
}

impl Model for MemorySink {
    ghost use Rattle.std.specs.Prelude.{length, vec_capacity, ◌≤◌};
    ghost use Rattle.outside.specs.MemorySink.{SinkState};

    ghost Value = { SinkState };

    ghost view = { λ s. record { written = s.bytes.items; room = s.room; faults = s.faults } };

    ghost invariant = { λ s. (length s.bytes.items ≤ s.room) × (s.room ≤ vec_capacity s.bytes) };
}

impl MemorySink {
    /// An empty sink for that many bytes.
    pub fn create(alloc: Global, room: u32) -> Result<MemorySink, AllocError>
        ensures { IfOk result (λ sink. sink ≡ record { written = []; room = room; faults = 0 }) }
    {
        let room = room as usize;
        Ok(MemorySink {
            bytes: Vec::with_capacity(alloc, room)?,
            room,
            faults: 0,
        })
    }

    /// All that was written.
    pub fn bytes(&self) -> &[u8]
        ensures { result.now ≡ self.now.written }
    {
        &self.bytes
    }
}

impl Sink for MemorySink {
    ghost written = { λ s. Some s.written };

    ghost faults = { λ s. s.faults };

    fn put(&mut self, bytes: &[u8]) -> Result<(), PutFailed>
        ensures ok { OnOk result (self.new.written ≡ self.old.written ++ bytes.now) }
        ensures err { OnErr result (AppendsPrefix (Some self.old.written) (Some self.new.written) bytes.now) }
        ensures fault { self.new.faults ≡ counted (is_err result) self.old.faults }

        // It fails exactly where the bytes pass the room.
        ensures after { self.new ≡ after_put self.old bytes.now }
        ensures failed { IsErr result ↔ IsTrue (passes self.old bytes.now) }
    {
        let left = self.room - self.bytes.len();
        let fitting = bytes.len().min(left);
        let _ = self.bytes.extend_from_slice(&bytes[..fitting]);
        if fitting < bytes.len() {
            self.faults = self.faults.saturating_add(1);
            return Err(PutFailed);
        }
        Ok(())
    }
}
