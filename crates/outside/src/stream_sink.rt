ghost use Rattle.std.specs.Prelude.{◌≡◌, OnOk, OnErr, is_err};
ghost use Rattle.std.specs.Io.KnownBytes.{Appends};
ghost use Rattle.outside.specs.Count.{counted};
ghost use Rattle.outside.specs.Sink.{AppendsPrefix};
ghost use Rattle.outside.specs.StreamSink.{SinkOver};

use crate::writing::write_whole;
use crate::{PutFailed, Sink};
use std::io::Write;
use std::marker::Model;

/// A writer, as standard output, as a sink. It tells what the writer tells of its bytes.
#[derive(Drop)]
pub struct StreamSink<W> {
    output: W,
    faults: u64,
}

impl<W> Model for StreamSink<W> {
    ghost use Rattle.outside.specs.StreamSink.{SinkOver};

    ghost Value = { SinkOver W };

    ghost view = { λ s. record { output = s.output; faults = s.faults } };
}

impl<W: Write> StreamSink<W> {
    /// A sink that has met no fault.
    pub fn new(output: W) -> StreamSink<W>
        ensures { result ≡ record { output = output; faults = 0 } }
    {
        StreamSink { output, faults: 0 }
    }
}

impl<W: Write> Sink for StreamSink<W> {
    ghost written = { λ s. W.contents s.output };

    ghost faults = { λ s. s.faults };

    fn put(&mut self, bytes: &[u8]) -> Result<(), PutFailed> {
        let put = write_whole(&mut self.output, bytes);
        if put.is_err() {
            self.faults = self.faults.saturating_add(1);
        }
        put
    }
}
