//! Standard output as a sink.
ghost use Rattle.std.specs.Prelude.{◌≡◌, None};
ghost use Rattle.pj_outside.specs.Faults.{PutCause, counted_error};

use crate::answers::SinkFault;
use crate::sink::Sink;
use crate::streams::put_whole;
use std::io;

/// Standard output as a sink. It tells nothing of what it took.
#[derive(Drop)]
pub struct StdoutSink<'a, R> {
    rt: &'a R,
    faults: u64,
}

impl<'a, R: Print> StdoutSink<'a, R> {
    /// The standard output of this runtime. It takes no memory.
    pub fn new(rt: &'a R) -> StdoutSink<'a, R>
        ensures { result.faults ≡ 0 }
    {
        StdoutSink { rt, faults: 0 }
    }

    /// How many errors of the system were counted.
    pub fn faults(&self) -> u64
        ensures { result ≡ self.now.faults }
    {
        self.faults
    }
}

impl<'a, R: Print> Sink for StdoutSink<'a, R> {
    ghost written = { λ _. None };

    ghost faults = { λ s. s.faults };

    /// Puts a piece and flushes it. Each fault is counted, and nothing else.
    fn put(&mut self, bytes: &[u8]) -> Result<(), SinkFault>
        ensures cause { PutCause self.old.faults self.new.faults result }
        ensures counts { self.new.faults ≡ counted_error result self.old.faults }
    {
        match put_whole(&mut io::writer(self.rt), bytes) {
            Ok(()) => Ok(()),
            Err(SinkFault) => {
                self.faults = self.faults.saturating_add(1);
                Err(SinkFault)
            }
        }
    }
}
