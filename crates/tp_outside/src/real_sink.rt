ghost use Rattle.std.specs.Prelude.{◌≡◌, ◌<◌, ◌≤◌, None, length, IfOk, OnOk, OnErr};
ghost use Rattle.std.specs.Io.KnownBytes.{WriteAppends};
ghost use Rattle.tp_outside.specs.Calls.{one_more};
ghost use Rattle.tp_outside.specs.Faults.{HasRisen};

use crate::faults::Failed;
use crate::sinks::Sink;
use std::io::Write;

/// Bytes for a writer without a buffer, as standard output. It tells no bytes, and counts each error of the
/// writer, and each time that the writer takes nothing.
#[derive(Debug, Drop)]
pub struct RealSink<W> {
    writer: W,
    faults: u64,
}

impl<W: Write> RealSink<W> {
    /// No fault was met yet.
    pub fn new(writer: W) -> RealSink<W>
        ensures writer { result.writer ≡ writer }
        ensures faults { result.faults ≡ 0 }
    {
        RealSink { writer, faults: 0 }
    }
}

impl<W: Write> Sink for RealSink<W> {
    ghost faults = { λ sink. sink.faults };

    ghost contents = { λ _. None };

    fn write(&mut self, from: &[u8]) -> Result<usize, Failed>
        ensures writer { WriteAppends (W.contents self.old.writer) (W.contents self.new.writer) result from.now }
        ensures quiet { OnOk result (self.new.faults ≡ self.old.faults) }
        ensures loud { OnErr result (self.new.faults ≡ one_more self.old.faults) }

        // As of any sink; that of its own bytes it tells none needs no clause.
        ensures bound { IfOk result (λ count. count ≤ length from.now) }
        ensures progress { IfOk result (λ count. 0 < length from.now → 0 < count) }
        ensures counted { self.old.faults ≤ self.new.faults }
        ensures failed { OnErr result (HasRisen self.old.faults self.new.faults) }
    {
        match self.writer.write(from) {
            Ok(count) if count > 0 || from.is_empty() => Ok(count),
            _ => {
                self.faults = self.faults.saturating_add(1);
                Err(Failed)
            }
        }
    }
}
