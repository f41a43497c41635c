ghost use Rattle.std.specs.Prelude.{◌≡◌, ◌≤◌, None, length, IfOk, OnOk, OnErr};
ghost use Rattle.std.specs.Io.KnownBytes.{ReadConsumes};
ghost use Rattle.tp_outside.specs.Calls.{one_more};
ghost use Rattle.tp_outside.specs.Faults.{HasRisen};

use crate::faults::Failed;
use crate::sources::Source;
use std::io::Read;

/// Bytes from a reader, as standard input. It tells no bytes, and counts each error of the reader.
#[derive(Debug, Drop)]
pub struct RealSource<R> {
    reader: R,
    faults: u64,
}

impl<R: Read> RealSource<R> {
    /// No fault was met yet.
    pub fn new(reader: R) -> RealSource<R>
        ensures reader { result.reader ≡ reader }
        ensures faults { result.faults ≡ 0 }
    {
        RealSource { reader, faults: 0 }
    }
}

impl<R: Read> Source for RealSource<R> {
    ghost faults = { λ source. source.faults };

    ghost remaining = { λ _. None };

    fn read(&mut self, into: &mut [u8]) -> Result<usize, Failed>
        ensures reader { ReadConsumes (R.remaining self.old.reader) (R.remaining self.new.reader) result into.new }
        ensures quiet { OnOk result (self.new.faults ≡ self.old.faults) }
        ensures loud { OnErr result (self.new.faults ≡ one_more self.old.faults) }

        // As of any source; that of its own bytes it tells none needs no clause.
        ensures bound { IfOk result (λ count. count ≤ length into.new) }
        ensures counted { self.old.faults ≤ self.new.faults }
        ensures failed { OnErr result (HasRisen self.old.faults self.new.faults) }
    {
        match self.reader.read(into) {
            Ok(count) => Ok(count),
            Err(_) => {
                self.faults = self.faults.saturating_add(1);
                Err(Failed)
            }
        }
    }
}
