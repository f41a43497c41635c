ghost use Rattle.std.specs.Prelude.{◌≡◌, ℕ, ◌<◌, ◌≤◌, List, length, take, Option, IfOk, OnOk, OnErr};
ghost use Rattle.std.specs.Io.KnownBytes.{append_known};
ghost use Rattle.tp_outside.specs.Faults.{HasRisen};
ghost use Rattle.tp_outside.specs.Streams.{TakesPrefix};

use crate::faults::Failed;

/// Takes bytes one after another.
pub trait Sink {
    // How many faults there were. At the greatest u64 it stays.
    ghost faults: { Self → ℕ };

    // The bytes taken so far, where the sink tells them.
    ghost contents: { Self → Option (List ℕ) };

    /// Takes the first bytes of `from` and gives their number, at least 1 unless `from` is empty. After
    /// `Failed` no byte was taken.
    fn write(&mut self, from: &[u8]) -> Result<usize, Failed>
        ensures bound { IfOk result (λ count. count ≤ length from.now) }
        ensures progress { IfOk result (λ count. 0 < length from.now → 0 < count) }
        ensures taken { IfOk result (λ count.
            contents self.new ≡ append_known (contents self.old) (take count from.now)) }
        ensures unchanged { OnErr result (contents self.new ≡ contents self.old) }
        ensures counted { faults self.old ≤ faults self.new }
        ensures failed { OnErr result (HasRisen (faults self.old) (faults self.new)) };
}

/// Writes all of the bytes. After `Failed` the sink has taken the first so many of them.
pub fn write_all<K: Sink>(sink: &mut K, bytes: &[u8]) -> Result<(), Failed>
    ensures taken { OnOk result (K.contents sink.new ≡ append_known (K.contents sink.old) bytes.now) }
    ensures prefix { TakesPrefix (K.contents sink.old) (K.contents sink.new) bytes.now }
    ensures counted { K.faults sink.old ≤ K.faults sink.new }
    ensures failed { OnErr result (HasRisen (K.faults sink.old) (K.faults sink.new)) }
{
    let mut at = 0;
    while at < bytes.len() {
        at += sink.write(&bytes[at..])?;
    }
    Ok(())
}
