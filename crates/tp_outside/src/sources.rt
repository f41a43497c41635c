ghost use Rattle.std.specs.Prelude.{◌≡◌, ℕ, ◌<◌, ◌≤◌, List, length, take, Option, IfOk, OnErr};
ghost use Rattle.std.specs.Io.KnownBytes.{prepend_known, IsAtEnd};
ghost use Rattle.tp_outside.specs.Faults.{HasRisen};

use crate::faults::Failed;

/// Gives bytes one after another, up to an end.
pub trait Source {
    // How many faults there were. At the greatest u64 it stays.
    ghost faults: { Self → ℕ };

    // The bytes that are still to come, where the source tells them.
    ghost remaining: { Self → Option (List ℕ) };

    /// Puts the next bytes at the front of `into` and gives their number, which is 0 only at the end of the
    /// bytes or where `into` is empty. After `Failed` no byte was given.
    fn read(&mut self, into: &mut [u8]) -> Result<usize, Failed>
        ensures bound { IfOk result (λ count. count ≤ length into.new) }
        ensures given { IfOk result (λ count.
            remaining self.old ≡ prepend_known (take count into.new) (remaining self.new)) }
        ensures ended { IfOk result (λ count.
            count ≡ 0 → 0 < length into.new → IsAtEnd (remaining self.new)) }
        ensures unchanged { OnErr result (remaining self.new ≡ remaining self.old) }
        ensures counted { faults self.old ≤ faults self.new }
        ensures failed { OnErr result (HasRisen (faults self.old) (faults self.new)) };
}
