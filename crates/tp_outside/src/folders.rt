ghost use Rattle.std.specs.Prelude.{◌≡◌, ℕ, ◌<◌, ◌≤◌, List, length, take, Option, Err, IfOk, OnOk, OnErr, IfSome};
ghost use Rattle.std.specs.Option.{option_map};
ghost use Rattle.tp_outside.specs.Faults.{HasRisen};
ghost use Rattle.tp_outside.specs.Folder.{Folder, with_known_file, bytes_of, IsPartAt};

use crate::faults::{Failed, WriteError};

/// A folder of files, each with a name and bytes.
pub trait Files {
    // How many faults there were. At the greatest u64 it stays.
    ghost faults: { Self → ℕ };

    // Which files there are and what they hold, where the object tells it.
    ghost folder: { Self → Option Folder };

    /// The size of a file in bytes, or None where there is no such file.
    fn size(&mut self, name: &str) -> Result<Option<u64>, Failed>
        ensures told { IfSome (folder self.old) (λ held.
            IfOk result (λ size. size ≡ option_map length (held name.now))) }
        ensures unchanged { folder self.new ≡ folder self.old }
        ensures counted { faults self.old ≤ faults self.new }
        ensures failed { OnErr result (HasRisen (faults self.old) (faults self.new)) };

    /// Puts bytes of a file, from the place `start` on, at the front of `into` and gives their number, which is
    /// 0 only past the end of the file or where `into` is empty. A file that isn't there has no bytes.
    fn read_at(&mut self, name: &str, start: u64, into: &mut [u8]) -> Result<usize, Failed>
        ensures bound { IfOk result (λ count. count ≤ length into.new) }
        ensures told { IfSome (folder self.old) (λ held.
            IfOk result (λ count. IsPartAt (bytes_of held name.now) start count into.new)) }
        ensures unchanged { folder self.new ≡ folder self.old }
        ensures counted { faults self.old ≤ faults self.new }
        ensures failed { OnErr result (HasRisen (faults self.old) (faults self.new)) };

    /// Makes the file hold just these bytes. After an error, where the content is told, no file is changed.
    fn write(&mut self, name: &str, bytes: &[u8]) -> Result<(), WriteError>
        ensures held { OnOk result (folder self.new ≡ with_known_file (folder self.old) name.now bytes.now) }
        ensures unchanged { OnErr result (folder self.new ≡ folder self.old) }
        ensures counted { faults self.old ≤ faults self.new }
        ensures failed { result ≡ Err WriteError.Failed → HasRisen (faults self.old) (faults self.new) };
}
