//! Reading parts of the overlay file.

ghost use Rattle.std.specs.Prelude.{◌≡◌, ◌+◌, ◌^◌, ◌<◌, ◌≤◌, length, IfSome, OnOk, Err};
ghost use Rattle.tp_outside.specs.Faults.{HasRisen};
ghost use Rattle.tp_outside.specs.Folder.{bytes_of};
ghost use Rattle.overlay_manager.specs.Code.{part_of};

use tp_outside::{Failed, Files};

/// Why bytes of the overlay file were not read.
#[derive(Clone, Copy, Debug, PartialEq, Eq)]
pub enum LoadStop {
    /// The file gave no byte before they were read.
    Short,
    /// A read failed, and the files' count of faults rose.
    Failed,
}

impl From<Failed> for LoadStop {
    ghost use Rattle.overlay_manager.specs.declared.filling.LoadStop.{LoadStop};

    ghost from_gives = { λ _ stop. stop ≡ LoadStop.Failed };

    fn from(_failed: Failed) -> LoadStop {
        LoadStop::Failed
    }
}

/// Fills `into` with the bytes of a file from a place on, in as many reads as it takes.
pub fn fill<F: Files>(
    files: &mut F,
    name: &str,
    place: u64,
    into: &mut [u8],
) -> Result<(), LoadStop>
    requires place { place < 2 ^ 63 }
    requires few { length into.old < 2 ^ 32 }
    ensures told { IfSome (F.folder files.old) (λ held.
        OnOk result (into.new ≡ part_of (bytes_of held name.now) place (length into.old))) }
    ensures short { IfSome (F.folder files.old) (λ held.
        result ≡ Err LoadStop.Short → length (bytes_of held name.now) < place + length into.old) }
    ensures unchanged { F.folder files.new ≡ F.folder files.old }
    ensures counted { F.faults files.old ≤ F.faults files.new }
    ensures failed { result ≡ Err LoadStop.Failed → HasRisen (F.faults files.old) (F.faults files.new) }
{
    let mut done = 0;
    while done < into.len() {
        let count = files.read_at(name, place + done as u64, &mut into[done..])?;
        if count == 0 {
            return Err(LoadStop::Short);
        }
        done += count;
    }
    Ok(())
}
