//! What holds of every program.

ghost use Rattle.std.specs.Prelude.{◌≡◌, ℕ, List, Option};
ghost use Rattle.cpu_8086.specs.State.{State};
ghost use Rattle.overlay_manager.specs.Manager.{Manager};
ghost use Rattle.dos_runner.specs.declared.opened_program.error.OpenError.{OpenError};
ghost use Rattle.dos_runner.specs.opened_program.Opening.{IsOpened, IsRefused, HasReason};

/// A program that is not opened has one reason in its files, and one that is opened has none.
pub fn one_reason()
    ensures one { (bytes name : List ℕ) (held : Option (List ℕ)) (buffer : Option ℕ) (error other : OpenError) → HasReason error → HasReason other
        → IsRefused bytes name held buffer error → IsRefused bytes name held buffer other → error ≡ other }
    ensures none { (bytes name : List ℕ) (held : Option (List ℕ)) (buffer : Option ℕ) (machine : State) (manager : Manager) (error : OpenError)
        → IsOpened bytes name held buffer machine manager → HasReason error → IsRefused bytes name held buffer error → ⊥ }
{}
