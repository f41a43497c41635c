//! An example of two overlays that take turns in a buffer that holds one of them.
#![tactic(auto)]

ghost use Rattle.std.specs.Prelude.{◌≡◌, ℕ, List, [], length};
ghost use Rattle.mz_file.specs.Load.{loaded, FitsWithBuffer};
ghost use Rattle.dos_runner.specs.opened_program.Matching.{largest, BelongTogether};
ghost use Rattle.dos_runner.specs.opened_program.Opening.{start_manager};
ghost use Rattle.overlay_ring.specs.Table.{Table};
ghost use Rattle.resident_machine.specs.Run.{RunsFramed};
ghost use Rattle.resident_machine.specs.State.{ResidentState, Ended};
ghost use Rattle.overlay_simulation.specs.Matching.{Matches};
ghost use Rattle.overlay_services.specs.Seated.{ComesBySome};
ghost use Rattle.overlay_correctness.specs.Beside.{RunsBeside};
ghost use Rattle.overlay_correctness.specs.Held.{IsHeldBy, start_of, begun};
ghost use Rattle.overlay_example.specs.Turns.{turns_image, turns_exe, turns_bytes, turns_entries, turns, turns_kept, turns_moves};
ghost use Rattle.tabled_runs.specs.Tables.{On};

/// What the overlay law asks for can be met: files hold the program, belong together and fit, in a buffer of the larger overlay's size. Its run
/// of 26 steps is framed and comes to its end, through returns into an overlay that went out and came back, and through a clear with a
/// return pending. So the files follow it, wherever tables put the overlays, and there are tables by which they come to its end.
pub fn turns_law()
    ensures held { IsHeldBy turns turns_kept turns_exe turns_entries turns_bytes }
    ensures together { BelongTogether turns_image turns_exe.block.stubs turns_entries × (largest turns_entries ≡ 2) × FitsWithBuffer turns_exe 2 }
    ensures runs { (length turns_moves ≡ 26) × ((t : ResidentState) × RunsFramed turns (length turns_moves) (start_of turns_kept turns_exe []) t × (t.status ≡ Ended 0) × (t.records ≡ [])) }
    ensures matches { Matches turns (start_of turns_kept turns_exe []) (begun (loaded turns_exe) (start_manager turns_exe [] turns_entries 2) []) }
    ensures some { (t : ResidentState) → RunsFramed turns (length turns_moves) (start_of turns_kept turns_exe []) t → ComesBySome turns turns_kept turns_bytes t (begun (loaded turns_exe) (start_manager turns_exe [] turns_entries 2) []) 78 }
    ensures follows { (t : ResidentState) → RunsFramed turns (length turns_moves) (start_of turns_kept turns_exe []) t → (tables : List Table) → RunsBeside turns turns_kept turns_bytes (length turns_moves) t (On (begun (loaded turns_exe) (start_manager turns_exe [] turns_entries 2) []) tables) }
{}
