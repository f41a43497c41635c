//! The repair of live returns.

ghost use Rattle.std.specs.Prelude.{◌≡◌, ℕ, ◌+◌, ◌<◌, ◌≤◌, IsTrue, IsOk, OnOk, OnErr, IfOk, IfErr};
ghost use Rattle.frame_links.specs.Links.{place_if, pair_places};
ghost use Rattle.return_repair.specs.Chain.{chain_of, links_of, are_spaced, pending_places, live_places};
ghost use Rattle.return_repair.specs.Pairs.{HaveSameStubs};
ghost use Rattle.return_repair.specs.Repair.{work, repaired_places, repaired_memory, repaired_count, with_saved};
ghost use Rattle.return_repair.specs.Follows.{IsOrderlyState, Follow, OnlyPairsDiffer};
ghost use Rattle.return_repair.specs.Topmosts.{by_stub};

use crate::chain::{are_clear, check_chain, is_far, next_link};
use crate::pairs::repair_place;
use crate::table::{BadChain, Loaded};
use crate::topmost::Topmost;
use cpu_8086::{Machine, Reg};

/// Saves the topmost offsets in the stubs of overlays that are out.
fn save_topmost(machine: &mut Machine, table: &[Loaded], topmost: &Topmost)
    ensures { machine.new ≡ record machine.old { memory = with_saved (by_stub topmost.now.offsets) table.now machine.old.memory } }
{
    for overlay in table {
        if overlay.load == 0 {
            if let Some(offset) = topmost.of(overlay.stub) {
                machine.store_word(overlay.stub, 2, offset);
            }
        }
    }
}

/// Repairs the pair at a place, where there is one, and gives how many changed.
fn repair_if(
    machine: &mut Machine,
    there: bool,
    place: u16,
    old: &[Loaded],
    new: &[Loaded],
    topmost: &mut Topmost,
) -> u32
    requires { HaveSameStubs old.now new.now }
    ensures memory { machine.new ≡ record machine.old {
      memory =
          (repaired_places machine.old.registers.ss old.now new.now (work machine.old.memory (by_stub topmost.old.offsets))
          (place_if there place)).memory;
    } }
    ensures topmost { (stub : ℕ) → by_stub topmost.new.offsets stub
        ≡ (repaired_places machine.old.registers.ss old.now new.now (work machine.old.memory (by_stub topmost.old.offsets))
        (place_if there place)).topmost stub }
    ensures changed { result
        ≡ (repaired_places machine.old.registers.ss old.now new.now (work machine.old.memory (by_stub topmost.old.offsets))
        (place_if there place)).changed }
    ensures few { result ≤ 1 }
{
    if !there {
        return 0;
    }
    repair_place(machine, place, old, new, topmost)
}

/// Repairs the pending pair, and gives how many changed.
fn repair_pending(
    machine: &mut Machine,
    pending: bool,
    old: &[Loaded],
    new: &[Loaded],
    topmost: &mut Topmost,
) -> u32
    requires { HaveSameStubs old.now new.now }
    ensures memory { machine.new ≡ record machine.old {
      memory =
          (repaired_places machine.old.registers.ss old.now new.now (work machine.old.memory (by_stub topmost.old.offsets))
          (pending_places machine.old.registers pending)).memory;
    } }
    ensures topmost { (stub : ℕ) → by_stub topmost.new.offsets stub
        ≡ (repaired_places machine.old.registers.ss old.now new.now (work machine.old.memory (by_stub topmost.old.offsets))
        (pending_places machine.old.registers pending)).topmost stub }
    ensures changed { result
        ≡ (repaired_places machine.old.registers.ss old.now new.now (work machine.old.memory (by_stub topmost.old.offsets))
        (pending_places machine.old.registers pending)).changed }
    ensures few { result ≤ 1 }
{
    let top = machine.reg(Reg::Sp);
    repair_if(machine, pending, top, old, new, topmost)
}

/// Repairs the pairs above the links, and gives how many changed.
fn repair_links(
    machine: &mut Machine,
    marked: bool,
    old: &[Loaded],
    new: &[Loaded],
    topmost: &mut Topmost,
) -> u32
    requires stubs { HaveSameStubs old.now new.now }
    requires sound { IsOk (chain_of marked machine.old) }
    requires spaced { IsTrue (are_spaced (links_of (chain_of marked machine.old))) }
    ensures memory { machine.new ≡ record machine.old {
      memory =
          (repaired_places machine.old.registers.ss old.now new.now (work machine.old.memory (by_stub topmost.old.offsets))
          (pair_places (links_of (chain_of marked machine.old)))).memory;
    } }
    ensures topmost { (stub : ℕ) → by_stub topmost.new.offsets stub
        ≡ (repaired_places machine.old.registers.ss old.now new.now (work machine.old.memory (by_stub topmost.old.offsets))
        (pair_places (links_of (chain_of marked machine.old)))).topmost stub }
    ensures changed { result
        ≡ (repaired_places machine.old.registers.ss old.now new.now (work machine.old.memory (by_stub topmost.old.offsets))
        (pair_places (links_of (chain_of marked machine.old)))).changed }
    ensures few { result < 65536 }
{
    let mut link = machine.reg(Reg::Bp);
    let mut changed = 0;
    while link != 0 {
        let next = next_link(machine, marked, link);
        let far = is_far(machine, marked, link);
        changed += repair_if(machine, far, link.wrapping_add(2), old, new, topmost);
        link = next;
    }
    changed
}

/// Makes the live returns of one table those of another, and gives how many changed. A return denotes an overlay by its
/// segment, that of its code or of its stub, and stub:0 denotes the offset saved in the stub. Where frames are marked the
/// returns of near routines are none of them; where they aren't, every frame is taken for a far routine's.
pub fn repair(
    machine: &mut Machine,
    pending: bool,
    marked: bool,
    old: &[Loaded],
    new: &[Loaded],
) -> Result<u32, BadChain>
    requires { HaveSameStubs old.now new.now }
    ensures memory { OnOk result (machine.new
        ≡ record machine.old { memory = repaired_memory machine.old pending old.now new.now (links_of (chain_of marked machine.old)) }) }
    ensures changed { IfOk result (λ changed. changed
        ≡ repaired_count machine.old pending old.now new.now (links_of (chain_of marked machine.old))) }
    ensures sound { OnOk result (IsOk (chain_of marked machine.old)) }
    ensures bad_chain { IfErr result (λ bad. chain_of marked machine.old ≡ Err bad.bp) }
    ensures unchanged { OnErr result (machine.new ≡ machine.old) }

    // Where live pairs and the words of stubs overlap nowhere, the pairs follow from the old table to the new one.
    ensures follow { IfOk result (λ changed. IsOrderlyState marked machine.old pending old.now
        → Follow machine.old.memory machine.new.memory machine.old.registers.ss
        (live_places machine.old.registers pending (links_of (chain_of marked machine.old))) old.now new.now changed) }

    // In any state only live pairs, and the words of stubs that save offsets, differ.
    ensures safe { OnOk result (OnlyPairsDiffer machine.old.memory machine.new.memory machine.old.registers.ss
        (live_places machine.old.registers pending (links_of (chain_of marked machine.old))) new.now) }
{
    check_chain(machine, marked)?;
    if !are_clear(machine, marked, pending) {
        return Ok(0);
    }
    let mut topmost = Topmost::none();
    let first = repair_pending(machine, pending, old, new, &mut topmost);
    let others = repair_links(machine, marked, old, new, &mut topmost);
    save_topmost(machine, new, &topmost);
    Ok(first + others)
}
