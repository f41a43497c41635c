//! Return pairs, and the overlays that they denote.

ghost use Rattle.std.specs.Prelude.{◌≡◌, ℕ, ◌<◌, ◌≤◌, length, IfSome};
ghost use Rattle.return_repair.specs.Pairs.{pair_at, with_pair, HaveSameStubs, is_out, has_segment, owner, denoted_offset, shown_pair, same_pair};
ghost use Rattle.return_repair.specs.Repair.{work, repaired_place};
ghost use Rattle.return_repair.specs.Topmosts.{by_stub};

use crate::table::Loaded;
use crate::topmost::Topmost;
use cpu_8086::{Far, Machine, Reg};

/// The pair at an offset of the stack's segment.
pub fn pair_at(machine: &Machine, place: u16) -> Far
    ensures { result ≡ pair_at machine.now.memory machine.now.registers.ss place }
{
    let ss = machine.reg(Reg::Ss);
    Far {
        offset: machine.load_word(ss, place),
        segment: machine.load_word(ss, place.wrapping_add(2)),
    }
}

fn set_pair(machine: &mut Machine, place: u16, pair: Far)
    ensures { machine.new ≡ record machine.old { memory = with_pair machine.old.memory machine.old.registers.ss place pair } }
{
    let ss = machine.reg(Reg::Ss);
    machine.store_word(ss, place, pair.offset);
    machine.store_word(ss, place.wrapping_add(2), pair.segment);
}

fn has_segment(segment: u16, overlay: Loaded) -> bool
    ensures { result ≡ has_segment segment overlay }
{
    (overlay.load != 0 && overlay.load == segment) || overlay.stub == segment
}

/// The number of the overlay that a pair with this segment denotes.
pub fn owner(table: &[Loaded], segment: u16) -> Option<usize>
    ensures owner { result ≡ owner table.now segment }
    ensures inside { IfSome result (λ v. v < length table.now) }
{
    table
        .iter()
        .position(|overlay| has_segment(segment, *overlay))
}

fn denoted_offset(machine: &Machine, overlay: Loaded, pair: Far) -> u16
    ensures { result ≡ denoted_offset machine.now.memory overlay pair }
{
    if overlay.stub == pair.segment && pair.offset == 0 {
        machine.load_word(overlay.stub, 2)
    } else {
        pair.offset
    }
}

fn shown_pair(overlay: Loaded, met: bool, offset: u16) -> Far
    ensures { result ≡ shown_pair overlay met offset }
{
    if overlay.load != 0 {
        return Far {
            offset,
            segment: overlay.load,
        };
    }
    Far {
        offset: if met { offset } else { 0 },
        segment: overlay.stub,
    }
}

fn same_pair(a: Far, b: Far) -> bool
    ensures { result ≡ same_pair a b }
{
    a.offset == b.offset && a.segment == b.segment
}

/// Repairs the pair at a place, and gives how many pairs changed, one or none.
#[tactic(auto, unfolding(crate::specs::Repair::repaired_place))]
pub fn repair_place(
    machine: &mut Machine,
    place: u16,
    old: &[Loaded],
    new: &[Loaded],
    topmost: &mut Topmost,
) -> u32
    requires { HaveSameStubs old.now new.now }
    ensures memory { machine.new ≡ record machine.old
        { memory = (repaired_place machine.old.registers.ss old.now new.now (work machine.old.memory (by_stub topmost.old.offsets)) place).memory } }
    ensures topmost { (stub : ℕ) → by_stub topmost.new.offsets stub
        ≡ (repaired_place machine.old.registers.ss old.now new.now (work machine.old.memory (by_stub topmost.old.offsets)) place).topmost stub }
    ensures changed { result
        ≡ (repaired_place machine.old.registers.ss old.now new.now (work machine.old.memory (by_stub topmost.old.offsets)) place).changed }
    ensures few { result ≤ 1 }
{
    let pair = pair_at(machine, place);
    match owner(old, pair.segment) {
        None => 0,
        Some(number) => {
            let was = old[number];
            let now = new[number];
            let offset = denoted_offset(machine, was, pair);
            let shown = shown_pair(now, topmost.of(now.stub).is_some(), offset);
            set_pair(machine, place, shown);
            topmost.add(now.stub, offset);
            if same_pair(pair, shown) { 0 } else { 1 }
        }
    }
}
