//! Writing stubs.

ghost use Rattle.std.specs.Prelude.{◌≡◌};
ghost use Rattle.overlay_manager.specs.Stubbing.{routine_at, with_trap, with_jump, with_entry, with_entries, with_stub};

use cpu_8086::Machine;

/// The offset of the routine that an entry names, by the load segment by which it stands.
fn routine_at(machine: &Machine, stub: u16, load: u16, at: u16) -> u16
    ensures { result ≡ routine_at machine.now.memory stub load at }
{
    machine.load_word(stub, at.wrapping_add(if load == 0 { 2 } else { 1 }))
}

fn set_trap(machine: &mut Machine, stub: u16, at: u16, routine: u16)
    ensures { machine.new ≡ record machine.old { memory = with_trap machine.old.memory stub at routine } }
{
    machine.store_word(stub, at, 0x3FCD);
    machine.store_word(stub, at.wrapping_add(2), routine);
    machine.store_byte(stub, at.wrapping_add(4), 0);
}

fn set_jump(machine: &mut Machine, stub: u16, at: u16, routine: u16, load: u16)
    ensures { machine.new ≡ record machine.old { memory = with_jump machine.old.memory stub at routine load } }
{
    machine.store_byte(stub, at, 0xEA);
    machine.store_word(stub, at.wrapping_add(1), routine);
    machine.store_word(stub, at.wrapping_add(3), load);
}

/// Writes an entry that stood by one load segment, and is to stand by another.
#[tactic(auto, unfolding(crate::specs::Stubbing::with_entry))]
fn set_entry(machine: &mut Machine, was: u16, now: u16, stub: u16, at: u16)
    ensures { machine.new ≡ record machine.old { memory = with_entry was now stub machine.old.memory at } }
{
    let routine = routine_at(machine, stub, was, at);
    if now == 0 {
        set_trap(machine, stub, at, routine);
    } else {
        set_jump(machine, stub, at, routine, now);
    }
}

/// Writes so many entries.
fn set_entries(machine: &mut Machine, was: u16, now: u16, stub: u16, entries: u16)
    ensures { machine.new ≡ record machine.old { memory = with_entries was now stub machine.old.memory 32 entries } }
{
    let mut at = 32u16;
    for _ in 0..entries {
        set_entry(machine, was, now, stub, at);
        at = at.wrapping_add(5);
    }
}

/// Writes the stub of an overlay that stood by one load segment, 0 where it was out, and stands by another from now on.
#[tactic(auto, unfolding(crate::specs::Stubbing::with_stub))]
pub fn set_stub(machine: &mut Machine, was: u16, now: u16, next: u16, stub: u16)
    ensures { machine.new ≡ record machine.old { memory = with_stub was now next stub machine.old.memory } }
{
    let entries = machine.load_word(stub, 12);
    set_entries(machine, was, now, stub, entries);
    machine.store_word(stub, 14, now);
    machine.store_word(stub, 16, next);
}
