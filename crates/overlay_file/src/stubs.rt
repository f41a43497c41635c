//! Stubs as they stand in the memory of the machine.

ghost use Rattle.std.specs.Prelude.{◌≡◌, ◌+◌, ◌*◌, ◌≤◌, ◌<◌, ◌↔◌, IsTrue, MatchOption};
ghost use Rattle.cpu_8086.specs.Memory.{load_word};
ghost use Rattle.overlay_file.specs.Stubs.{stub_of, entry_offset, IsEntry, AreZeros, AreEntries, IsStub};

use crate::overlay::Stub;
use cpu_8086::Machine;

fn is_entry(machine: &Machine, segment: u16, load: u16, at: u16) -> bool
    requires { at + 4 < 65536 }
    ensures { IsTrue result ↔ IsEntry machine.now.memory segment load at }
{
    if load == 0 {
        machine.load_word(segment, at) == 0x3FCD && machine.load_byte(segment, at + 4) == 0
    } else {
        machine.load_byte(segment, at) == 0xEA && machine.load_word(segment, at + 3) == load
    }
}

fn has_zeros(machine: &Machine, segment: u16) -> bool
    ensures { IsTrue result ↔ AreZeros machine.now.memory segment }
{
    for k in 0..14 {
        if machine.load_byte(segment, 18 + k) != 0 {
            return false;
        }
    }
    true
}

fn has_entries(machine: &Machine, segment: u16, load: u16, entries: u16) -> bool
    requires { entry_offset entries ≤ 65536 }
    ensures { IsTrue result ↔ AreEntries machine.now.memory segment load entries }
{
    for entry in 0..entries {
        if !is_entry(machine, segment, load, 32 + 5 * entry) {
            return false;
        }
    }
    true
}

/// The stub of a segment. `None` comes exactly where the bytes there are no stub's.
pub fn stub(machine: &Machine, segment: u16) -> Option<Stub>
    ensures { MatchOption result (¬ (IsStub machine.now.memory segment))
        (λ stub. IsStub machine.now.memory segment × (stub ≡ stub_of machine.now.memory segment)) }
{
    let stub = Stub {
        saved: machine.load_word(segment, 2),
        place: u32::from(machine.load_word(segment, 4))
            + 0x1_0000 * u32::from(machine.load_word(segment, 6)),
        size: machine.load_word(segment, 8),
        fixups: machine.load_word(segment, 10),
        entries: machine.load_word(segment, 12),
        load: machine.load_word(segment, 14),
        next: machine.load_word(segment, 16),
    };
    if machine.load_word(segment, 0) != 0x3FCD
        || !has_zeros(machine, segment)
        || 32 + 5 * u32::from(stub.entries) > 0x1_0000
        || !has_entries(machine, segment, stub.load, stub.entries)
    {
        return None;
    }
    Some(stub)
}
