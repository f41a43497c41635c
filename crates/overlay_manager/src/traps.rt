//! Traps: which overlay an INT 3Fh asks for, and where control goes on.

ghost use Rattle.std.specs.Prelude.{◌≡◌, ◌==◌, ◌<◌, ◌≤◌, length, position, IfSome};
ghost use Rattle.overlay_manager.specs.Traps.{trap_place, is_entry_place, trap_in, trap_of, is_refused, refused, resumed};

use cpu_8086::{Far, Machine, Reg};

/// A trap: the overlay that is wanted, and whether for a call. Otherwise it is for a return.
#[derive(Clone, Copy, Debug, PartialEq, Eq)]
pub struct Trap {
    pub overlay: u16,
    pub call: bool,
}

/// The offset of the INT that the machine stands past.
pub fn trap_place(machine: &Machine) -> u16
    ensures { result ≡ trap_place machine.now }
{
    machine.reg(Reg::Ip).wrapping_add(0xFFFE)
}

/// Whether one of so many entries of a stub stands at an offset.
fn is_entry_place(entries: u16, at: u16) -> bool
    ensures { result ≡ is_entry_place entries at }
{
    at >= 32 && ((at - 32) % 5 == 0 && (at - 32) / 5 < entries)
}

/// The trap of a machine that trapped in the stub of an overlay.
fn trap_in(machine: &Machine, overlay: u16) -> Option<Trap>
    ensures trap { result ≡ trap_in machine.now overlay }
    ensures known { IfSome result (λ trap. trap.overlay ≡ overlay) }
{
    let at = trap_place(machine);
    if at == 0 {
        return Some(Trap {
            overlay,
            call: false,
        });
    }
    if is_entry_place(machine.load_word(machine.reg(Reg::Cs), 12), at) {
        return Some(Trap {
            overlay,
            call: true,
        });
    }
    None
}

/// The number of the overlay whose stub stands at a segment.
fn stub_number(stubs: &[u16], segment: u16) -> Option<usize>
    ensures number { result ≡ position (λ stub. stub == segment) stubs.now }
    ensures inside { IfSome result (λ v. v < length stubs.now) }
{
    stubs.iter().position(|stub| *stub == segment)
}

/// The trap in which a machine stands, by the stubs of all overlays.
pub fn trap_of(machine: &Machine, stubs: &[u16]) -> Option<Trap>
    requires { length stubs.now ≤ 256 }
    ensures trap { result ≡ trap_of stubs.now machine.now }
    ensures known { IfSome result (λ trap. trap.overlay < length stubs.now) }
{
    match stub_number(stubs, machine.reg(Reg::Cs)) {
        None => None,
        Some(number) => trap_in(machine, number as u16),
    }
}

/// Whether a trap is a call while the byte at this place says that the manager isn't installed.
pub fn is_refused(machine: &Machine, installed: Far, trap: Trap) -> bool
    ensures { result ≡ is_refused installed machine.now trap }
{
    trap.call && machine.load_byte(installed.segment, installed.offset) == 0
}

/// Goes to the error routine with error 208.
pub fn refuse(machine: &mut Machine, routine: Far)
    ensures { machine.new ≡ refused routine machine.old }
{
    machine.set_reg(Reg::Ax, 208);
    machine.set_reg(Reg::Ip, routine.offset);
    machine.set_reg(Reg::Cs, routine.segment);
}

/// Goes on after a trap whose overlay stands at a segment now: at the entry, or at the offset that was saved.
pub fn resume(machine: &mut Machine, load: u16, saved: u16, trap: Trap)
    ensures { machine.new ≡ resumed load saved trap machine.old }
{
    if trap.call {
        let at = trap_place(machine);
        machine.set_reg(Reg::Ip, at);
    } else {
        machine.set_reg(Reg::Ip, saved);
        machine.set_reg(Reg::Cs, load);
    }
}
