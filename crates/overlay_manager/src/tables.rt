//! Tables of overlays, as the seats of a ring make them.

ghost use Rattle.std.specs.Prelude.{◌≡◌, ◌≤◌, IfOk, length, vec_len, vec_capacity};
ghost use Rattle.overlay_ring.specs.Seats.{place_of};
ghost use Rattle.overlay_manager.specs.Manager.{load_segment, table_from, first_stub, next_stub, with_stubs};

use crate::stubbing::set_stub;
use cpu_8086::Machine;
use overlay_ring::Seat;
use return_repair::Loaded;
use std::alloc::{AllocError, Global};

/// The overlays before and after a service, and whether live returns denote each.
#[derive(Drop)]
pub struct Tables {
    pub old: Vec<Loaded>,
    pub new: Vec<Loaded>,
    pub live: Vec<bool>,
}

impl Tables {
    /// Tables with room for so many overlays.
    pub fn with_room(alloc: Global, overlays: usize) -> Result<Tables, AllocError>
        ensures old { IfOk result (λ tables. overlays ≤ vec_capacity tables.old) }
        ensures new { IfOk result (λ tables. overlays ≤ vec_capacity tables.new) }
        ensures live { IfOk result (λ tables. length tables.live.items ≡ overlays) }
    {
        Ok(Tables {
            old: Vec::with_capacity(alloc, overlays)?,
            new: Vec::with_capacity(alloc, overlays)?,
            live: vec![in alloc; false; overlays]?,
        })
    }
}

/// Where an overlay has its seat.
fn place(seats: &[Seat], overlay: u16) -> Option<u16>
    ensures { result ≡ place_of overlay seats.now }
{
    seats
        .iter()
        .find(|seat| seat.overlay == overlay)
        .map(|seat| seat.at)
}

/// The segment of an overlay's code, or 0 where it is out.
pub fn load_segment(room: u16, seats: &[Seat], overlay: u16) -> u16
    requires { room ≤ 40848 }
    ensures { result ≡ load_segment room seats.now overlay }
{
    match place(seats, overlay) {
        None => 0,
        Some(at) => (0xA000 - room).wrapping_add(at),
    }
}

/// Makes the table of all overlays.
pub fn set_table(room: u16, seats: &[Seat], stubs: &[u16], into: &mut Vec<Loaded>)
    requires room { room ≤ 40848 }
    requires few { length stubs.now ≤ 256 }
    requires enough { length stubs.now ≤ vec_capacity into.old }
    ensures table { into.new.items ≡ table_from room seats.now 0 stubs.now }
    ensures capacity { vec_capacity into.new ≡ vec_capacity into.old }
{
    into.clear();
    for (number, stub) in stubs.iter().enumerate() {
        into.push_reserved(Loaded {
            stub: *stub,
            load: load_segment(room, seats, number as u16),
        });
    }
}

/// The stub of the oldest of these seats, or 0.
fn first_stub(stubs: &[u16], seats: &[Seat]) -> u16
    ensures { result ≡ first_stub stubs.now seats.now }
{
    match seats.first() {
        None => 0,
        Some(seat) => stubs.get(seat.overlay as usize).copied().unwrap_or(0),
    }
}

/// The stub of the overlay that is loaded next after this one, or 0.
fn next_stub(stubs: &[u16], seats: &[Seat], overlay: u16) -> u16
    ensures { result ≡ next_stub stubs.now seats.now overlay }
{
    for k in 0..seats.len() {
        if seats[k].overlay == overlay {
            return first_stub(stubs, &seats[k + 1..]);
        }
    }
    0
}

/// Writes the stubs of all overlays, which stood by one table and stand by another; loaded ones are linked in the order
/// of the seats.
pub fn set_stubs(
    machine: &mut Machine,
    seats: &[Seat],
    stubs: &[u16],
    old: &[Loaded],
    new: &[Loaded],
)
    requires same { length old.now ≡ length new.now }
    requires few { length old.now ≤ 256 }
    ensures { machine.new ≡ record machine.old { memory = with_stubs stubs.now seats.now 0 old.now new.now machine.old.memory } }
{
    for number in 0..old.len() {
        let was = old[number];
        let now = new[number];
        let next = next_stub(stubs, seats, number as u16);
        set_stub(machine, was.load, now.load, next, now.stub);
    }
}
