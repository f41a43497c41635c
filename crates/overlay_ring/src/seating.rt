//! Work on a list of seats, oldest first.
ghost use Rattle.std.specs.Prelude.{◌≡◌, ◌++◌, ◌∷◌, [], ◌+◌, ◌*◌, ◌^◌, ◌≤◌, ◌<◌, length, take, drop, vec_len, vec_capacity};
ghost use Rattle.std.specs.List.{AllByRecursion};
ghost use Rattle.overlay_ring.specs.Seats.{overlaps, paragraphs, place_of};
ghost use Rattle.overlay_ring.specs.Ring.{end_of_newest, next_place, drop_count, packed, reprieved, with_reprieved};

use crate::seat::Seat;

/// The place of an overlay, if it has a seat.
pub fn place(seats: &[Seat], overlay: u16) -> Option<u16>
    ensures { result ≡ place_of overlay seats.now }
{
    seats
        .iter()
        .find(|seat| seat.overlay == overlay)
        .map(|seat| seat.at)
}

/// The place behind the newest seat, or 0 where there is none.
fn newest_end(seats: &[Seat]) -> u32
    ensures value { result ≡ end_of_newest seats.now }
    ensures bound { result < 2 ^ 17 }
{
    match seats.last() {
        None => 0,
        Some(newest) => newest.end(),
    }
}

/// Where the next overlay goes: behind the newest, if `size` paragraphs fit there, else to 0.
pub fn place_for(seats: &[Seat], size: u16, room: u16) -> u16
    ensures { result ≡ next_place room size seats.now }
{
    let end = newest_end(seats);
    if end + size as u32 <= room as u32 {
        end as u16
    } else {
        0
    }
}

/// How many of the oldest seats have to go for `size` paragraphs from `at` on.
pub fn in_the_way(seats: &[Seat], at: u16, size: u16) -> usize
    ensures { result ≡ drop_count at size seats.now }
{
    let mut count = 0;
    for (index, seat) in seats.iter().enumerate() {
        if seat.overlaps(at, size) {
            count = index + 1;
        }
    }
    count
}

/// The sizes of the seats together.
fn total(seats: &[Seat]) -> u32
    requires { length seats.now ≤ 256 }
    ensures value { result ≡ paragraphs seats.now }
    ensures bound { result ≤ 65535 * length seats.now }
{
    let mut sum = 0;
    for seat in seats {
        sum += seat.size as u32;
    }
    sum
}

/// Lets the oldest seats go.
pub fn drop_oldest(seats: &mut Vec<Seat>, count: usize)
    requires { count ≤ vec_len seats.old }
    ensures kept { seats.new.items ≡ drop count seats.old.items }
    ensures capacity { vec_capacity seats.new ≡ vec_capacity seats.old }
{
    seats.drain(..count);
}

/// Moves the seats together, from 0 upward without gaps.
fn pack(seats: &mut Vec<Seat>)
    requires { paragraphs seats.old.items < 2 ^ 16 }
    ensures packed { seats.new.items ≡ packed 0 seats.old.items }
    ensures capacity { vec_capacity seats.new ≡ vec_capacity seats.old }
{
    let mut next = 0;
    for seat in seats.iter_mut() {
        let size = seat.size;
        seat.at = next;
        next += size;
    }
}

/// Lets the oldest `count` seats go but for those that are reprieved: the newest first, as long as their overlays are
/// live and they need at most `most` paragraphs, and with the other seats at most `room`. Gives how many went.
fn drop_unless_live(
    seats: &mut Vec<Seat>,
    count: usize,
    live: &[bool],
    most: u16,
    room: u16,
) -> usize
    requires dropped { count ≤ vec_len seats.old }
    requires few { vec_len seats.old ≤ 256 }
    requires known { AllByRecursion (λ s. s.overlay < length live.now) seats.old.items }
    ensures kept { seats.new.items
        ≡ reprieved live.now most (paragraphs (drop count seats.old.items)) room (take count seats.old.items)
        ++ drop count seats.old.items }
    ensures capacity { vec_capacity seats.new ≡ vec_capacity seats.old }
    ensures went { result + vec_len seats.new ≡ vec_len seats.old }
{
    let taken = total(&seats[count..]);
    let mut saved: u32 = 0;
    let mut gone = 0;
    let mut index = count;
    while index > 0 {
        index -= 1;
        let seat = seats[index];
        let needed = saved + seat.size as u32;
        if live[seat.overlay as usize] && needed <= most as u32 && needed + taken <= room as u32 {
            saved = needed;
        } else {
            seats.remove(index);
            gone += 1;
        }
    }
    gone
}

/// The same, and where a seat is reprieved all are placed anew, from 0 upward without gaps.
pub fn reprieve(seats: &mut Vec<Seat>, count: usize, live: &[bool], most: u16, room: u16) -> usize
    requires dropped { count ≤ vec_len seats.old }
    requires few { vec_len seats.old ≤ 256 }
    requires known { AllByRecursion (λ s. s.overlay < length live.now) seats.old.items }
    ensures kept { let list = drop count seats.old.items in
        seats.new.items
        ≡ with_reprieved (reprieved live.now most (paragraphs list) room (take count seats.old.items)) list }
    ensures capacity { vec_capacity seats.new ≡ vec_capacity seats.old }
    ensures went { let taken = paragraphs (drop count seats.old.items) in
        result + length (reprieved live.now most taken room (take count seats.old.items)) ≡ count }
{
    let went = drop_unless_live(seats, count, live, most, room);
    if went < count {
        pack(seats);
    }
    went
}
