ghost use Rattle.std.specs.Prelude.{◌≡◌, ◌≢◌, ◌<◌, ◌≤◌, ◌+◌, ℕ, [], length, vec_capacity, IfOk, Some, IsTrue, ◌⊎◌, slice_index, drop};
ghost use Rattle.std.specs.List.{All, Contains, list_any};
ghost use Rattle.overlay_ring.specs.Table.{IsTable, IsLegalTable};
ghost use Rattle.overlay_ring.specs.Seats.{table_of, is_seated, place_of, overlaps, paragraphs, left_count};
ghost use Rattle.overlay_ring.specs.Ring.{load_of, new_seat, ring_after, retry_after, is_live};

use crate::seat::{Placement, Seat};
use crate::seating;
use std::alloc::{AllocError, Global};
use std::marker::Model;

/// The overlays that a buffer holds, oldest first. Each overlay is a number below that of the overlays.
#[derive(Drop)]
pub struct Ring {
    seats: Vec<Seat>,
    sizes: Vec<u16>,
    room: u16,
}

impl Model for Ring {
    ghost use Rattle.std.specs.Prelude.{◌≤◌, length, vec_capacity};
    ghost use Rattle.overlay_ring.specs.Seats.{AreOverlays, IsSeating};
    ghost use Rattle.overlay_ring.specs.Ring.{Buffer};

    ghost Value = { Buffer };

    ghost view = { λ r. record { sizes = r.sizes.items; room = r.room; seats = r.seats.items } };

    ghost invariant = { λ r. AreOverlays r.room r.sizes.items × IsSeating r.sizes.items r.room r.seats.items
        × (length r.sizes.items ≤ vec_capacity r.seats) };
}

impl Ring {
    /// An empty ring over a buffer of `room` paragraphs, with all the memory that it will need.
    pub fn new(alloc: Global, sizes: &[u16], room: u16) -> Result<Ring, AllocError>
        requires few { length sizes.now ≤ 256 }
        requires fit { All (λ size. (0 < size) × (size ≤ room)) sizes.now }
        ensures { IfOk result (λ ring. ring ≡ record { sizes = sizes.now; room = room; seats = [] }) }
    {
        Ok(Ring {
            seats: Vec::with_capacity(alloc, sizes.len())?,
            sizes: Vec::from_slice(alloc, sizes)?,
            room,
        })
    }

    /// The seats, oldest first.
    pub fn list(&self) -> &[Seat]
        ensures seats { result.now ≡ self.now.seats }
        ensures table { IsTable self.now.sizes self.now.room (table_of self.now.seats) }
    {
        &self.seats
    }

    /// Sends all overlays out.
    pub fn clear(&mut self)
        ensures { self.new ≡ record self.old { seats = [] } }
    {
        self.seats.clear();
    }

    // Where an overlay that has no seat is to be loaded, and how many of the oldest make way.
    fn load(&self, overlay: u16) -> (Seat, usize)
        requires { overlay < length self.now.sizes }
        ensures { let load = load_of self.now.sizes self.now.room overlay self.now.seats in
            result ≡ record { 0 = new_seat load overlay; 1 = load.dropped } }
    {
        let size = self.sizes[overlay as usize];
        let at = seating::place_for(&self.seats, size, self.room);
        let dropped = seating::in_the_way(&self.seats, at, size);
        (Seat { overlay, at, size }, dropped)
    }

    /// Loads an overlay, unless it is there: behind the newest where it fits before the buffer's end, else at 0. The
    /// oldest overlays leave, as many as make way.
    pub fn wanted(&mut self, overlay: u16) -> Placement
        requires { overlay < length self.old.sizes }

        ensures ring { self.new ≡ record self.old { seats = ring_after self.old.sizes self.old.room overlay self.old.seats } }
        ensures at { place_of overlay self.new.seats ≡ Some result.at }
        ensures dropped { result.dropped ≡ left_count self.old.seats self.new.seats }
        ensures loaded { result.loaded ≡ is_seated overlay self.old.seats }

        // The overlay is there, and what stays has not moved.
        ensures legal { IsLegalTable self.new.sizes self.new.room overlay (table_of self.new.seats) }
        ensures unmoved { All (λ s. s.overlay ≢ overlay → Contains self.old.seats s) self.new.seats }

        // With fewer dropped the overlay would overlap one of the others.
        ensures shortest { (n : ℕ) → n < result.dropped
            → IsTrue (list_any (overlaps result.at (slice_index self.old.sizes overlay)) (drop n self.old.seats)) }
    {
        if let Some(at) = seating::place(&self.seats, overlay) {
            return Placement {
                at,
                dropped: 0,
                loaded: true,
            };
        }
        let (seat, oldest) = self.load(overlay);
        self.seats.push_reserved(seat);
        seating::drop_oldest(&mut self.seats, oldest);
        Placement {
            at: seat.at,
            dropped: oldest as u32,
            loaded: false,
        }
    }

    /// The same with reprieve: of the overlays that would leave, those stay that are live, from the newest on, as far as
    /// they need at most `retry` paragraphs and the buffer holds them with the others. Where one stays that way, all
    /// are placed anew, from 0 upward without gaps.
    pub fn wanted_retry(&mut self, overlay: u16, live: &[bool], retry: u16) -> Placement
        requires known { overlay < length self.old.sizes }
        requires each { length live.now ≡ length self.old.sizes }

        ensures ring { self.new
            ≡ record self.old { seats = retry_after self.old.sizes self.old.room live.now retry overlay self.old.seats } }
        ensures at { place_of overlay self.new.seats ≡ Some result.at }
        ensures dropped { result.dropped ≡ left_count self.old.seats self.new.seats }
        ensures loaded { result.loaded ≡ is_seated overlay self.old.seats }
        ensures legal { IsLegalTable self.new.sizes self.new.room overlay (table_of self.new.seats) }

        // Only live overlays are reprieved, up to so many paragraphs; with none to spend nothing is.
        ensures reprieved { All
            (λ s. IsTrue (is_seated s.overlay (ring_after self.old.sizes self.old.room overlay self.old.seats))
            ⊎ IsTrue (is_live live.now s.overlay))
            self.new.seats }
        ensures within_retry { paragraphs self.new.seats
            ≤ paragraphs (ring_after self.old.sizes self.old.room overlay self.old.seats) + retry }
        ensures plain { retry ≡ 0 → self.new.seats ≡ ring_after self.old.sizes self.old.room overlay self.old.seats }
    {
        if let Some(place) = seating::place(&self.seats, overlay) {
            return Placement {
                at: place,
                dropped: 0,
                loaded: true,
            };
        }
        let (seat, oldest) = self.load(overlay);
        self.seats.push_reserved(seat);
        let dropped = seating::reprieve(&mut self.seats, oldest, live, retry, self.room);
        let newest = self.seats[self.seats.len() - 1];
        Placement {
            at: newest.at,
            dropped: dropped as u32,
            loaded: false,
        }
    }
}
