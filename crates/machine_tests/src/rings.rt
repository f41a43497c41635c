//! The ring of overlays.

ghost use Rattle.std.specs.Prelude.{◌≡◌, length};

use overlay_ring::{Ring, Seat};
use std::alloc::Global;
use test_rows::{Line, part, put, put_numbered, put_truth, word};

// The places of the overlays, oldest first.
fn put_list(out: &mut Line, ring: &Ring) {
    for seat in ring.list() {
        let Seat { overlay, at, .. } = *seat;
        put_numbered(out, " ", u64::from(overlay));
        put_numbered(out, "@", u64::from(at));
    }
}

// An overlay, and for reprieve the live one and so many paragraphs.
fn run_step(ring: &mut Ring, out: &mut Line, step: &str) -> Option<()>
    requires { length ring.old.sizes ≡ 3 }
    ensures { length ring.new.sizes ≡ 3 }
{
    let (overlay, rest) = step.split_once(' ').unwrap_or((step, ""));
    let overlay = word(overlay).ok()?;
    if 3 <= overlay {
        return None;
    }
    let placement = match rest.split_once(' ') {
        None => ring.wanted(overlay),
        Some((live, most)) => {
            let live = word(live).ok()?;
            let most = word(most).ok()?;
            ring.wanted_retry(overlay, &[live == 0, live == 1, live == 2], most)
        }
    };
    part(out, "; ");
    put_numbered(out, "at ", u64::from(placement.at));
    put_numbered(out, " dropped ", u64::from(placement.dropped));
    put(out, " there ");
    put_truth(out, placement.loaded);
    put(out, ":");
    put_list(out, ring);
    Some(())
}

/// Writes what a buffer of eight paragraphs gives to three overlays of some sizes that are asked for one after another.
pub(crate) fn put_steps(alloc: Global, out: &mut Line, row: &str) -> Option<()> {
    let (sizes, steps) = row.split_once(" | ")?;
    let (a, rest) = sizes.split_once(' ')?;
    let (b, c) = rest.split_once(' ')?;
    let (a, b, c) = (word(a).ok()?, word(b).ok()?, word(c).ok()?);
    if a == 0 || 8 < a || b == 0 || 8 < b || c == 0 || 8 < c {
        return None;
    }
    let mut ring = Ring::new(alloc, &[a, b, c], 8).ok()?;
    for step in steps.split("; ") {
        run_step(&mut ring, out, step)?;
    }
    ring.clear();
    put_numbered(out, "; left ", ring.list().len() as u64);
    Some(())
}
