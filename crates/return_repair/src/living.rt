//! Which overlays live returns denote.

ghost use Rattle.std.specs.Prelude.{◌≡◌, ℕ, IsOk, OnOk, OnErr, IfErr, length, slice_index_or, false};
ghost use Rattle.frame_links.specs.Links.{place_if, pair_places};
ghost use Rattle.return_repair.specs.Chain.{chain_of, links_of, pending_places};
ghost use Rattle.return_repair.specs.Live.{is_live, flagged_places};

use crate::chain::{check_chain, is_far, next_link};
use crate::pairs::{owner, pair_at};
use crate::table::{BadChain, Loaded};
use cpu_8086::{Machine, Reg};

/// Sets the flag of the overlay that the pair at a place denotes, where there is one.
fn flag_if(machine: &Machine, there: bool, place: u16, table: &[Loaded], into: &mut [bool])
    requires { length into.old ≡ length table.now }
    ensures { into.new ≡ flagged_places machine.now.memory machine.now.registers.ss table.now into.old (place_if there place) }
{
    if !there {
        return;
    }
    if let Some(number) = owner(table, pair_at(machine, place).segment) {
        into[number] = true;
    }
}

/// Sets the flag of the overlay that a pending pair denotes.
fn flag_pending(machine: &Machine, pending: bool, table: &[Loaded], into: &mut [bool])
    requires { length into.old ≡ length table.now }
    ensures { into.new ≡ flagged_places machine.now.memory machine.now.registers.ss table.now into.old
        (pending_places machine.now.registers pending) }
{
    flag_if(machine, pending, machine.reg(Reg::Sp), table, into);
}

/// Sets the flags of the overlays that the pairs above links denote.
fn flag_links(machine: &Machine, marked: bool, table: &[Loaded], into: &mut [bool])
    requires flags { length into.old ≡ length table.now }
    requires sound { IsOk (chain_of marked machine.now) }
    ensures { into.new ≡ flagged_places machine.now.memory machine.now.registers.ss table.now into.old
        (pair_places (links_of (chain_of marked machine.now))) }
{
    let mut link = machine.reg(Reg::Bp);
    while link != 0 {
        let far = is_far(machine, marked, link);
        flag_if(machine, far, link.wrapping_add(2), table, into);
        link = next_link(machine, marked, link);
    }
}

/// Clears flags.
fn clear(into: &mut [bool])
    ensures { (v : ℕ) → slice_index_or into.new v false ≡ false }
{
    into.fill(false);
}

/// Tells for each overlay of a table whether a live return denotes it, by whether frames are marked.
pub fn live(
    machine: &Machine,
    pending: bool,
    marked: bool,
    table: &[Loaded],
    into: &mut [bool],
) -> Result<(), BadChain>
    requires { length into.old ≡ length table.now }
    ensures live { OnOk result ((v : ℕ) → slice_index_or into.new v false ≡ is_live marked machine.now pending table.now v) }
    ensures sound { OnOk result (IsOk (chain_of marked machine.now)) }
    ensures bad_chain { IfErr result (λ bad. chain_of marked machine.now ≡ Err bad.bp) }
    ensures unchanged { OnErr result (into.new ≡ into.old) }
{
    check_chain(machine, marked)?;
    clear(into);
    flag_pending(machine, pending, table, into);
    flag_links(machine, marked, table, into);
    Ok(())
}
