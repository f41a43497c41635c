//! The chain of links.

ghost use Rattle.std.specs.Prelude.{◌≡◌, ◌+◌, ◌==◌, ◌<◌, IsOk, OnOk, IfErr};
ghost use Rattle.return_repair.specs.Chain.{word_at, next_link, goes_on, room_end, chain_of, links_of, are_spaced, misses_link, misses_links, are_clear};

use crate::table::BadChain;
use cpu_8086::{Machine, Reg};

/// Whether the next link ends the chain, or lies above.
fn goes_on(link: u16, next: u16) -> bool
    ensures { result ≡ goes_on link next }
{
    next == 0 || link < next
}

/// The link behind one.
pub fn next_link(machine: &Machine, marked: bool, link: u16) -> u16
    ensures { result ≡ next_link marked machine.now.memory machine.now.registers.ss link }
{
    let word = machine.load_word(machine.reg(Reg::Ss), link);
    frame_links::next_of(marked, word)
}

/// Whether the frame with this link is a far routine's.
pub fn is_far(machine: &Machine, marked: bool, link: u16) -> bool
    ensures { result ≡ (word_at marked machine.now.memory machine.now.registers.ss link).far }
{
    let word = machine.load_word(machine.reg(Reg::Ss), link);
    frame_links::is_far(marked, word)
}

/// Whether each link up to 0 lies above the one before; `BadChain` says where it doesn't.
pub fn check_chain(machine: &Machine, marked: bool) -> Result<(), BadChain>
    ensures sound { OnOk result (IsOk (chain_of marked machine.now)) }
    ensures bad { IfErr result (λ bad. chain_of marked machine.now ≡ Err bad.bp) }
    ensures small { machine.now.registers.bp < 65536 }
{
    let mut link = machine.reg(Reg::Bp);
    while link != 0 {
        let next = next_link(machine, marked, link);
        if !goes_on(link, next) {
            return Err(BadChain { bp: link });
        }
        link = next;
    }
    Ok(())
}

/// Where the room above a link ends: at the next one, or at the segment's end.
fn room_end(next: u16) -> u32
    ensures { result ≡ room_end next }
{
    if next == 0 { 0x1_0000 } else { u32::from(next) }
}

/// Whether links have room for their words and return addresses.
fn are_spaced(machine: &Machine, marked: bool) -> bool
    requires { IsOk (chain_of marked machine.now) }
    ensures { result ≡ are_spaced (links_of (chain_of marked machine.now)) }
{
    let mut link = machine.reg(Reg::Bp);
    while link != 0 {
        let next = next_link(machine, marked, link);
        let room = frame_links::room_of(is_far(machine, marked, link));
        if u32::from(link) + room > room_end(next) {
            return false;
        }
        link = next;
    }
    true
}

fn misses_link(place: u16, link: u16) -> bool
    ensures { result ≡ misses_link place link }
{
    u32::from(place) + 4 <= u32::from(link) || u32::from(link) + 2 <= u32::from(place)
}

/// Whether the pair at a place touches no word of a link.
fn misses_links(machine: &Machine, marked: bool, place: u16) -> bool
    requires { IsOk (chain_of marked machine.now) }
    ensures { result ≡ misses_links place (links_of (chain_of marked machine.now)) }
{
    let mut link = machine.reg(Reg::Bp);
    while link != 0 {
        if !misses_link(place, link) {
            return false;
        }
        link = next_link(machine, marked, link);
    }
    true
}

/// Whether no live pair touches the word of a link.
pub fn are_clear(machine: &Machine, marked: bool, pending: bool) -> bool
    requires { IsOk (chain_of marked machine.now) }
    ensures { result ≡ are_clear machine.now.registers pending (links_of (chain_of marked machine.now)) }
{
    let top = machine.reg(Reg::Sp);
    are_spaced(machine, marked)
        && (!pending || (top <= 0xFFFC && misses_links(machine, marked, top)))
}
