//! Bringing overlays from one table to another: those that come or move are loaded, live returns follow, and the stubs are
//! written.

ghost use Rattle.std.specs.Prelude.{◌≡◌, ℕ, ◌<◌, ◌≤◌, IsTrue, length, IfSome, OnOk, OnErr, IfOk, IfErr, Err, ◌⊎◌};
ghost use Rattle.tp_outside.specs.Faults.{HasRisen};
ghost use Rattle.tp_outside.specs.Folder.{bytes_of};
ghost use Rattle.return_repair.specs.Pairs.{HaveSameStubs};
ghost use Rattle.overlay_manager.specs.Loading.{is_moved, with_load, with_loads, load_count, IsShort, IsWhole, LiesWithin, OnlyWithin};
ghost use Rattle.overlay_manager.specs.Manager.{with_stubs};
ghost use Rattle.overlay_manager.specs.Service.{followed, followed_count, loaded_state};
ghost use Rattle.overlay_manager.specs.Stops.{StopsLoading, IsLoadStop, AreWhole, LieWithin};
ghost use Rattle.overlay_manager.specs.declared.serving.ServiceStop.{ServiceStop};

use crate::filling::LoadStop;
use crate::loading::load_overlay;
use crate::program::Program;
use crate::tables::{Tables, set_stubs};
use cpu_8086::Machine;
use overlay_file::OvrEntry;
use overlay_ring::Seat;
use return_repair::{BadChain, Loaded, repair};
use tp_outside::Files;

/// Why a service did not bring in the overlay that was wanted.
#[derive(Clone, Copy, Debug, PartialEq, Eq)]
pub enum ServiceStop {
    /// The trap stands at no entry of a stub.
    NoStub { cs: u16, ip: u16 },
    /// The place that the word at SS:`bp` gives is not 0, and doesn't lie above its own.
    BadChain { bp: u16 },
    /// The overlay file ends before this overlay's code and fixups do.
    ShortOverlay { overlay: u16 },
    /// A read of the overlay file failed, and the files' count of faults rose.
    FilesFault,
}

impl From<BadChain> for ServiceStop {
    ghost use Rattle.overlay_manager.specs.declared.serving.ServiceStop.{ServiceStop};

    ghost from_gives = { λ bad stop. stop ≡ ServiceStop.BadChain bad.bp };

    fn from(bad: BadChain) -> ServiceStop {
        ServiceStop::BadChain { bp: bad.bp }
    }
}

/// Why a service stops where an overlay can't be loaded.
fn stop_at(stop: LoadStop, overlay: u16) -> ServiceStop
    ensures short { result ≡ ServiceStop.ShortOverlay overlay → stop ≡ LoadStop.Short }
    ensures failed { result ≡ ServiceStop.FilesFault → stop ≡ LoadStop.Failed }
    ensures either { (result ≡ ServiceStop.ShortOverlay overlay) ⊎ (result ≡ ServiceStop.FilesFault) }
{
    match stop {
        LoadStop::Short => ServiceStop::ShortOverlay { overlay },
        LoadStop::Failed => ServiceStop::FilesFault,
    }
}

/// Whether an overlay is to be loaded, which stood by one entry of a table and stands by another.
fn is_moved(was: Loaded, now: Loaded) -> bool
    ensures { result ≡ is_moved was now }
{
    now.load != 0 && now.load != was.load
}

/// Loads an overlay if it is to stand at a segment at which it did not stand.
fn load_moved<F: Files>(
    machine: &mut Machine,
    files: &mut F,
    name: &str,
    entry: &OvrEntry,
    was: Loaded,
    now: Loaded,
    block: &mut [u8],
) -> Result<(), LoadStop>
    requires block { length block.old ≡ 512 }
    ensures told { IfSome (F.folder files.old) (λ held. OnOk result
        (machine.new ≡ record machine.old { memory = with_load (bytes_of held name.now) entry.now was now machine.old.memory })) }
    ensures whole { IfSome (F.folder files.old) (λ held. OnOk result
        (IsTrue (is_moved was now) → 0 < entry.now.size → IsWhole (bytes_of held name.now) entry.now)) }
    ensures short { IfSome (F.folder files.old) (λ held. result ≡ Err LoadStop.Short
        → IsTrue (is_moved was now) × IsShort (bytes_of held name.now) entry.now) }
    ensures others { machine.new ≡ record machine.old { memory = machine.new.memory } }
    ensures within { (low high : ℕ) → (IsTrue (is_moved was now) → LiesWithin low high now.load entry.now.size)
        → OnlyWithin low high machine.old.memory machine.new.memory }
    ensures unchanged { F.folder files.new ≡ F.folder files.old }
    ensures counted { F.faults files.old ≤ F.faults files.new }
    ensures failed { result ≡ Err LoadStop.Failed → HasRisen (F.faults files.old) (F.faults files.new) }
{
    if !is_moved(was, now) {
        return Ok(());
    }
    load_overlay(machine, files, name, entry, now.load, block)
}

/// Loads the overlays that are to stand elsewhere by the new table than by the old one.
fn load_all<F: Files>(
    machine: &mut Machine,
    files: &mut F,
    name: &str,
    entries: &[OvrEntry],
    tables: &Tables,
    block: &mut [u8],
) -> Result<(), ServiceStop>
    requires old { length entries.now ≡ length tables.now.old.items }
    requires new { length entries.now ≡ length tables.now.new.items }
    requires few { length entries.now ≤ 256 }
    requires block { length block.old ≡ 512 }
    ensures told { IfSome (F.folder files.old) (λ held. OnOk result (machine.new ≡ record machine.old {
      memory = with_loads (bytes_of held name.now) entries.now tables.now.old.items tables.now.new.items machine.old.memory;
    })) }
    ensures whole { IfSome (F.folder files.old) (λ held. OnOk result
        (AreWhole (bytes_of held name.now) entries.now tables.now.old.items tables.now.new.items)) }
    ensures stop { IfSome (F.folder files.old) (λ held.
        IfErr result (StopsLoading (bytes_of held name.now) entries.now tables.now.old.items tables.now.new.items)) }
    ensures either { IfErr result IsLoadStop }
    ensures others { machine.new ≡ record machine.old { memory = machine.new.memory } }
    ensures within { (low high : ℕ) → LieWithin low high entries.now tables.now.old.items tables.now.new.items
        → OnlyWithin low high machine.old.memory machine.new.memory }
    ensures unchanged { F.folder files.new ≡ F.folder files.old }
    ensures counted { F.faults files.old ≤ F.faults files.new }
    ensures failed { result ≡ Err ServiceStop.FilesFault → HasRisen (F.faults files.old) (F.faults files.new) }
{
    for number in 0..entries.len() {
        let was = tables.old[number];
        let now = tables.new[number];
        match load_moved(machine, files, name, &entries[number], was, now, block) {
            Ok(()) => (),
            Err(stop) => return Err(stop_at(stop, number as u16)),
        }
    }
    Ok(())
}

/// How many overlays are loaded.
pub fn load_count(old: &[Loaded], new: &[Loaded]) -> u32
    requires same { length old.now ≡ length new.now }
    requires few { length old.now ≤ 256 }
    ensures { result ≡ load_count old.now new.now }
{
    let mut count = 0;
    for number in 0..old.len() {
        if is_moved(old[number], new[number]) {
            count += 1;
        }
    }
    count
}

/// Makes live returns follow from one table to another, and gives how many changed. Where loading wrote over the chain of
/// links, none do.
fn follow(machine: &mut Machine, pending: bool, marked: bool, old: &[Loaded], new: &[Loaded]) -> u32
    requires { HaveSameStubs old.now new.now }
    ensures memory { machine.new ≡ record machine.old { memory = followed marked machine.old pending old.now new.now } }
    ensures count { result ≡ followed_count marked machine.old pending old.now new.now }
{
    match repair(machine, pending, marked, old, new) {
        Ok(changed) => changed,
        Err(_) => 0,
    }
}

/// Brings the overlays of a program from the old table to the new one, which these seats make, and gives how many live
/// returns changed.
pub fn bring<F: Files>(
    machine: &mut Machine,
    files: &mut F,
    program: &Program,
    seats: &[Seat],
    pending: bool,
    tables: &Tables,
    block: &mut [u8],
) -> Result<u32, ServiceStop>
    requires stubs { HaveSameStubs tables.now.old.items tables.now.new.items }
    requires old { length program.now.entries ≡ length tables.now.old.items }
    requires new { length program.now.entries ≡ length tables.now.new.items }
    requires few { length program.now.entries ≤ 256 }
    requires block { length block.old ≡ 512 }
    ensures told { IfSome (F.folder files.old) (λ held. OnOk result (machine.new ≡ record machine.old {
      memory =
          with_stubs program.now.stubs.items seats.now 0 tables.now.old.items tables.now.new.items
          (followed program.now.marked (loaded_state (bytes_of held program.now.name) program.now.entries tables.now.old.items tables.now.new.items machine.old)
          pending tables.now.old.items tables.now.new.items);
    })) }
    ensures changed { IfSome (F.folder files.old) (λ held. IfOk result (λ changed. changed
        ≡ followed_count program.now.marked (loaded_state (bytes_of held program.now.name) program.now.entries tables.now.old.items tables.now.new.items machine.old)
        pending tables.now.old.items tables.now.new.items)) }
    ensures whole { IfSome (F.folder files.old) (λ held. OnOk result
        (AreWhole (bytes_of held program.now.name) program.now.entries tables.now.old.items tables.now.new.items)) }
    ensures stop { IfSome (F.folder files.old) (λ held. IfErr result
        (StopsLoading (bytes_of held program.now.name) program.now.entries tables.now.old.items tables.now.new.items)) }
    ensures either { IfErr result IsLoadStop }
    ensures others { machine.new ≡ record machine.old { memory = machine.new.memory } }
    ensures loaded { IfSome (F.folder files.old) (λ held. OnOk result
        ((low high : ℕ) → LieWithin low high program.now.entries tables.now.old.items tables.now.new.items → OnlyWithin low high machine.old.memory
        (loaded_state (bytes_of held program.now.name) program.now.entries tables.now.old.items tables.now.new.items machine.old).memory)) }
    ensures within { OnErr result ((low high : ℕ) → LieWithin low high program.now.entries tables.now.old.items tables.now.new.items
        → OnlyWithin low high machine.old.memory machine.new.memory) }
    ensures unchanged { F.folder files.new ≡ F.folder files.old }
    ensures counted { F.faults files.old ≤ F.faults files.new }
    ensures failed { result ≡ Err ServiceStop.FilesFault → HasRisen (F.faults files.old) (F.faults files.new) }
{
    let name = program.name.as_str();
    load_all(
        machine,
        files,
        name,
        program.entries.as_slice(),
        tables,
        block,
    )?;
    let changed = follow(machine, pending, program.marked, &tables.old, &tables.new);
    set_stubs(machine, seats, &program.stubs, &tables.old, &tables.new);
    Ok(changed)
}
