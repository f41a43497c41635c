//! The overlays of a program, as the manager keeps them.

ghost use Rattle.std.specs.Prelude.{◌≡◌, ◌+◌, ◌<◌, ◌≤◌, true, false, [], IsOk, IfOk, IfErr, OnOk, OnErr, IfSome, MatchOption, Err, length, map};
ghost use Rattle.std.specs.List.{All};
ghost use Rattle.mz_file.specs.Load.{loaded_segment};
ghost use Rattle.tp_outside.specs.Faults.{HasRisen};
ghost use Rattle.tp_outside.specs.Folder.{bytes_of};
ghost use Rattle.overlay_manager.specs.Clears.{Clears};
ghost use Rattle.overlay_manager.specs.Manager.{Manager, paragraphs_of, loaded_far, with_seats, emptied, sent_out, cleared, cleared_manager};
ghost use Rattle.overlay_manager.specs.Orderly.{IsOrderlyFor};
ghost use Rattle.overlay_manager.specs.Reads.{StubsRead};
ghost use Rattle.overlay_manager.specs.Serves.{Serves, CodeStands, IsStanding, table_after};
ghost use Rattle.overlay_manager.specs.Service.{seats_after, served, served_manager, serviced, serviced_manager};
ghost use Rattle.overlay_manager.specs.Stops.{Stops, StopsServing, StopsShort, FileHas};
ghost use Rattle.overlay_manager.specs.Traps.{trap_of, is_refused};
ghost use Rattle.overlay_manager.specs.declared.serving.ServiceStop.{ServiceStop};
ghost use Rattle.return_repair.specs.Chain.{chain_of};

use crate::program::{Program, copied, loaded_stubs, sizes};
use crate::serving::{ServiceStop, bring, load_count};
use crate::tables::{Tables, load_segment, set_stubs, set_table};
use crate::tally::Tally;
use crate::traps::{Trap, is_refused, refuse, resume, trap_of, trap_place};
use cpu_8086::{Far, Machine, Reg};
use mz_file::Block;
use overlay_file::OvrIndex;
use overlay_ring::Ring;
use return_repair::{BadChain, live, repair};
use std::alloc::{AllocError, Global};
use std::marker::Model;
use tp_outside::Files;
use type_layout::FileName;

/// The overlays of a program: where their file has them, their stubs, and the ring of those in the buffer. No
/// overlay's bytes are kept.
#[derive(Drop)]
pub struct Ovr {
    program: Program,
    error_routine: Far,
    installed: Far,
    ring: Ring,
    room: u16,
    retry: u16,
    tally: Tally,
    tables: Tables,
    block: [u8; 512],
}

impl Model for Ovr {
    ghost use Rattle.std.specs.Prelude.{◌≡◌, ◌≤◌, length, map, vec_capacity};
    ghost use Rattle.overlay_manager.specs.Manager.{Manager, paragraphs_of};

    ghost Value = { Manager };

    ghost view = { λ a. record {
      name = a.program.name;
      entries = a.program.entries;
      stubs = a.program.stubs.items;
      error_routine = a.error_routine;
      installed = a.installed;
      marked = a.program.marked;
      ring = a.ring;
      retry = a.retry;
      tally = a.tally;
    } };

    ghost invariant = { λ a. (length a.program.entries ≡ length a.program.stubs.items)
        × (map paragraphs_of a.program.entries ≡ a.ring.sizes) × (a.ring.room ≡ a.room) × (a.room ≤ 40848)
        × (length a.program.stubs.items ≤ 256)
        × (length a.program.stubs.items ≤ vec_capacity a.tables.old)
        × (length a.program.stubs.items ≤ vec_capacity a.tables.new)
        × (length a.program.stubs.items ≡ length a.tables.live.items) };
}

/// A place of the image as it is loaded.
fn loaded_far(far: Far) -> Far
    ensures { result ≡ loaded_far far }
{
    Far {
        offset: far.offset,
        segment: far.segment.wrapping_add(0x70),
    }
}

impl Ovr {
    /// The overlays of the program that an executable's block tells of, with their index and a buffer of `room`
    /// paragraphs below segment A000h. All are out.
    pub fn new(
        alloc: Global,
        name: FileName,
        index: &OvrIndex,
        block: &Block,
        room: u16,
    ) -> Result<Ovr, AllocError>
        requires same { length index.now ≡ length block.now.stubs }
        requires few { length index.now ≤ 256 }
        requires fit { All (λ entry. (0 < paragraphs_of entry) × (paragraphs_of entry ≤ room)) index.now }
        requires room { room ≤ 40848 }
        ensures { IfOk result (λ ovr. ovr ≡ record {
          name = name;
          entries = index.now;
          stubs = map loaded_segment block.now.stubs;
          error_routine = loaded_far block.now.error_routine;
          installed = loaded_far block.now.installed;
          marked = block.now.marked;
          ring = record { sizes = map paragraphs_of index.now; room = room; seats = [] };
          retry = 0;
          tally = record { loads = 0; patched = 0 };
        }) }
    {
        let sizes = sizes(alloc, index.as_slice())?;
        let program = Program {
            name,
            entries: copied(alloc, index.as_slice())?,
            stubs: loaded_stubs(alloc, block.stubs.as_slice())?,
            marked: block.marked,
        };
        Ok(Ovr {
            program,
            error_routine: loaded_far(block.error_routine),
            installed: loaded_far(block.installed),
            ring: Ring::new(alloc, &sizes, room)?,
            room,
            retry: 0,
            tally: Tally {
                loads: 0,
                patched: 0,
            },
            tables: Tables::with_room(alloc, index.len())?,
            block: [0; 512],
        })
    }

    /// What was done so far.
    pub fn tally(&self) -> Tally
        ensures { result ≡ self.now.tally }
    {
        self.tally
    }

    /// From now on so many paragraphs of overlays that live returns need are kept and moved.
    pub fn set_retry(&mut self, retry: u16)
        ensures { self.new ≡ record self.old { retry = retry } }
    {
        self.retry = retry;
    }

    /// Sends all overlays out: their live returns, a pending one too, go to their stubs, whose entries trap.
    fn send_out(&mut self, machine: &mut Machine) -> Result<(), BadChain>
        ensures machine { OnOk result (machine.new ≡ record machine.old { memory = sent_out self.old machine.old }) }
        ensures ring { OnOk result (self.new ≡ emptied self.old machine.old) }
        ensures sound { OnOk result (IsOk (chain_of self.old.marked machine.old)) }
        ensures bad_chain { IfErr result (λ bad. chain_of self.old.marked machine.old ≡ Err bad.bp) }
        ensures unchanged { OnErr result ((machine.new ≡ machine.old) × (self.new ≡ self.old)) }
    {
        let stubs = self.program.stubs.as_slice();
        set_table(self.room, self.ring.list(), stubs, &mut self.tables.old);
        set_table(self.room, &[], stubs, &mut self.tables.new);
        let marked = self.program.marked;
        let changed = repair(machine, true, marked, &self.tables.old, &self.tables.new)?;
        set_stubs(machine, &[], stubs, &self.tables.old, &self.tables.new);
        self.ring.clear();
        self.tally.add(0, changed);
        Ok(())
    }

    /// Serves a trap that is not refused.
    fn serve<F: Files>(
        &mut self,
        machine: &mut Machine,
        files: &mut F,
        trap: Trap,
    ) -> Result<(), ServiceStop>
        requires { trap.overlay < length self.old.stubs }
        ensures machine { IfSome (F.folder files.old) (λ held. OnOk result
            (machine.new ≡ served self.old (bytes_of held self.old.name) trap machine.old)) }
        ensures manager { IfSome (F.folder files.old) (λ held. OnOk result
            (self.new ≡ served_manager self.old (bytes_of held self.old.name) trap machine.old)) }
        ensures whole { IfSome (F.folder files.old) (λ held. OnOk result
            (FileHas self.old (bytes_of held self.old.name) trap machine.old)) }
        ensures serves { IfSome (F.folder files.old) (λ held. OnOk result (IsOrderlyFor self.old machine.old trap.call
            → Serves self.old (bytes_of held self.old.name) trap machine.old machine.new)) }
        ensures code { IfSome (F.folder files.old) (λ held. OnOk result (IsOrderlyFor self.old machine.old trap.call
            → IsStanding self.old (bytes_of held self.old.name) machine.old.memory
            → CodeStands (bytes_of held self.old.name) self.old.entries (table_after self.old trap machine.old) machine.new.memory)) }
        ensures stubs { IfSome (F.folder files.old) (λ held. OnOk result (IsOrderlyFor self.old machine.old trap.call
            → StubsRead self.old machine.old.memory machine.new.memory (seats_after self.old trap machine.old))) }
        ensures sound { OnOk result (IsOk (chain_of self.old.marked machine.old)) }
        ensures stop { IfErr result (StopsServing self.old trap machine.old machine.new self.new) }
        ensures short { IfSome (F.folder files.old) (λ held. IfErr result
            (StopsShort self.old (bytes_of held self.old.name) trap machine.old)) }
        ensures unchanged { F.folder files.new ≡ F.folder files.old }
        ensures counted { F.faults files.old ≤ F.faults files.new }
        ensures failed { result ≡ Err ServiceStop.FilesFault → HasRisen (F.faults files.old) (F.faults files.new) }
    {
        let saved = machine.load_word(machine.reg(Reg::Cs), 2);
        let stubs = self.program.stubs.as_slice();
        set_table(self.room, self.ring.list(), stubs, &mut self.tables.old);
        live(
            machine,
            trap.call,
            self.program.marked,
            &self.tables.old,
            &mut self.tables.live,
        )?;
        self.ring
            .wanted_retry(trap.overlay, &self.tables.live, self.retry);
        set_table(self.room, self.ring.list(), stubs, &mut self.tables.new);
        match bring(
            machine,
            files,
            &self.program,
            self.ring.list(),
            trap.call,
            &self.tables,
            &mut self.block,
        ) {
            Err(stop) => Err(stop),
            Ok(changed) => {
                let load = load_segment(self.room, self.ring.list(), trap.overlay);
                resume(machine, load, saved, trap);
                self.tally
                    .add(load_count(&self.tables.old, &self.tables.new), changed);
                Ok(())
            }
        }
    }
}

/// Serves the trap of an INT 3Fh, past which the machine stands, in the stub of an overlay: brings the overlay in if it is
/// out, sends others out to make way, and goes on at the routine that was called, or where a return goes on. While the
/// manager isn't installed, a call goes to the error routine with error 208.
pub fn service<F: Files>(
    machine: &mut Machine,
    ovr: &mut Ovr,
    files: &mut F,
) -> Result<(), ServiceStop>
    ensures machine { IfSome (F.folder files.old) (λ held. OnOk result (MatchOption (trap_of ovr.old.stubs machine.old) ⊥
        (λ trap. machine.new ≡ serviced ovr.old (bytes_of held ovr.old.name) trap machine.old))) }
    ensures manager { IfSome (F.folder files.old) (λ held. OnOk result (MatchOption (trap_of ovr.old.stubs machine.old) ⊥
        (λ trap. ovr.new ≡ serviced_manager ovr.old (bytes_of held ovr.old.name) trap machine.old))) }

    // Where live returns, links, stubs and the buffer lie apart, that is a service in the words of its subject.
    ensures serves { IfSome (F.folder files.old) (λ held. OnOk result (IfSome (trap_of ovr.old.stubs machine.old)
        (λ trap. is_refused ovr.old.installed machine.old trap ≡ false → IsOrderlyFor ovr.old machine.old trap.call
        → Serves ovr.old (bytes_of held ovr.old.name) trap machine.old machine.new))) }

    // And the code of each overlay that is loaded then stands, where that of those that were loaded stood.
    ensures code { IfSome (F.folder files.old) (λ held. OnOk result (IfSome (trap_of ovr.old.stubs machine.old)
        (λ trap. is_refused ovr.old.installed machine.old trap ≡ false → IsOrderlyFor ovr.old machine.old trap.call
        → IsStanding ovr.old (bytes_of held ovr.old.name) machine.old.memory
        → CodeStands (bytes_of held ovr.old.name) ovr.old.entries (table_after ovr.old trap machine.old) machine.new.memory))) }

    // And each stub reads as the new table says: entries of loaded overlays jump and others trap, each to its routine.
    ensures stubs { IfSome (F.folder files.old) (λ held. OnOk result (IfSome (trap_of ovr.old.stubs machine.old)
        (λ trap. is_refused ovr.old.installed machine.old trap ≡ false → IsOrderlyFor ovr.old machine.old trap.call
        → StubsRead ovr.old machine.old.memory machine.new.memory (seats_after ovr.old trap machine.old)))) }

    // Each answer other than Ok has its cause.
    ensures stop { IfErr result (Stops ovr.old machine.old machine.new ovr.new) }
    ensures short { IfSome (F.folder files.old) (λ held. IfErr result (λ stop. IfSome (trap_of ovr.old.stubs machine.old)
        (λ trap. StopsShort ovr.old (bytes_of held ovr.old.name) trap machine.old stop))) }
    ensures failed { result ≡ Err ServiceStop.FilesFault → HasRisen (F.faults files.old) (F.faults files.new) }

    // Where the cause is there, it isn't Ok.
    ensures stands { OnOk result (MatchOption (trap_of ovr.old.stubs machine.old) ⊥
        (λ trap. is_refused ovr.old.installed machine.old trap ≡ false → IsOk (chain_of ovr.old.marked machine.old))) }
    ensures whole { IfSome (F.folder files.old) (λ held. OnOk result (IfSome (trap_of ovr.old.stubs machine.old)
        (λ trap. is_refused ovr.old.installed machine.old trap ≡ false → FileHas ovr.old (bytes_of held ovr.old.name) trap machine.old))) }
    ensures unchanged { F.folder files.new ≡ F.folder files.old }
    ensures counted { F.faults files.old ≤ F.faults files.new }
{
    let Some(trap) = trap_of(machine, &ovr.program.stubs) else {
        return Err(ServiceStop::NoStub {
            cs: machine.reg(Reg::Cs),
            ip: trap_place(machine),
        });
    };
    if is_refused(machine, ovr.installed, trap) {
        refuse(machine, ovr.error_routine);
        return Ok(());
    }
    ovr.serve(machine, files, trap)
}

/// Sends all overlays out, as INT 60h asks for, with a return pending; the machine goes on where it stands. Without
/// stubs nothing changes.
pub fn clear_buffer(machine: &mut Machine, ovr: &mut Ovr) -> Result<(), BadChain>
    ensures machine { OnOk result (machine.new ≡ record machine.old { memory = cleared ovr.old machine.old }) }
    ensures ring { OnOk result (ovr.new ≡ cleared_manager ovr.old machine.old) }

    // Where live returns, links, stubs and the buffer lie apart, that is to send all out in the words of its subject.
    ensures clears { OnOk result (0 < length ovr.old.stubs → IsOrderlyFor ovr.old machine.old true
        → Clears ovr.old machine.old machine.new) }

    // The chain of links is bad where that is said, and nothing is changed then.
    ensures bad_chain { IfErr result (λ bad. (chain_of ovr.old.marked machine.old ≡ Err bad.bp) × (0 < length ovr.old.stubs)) }
    ensures sound { OnOk result (0 < length ovr.old.stubs → IsOk (chain_of ovr.old.marked machine.old)) }
    ensures unchanged { OnErr result ((machine.new ≡ machine.old) × (ovr.new ≡ ovr.old)) }
{
    if ovr.program.stubs.is_empty() {
        ovr.ring.clear();
        return Ok(());
    }
    ovr.send_out(machine)
}
