//! Loading the code of an overlay.

ghost use Rattle.std.specs.Prelude.{◌≡◌, ℕ, ◌+◌, ◌*◌, ◌^◌, ◌<◌, ◌≤◌, length, IfSome, OnOk, Err};
ghost use Rattle.cpu_8086.specs.Process.{with_bytes};
ghost use Rattle.tp_outside.specs.Faults.{HasRisen};
ghost use Rattle.tp_outside.specs.Folder.{bytes_of};
ghost use Rattle.mz_file.specs.Words.{words_at};
ghost use Rattle.overlay_manager.specs.Code.{part_of, fixups_at, with_fixup, with_fixups, with_code};
ghost use Rattle.overlay_manager.specs.Loading.{IsWhole, IsShort, LiesWithin, OnlyWithin};

use crate::filling::{LoadStop, fill};
use cpu_8086::Machine;
use overlay_file::OvrEntry;
use tp_outside::Files;

/// The segment where the image stands.
const IMAGE: u16 = 0x70;

/// Puts bytes into a segment from an offset on.
fn put_bytes(machine: &mut Machine, segment: u16, offset: u16, bytes: &[u8])
    requires { length bytes.now ≤ 512 }
    ensures { machine.new ≡ record machine.old { memory = with_bytes machine.old.memory segment offset bytes.now } }
{
    let mut at = offset;
    for byte in bytes {
        machine.store_byte(segment, at, *byte);
        at = at.wrapping_add(1);
    }
}

/// Makes a fixup of code of this size.
fn make_fixup(machine: &mut Machine, segment: u16, size: u16, fixup: u16)
    ensures { machine.new ≡ record machine.old { memory = with_fixup size segment machine.old.memory fixup } }
{
    if u32::from(fixup) + 2 <= u32::from(size) {
        let word = machine.load_word(segment, fixup);
        machine.store_word(segment, fixup, word.wrapping_add(IMAGE));
    }
}

/// Makes the fixups whose words these bytes are.
fn make_fixups(machine: &mut Machine, segment: u16, size: u16, bytes: &[u8], count: usize)
    requires { 2 * count ≤ length bytes.now }
    ensures { machine.new ≡ record machine.old { memory = with_fixups size segment machine.old.memory (words_at bytes.now 0 count) } }
{
    for k in 0..count {
        let fixup = bytes[2 * k] as u16 + 256 * bytes[2 * k + 1] as u16;
        make_fixup(machine, segment, size, fixup);
    }
}

/// Reads the code of an overlay from its place in the file into a segment, through a block.
fn load_code<F: Files>(
    machine: &mut Machine,
    files: &mut F,
    name: &str,
    entry: &OvrEntry,
    segment: u16,
    block: &mut [u8],
) -> Result<(), LoadStop>
    requires block { length block.old ≡ 512 }
    ensures told { IfSome (F.folder files.old) (λ held. OnOk result
        (machine.new ≡ record machine.old {
          memory =
              with_bytes machine.old.memory segment 0 (part_of (bytes_of held name.now) entry.now.place entry.now.size);
        })) }
    ensures whole { IfSome (F.folder files.old) (λ held. OnOk result
        (0 < entry.now.size → entry.now.place + entry.now.size ≤ length (bytes_of held name.now))) }
    ensures short { IfSome (F.folder files.old) (λ held. result ≡ Err LoadStop.Short
        → length (bytes_of held name.now) < entry.now.place + entry.now.size) }
    ensures others { machine.new ≡ record machine.old { memory = machine.new.memory } }
    ensures within { (low high : ℕ) → LiesWithin low high segment entry.now.size
        → OnlyWithin low high machine.old.memory machine.new.memory }
    ensures unchanged { F.folder files.new ≡ F.folder files.old }
    ensures counted { F.faults files.old ≤ F.faults files.new }
    ensures failed { result ≡ Err LoadStop.Failed → HasRisen (F.faults files.old) (F.faults files.new) }
{
    let place = u64::from(entry.place);
    let size = usize::from(entry.size);
    let mut done = 0;
    while done < size {
        let count = (size - done).min(512);
        fill(files, name, place + done as u64, &mut block[..count])?;
        put_bytes(machine, segment, done as u16, &block[..count]);
        done += count;
    }
    Ok(())
}

/// Reads so many fixups of code of this size from a place in the file, through a block, and makes each.
fn load_fixups<F: Files>(
    machine: &mut Machine,
    files: &mut F,
    name: &str,
    place: u64,
    size: u16,
    fixups: u16,
    segment: u16,
    block: &mut [u8],
) -> Result<(), LoadStop>
    requires place { place < 2 ^ 40 }
    requires block { length block.old ≡ 512 }
    ensures told { IfSome (F.folder files.old) (λ held. OnOk result
        (machine.new ≡ record machine.old {
          memory =
              with_fixups size segment machine.old.memory (words_at (bytes_of held name.now) place fixups);
        })) }
    ensures whole { IfSome (F.folder files.old) (λ held. OnOk result
        (0 < fixups → place + 2 * fixups ≤ length (bytes_of held name.now))) }
    ensures short { IfSome (F.folder files.old) (λ held. result ≡ Err LoadStop.Short
        → length (bytes_of held name.now) < place + 2 * fixups) }
    ensures others { machine.new ≡ record machine.old { memory = machine.new.memory } }
    ensures within { (low high : ℕ) → LiesWithin low high segment size
        → OnlyWithin low high machine.old.memory machine.new.memory }
    ensures unchanged { F.folder files.new ≡ F.folder files.old }
    ensures counted { F.faults files.old ≤ F.faults files.new }
    ensures failed { result ≡ Err LoadStop.Failed → HasRisen (F.faults files.old) (F.faults files.new) }
{
    let all = usize::from(fixups);
    let mut done = 0;
    while done < all {
        let count = (all - done).min(256);
        fill(
            files,
            name,
            place + 2 * done as u64,
            &mut block[..2 * count],
        )?;
        make_fixups(machine, segment, size, &block[..2 * count], count);
        done += count;
    }
    Ok(())
}

/// Loads an overlay from the file: its code stands then at the segment, with its fixups made.
pub fn load_overlay<F: Files>(
    machine: &mut Machine,
    files: &mut F,
    name: &str,
    entry: &OvrEntry,
    segment: u16,
    block: &mut [u8],
) -> Result<(), LoadStop>
    requires block { length block.old ≡ 512 }
    ensures told { IfSome (F.folder files.old) (λ held. OnOk result
        (machine.new ≡ record machine.old { memory = with_code machine.old.memory segment entry.now (bytes_of held name.now) })) }
    ensures whole { IfSome (F.folder files.old) (λ held. OnOk result
        (0 < entry.now.size → IsWhole (bytes_of held name.now) entry.now)) }
    ensures short { IfSome (F.folder files.old) (λ held. result ≡ Err LoadStop.Short
        → IsShort (bytes_of held name.now) entry.now) }

    // Whatever comes, only bytes of the segment differ where the code is to stand.
    ensures others { machine.new ≡ record machine.old { memory = machine.new.memory } }
    ensures within { (low high : ℕ) → LiesWithin low high segment entry.now.size
        → OnlyWithin low high machine.old.memory machine.new.memory }
    ensures unchanged { F.folder files.new ≡ F.folder files.old }
    ensures counted { F.faults files.old ≤ F.faults files.new }
    ensures failed { result ≡ Err LoadStop.Failed → HasRisen (F.faults files.old) (F.faults files.new) }
{
    let fixups = u64::from(entry.place) + u64::from(entry.size);
    load_code(machine, files, name, entry, segment, block)?;
    load_fixups(
        machine,
        files,
        name,
        fixups,
        entry.size,
        entry.fixups,
        segment,
        block,
    )
}
