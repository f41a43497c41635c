//! Bytes between the machine's memory and the outside.

ghost use Rattle.std.specs.Prelude.{◌≡◌, ◌≤◌, ◌<◌, false, length, OnOk, OnErr, IfOk};
ghost use Rattle.std.specs.Io.KnownBytes.{append_known};
ghost use Rattle.tp_outside.specs.Faults.{HasRisen};
ghost use Rattle.tp_outside.specs.Streams.{TakesPrefix};
ghost use Rattle.cpu_8086.specs.Memory.{address, load_byte, store_byte};
ghost use Rattle.cpu_8086.specs.Process.{bytes_at, with_bytes};
ghost use Rattle.dos_runner.specs.Transfer.{ReadPart, ReadLess, ReadBytes};

use cpu_8086::Machine;
use tp_outside::{Failed, Sink, Source, write_all};

/// How many bytes go to a sink or come from a source at once, at the most.
const CHUNK: u16 = 256;

/// The linear address of an offset in a segment.
fn address(segment: u16, offset: u16) -> u32
    ensures value { result ≡ address segment offset }
    ensures inside { result < 1048576 }
{
    (16 * u32::from(segment) + u32::from(offset)) % 0x10_0000
}

#[tactic(auto, unfolding(cpu_8086::specs::Memory::load_byte))]
fn load_byte(machine: &Machine, segment: u16, offset: u16) -> u8
    ensures { result ≡ load_byte machine.now.memory segment offset }
{
    machine.byte(address(segment, offset))
}

#[tactic(auto, unfolding(cpu_8086::specs::Memory::store_byte))]
fn store_byte(machine: &mut Machine, segment: u16, offset: u16, value: u8)
    ensures { machine.new ≡ record machine.old { memory = store_byte machine.old.memory segment offset value } }
{
    machine.set_byte(address(segment, offset), value);
}

/// Copies the bytes from an offset on, which wraps, until `into` is full.
fn gather(machine: &Machine, segment: u16, offset: u16, into: &mut [u8])
    ensures { into.new ≡ bytes_at machine.now.memory segment offset (length into.old) }
{
    let mut place = offset;
    for byte in into.iter_mut() {
        *byte = load_byte(machine, segment, place);
        place = place.wrapping_add(1);
    }
}

/// Writes a part that fits one chunk.
fn write_part<K: Sink>(
    machine: &Machine,
    segment: u16,
    offset: u16,
    size: u16,
    sink: &mut K,
) -> Result<(), Failed>
    requires { size ≤ CHUNK }
    ensures written { OnOk result (K.contents sink.new ≡
        append_known (K.contents sink.old) (bytes_at machine.now.memory segment offset size)) }
    ensures prefix { TakesPrefix (K.contents sink.old) (K.contents sink.new)
        (bytes_at machine.now.memory segment offset size) }
    ensures counted { K.faults sink.old ≤ K.faults sink.new }
    ensures failed { OnErr result (HasRisen (K.faults sink.old) (K.faults sink.new)) }
{
    let mut chunk = [0; CHUNK as usize];
    let part = &mut chunk[..size as usize];
    gather(machine, segment, offset, part);
    write_all(sink, part)
}

/// Writes so many bytes from an offset on, which wraps, to a sink.
pub fn write_bytes<K: Sink>(
    machine: &Machine,
    segment: u16,
    offset: u16,
    count: u16,
    sink: &mut K,
) -> Result<(), Failed>
    ensures written { OnOk result (K.contents sink.new ≡
        append_known (K.contents sink.old) (bytes_at machine.now.memory segment offset count)) }
    ensures prefix { TakesPrefix (K.contents sink.old) (K.contents sink.new)
        (bytes_at machine.now.memory segment offset count) }
    ensures some { OnErr result (0 < count) }
    ensures counted { K.faults sink.old ≤ K.faults sink.new }
    ensures failed { OnErr result (HasRisen (K.faults sink.old) (K.faults sink.new)) }
{
    let mut done = 0;
    while done < count {
        let size = (count - done).min(CHUNK);
        let place = offset.wrapping_add(done);
        write_part(machine, segment, place, size, sink)?;
        done += size;
    }
    Ok(())
}

/// Puts bytes from an offset on, which wraps.
fn scatter(machine: &mut Machine, segment: u16, offset: u16, bytes: &[u8])
    ensures { machine.new ≡ record machine.old {
      memory = with_bytes machine.old.memory segment offset bytes.now;
    } }
{
    let mut place = offset;
    for byte in bytes {
        store_byte(machine, segment, place, *byte);
        place = place.wrapping_add(1);
    }
}

/// Reads at most so many bytes, as many as a chunk has, from a source to an offset on, which wraps. None come only
/// at the source's end, or where none were asked for.
fn read_part<S: Source>(
    machine: &mut Machine,
    segment: u16,
    offset: u16,
    size: u16,
    source: &mut S,
) -> Result<u16, Failed>
    requires { size ≤ CHUNK }
    ensures read { IfOk result (λ count. ReadPart segment offset size machine.old machine.new
        (S.remaining source.old) (S.remaining source.new) count) }
    ensures unchanged { OnErr result (machine.new ≡ machine.old) }
    ensures not_given { OnErr result (S.remaining source.new ≡ S.remaining source.old) }
    ensures counted { S.faults source.old ≤ S.faults source.new }
    ensures failed { OnErr result (HasRisen (S.faults source.old) (S.faults source.new)) }
{
    let mut chunk = [0; CHUNK as usize];
    let part = &mut chunk[..size as usize];
    let count = source.read(part)?;
    scatter(machine, segment, offset, &part[..count]);
    Ok(count as u16)
}

/// Reads so many bytes from a source to an offset on, which wraps, or fewer where the source ends before. A source
/// that is over is not asked.
pub fn read_bytes<S: Source>(
    machine: &mut Machine,
    segment: u16,
    offset: u16,
    count: u16,
    over: &mut bool,
    source: &mut S,
) -> Result<u16, Failed>
    ensures read { IfOk result (λ done. ReadBytes segment offset count machine.old machine.new over.old over.new
        (S.remaining source.old) (S.remaining source.new) done) }
    ensures less { OnErr result (ReadLess count (S.remaining source.old) (S.remaining source.new)) }
    ensures not_over { OnErr result (over.old ≡ false) }
    ensures counted { S.faults source.old ≤ S.faults source.new }
    ensures failed { OnErr result (HasRisen (S.faults source.old) (S.faults source.new)) }
{
    if *over {
        return Ok(0);
    }
    let mut done = 0;
    while done < count {
        let size = (count - done).min(CHUNK);
        let place = offset.wrapping_add(done);
        let part = read_part(machine, segment, place, size, source)?;
        if part == 0 {
            *over = true;
            return Ok(done);
        }
        done += part;
    }
    Ok(done)
}
