//! Reading an executable file.

ghost use Rattle.std.specs.Prelude.{◌≡◌, ◌+◌, ◌*◌, ◌<◌, ◌≤◌, ◌↔◌, All, IfErr, IfOk, IsTrue, MatchOption, MatchResult, length};
ghost use Rattle.mz_file.specs.Cause.{IsCause, IsFirstOutside, IsRefusal};
ghost use Rattle.mz_file.specs.Format.{said_size, header_size, image_of, relocations_of, block_of, IsWithin, IsLong, HasPages, HasBlock, IsExecutable, Denotes};
ghost use Rattle.mz_file.specs.Load.{IsLoadable};
ghost use Rattle.mz_file.specs.Words.{word_at, far_at, words_at, fars_at};

use crate::cause::{ExeCause, ExeError};
use crate::executable::{Block, Exe, FarList, Segments};
use cpu_8086::Far;
use std::alloc::{AllocError, Global};
use type_layout::Bytes;

/// The word at a place.
fn word(bytes: &[u8], place: usize) -> u16
    requires { place + 2 ≤ length bytes.now }
    ensures { result ≡ word_at bytes.now place }
{
    bytes[place] as u16 + 256 * bytes[place + 1] as u16
}

/// The far pointer at a place.
fn far(bytes: &[u8], place: usize) -> Far
    requires { place + 4 ≤ length bytes.now }
    ensures { result ≡ far_at bytes.now place }
{
    Far {
        offset: word(bytes, place),
        segment: word(bytes, place + 2),
    }
}

/// How many bytes the header says that the file has.
fn size_said(bytes: &[u8]) -> usize
    requires { 28 ≤ length bytes.now }
    ensures said { result ≡ said_size bytes.now }
    ensures bound { word_at bytes.now 0x02 ≤ 511 → result ≤ 512 * 65535 }
{
    let pages = word(bytes, 0x04) as usize;
    if pages == 0 {
        return 0;
    }
    let last = word(bytes, 0x02) as usize;
    512 * (pages - 1) + if last == 0 { 512 } else { last }
}

fn has_pages(bytes: &[u8]) -> bool
    requires { 28 ≤ length bytes.now }
    ensures { IsTrue result ↔ HasPages bytes.now }
{
    let said = size_said(bytes);
    let relocations = word(bytes, 0x18) as usize + 4 * word(bytes, 0x06) as usize;
    word(bytes, 0x02) <= 511
        && word(bytes, 0x04) != 0
        && 16 * word(bytes, 0x08) as usize <= said
        && relocations <= said
}

fn has_block(bytes: &[u8]) -> bool
    requires long { IsLong bytes.now }
    requires pages { HasPages bytes.now }
    ensures { IsTrue result ↔ HasBlock bytes.now }
{
    let header = 16 * word(bytes, 0x08) as usize;
    if header < 0x36 {
        return false;
    }
    let end = 0x36 + 2 * word(bytes, 0x20) as usize;
    word(bytes, 0x1C) == 0x5054
        && (word(bytes, 0x1E) == 0x3158 || word(bytes, 0x1E) == 0x3258)
        && word(bytes, 0x20) <= 256
        && end <= header
        && end <= word(bytes, 0x18) as usize
}

/// The number of the first relocation that isn't within the image.
fn relocation_outside(bytes: &[u8]) -> Option<u32>
    requires long { IsLong bytes.now }
    requires pages { HasPages bytes.now }
    ensures { MatchOption result (All (IsWithin (length (image_of bytes.now))) (relocations_of bytes.now))
        (IsFirstOutside (length (image_of bytes.now)) (relocations_of bytes.now)) }
{
    let size = size_said(bytes) - 16 * word(bytes, 0x08) as usize;
    let place = word(bytes, 0x18) as usize;
    for number in 0..word(bytes, 0x06) as usize {
        let far = far(bytes, place + 4 * number);
        if size < 16 * far.segment as usize + far.offset as usize + 2 {
            return Some(number as u32);
        }
    }
    None
}

/// Whether the bytes are an executable file, or why not: the first of the format's rules that fails.
pub fn check_exe(bytes: &[u8]) -> Result<(), ExeCause>
    ensures { MatchResult result (λ _. IsExecutable bytes.now) (IsCause bytes.now) }
{
    if bytes.len() < 28 || bytes.len() < size_said(bytes) {
        return Err(ExeCause::Short);
    }
    if word(bytes, 0x00) != 0x5A4D {
        return Err(ExeCause::NotMz);
    }
    if !has_pages(bytes) {
        return Err(ExeCause::BadPages);
    }
    if let Some(number) = relocation_outside(bytes) {
        return Err(ExeCause::BadRelocation { number });
    }
    if !has_block(bytes) {
        return Err(ExeCause::NoBlock);
    }
    Ok(())
}

/// So many words from a place on.
fn read_words(
    alloc: Global,
    bytes: &[u8],
    place: usize,
    count: usize,
) -> Result<Segments, AllocError>
    requires { place + 2 * count ≤ length bytes.now }
    ensures { IfOk result (λ words. words ≡ words_at bytes.now place count) }
{
    let mut words = Segments::new(alloc);
    for index in 0..count {
        words.push(word(bytes, place + 2 * index))?;
    }
    Ok(words)
}

/// So many far pointers from a place on.
fn read_fars(alloc: Global, bytes: &[u8], place: usize, count: usize) -> Result<FarList, AllocError>
    requires { place + 4 * count ≤ length bytes.now }
    ensures { IfOk result (λ fars. fars ≡ fars_at bytes.now place count) }
{
    let mut fars = FarList::new(alloc);
    for index in 0..count {
        fars.push(far(bytes, place + 4 * index))?;
    }
    Ok(fars)
}

/// The block for the runner.
fn read_block(alloc: Global, bytes: &[u8]) -> Result<Block, AllocError>
    requires long { 0x36 ≤ length bytes.now }
    requires stubs { 0x36 + 2 * word_at bytes.now 0x20 ≤ length bytes.now }
    ensures { IfOk result (λ block. block ≡ block_of bytes.now) }
{
    Ok(Block {
        stubs: read_words(alloc, bytes, 0x36, word(bytes, 0x20) as usize)?,
        largest: word(bytes, 0x22),
        error_routine: far(bytes, 0x24),
        installed: far(bytes, 0x28),
        stack: word(bytes, 0x2C),
        heap: word(bytes, 0x2E) as u32 + 0x1_0000 * word(bytes, 0x30) as u32,
        data_segment: word(bytes, 0x32),
        data_bytes: word(bytes, 0x34),
        marked: word(bytes, 0x1E) == 0x3258,
    })
}

/// The image, which follows the header up to the size that the pages say.
fn read_image(alloc: Global, bytes: &[u8]) -> Result<Bytes, AllocError>
    requires long { IsLong bytes.now }
    requires pages { HasPages bytes.now }
    ensures image { IfOk result (λ image. image ≡ image_of bytes.now) }
    ensures bound { IfOk result (λ image. length image ≤ 512 * 65535) }
{
    let header = 16 * word(bytes, 0x08) as usize;
    Bytes::from_slice(alloc, &bytes[header..size_said(bytes)])
}

/// The value that the bytes of an executable file stand for. What lies past the size that the pages say is not
/// looked at.
pub fn read_exe(alloc: Global, bytes: &[u8]) -> Result<Exe, ExeError>
    ensures read { IfOk result (Denotes bytes.now) }
    ensures loadable { IfOk result IsLoadable }
    ensures refused { IfErr result (IsRefusal bytes.now) }
{
    check_exe(bytes)?;
    Ok(Exe {
        image: read_image(alloc, bytes)?,
        relocations: read_fars(
            alloc,
            bytes,
            word(bytes, 0x18) as usize,
            word(bytes, 0x06) as usize,
        )?,
        entry: far(bytes, 0x14),
        stack: Far {
            offset: word(bytes, 0x10),
            segment: word(bytes, 0x0E),
        },
        extra: word(bytes, 0x0A),
        block: read_block(alloc, bytes)?,
    })
}
