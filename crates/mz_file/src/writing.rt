//! Writing an executable file.

ghost use Rattle.std.specs.Prelude.{◌≡◌, ◌+◌, ◌*◌, ◌<◌, ◌++◌, [], ◌∷◌, IfOk, OnOk, length, replicate};
ghost use Rattle.mz_file.specs.Format.{letters_X, Denotes};
ghost use Rattle.mz_file.specs.Spelling.{relocation_place, relocation_end, header_paragraphs, file_size, header_words, spelling, IsWritable};
ghost use Rattle.mz_file.specs.Words.{bytes_of_words, words_of_fars};

use crate::executable::Exe;
use byteorder::{ByteOrder, LittleEndian};
use cpu_8086::Far;
use std::alloc::{AllocError, Global};
use type_layout::Bytes;

/// How many words the header has up to the stub segments.
const HEADER_WORDS: usize = 27;

/// Appends a word, its low byte first.
fn push_word(bytes: &mut Bytes, word: u16) -> Result<(), AllocError>
    ensures { OnOk result (bytes.new ≡ bytes.old ++ bytes_of_words (word ∷ [])) }
{
    let mut pair = [0; 2];
    LittleEndian::write_u16(&mut pair, word);
    bytes.extend_from_slice(&pair)
}

fn push_words(bytes: &mut Bytes, words: &[u16]) -> Result<(), AllocError>
    ensures { OnOk result (bytes.new ≡ bytes.old ++ bytes_of_words words.now) }
{
    for word in words {
        push_word(bytes, *word)?;
    }
    Ok(())
}

fn push_fars(bytes: &mut Bytes, fars: &[Far]) -> Result<(), AllocError>
    ensures { OnOk result (bytes.new ≡ bytes.old ++ bytes_of_words (words_of_fars fars.now)) }
{
    for far in fars {
        push_word(bytes, far.offset)?;
        push_word(bytes, far.segment)?;
    }
    Ok(())
}

fn push_zeros(bytes: &mut Bytes, count: usize) -> Result<(), AllocError>
    ensures { OnOk result (bytes.new ≡ bytes.old ++ replicate count 0) }
{
    for _ in 0..count {
        bytes.push(0)?;
    }
    Ok(())
}

/// Where the last relocation ends.
fn end_of_relocations(exe: &Exe) -> usize
    requires { IsWritable exe.now }
    ensures { result ≡ relocation_end exe.now }
{
    0x36 + 2 * exe.block.stubs.len() + 4 * exe.relocations.len()
}

/// The letters X1, or X2 where frames are marked.
fn letters(marked: bool) -> u16
    ensures { result ≡ letters_X marked }
{
    if marked { 0x3258 } else { 0x3158 }
}

/// The words of the header up to the stub segments.
fn header(exe: &Exe) -> [u16; HEADER_WORDS]
    requires { IsWritable exe.now }
    ensures { result ≡ header_words exe.now }
{
    let paragraphs = (end_of_relocations(exe) + 15) / 16;
    let size = 16 * paragraphs + exe.image.len();
    let block = &exe.block;
    let heap = block.heap;
    [
        0x5A4D,
        (size % 512) as u16,
        ((size + 511) / 512) as u16,
        exe.relocations.len() as u16,
        paragraphs as u16,
        exe.extra,
        exe.extra,
        exe.stack.segment,
        exe.stack.offset,
        0,
        exe.entry.offset,
        exe.entry.segment,
        (0x36 + 2 * block.stubs.len()) as u16,
        0,
        0x5054,
        letters(block.marked),
        block.stubs.len() as u16,
        block.largest,
        block.error_routine.offset,
        block.error_routine.segment,
        block.installed.offset,
        block.installed.segment,
        block.stack,
        (heap % 0x1_0000) as u16,
        (heap / 0x1_0000) as u16,
        block.data_segment,
        block.data_bytes,
    ]
}

/// The bytes of an executable file that stands for this value. The relocations come right behind the block, and
/// the header is filled with zeros to a paragraph.
pub fn write_exe(alloc: Global, exe: &Exe) -> Result<Bytes, AllocError>
    requires { IsWritable exe.now }
    ensures exact { IfOk result (λ bytes. bytes ≡ spelling exe.now) }
    ensures denotes { IfOk result (λ bytes. Denotes bytes exe.now) }
{
    let end = end_of_relocations(exe);
    let padding = (end + 15) / 16 * 16 - end;
    let mut bytes = Bytes::new(alloc);
    push_words(&mut bytes, &header(exe))?;
    push_words(&mut bytes, exe.block.stubs.as_slice())?;
    push_fars(&mut bytes, exe.relocations.as_slice())?;
    push_zeros(&mut bytes, padding)?;
    bytes.extend_from_slice(exe.image.as_slice())?;
    Ok(bytes)
}
