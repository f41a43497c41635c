//! The bytes of stubs, and where their overlays stand in the file.

ghost use Rattle.std.specs.Prelude.{◌≡◌, ◌+◌, ◌*◌, ◌<◌, ◌++◌, ◌∷◌, [], IfOk, OnOk, length};
ghost use Rattle.mz_file.specs.Words.{bytes_of_words};
ghost use Rattle.overlay_file.specs.Index.{entry_of, entry_end, index_of};
ghost use Rattle.link_layout.specs.StubBytes.{entry_bytes, field_bytes, stub_bytes};

use byteorder::{ByteOrder, LittleEndian};
use overlay_file::{OverlayCode8086, OvrEntry, OvrIndex};
use std::alloc::{AllocError, Global};
use type_layout::Bytes;

/// Appends a word, its low byte first.
fn push_word(bytes: &mut Bytes, word: u16) -> Result<(), AllocError>
    ensures { OnOk result (bytes.new ≡ bytes.old ++ bytes_of_words (word ∷ [])) }
{
    let mut pair = [0; 2];
    LittleEndian::write_u16(&mut pair, word);
    bytes.extend_from_slice(&pair)
}

fn push_words(bytes: &mut Bytes, words: &[u16]) -> Result<(), AllocError>
    ensures { OnOk result (bytes.new ≡ bytes.old ++ bytes_of_words words.now) }
{
    for word in words {
        push_word(bytes, *word)?;
    }
    Ok(())
}

fn push_fields(bytes: &mut Bytes, entry: &OvrEntry, entries: u16) -> Result<(), AllocError>
    ensures { OnOk result (bytes.new ≡ bytes.old ++ field_bytes entry.now entries) }
{
    push_words(
        bytes,
        &[
            0x3FCD,
            0,
            (entry.place % 0x1_0000) as u16,
            (entry.place / 0x1_0000) as u16,
            entry.size,
            entry.fixups,
            entries,
            0,
            0,
        ],
    )?;
    bytes.extend_from_slice(&[0; 14])
}

fn push_entry(bytes: &mut Bytes, offset: u16) -> Result<(), AllocError>
    ensures { OnOk result (bytes.new ≡ bytes.old ++ entry_bytes offset) }
{
    push_words(bytes, &[0x3FCD, offset])?;
    bytes.push(0)
}

/// Appends the stub of an overlay that is out, with an entry for each of its routines that begin at these offsets; their
/// number is a word.
pub fn push_stub(bytes: &mut Bytes, entry: &OvrEntry, offsets: &[u16]) -> Result<(), AllocError>
    requires { length offsets.now < 65536 }
    ensures { OnOk result (bytes.new ≡ bytes.old ++ stub_bytes entry.now offsets.now) }
{
    push_fields(bytes, entry, offsets.len() as u16)?;
    for offset in offsets {
        push_entry(bytes, *offset)?;
    }
    Ok(())
}

/// The entry of an overlay whose name begins at a place of the file, and where the next name begins; fails where a place
/// passes 32 bits, or a count 16.
fn entry_of(at: u32, overlay: &OverlayCode8086) -> Result<(OvrEntry, u32), AllocError>
    ensures entry { IfOk result (λ given. given.0 ≡ entry_of at overlay.now) }
    ensures end { IfOk result (λ given. given.1 ≡ entry_end (entry_of at overlay.now)) }
{
    let size = overlay.code.len();
    let fixups = overlay.fixups.len();
    if size > 0xFFFF || fixups > 0xFFFF {
        return Err(AllocError);
    }
    let name = overlay.name.as_bytes().len() as u32;
    let front = at.checked_add(5).ok_or(AllocError)?;
    let place = front.checked_add(name).ok_or(AllocError)?;
    let code_end = place.checked_add(size as u32).ok_or(AllocError)?;
    let end = code_end.checked_add(2 * fixups as u32).ok_or(AllocError)?;
    let entry = OvrEntry {
        name: overlay.name.copied(),
        place,
        size: size as u16,
        fixups: fixups as u16,
    };
    Ok((entry, end))
}

/// Where the file of these overlays has each of them.
pub fn index_of(alloc: Global, overlays: &[OverlayCode8086]) -> Result<OvrIndex, AllocError>
    ensures { IfOk result (λ index. index ≡ index_of overlays.now) }
{
    let mut index = OvrIndex::new(alloc);
    let mut at = 8;
    for overlay in overlays {
        let (entry, end) = entry_of(at, overlay)?;
        index.push(entry)?;
        at = end;
    }
    Ok(index)
}
