//! Reading an overlay file.

ghost use Rattle.std.specs.Prelude.{◌≡◌, ◌+◌, ◌*◌, ◌≤◌, ◌<◌, ◌==◌, ◌^◌, List, IfOk, Ok, length, slice_range};
ghost use Rattle.type_layout.specs.Words.{IsName};
ghost use Rattle.overlay_file.specs.declared.overlay.OverlayCode8086.{OverlayCode8086};
ghost use Rattle.overlay_file.specs.Format.{AreOverlays, spelling};
ghost use Rattle.overlay_file.specs.Index.{index_of, overlays_of, entry_end};
ghost use Rattle.overlay_file.specs.Parts.{Gives, free_byte, free_word, free_bytes, byte_where, word_where};
ghost use Rattle.overlay_file.specs.Reading.{is_name_length, is_code_size, is_overlay_count, stands_in_name, name_from, name_at, fixups_from, entry_at, entries_from, stands_as_fixup, letters_at, count_at, reading};

use crate::error::OvrError;
use crate::overlay::{OvrEntry, OvrIndex};
use std::alloc::Global;
use type_layout::Name;

/// The bytes of the longest overlay's code.
const CODE_LIMIT: u16 = 65520;

/// The longest overlay in a file: its name, sizes, code and fixups.
const OVERLAY_LIMIT: usize = 5 + 63 + 65520 + 2 * 65535;

fn damaged<T>(at: usize) -> Result<T, OvrError>
    ensures { result ≡ Err (OvrError.Damaged at) }
{
    Err(OvrError::Damaged { at: at as u64 })
}

/// The byte at a place.
#[tactic(auto, unfolding(crate::specs::Parts::free_byte))]
fn byte(bytes: &[u8], at: usize) -> Result<u8, OvrError>
    requires { at < 2 ^ 62 }
    ensures { Gives (λ byte. byte) result (free_byte bytes.now at) }
{
    if bytes.len() < at + 1 {
        return damaged(bytes.len());
    }
    Ok(bytes[at])
}

/// The word at a place, its low byte first.
#[tactic(auto, unfolding(crate::specs::Parts::free_word))]
fn word(bytes: &[u8], at: usize) -> Result<u16, OvrError>
    requires { at < 2 ^ 62 }
    ensures { Gives (λ word. word) result (free_word bytes.now at) }
{
    if bytes.len() < at + 2 {
        return damaged(bytes.len());
    }
    Ok(bytes[at] as u16 + 256 * bytes[at + 1] as u16)
}

fn letter(bytes: &[u8], at: usize, letter: u8) -> Result<u8, OvrError>
    requires { at < 2 ^ 62 }
    ensures { Gives (λ byte. byte) result (byte_where (λ byte. byte == letter) bytes.now at) }
{
    let byte = byte(bytes, at)?;
    if byte != letter {
        return damaged(at);
    }
    Ok(byte)
}

/// Whether a byte may be byte `k` of a name.
fn stands_in_name(k: usize, byte: u8) -> bool
    ensures { result ≡ stands_in_name k byte }
{
    (byte.is_ascii_uppercase() || byte == b'_' || byte.is_ascii_digit())
        && !(k == 0 && byte.is_ascii_digit())
}

/// Byte `k` of a name.
fn name_byte(bytes: &[u8], at: usize, k: usize) -> Result<u8, OvrError>
    requires { at < 2 ^ 62 }
    ensures { Gives (λ byte. byte) result (byte_where (stands_in_name k) bytes.now at) }
{
    let byte = byte(bytes, at)?;
    if !stands_in_name(k, byte) {
        return damaged(at);
    }
    Ok(byte)
}

/// Whether so many bytes from a place on are a name: the place behind them.
fn name_end(bytes: &[u8], at: usize, size: usize) -> Result<usize, OvrError>
    requires place { at < 2 ^ 40 }
    requires short { size < 64 }
    ensures { Gives (λ behind. behind) result (name_from 0 size bytes.now at) }
{
    for k in 0..size {
        name_byte(bytes, at + k, k)?;
    }
    Ok(at + size)
}

fn name_length(bytes: &[u8], at: usize) -> Result<u8, OvrError>
    requires { at < 2 ^ 62 }
    ensures { Gives (λ size. size) result (byte_where is_name_length bytes.now at) }
{
    let size = byte(bytes, at)?;
    if size == 0 || size > 63 {
        return damaged(at);
    }
    Ok(size)
}

/// The name that stands between two places.
fn name_between(bytes: &[u8], from: usize, to: usize) -> Name
    requires order { from ≤ to }
    requires inside { to ≤ length bytes.now }
    requires name { IsName (slice_range bytes.now from to) }
    ensures { result ≡ slice_range bytes.now from to }
{
    match Name::new(&bytes[from..to]) {
        Some(name) => name,
        None => unreachable!(),
    }
}

/// The name whose length stands at a place.
#[tactic(auto, unfolding(crate::specs::Reading::name_at))]
fn name(bytes: &[u8], at: usize) -> Result<Name, OvrError>
    requires { at < 2 ^ 39 }
    ensures { Gives (λ name. name) result (name_at bytes.now at) }
{
    let size = usize::from(name_length(bytes, at)?);
    let behind = name_end(bytes, at + 1, size)?;
    Ok(name_between(bytes, at + 1, behind))
}

fn code_size(bytes: &[u8], at: usize) -> Result<u16, OvrError>
    requires { at < 2 ^ 62 }
    ensures { Gives (λ size. size) result (word_where is_code_size bytes.now at) }
{
    let size = word(bytes, at)?;
    if size == 0 || size > CODE_LIMIT {
        return damaged(at);
    }
    Ok(size)
}

/// Where the code ends.
#[tactic(auto, unfolding(crate::specs::Parts::free_bytes))]
fn code_end(bytes: &[u8], at: usize, size: u16) -> Result<usize, OvrError>
    requires { at < 2 ^ 40 }
    ensures read { Gives (λ behind. behind) result (free_bytes size bytes.now at) }
    ensures bound { IfOk result (λ behind. behind ≤ at + size) }
{
    let behind = at + usize::from(size);
    if bytes.len() < behind {
        return damaged(bytes.len());
    }
    Ok(behind)
}

/// A fixup of code of this size.
fn fixup(bytes: &[u8], at: usize, size: u16, least: u32) -> Result<u16, OvrError>
    requires { at < 2 ^ 62 }
    ensures { Gives (λ fixup. fixup) result (word_where (stands_as_fixup size least) bytes.now at) }
{
    let fixup = word(bytes, at)?;
    if u32::from(fixup) < least || u32::from(fixup) + 2 > u32::from(size) {
        return damaged(at);
    }
    Ok(fixup)
}

/// Whether so many fixups from a place on fit code of this size: the place behind them.
fn fixups_end(bytes: &[u8], at: usize, size: u16, count: u16) -> Result<usize, OvrError>
    requires { at < 2 ^ 41 }
    ensures { Gives (λ behind. behind) result (fixups_from size 0 count bytes.now at) }
{
    let mut least = 0;
    let mut place = at;
    for _ in 0..count {
        let fixup = fixup(bytes, place, size, least)?;
        least = u32::from(fixup) + 2;
        place += 2;
    }
    Ok(place)
}

/// The overlay whose name begins at a place.
#[tactic(auto, unfolding(crate::specs::Reading::entry_at))]
fn entry(bytes: &[u8], at: usize) -> Result<OvrEntry, OvrError>
    requires { at < 2 ^ 31 }
    ensures read { Gives (λ entry. entry) result (entry_at bytes.now at) }
    ensures bound { IfOk result (λ entry. entry_end entry ≤ at + OVERLAY_LIMIT) }
{
    let name = name(bytes, at)?;
    let length = name.as_bytes().len();
    let size = code_size(bytes, at + 1 + length)?;
    let fixups = word(bytes, at + 3 + length)?;
    let behind = code_end(bytes, at + 5 + length, size)?;
    fixups_end(bytes, behind, size, fixups)?;
    Ok(OvrEntry {
        name,
        place: (at + 5 + length) as u32,
        size,
        fixups,
    })
}

/// The place behind an overlay whose code begins at a place.
fn overlay_end(place: u32, size: u16, fixups: u16) -> usize
    ensures { result ≡ place + size + 2 * fixups }
{
    place as usize + usize::from(size) + 2 * usize::from(fixups)
}

/// The overlays, and the place behind them.
fn entries(alloc: Global, bytes: &[u8], count: u16) -> Result<(OvrIndex, usize), OvrError>
    requires { count ≤ 256 }
    ensures { Gives (λ read. (read.0, read.1)) result (entries_from count bytes.now 8) }
{
    let mut index = OvrIndex::new(alloc);
    let mut at = 8;
    for _ in 0..count {
        let entry = entry(bytes, at)?;
        at = overlay_end(entry.place, entry.size, entry.fixups);
        index.push(entry)?;
    }
    Ok((index, at))
}

/// Whether the four letters stand in front.
#[tactic(auto, unfolding(crate::specs::Reading::letters_at))]
fn letters(bytes: &[u8]) -> Result<(), OvrError>
    ensures { Gives (λ _. 4) result (letters_at bytes.now) }
{
    letter(bytes, 0, b'T')?;
    letter(bytes, 1, b'O')?;
    letter(bytes, 2, b'V')?;
    letter(bytes, 3, b'1')?;
    Ok(())
}

fn version(bytes: &[u8], at: usize) -> Result<u16, OvrError>
    requires { at < 2 ^ 62 }
    ensures { Gives (λ version. version) result (word_where (λ version. version == 1) bytes.now at) }
{
    let version = word(bytes, at)?;
    if version != 1 {
        return damaged(at);
    }
    Ok(version)
}

fn overlay_count(bytes: &[u8], at: usize) -> Result<u16, OvrError>
    requires { at < 2 ^ 62 }
    ensures read { Gives (λ count. count) result (word_where is_overlay_count bytes.now at) }
    ensures few { IfOk result (λ count. count ≤ 256) }
{
    let count = word(bytes, at)?;
    if count == 0 || count > 256 {
        return damaged(at);
    }
    Ok(count)
}

/// How many overlays the file says that it has.
#[tactic(auto, unfolding(crate::specs::Reading::count_at))]
fn said_count(bytes: &[u8]) -> Result<u16, OvrError>
    ensures read { Gives (λ count. count) result (count_at bytes.now) }
    ensures few { IfOk result (λ count. count ≤ 256) }
{
    letters(bytes)?;
    version(bytes, 4)?;
    overlay_count(bytes, 6)
}

/// The index of the file, where nothing follows its last overlay.
#[tactic(auto, unfolding(crate::specs::Reading::reading))]
fn index(alloc: Global, bytes: &[u8]) -> Result<OvrIndex, OvrError>
    ensures { Gives (λ index. index) result (reading bytes.now) }
{
    let count = said_count(bytes)?;
    let (index, end) = entries(alloc, bytes, count)?;
    if end < bytes.len() {
        return damaged(end);
    }
    Ok(index)
}

/// The index of an overlay file. `Damaged` comes exactly where the bytes are no overlay file, at the first part that
/// breaks a rule.
pub fn read_ovr(alloc: Global, bytes: &[u8]) -> Result<OvrIndex, OvrError>
    // What is read is spelled so, each byte of it.
    ensures found { IfOk result (λ index. let overlays = overlays_of bytes.now index in
        AreOverlays overlays × (bytes.now ≡ spelling overlays) × (index ≡ index_of overlays)) }
    // What is spelled so is read, unless memory runs out.
    ensures only { (overlays : List OverlayCode8086) → AreOverlays overlays → bytes.now ≡ spelling overlays
        → Gives (λ index. index) result (Ok (index_of overlays)) }
    // What the parts in their order give: the index, or the place of damage.
    ensures exact { Gives (λ index. index) result (reading bytes.now) }
{
    index(alloc, bytes)
}
