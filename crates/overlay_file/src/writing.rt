//! Writing an overlay file.

ghost use Rattle.std.specs.Prelude.{◌≡◌, ◌+◌, ◌≤◌, ◌<◌, ◌++◌, [], ◌∷◌, All, IfOk, OnOk, length};
ghost use Rattle.mz_file.specs.Words.{bytes_of_words};
ghost use Rattle.overlay_file.specs.Format.{AreOverlays, IsOverlay, front_bytes, name_bytes, sizes_bytes, overlay_bytes, spelling};

use crate::overlay::OverlayCode8086;
use byteorder::{ByteOrder, LittleEndian};
use std::alloc::{AllocError, Global};
use type_layout::{Bytes, Name};

/// Appends a word, its low byte first.
fn push_word(bytes: &mut Bytes, word: u16) -> Result<(), AllocError>
    ensures { OnOk result (bytes.new ≡ bytes.old ++ bytes_of_words (word ∷ [])) }
{
    let mut pair = [0; 2];
    LittleEndian::write_u16(&mut pair, word);
    bytes.extend_from_slice(&pair)
}

/// Appends numbers as words.
fn push_words(bytes: &mut Bytes, words: &[u32]) -> Result<(), AllocError>
    requires { All (λ word. word < 65536) words.now }
    ensures { OnOk result (bytes.new ≡ bytes.old ++ bytes_of_words words.now) }
{
    for word in words {
        push_word(bytes, *word as u16)?;
    }
    Ok(())
}

/// Appends the letters, the version and the number of overlays.
fn push_front(bytes: &mut Bytes, count: u16) -> Result<(), AllocError>
    ensures { OnOk result (bytes.new ≡ bytes.old ++ front_bytes count) }
{
    bytes.extend_from_slice(b"TOV1")?;
    push_word(bytes, 1)?;
    push_word(bytes, count)
}

/// Appends the length of a name, and the name.
fn push_name(bytes: &mut Bytes, name: &Name) -> Result<(), AllocError>
    ensures { OnOk result (bytes.new ≡ bytes.old ++ name_bytes name.now) }
{
    let text = name.as_bytes();
    bytes.push(text.len() as u8)?;
    bytes.extend_from_slice(text)
}

/// Appends the sizes of the code and of the list of fixups.
fn push_sizes(bytes: &mut Bytes, overlay: &OverlayCode8086) -> Result<(), AllocError>
    requires { IsOverlay overlay.now }
    ensures { OnOk result (bytes.new ≡ bytes.old ++ sizes_bytes overlay.now) }
{
    push_word(bytes, overlay.code.len() as u16)?;
    push_word(bytes, overlay.fixups.len() as u16)
}

#[tactic(auto, unfolding(crate::specs::Format::overlay_bytes))]
fn push_overlay(bytes: &mut Bytes, overlay: &OverlayCode8086) -> Result<(), AllocError>
    requires { IsOverlay overlay.now }
    ensures { OnOk result (bytes.new ≡ bytes.old ++ overlay_bytes overlay.now) }
{
    push_name(bytes, &overlay.name)?;
    push_sizes(bytes, overlay)?;
    bytes.extend_from_slice(overlay.code.as_slice())?;
    push_words(bytes, overlay.fixups.as_slice())
}

/// The bytes of the file of these overlays.
#[tactic(auto, unfolding(crate::specs::Format::spelling))]
pub fn write_ovr(alloc: Global, list: &[OverlayCode8086]) -> Result<Bytes, AllocError>
    requires { AreOverlays list.now }
    ensures { IfOk result (λ bytes. bytes ≡ spelling list.now) }
{
    let mut bytes = Bytes::new(alloc);
    push_front(&mut bytes, list.len() as u16)?;
    for overlay in list {
        push_overlay(&mut bytes, overlay)?;
    }
    Ok(bytes)
}
