//! Memory by segment and offset.

ghost use Rattle.std.specs.Prelude.{◌≡◌, ◌<◌, ◌+◌, ◌*◌, length, slice_set};
ghost use Rattle.cpu_8086.specs.Memory.{address, next_offset, load_byte, store_byte, load_word, store_word};

use crate::hardware::Hardware;
use crate::machine::Machine;

/// The linear address of an offset in a segment, before it wraps.
#[inline(always)]
pub fn straight_address(segment: u16, offset: u16) -> usize
    ensures { result ≡ 16 * segment + offset }
{
    16 * usize::from(segment) + usize::from(offset)
}

/// The linear address of an offset in a segment.
#[inline(always)]
fn address(segment: u16, offset: u16) -> usize
    ensures value { result ≡ address segment offset }
    ensures inside { result < 1048576 }
{
    straight_address(segment, offset) % 0x10_0000
}

fn next_offset(offset: u16) -> u16
    ensures { result ≡ next_offset offset }
{
    offset.wrapping_add(1)
}

/// Puts two bytes beside each other.
#[inline(always)]
fn put_both(bytes: &mut [u8], at: usize, low: u8, high: u8)
    requires { at + 1 < length bytes.old }
    ensures { bytes.new ≡ slice_set (slice_set bytes.old at low) (at + 1) high }
{
    bytes[at] = low;
    bytes[at + 1] = high;
}

impl Hardware {
    /// The byte at an offset in a segment.
    #[tactic(auto, unfolding(crate::specs::Memory::load_byte))]
    #[inline(always)]
    pub fn load_byte(&self, segment: u16, offset: u16) -> u8
        ensures { result ≡ load_byte self.now.memory segment offset }
    {
        self.byte(address(segment, offset))
    }

    #[tactic(auto, unfolding(crate::specs::Memory::store_byte))]
    #[inline(always)]
    pub fn store_byte(&mut self, segment: u16, offset: u16, value: u8)
        ensures { self.new ≡ record self.old { memory = store_byte self.old.memory segment offset value } }
    {
        self.set_byte(address(segment, offset), value);
    }

    /// Puts two bytes beside each other at a linear address.
    #[inline(always)]
    fn set_both(&mut self, at: usize, low: u8, high: u8)
        requires { at + 1 < 1048576 }
        ensures { self.new ≡ record self.old { memory = slice_set (slice_set self.old.memory at low) (at + 1) high } }
    {
        put_both(&mut self.memory, at, low, high);
    }

    /// The word at an offset in a segment, where the offset or the address may wrap inside it.
    #[cold]
    #[inline(never)]
    #[tactic(auto, unfolding(crate::specs::Memory::load_word))]
    fn load_wrapping(&self, segment: u16, offset: u16) -> u16
        ensures { result ≡ load_word self.now.memory segment offset }
    {
        let low = self.load_byte(segment, offset);
        let high = self.load_byte(segment, next_offset(offset));
        u16::from(low) + 256 * u16::from(high)
    }

    /// The word at an offset in a segment, where nothing wraps: its bytes are read as they lie.
    #[tactic(auto, using(crate::proofs::MemoryLaws::straight_load))]
    #[inline(always)]
    fn load_straight(&self, segment: u16, offset: u16) -> u16
        requires offset { offset < 65535 }
        requires address { 16 * segment + offset < 1048575 }
        ensures { result ≡ load_word self.now.memory segment offset }
    {
        let at = straight_address(segment, offset);
        u16::from(self.byte(at)) + 256 * u16::from(self.byte(at + 1))
    }

    /// The word at an offset in a segment. Mostly nothing wraps inside it.
    #[inline(always)]
    pub fn load_word(&self, segment: u16, offset: u16) -> u16
        ensures { result ≡ load_word self.now.memory segment offset }
    {
        if offset == 0xffff || straight_address(segment, offset) >= 0xf_ffff {
            return self.load_wrapping(segment, offset);
        }
        self.load_straight(segment, offset)
    }

    /// Puts a word at an offset in a segment, where the offset or the address may wrap inside it.
    #[cold]
    #[inline(never)]
    #[tactic(auto, unfolding(crate::specs::Memory::store_word))]
    fn store_wrapping(&mut self, segment: u16, offset: u16, value: u16)
        ensures { self.new ≡ record self.old { memory = store_word self.old.memory segment offset value } }
    {
        self.store_byte(segment, offset, (value % 256) as u8);
        self.store_byte(segment, next_offset(offset), (value / 256) as u8);
    }

    /// Puts a word at an offset in a segment, where nothing wraps.
    #[tactic(auto, using(crate::proofs::MemoryLaws::straight_store))]
    #[inline(always)]
    fn store_straight(&mut self, segment: u16, offset: u16, value: u16)
        requires offset { offset < 65535 }
        requires address { 16 * segment + offset < 1048575 }
        ensures { self.new ≡ record self.old { memory = store_word self.old.memory segment offset value } }
    {
        let at = straight_address(segment, offset);
        let low = (value % 256) as u8;
        let high = (value / 256) as u8;
        self.set_both(at, low, high);
    }

    /// Puts a word at an offset in a segment. Mostly nothing wraps inside it.
    #[inline(always)]
    pub fn store_word(&mut self, segment: u16, offset: u16, value: u16)
        ensures { self.new ≡ record self.old { memory = store_word self.old.memory segment offset value } }
    {
        if offset == 0xffff || straight_address(segment, offset) >= 0xf_ffff {
            self.store_wrapping(segment, offset, value);
        } else {
            self.store_straight(segment, offset, value);
        }
    }
}

impl Machine {
    /// The byte at an offset in a segment.
    pub fn load_byte(&self, segment: u16, offset: u16) -> u8
        ensures { result ≡ load_byte self.now.memory segment offset }
    {
        self.hardware.load_byte(segment, offset)
    }

    /// Puts a byte at an offset in a segment.
    pub fn store_byte(&mut self, segment: u16, offset: u16, value: u8)
        ensures { self.new ≡ record self.old { memory = store_byte self.old.memory segment offset value } }
    {
        self.hardware.store_byte(segment, offset, value);
    }

    /// The word at an offset in a segment, its low byte first; its high byte may wrap to offset 0.
    pub fn load_word(&self, segment: u16, offset: u16) -> u16
        ensures { result ≡ load_word self.now.memory segment offset }
    {
        self.hardware.load_word(segment, offset)
    }

    /// Puts a word at an offset in a segment, its low byte first; its high byte may wrap to offset 0.
    pub fn store_word(&mut self, segment: u16, offset: u16, value: u16)
        ensures { self.new ≡ record self.old { memory = store_word self.old.memory segment offset value } }
    {
        self.hardware.store_word(segment, offset, value);
    }
}
