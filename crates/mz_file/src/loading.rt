//! Loading an executable into a machine.

ghost use Rattle.std.specs.Prelude.{◌≡◌, ◌+◌, ◌*◌, ◌<◌, ◌≤◌, ◌↔◌, All, IfErr, IsOk, OnOk, OnErr, length};
ghost use Rattle.cpu_8086.specs.State.{State};
ghost use Rattle.mz_file.specs.Format.{IsWithin};
ghost use Rattle.mz_file.specs.Load.{loaded, loaded_segment, with_loaded_segment, relocated, image_byte, HoldsImage, paragraphs_taken, start_registers, IsLoadable};

use crate::executable::Exe;
use cpu_8086::{Far, Flag, Machine, Reg};
use thiserror::Error;

/// Why a program was not loaded.
#[derive(Clone, Copy, Debug, PartialEq, Eq, Error)]
pub enum LoadError {
    /// The image and the extra memory pass segment A000h; so many paragraphs are taken from segment 0 on.
    #[error("the program takes {paragraphs} paragraphs of memory")]
    TooLarge { paragraphs: u32 },
}

/// The segment of the program segment prefix.
const PREFIX: u16 = 0x60;

/// The segment of the image, and its linear address.
const IMAGE: u16 = 0x70;

const IMAGE_ADDRESS: u32 = 0x700;

/// How many bytes the machine has.
const MEMORY: u32 = 0x10_0000;

/// How many paragraphs are taken up to the end of the extra memory.
fn paragraphs_up_to_end(exe: &Exe) -> u32
    requires { IsLoadable exe.now }
    ensures { result ≡ paragraphs_taken exe.now }
{
    let image = (exe.image.len() + 15) / 16;
    0x70 + image as u32 + exe.extra as u32
}

/// The byte at an address where the image is loaded and all else is 0.
fn byte_of_image(image: &[u8], address: u32) -> u8
    ensures { result ≡ image_byte image.now address }
{
    if address < IMAGE_ADDRESS {
        return 0;
    }
    let place = (address - IMAGE_ADDRESS) as usize;
    if place < image.len() { image[place] } else { 0 }
}

/// Fills the memory with the image and zeros.
fn place_image(image: &[u8], machine: &mut Machine)
    requires { length machine.old.memory ≡ 1048576 }
    ensures memory { HoldsImage machine.new.memory image.now }
{
    for address in 0..MEMORY {
        machine.set_byte(address, byte_of_image(image, address));
    }
}

/// Adds the segment of the image to the word that a far pointer into the image names.
fn relocate(far: Far, machine: &mut Machine)
    requires { 0x700 + (16 * far.segment + far.offset) + 2 ≤ 1048576 }
    ensures { machine.new ≡ record machine.old { memory = with_loaded_segment machine.old.memory (0x700 + (16 * far.segment + far.offset)) } }
{
    let place = IMAGE_ADDRESS + (16 * far.segment as u32 + far.offset as u32);
    let word = machine.byte(place) as u16 + 256 * machine.byte(place + 1) as u16;
    let segment = word.wrapping_add(IMAGE);
    machine.set_byte(place, (segment % 256) as u8);
    machine.set_byte(place + 1, (segment / 256) as u8);
}

/// Relocates the image that the memory holds.
fn relocate_all(exe: &Exe, machine: &mut Machine)
    requires inside { All (IsWithin (length exe.now.image)) exe.now.relocations }
    requires room { 0x700 + length exe.now.image ≤ 1048576 }
    requires holds { HoldsImage machine.old.memory exe.now.image }
    ensures { HoldsImage machine.new.memory (relocated exe.now.image exe.now.relocations) }
{
    for far in exe.relocations.as_slice() {
        relocate(*far, machine);
    }
}

/// Sets the registers and flags as the program starts.
fn set_registers(exe: &Exe, machine: &mut Machine)
    ensures { machine.new ≡ record {
      registers = start_registers exe.now;
      cs = loaded_segment exe.now.entry.segment;
      memory = machine.old.memory;
    } }
{
    machine.set_reg(Reg::Ax, 0);
    machine.set_reg(Reg::Cx, 0);
    machine.set_reg(Reg::Dx, 0);
    machine.set_reg(Reg::Bx, 0);
    machine.set_reg(Reg::Sp, exe.stack.offset);
    machine.set_reg(Reg::Bp, 0);
    machine.set_reg(Reg::Si, 0);
    machine.set_reg(Reg::Di, 0);
    machine.set_reg(Reg::Es, PREFIX);
    machine.set_reg(Reg::Cs, exe.entry.segment.wrapping_add(IMAGE));
    machine.set_reg(Reg::Ss, exe.stack.segment.wrapping_add(IMAGE));
    machine.set_reg(Reg::Ds, PREFIX);
    machine.set_reg(Reg::Ip, exe.entry.offset);
    machine.set_flag(Flag::Carry, false);
    machine.set_flag(Flag::Zero, false);
    machine.set_flag(Flag::Sign, false);
    machine.set_flag(Flag::Overflow, false);
    machine.set_flag(Flag::Direction, false);
}

/// Loads an executable: the machine is then as the program starts. `TooLarge` comes exactly where the image and
/// the extra memory pass segment A000h, and then the machine is unchanged. It takes no memory.
pub fn load(exe: &Exe, machine: &mut Machine) -> Result<(), LoadError>
    requires { IsLoadable exe.now }
    ensures fits { IsOk result ↔ (paragraphs_taken exe.now ≤ 0xA000) }
    ensures loaded { OnOk result (machine.new ≡ loaded exe.now) }
    ensures too_large { IfErr result (λ error. error ≡ LoadError.TooLarge (paragraphs_taken exe.now)) }
    ensures unchanged { OnErr result (machine.new ≡ machine.old) }
{
    let paragraphs = paragraphs_up_to_end(exe);
    if paragraphs > 0xA000 {
        return Err(LoadError::TooLarge { paragraphs });
    }
    machine.clear();
    place_image(exe.image.as_slice(), machine);
    relocate_all(exe, machine);
    set_registers(exe, machine);
    Ok(())
}
