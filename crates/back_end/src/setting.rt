//! What a program is given as it starts.

ghost use Rattle.std.specs.Prelude.{◌≡◌, ◌≤◌, ◌+◌, ◌++◌, codes, length, IfOk, OnOk};
ghost use Rattle.arrayvec.specs.ArrayVec.{array_vec_len};
ghost use Rattle.back_end.specs.Given.{setting_of};

use arrayvec::ArrayVec;
use smart_linker::Setting;
use std::alloc::AllocError;
use std::str;
use type_layout::{FILE_NAME_LEN, FileName, Name};
use typed_tree::Unit;

/// The most bytes of a stack.
const STACK_LIMIT: u32 = 65_520;

/// The most bytes of a heap.
const HEAP_LIMIT: u32 = 196_608;

type NameBytes = ArrayVec<u8, FILE_NAME_LEN>;

fn push_bytes(name: &mut NameBytes, bytes: &[u8])
    requires { array_vec_len name.old + length bytes.now ≤ FILE_NAME_LEN }
    ensures { name.new.items ≡ name.old.items ++ bytes.now }
{
    match name.try_extend_from_slice(bytes) {
        Ok(()) => (),
        Err(_) => unreachable!(),
    }
}

/// The name of the overlay file of a program of this name, in upper case.
fn overlay_file(name: &Name) -> FileName
    ensures { result ≡ name.now ++ codes ".OVR" }
{
    let mut bytes = NameBytes::new();
    push_bytes(&mut bytes, name.as_bytes());
    push_bytes(&mut bytes, b".OVR");
    match str::from_utf8(bytes.as_slice()) {
        Ok(text) => match FileName::new(text) {
            Some(name) => name,
            None => unreachable!(),
        },
        Err(_) => unreachable!(),
    }
}

/// What a program is given: the stack that it asks for, of at most 65,520 bytes, a heap of at most 196,608 bytes, and the name of
/// its overlay file.
pub(crate) fn setting_of(main: &Unit) -> Result<Setting, AllocError>
    ensures setting { IfOk result (λ setting. setting ≡ setting_of main.now) }
    ensures stack { OnOk result (main.now.stack ≤ STACK_LIMIT) }
{
    if main.stack > STACK_LIMIT {
        return Err(AllocError);
    }
    Ok(Setting {
        stack: main.stack as u16,
        heap: main.heap.min(HEAP_LIMIT),
        file: overlay_file(&main.name),
    })
}
