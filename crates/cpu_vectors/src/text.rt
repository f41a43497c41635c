//! Hexadecimal numbers and lists of bytes at places, as the vectors write them.

ghost use Rattle.std.specs.Prelude.{◌<◌, IfSome};

/// A byte of memory.
#[derive(Clone, Copy)]
pub struct Cell {
    pub at: u32,
    pub value: u8,
}

pub fn hex(text: &str) -> Option<u32> {
    u32::from_str_radix(text, 16).ok()
}

/// A number that fits a word.
pub fn word(text: &str) -> Option<u16> {
    u16::from_str_radix(text, 16).ok()
}

/// A cell as `address:byte`, the address being linear.
pub fn read_cell(text: &str) -> Option<Cell>
    ensures { IfSome result (λ c. c.at < 1048576) }
{
    let (at, value) = text.split_once(':')?;
    let at = hex(at)?;
    if at >= 0x10_0000 {
        return None;
    }
    let value = u8::from_str_radix(value, 16).ok()?;
    Some(Cell { at, value })
}

/// The byte that a list of cells has at a place.
pub fn value_at(cells: &str, at: u32) -> Option<u8> {
    for text in cells.split(',') {
        if let Some(found) = read_cell(text) {
            if found.at == at {
                return Some(found.value);
            }
        }
    }
    None
}
