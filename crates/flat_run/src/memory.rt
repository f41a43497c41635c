//! Memory as flat code sees it: the machine's own addresses, of which only some can be reached.

ghost use Rattle.std.specs.Prelude.{◌≡◌, ℕ, ◌+◌, ◌*◌, ◌<◌, ◌≤◌, List, length, MatchResult, IfOk, Vec};
ghost use Rattle.std.specs.Global.{Global};
ghost use Rattle.flat_code.specs.declared.memory.Cell.TheVariants.{Outside};
ghost use Rattle.flat_code.specs.Memory.{
  cells_of,
  byte_at,
  word_at,
  far_at,
  put,
  write,
  store_bytes,
  copied_cell,
  copy,
  region,
  bytes_at,
  pushed,
  laid,
  Finds,
};

use common_values::integers::{high_byte, low_byte, word_from_bytes};
use flat_code::{ADDRESSES, Cell, Place, Trap};
use std::alloc::{AllocError, Global};

/// The cells of all addresses.
#[derive(Drop)]
pub struct Memory {
    pub cells: Vec<Cell>,
    ghost whole: { length cells.items ≡ 1048576 },
}

// So many cells that can't be reached.
fn outside(alloc: Global, count: usize) -> Result<Vec<Cell>, AllocError>
    ensures length { IfOk result (λ cells. length cells.items ≡ count) }
    ensures outside { IfOk result (λ cells. cells_of cells.items ≡ (λ address. Outside)) }
{
    vec![in alloc; Cell::Outside; count]
}

impl Memory {
    /// A memory of which nothing can be reached.
    pub fn new(alloc: Global) -> Result<Memory, AllocError>
        ensures { IfOk result (λ memory. cells_of memory.cells.items ≡ (λ address. Outside)) }
    {
        let cells = outside(alloc, ADDRESSES)?;
        Ok(Memory { cells })
    }

    /// Sets the cells of some bytes that begin at an offset of a segment.
    pub fn fill(&mut self, segment: u16, low: u32, bytes: u32, cell: Cell)
        requires { 16 * segment + low + bytes ≤ 1048576 }
        ensures { cells_of self.new.cells.items ≡ region (cells_of self.old.cells.items) segment low bytes cell }
    {
        let first = 16 * segment as usize + low as usize;
        'bytes: for i in 0..bytes as usize {
            self.set(first + i, cell);
        }
    }

    fn cell(&self, address: usize) -> Cell
        requires { address < 1048576 }
        ensures { result ≡ cells_of self.now.cells.items address }
    {
        self.cells[address]
    }

    /// The byte `i` bytes after a place.
    pub fn byte(&self, place: Place, i: u16) -> Result<u8, Trap>
        ensures { result ≡ byte_at (cells_of self.now.cells.items) place i }
    {
        match self.cell(place.address(i)) {
            Cell::Known(byte) => Ok(byte),
            Cell::Unset => Err(Trap::Bad(1)),
            Cell::Outside => Err(Trap::Bad(2)),
        }
    }

    /// The word at a place.
    pub fn word(&self, place: Place) -> Result<u16, Trap>
        ensures { result ≡ word_at (cells_of self.now.cells.items) place }
    {
        let low = self.byte(place, 0)?;
        let high = self.byte(place, 1)?;
        Ok(word_from_bytes(low, high))
    }

    /// The far pointer at a place.
    pub fn far(&self, place: Place) -> Result<Place, Trap>
        ensures { result ≡ far_at (cells_of self.now.cells.items) place }
    {
        let offset = self.word(place)?;
        let segment = self.word(place.after(2))?;
        Ok(Place { segment, offset })
    }

    fn set(&mut self, address: usize, cell: Cell)
        requires { address < 1048576 }
        ensures { cells_of self.new.cells.items ≡ put (cells_of self.old.cells.items) address cell }
    {
        self.cells[address] = cell;
    }

    fn write(&mut self, address: usize, cell: Cell) -> Result<(), Trap>
        requires { address < 1048576 }
        ensures { MatchResult result (λ _. write (cells_of self.old.cells.items) address cell ≡ Ok (cells_of self.new.cells.items)) (λ trap. write (cells_of self.old.cells.items) address cell ≡ Err trap) }
    {
        match self.cell(address) {
            Cell::Outside => Err(Trap::Bad(2)),
            _ => {
                self.set(address, cell);
                Ok(())
            }
        }
    }

    /// Stores bytes from the `i`-th on after a place. After a trap some may be stored.
    pub fn store(&mut self, place: Place, i: u16, bytes: &[u8]) -> Result<(), Trap>
        requires { i + length bytes.now < 65536 }
        ensures { MatchResult result (λ _. store_bytes (cells_of self.old.cells.items) place i bytes.now ≡ Ok (cells_of self.new.cells.items)) (λ trap. store_bytes (cells_of self.old.cells.items) place i bytes.now ≡ Err trap) }
    {
        match bytes {
            [] => Ok(()),
            [byte, rest @ ..] => {
                self.write(place.address(i), Cell::Known(*byte))?;
                self.store(place, i + 1, rest)
            }
        }
    }

    fn move_cell(&mut self, to: usize, from: usize) -> Result<(), Trap>
        requires to { to < 1048576 }
        requires from { from < 1048576 }
        ensures { let moved = copied_cell (cells_of self.old.cells.items) to (cells_of self.old.cells.items from) in MatchResult result (λ _. moved ≡ Ok (cells_of self.new.cells.items)) (λ trap. moved ≡ Err trap) }
    {
        match self.cell(from) {
            Cell::Outside => Err(Trap::Bad(2)),
            cell => self.write(to, cell),
        }
    }

    /// The bytes that stand from a place on.
    pub fn bytes(
        &self,
        alloc: Global,
        place: Place,
        count: u16,
    ) -> Result<Result<Vec<u8>, Trap>, AllocError>
        ensures { IfOk result (λ found. Finds (λ (bytes : Vec ℕ Global). bytes.items) found (bytes_at (cells_of self.now.cells.items) place 0 count)) }
    {
        let mut bytes = Vec::new(alloc);
        'bytes: for i in 0..count {
            match self.byte(place, i) {
                Ok(byte) => bytes.push(byte)?,
                Err(trap) => return Ok(Err(trap)),
            }
        }
        Ok(Ok(bytes))
    }

    /// Pushes words one after another below an offset of a segment, whatever stood there.
    pub fn push(&mut self, segment: u16, sp: u16, words: &[u16])
        requires room { 2 * length words.now ≤ sp }
        requires inside { 16 * segment + sp ≤ 1048576 }
        ensures { cells_of self.new.cells.items ≡ pushed (cells_of self.old.cells.items) segment sp words.now }
    {
        match words {
            [] => {}
            [word, rest @ ..] => {
                let base = 16 * usize::from(segment);
                self.set(base + usize::from(sp - 2), Cell::Known(low_byte(*word)));
                self.set(base + usize::from(sp - 1), Cell::Known(high_byte(*word)));
                self.push(segment, sp - 2, rest);
            }
        }
    }

    /// Lays bytes from a place on, whatever stood there.
    pub fn lay(&mut self, place: Place, bytes: &[u8])
        ensures { cells_of self.new.cells.items ≡ laid (cells_of self.old.cells.items) place 0 bytes.now }
    {
        'bytes: for (i, byte) in bytes.iter().enumerate() {
            self.set(place.address((i % 0x1_0000) as u16), Cell::Known(*byte));
        }
    }

    /// Copies bytes one by one, the first first; unset ones stay unset. After a trap some may be
    /// copied.
    pub fn copy(&mut self, to: Place, from: Place, bytes: u16) -> Result<(), Trap>
        ensures { MatchResult result (λ _. copy (cells_of self.old.cells.items) to from 0 bytes ≡ Ok (cells_of self.new.cells.items)) (λ trap. copy (cells_of self.old.cells.items) to from 0 bytes ≡ Err trap) }
    {
        'bytes: for i in 0..bytes {
            self.move_cell(to.address(i), from.address(i))?;
        }
        Ok(())
    }
}
