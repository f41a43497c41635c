//! How much of the heap is taken: of each rounded size, as many blocks as ever lived at once.

ghost use Rattle.std.specs.Prelude.{◌≡◌, ◌<◌, ◌≤◌, ◌+◌, ◌^◌, ◌==◌, [], IfSome, OnOk, OnErr, List, position, length, Err};
ghost use Rattle.common_values.specs.Blocks.{
  rounded as rounded_of,
  block_sum as sum_of,
  with_block,
  without_block,
  live_of as living_of,
  most_of as peak_of,
};
ghost use Rattle.common_values.specs.BlockLaws.{SizeLaws, HistoryLaws, SumLaws, Event};
ghost use Rattle.common_values.specs.declared.blocks.AddError.TheVariants.{HeapFull};

use std::alloc::{AllocError, Global};
use std::marker::Model;

/// Why no block was made.
#[derive(Clone, Copy, Debug, PartialEq, Eq)]
pub enum AddError {
    /// Error 203 of the program: the sum with the new block passes the heap.
    HeapFull,
    /// Memory ran out here.
    NoMemory,
}

impl From<AllocError> for AddError {
    ghost use Rattle.std.specs.Prelude.{◌≡◌};
    ghost use Rattle.common_values.specs.declared.blocks.AddError.TheVariants.{NoMemory};

    ghost from_gives = { λ _ error. error ≡ NoMemory };

    fn from(_error: AllocError) -> AddError {
        AddError::NoMemory
    }
}

/// The blocks of one rounded size: how many live, and how many ever lived at once.
#[derive(Clone, Copy, Debug)]
pub struct Row {
    pub size: u32,
    pub live: u32,
    pub most: u32,
}

impl Row {
    ghost use Rattle.common_values.specs.Blocks.{with_one_more as grown, with_one_less as shrunk};

    fn with_one_more(self) -> Row
        requires { self.live + 1 < 2 ^ 32 }
        ensures { result ≡ grown self }
    {
        let live = self.live + 1;
        Row {
            size: self.size,
            live,
            most: self.most.max(live),
        }
    }

    fn with_one_less(self) -> Row
        ensures { result ≡ shrunk self }
    {
        Row {
            size: self.size,
            live: self.live.saturating_sub(1),
            most: self.most,
        }
    }
}

/// A size rounded up to a multiple of 8, at least 8.
pub fn rounded(size: u16) -> u32
    ensures { result ≡ rounded_of size }
{
    8 * u32::from(size).div_ceil(8).max(1)
}

/// Where the row of a size stands.
fn place_of(rows: &[Row], size: u32) -> Option<usize>
    ensures value { result ≡ position (λ row. row.size == size) rows.now }
    ensures within { IfSome result (λ place. place < length rows.now) }
{
    rows.iter().position(|row| row.size == size)
}

/// How many blocks of a size live.
fn live_of(rows: &[Row], size: u32) -> u32
    ensures { result ≡ living_of size rows.now }
{
    match place_of(rows, size) {
        Some(place) => rows[place].live,
        None => 0,
    }
}

/// How many blocks of a size ever lived at once.
fn most_of(rows: &[Row], size: u32) -> u32
    ensures { result ≡ peak_of size rows.now }
{
    match place_of(rows, size) {
        Some(place) => rows[place].most,
        None => 0,
    }
}

/// One block of a rounded size more. Fails only without memory, and then the rows stay.
fn add_block(rows: &mut Vec<Row>, size: u32) -> Result<(), AllocError>
    requires { living_of size rows.old.items + 1 < 2 ^ 32 }
    ensures ok { OnOk result (rows.new.items ≡ with_block size rows.old.items) }
    ensures err { OnErr result (rows.new.items ≡ rows.old.items) }
{
    match place_of(rows.as_slice(), size) {
        Some(place) => rows[place] = rows[place].with_one_more(),
        None => rows.push(Row {
            size,
            live: 1,
            most: 1,
        })?,
    }
    Ok(())
}

/// One block of a rounded size less.
fn remove_block(rows: &mut Vec<Row>, size: u32)
    ensures { rows.new.items ≡ without_block size rows.old.items }
{
    match place_of(rows.as_slice(), size) {
        Some(place) => rows[place] = rows[place].with_one_less(),
        None => {}
    }
}

/// The blocks of a heap, as one row for each rounded size.
#[derive(Drop)]
pub struct Blocks {
    rows: Vec<Row>,
    sum: u32,
}

impl Model for Blocks {
    ghost use Rattle.std.specs.Prelude.{◌≡◌, List};
    ghost use Rattle.common_values.specs.declared.blocks.Row.{Row};
    ghost use Rattle.common_values.specs.Blocks.{block_sum};
    ghost use Rattle.common_values.specs.BlockLaws.{IsCounted};

    ghost Value = { List Row };

    ghost view = { λ b. b.rows.items };

    ghost invariant = { λ b. IsCounted b.rows.items × (b.sum ≡ block_sum b.rows.items) };
}

impl Blocks {
    /// A heap in which no block was made.
    pub fn new(alloc: Global) -> Blocks
        ensures { result ≡ [] }
    {
        Blocks {
            rows: Vec::new(alloc),
            sum: 0,
        }
    }

    /// The sum over the sizes of size times the greatest number ever live.
    pub fn sum(&self) -> u32
        ensures { result ≡ sum_of self.now }
    {
        self.sum
    }

    /// The sum once a block of a rounded size more is made.
    fn sum_with(&self, size: u32) -> u64
        ensures { result ≡ sum_of (with_block size self.now) }
    {
        let sum = u64::from(self.sum);
        if live_of(&self.rows, size) < most_of(&self.rows, size) {
            sum
        } else {
            sum + u64::from(size)
        }
    }

    /// New: one block more of a size. An error leaves the blocks as they were.
    pub fn add(&mut self, size: u16, heap: u32) -> Result<(), AddError>
        ensures ok { OnOk result (self.new ≡ with_block (rounded_of size) self.old) }
        ensures fits { OnOk result (sum_of self.new ≤ heap) }
        ensures full { result ≡ Err HeapFull → heap < sum_of (with_block (rounded_of size) self.old) }
        ensures err { OnErr result (self.new ≡ self.old) }
    {
        let size = rounded(size);
        let sum = self.sum_with(size);
        if sum > u64::from(heap) {
            return Err(AddError::HeapFull);
        }
        add_block(&mut self.rows, size)?;
        self.sum = sum as u32;
        Ok(())
    }

    /// Dispose: one block less of a size.
    pub fn remove(&mut self, size: u16)
        ensures { self.new ≡ without_block (rounded_of size) self.old }
    {
        remove_block(&mut self.rows, rounded(size));
    }
}

/// The laws of the sum of blocks; it does nothing.
pub fn block_laws()
    ensures sizes { SizeLaws }
    ensures history { (events : List Event) → HistoryLaws events }
    ensures sums { SumLaws }
{}
