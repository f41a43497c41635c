//! Trees of cells.

ghost use Rattle.std.specs.Prelude.{◌≡◌, ◌≤◌, ◌∷◌, ◌++◌, pos, map, length, take, IfOk, OnOk};
ghost use Rattle.std.specs.Option.{option_map, option_copied};
ghost use Rattle.tp_meaning.specs.Trees.{Ordinal, Tree as PureTree, Fork, part_at, part_count, holding};
ghost use Rattle.tp_meaning.specs.Store.{value_in, byte_in, bytes_in, text_of_length, text_in, length_within, length_in, cut_over, text_over};
ghost use Rattle.interpreter_store.specs.cell_store.Views.{view_value, view_tree, view_parts};
ghost use Rattle.interpreter_store.specs.cell_store.Finding.{Finds, Gets};
ghost use Rattle.interpreter_store.specs.cell_store.Parts.{byte_cell, exchanged};

use crate::cell_store::contents::Value;
use crate::cell_store::traps::{Stop, Trap};
use std::alloc::{AllocError, Global};
use std::mem;

/// A cell, which holds a value or is unset, or parts one behind another.
#[derive(Debug, Drop)]
pub enum Tree {
    Leaf(Option<Value>),
    Parts(Vec<Tree>),
}

impl Tree {
    /// A cell that holds a number.
    pub fn number(z: i32) -> Tree
        ensures { view_tree result ≡ holding (Ordinal z) }
    {
        Tree::Leaf(Some(Value::Ordinal(z)))
    }

    /// Where a path leads, if it leads anywhere.
    #[cycle(part)]
    pub fn part_at(&self, path: &[u32]) -> Option<&Tree>
        ensures { option_map view_tree (option_copied result) ≡ part_at (view_tree self.now) path.now }
    {
        match path {
            [] => Some(self),
            [n, rest @ ..] => self.part_under(*n, rest),
        }
    }

    #[cycle(part)]
    fn part_under(&self, n: u32, path: &[u32]) -> Option<&Tree>
        ensures { option_map view_tree (option_copied result) ≡ part_at (view_tree self.now) (n ∷ path.now) }
    {
        match self {
            Tree::Leaf(_) => None,
            Tree::Parts(parts) => part_in(parts.as_slice(), n as usize, path),
        }
    }

    /// Exchanges the part to which a path leads.
    #[cycle(exchange)]
    pub fn exchange(&mut self, path: &[u32], part: Tree) -> Result<(), Trap>
        ensures { Finds (λ _. view_tree self.new) result (exchanged (view_tree self.old) path.now (view_tree part)) }
    {
        match path {
            [] => {
                *self = part;
                Ok(())
            }
            [n, rest @ ..] => self.exchange_under(*n, rest, part),
        }
    }

    #[cycle(exchange)]
    fn exchange_under(&mut self, n: u32, path: &[u32], part: Tree) -> Result<(), Trap>
        ensures { Finds (λ _. view_tree self.new) result (exchanged (view_tree self.old) (n ∷ path.now) (view_tree part)) }
    {
        match mem::replace(self, Tree::Leaf(None)) {
            Tree::Leaf(cell) => {
                *self = Tree::Leaf(cell);
                Err(Trap::IllTyped)
            }
            Tree::Parts(mut parts) => {
                let done = exchange_in(&mut parts, n as usize, path, part);
                *self = Tree::Parts(parts);
                done
            }
        }
    }

    /// How many parts it has; a cell has none.
    pub fn part_count(&self) -> usize
        ensures { result ≡ part_count (view_tree self.now) }
    {
        match self {
            Tree::Leaf(_) => 0,
            Tree::Parts(parts) => parts.len(),
        }
    }

    /// A copy.
    #[cycle(copied)]
    pub fn copied(&self, alloc: Global) -> Result<Tree, AllocError>
        ensures { IfOk result (λ copy. view_tree copy ≡ view_tree self.now) }
    {
        match self {
            Tree::Leaf(None) => Ok(Tree::Leaf(None)),
            Tree::Leaf(Some(value)) => Ok(Tree::Leaf(Some(value.copied(alloc)?))),
            Tree::Parts(parts) => Ok(Tree::Parts(copies(alloc, parts.as_slice())?)),
        }
    }

    /// The value of a cell, which must be set.
    pub fn value(&self) -> Result<&Value, Trap>
        ensures { Finds (λ value. view_value value.now) result (value_in (view_tree self.now)) }
    {
        match self {
            Tree::Leaf(Some(value)) => Ok(value),
            Tree::Leaf(None) => Err(Trap::Act(1)),
            Tree::Parts(_) => Err(Trap::IllTyped),
        }
    }

    fn byte(&self) -> Result<u8, Stop>
        ensures { Gets (λ byte. byte) result (byte_in (view_tree self.now)) }
    {
        self.value()?.byte()
    }

    /// The text of a string's cells. A length that passes the string's size is an undefined act.
    pub fn text(&self, alloc: Global) -> Result<Vec<u8>, Stop>
        ensures { Gets (λ text. text.items) result (text_in (view_tree self.now)) }
    {
        match self {
            Tree::Leaf(_) => Err(Stop::Trapped(Trap::IllTyped)),
            Tree::Parts(parts) => text_of(alloc, parts.as_slice()),
        }
    }

    /// The length of a string's cells. One that passes the string's size is an undefined act.
    pub fn length(&self) -> Result<u8, Stop>
        ensures { Gets (λ count. count) result (length_in (view_tree self.now)) }
    {
        match self {
            Tree::Leaf(_) => Err(Stop::Trapped(Trap::IllTyped)),
            Tree::Parts(parts) => length_of(parts.as_slice()),
        }
    }

    /// The cells of a string once a text is assigned, which is cut to the string's size. The cells behind the text stay.
    pub fn with_text(&self, alloc: Global, text: &[u8]) -> Result<Tree, Stop>
        ensures { Gets view_tree result (text_over text.now (view_tree self.now)) }
    {
        match self {
            Tree::Leaf(_) => Err(Stop::Trapped(Trap::IllTyped)),
            Tree::Parts(parts) => text_over(alloc, text, parts.as_slice()),
        }
    }
}

#[cycle(part)]
fn part_in<'a>(parts: &'a [Tree], n: usize, path: &[u32]) -> Option<&'a Tree>
    ensures { option_map view_tree (option_copied result) ≡ part_at (view_parts parts.now) (n ∷ path.now) }
{
    if n < parts.len() {
        parts[n].part_at(path)
    } else {
        None
    }
}

#[cycle(exchange)]
fn exchange_in(parts: &mut Vec<Tree>, n: usize, path: &[u32], part: Tree) -> Result<(), Trap>
    ensures { Finds (λ _. view_parts parts.new.items) result (exchanged (view_parts parts.old.items) (n ∷ path.now) (view_tree part)) }
{
    if n < parts.len() {
        parts[n].exchange(path, part)
    } else {
        Err(Trap::IllTyped)
    }
}

/// Copies of parts, in order.
#[cycle(copied)]
pub fn copies(alloc: Global, parts: &[Tree]) -> Result<Vec<Tree>, AllocError>
    ensures { IfOk result (λ copies. map view_tree copies.items ≡ map view_tree parts.now) }
{
    let mut copies = Vec::new(alloc);
    append_copies(alloc, parts, &mut copies)?;
    Ok(copies)
}

#[cycle(copied)]
fn append_copies(alloc: Global, parts: &[Tree], to: &mut Vec<Tree>) -> Result<(), AllocError>
    ensures { OnOk result (map view_tree to.new.items ≡ map view_tree to.old.items ++ map view_tree parts.now) }
{
    'parts: for part in parts {
        to.push(part.copied(alloc)?)?;
    }
    Ok(())
}

fn text_of(alloc: Global, parts: &[Tree]) -> Result<Vec<u8>, Stop>
    ensures { Gets (λ text. text.items) result (text_in (view_parts parts.now)) }
{
    match parts {
        [] => Err(Stop::Trapped(Trap::IllTyped)),
        [head, cells @ ..] => {
            let count = head.byte()?;
            text_of_length(alloc, count, cells)
        }
    }
}

#[tactic(auto, using(crate::proofs::cell_store::Rows::count_of_parts))]
fn text_of_length(alloc: Global, count: u8, cells: &[Tree]) -> Result<Vec<u8>, Stop>
    ensures { Gets (λ text. text.items) result (text_of_length count (view_parts cells.now)) }
{
    let count = usize::from(count);
    if count <= cells.len() {
        bytes_of(alloc, count, cells)
    } else {
        Err(Stop::Trapped(Trap::Act(3)))
    }
}

fn length_of(parts: &[Tree]) -> Result<u8, Stop>
    ensures { Gets (λ count. count) result (length_in (view_parts parts.now)) }
{
    match parts {
        [] => Err(Stop::Trapped(Trap::IllTyped)),
        [head, cells @ ..] => {
            let count = head.byte()?;
            length_within(count, cells)
        }
    }
}

#[tactic(auto, using(crate::proofs::cell_store::Rows::count_of_parts))]
fn length_within(count: u8, cells: &[Tree]) -> Result<u8, Stop>
    ensures { Gets (λ count. count) result (length_within count (view_parts cells.now)) }
{
    if usize::from(count) <= cells.len() {
        Ok(count)
    } else {
        Err(Stop::Trapped(Trap::Act(3)))
    }
}

// The bytes of the first cells.
fn bytes_of(alloc: Global, count: usize, cells: &[Tree]) -> Result<Vec<u8>, Stop>
    requires { count ≤ length cells.now }
    ensures { Gets (λ text. text.items) result (bytes_in count (view_parts cells.now)) }
{
    let mut bytes = Vec::new(alloc);
    'cells: for i in 0..count {
        let byte = cells[i].byte()?;
        bytes.push(byte)?;
    }
    Ok(bytes)
}

// What a string of a size keeps of a text.
fn cut(text: &[u8], size: usize) -> &[u8]
    ensures value { result.now ≡ take size text.now }
    ensures len { length result.now ≤ size }
{
    if size < text.len() {
        &text[..size]
    } else {
        text
    }
}

fn text_over(alloc: Global, text: &[u8], parts: &[Tree]) -> Result<Tree, Stop>
    ensures { Gets view_tree result (text_over text.now (view_parts parts.now)) }
{
    match parts {
        [] => Err(Stop::Trapped(Trap::IllTyped)),
        [_, cells @ ..] => text_behind_length(alloc, text, cells),
    }
}

// A string of cells behind the one of its length.
fn text_behind_length(alloc: Global, text: &[u8], cells: &[Tree]) -> Result<Tree, Stop>
    ensures { (head : PureTree) → Gets view_tree result (text_over text.now (Fork head (view_parts cells.now))) }
{
    let tree = cut_over(alloc, cut(text, cells.len()), cells)?;
    Ok(tree)
}

// A cell that holds a length. A length that passes 32 bits is answered as out of memory.
fn length_cell(length: usize) -> Result<Tree, AllocError>
    ensures { IfOk result (λ cell. view_tree cell ≡ holding (Ordinal (pos length))) }
{
    match i32::try_from(length) {
        Ok(length) => Ok(Tree::number(length)),
        Err(_) => Err(AllocError),
    }
}

fn append_bytes(text: &[u8], to: &mut Vec<Tree>) -> Result<(), AllocError>
    ensures { OnOk result (map view_tree to.new.items ≡ map view_tree to.old.items ++ map byte_cell text.now) }
{
    'bytes: for byte in text {
        to.push(Tree::number(i32::from(*byte)))?;
    }
    Ok(())
}

// The length of a text, its bytes, and the cells that it doesn't reach.
fn cut_over(alloc: Global, text: &[u8], cells: &[Tree]) -> Result<Tree, AllocError>
    requires { length text.now ≤ length cells.now }
    ensures { IfOk result (λ tree. view_tree tree ≡ cut_over text.now (view_parts cells.now)) }
{
    let head = length_cell(text.len())?;
    let mut over = Vec::new(alloc);
    over.push(head)?;
    append_bytes(text, &mut over)?;
    append_copies(alloc, &cells[text.len()..], &mut over)?;
    Ok(Tree::Parts(over))
}
