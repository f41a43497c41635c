//! What an expression gives and what a cell holds.

ghost use Rattle.std.specs.Prelude.{◌≡◌, ◌<◌, ◌++◌, ◌∷◌, [], IfOk, OnErr};
ghost use Rattle.std.specs.Option.{option_map};
ghost use Rattle.tp_meaning.specs.Trees.{Ordinal};
ghost use Rattle.tp_meaning.specs.Store.{number_of, byte_of, bytes_of, spot_of, class_of, routine_of};
ghost use Rattle.interpreter_store.specs.cell_store.Views.{view_key, view_spot, view_value};
ghost use Rattle.interpreter_store.specs.cell_store.Finding.{Finds, Gets};

use crate::cell_store::traps::{Stop, Trap};
use std::alloc::{AllocError, Global};
use type_layout::{Bytes, Name, Sequence};

/// A routine, a class or a global: the unit that declares it, and its number there.
#[derive(Debug, Drop)]
pub struct Key {
    pub unit: Name,
    pub number: u32,
}

/// The way into an object, from part to part.
pub type Path = Sequence<u32>;

/// A place: an object by its serial number, and the way into it.
#[derive(Debug, Drop)]
pub struct Spot {
    pub object: usize,
    pub path: Path,
}

/// What an expression gives and what a cell holds. A whole text is `Text`, and a string lies in cells byte by byte. A pointer
/// leads to a block by its serial number, a procedural value to a routine; an instance has a class or none. `At` is the place
/// that a variable parameter, Self or a structured argument stands for. The call of a procedure gives `Void`.
#[derive(Debug, Drop)]
pub enum Value {
    Ordinal(i32),
    Text(Bytes),
    Elements(Bytes),
    Nil,
    Block(usize),
    Code(Key),
    Class(Option<Key>),
    At(Spot),
    Void,
}

impl Key {
    /// A copy, which takes no memory.
    pub fn copied(&self) -> Key
        ensures { result ≡ self.now }
    {
        Key {
            unit: self.unit.copied(),
            number: self.number,
        }
    }
}

fn path_copied(alloc: Global, path: &Path) -> Result<Path, AllocError>
    ensures { IfOk result (λ copy. copy ≡ path.now) }
{
    Ok(Sequence::from_vec(Vec::from_slice(alloc, path.as_slice())?))
}

impl Spot {
    /// The place of a whole object.
    pub fn whole(alloc: Global, object: usize) -> Spot
        ensures { result ≡ record { object = object; path = [] } }
    {
        Spot {
            object,
            path: Sequence::new(alloc),
        }
    }

    /// A copy.
    pub fn copied(&self, alloc: Global) -> Result<Spot, AllocError>
        ensures { IfOk result (λ copy. copy ≡ self.now) }
    {
        Ok(Spot {
            object: self.object,
            path: path_copied(alloc, &self.path)?,
        })
    }

    /// The place of a part of this one.
    pub fn inside(&self, alloc: Global, part: u32) -> Result<Spot, AllocError>
        ensures { IfOk result (λ spot. spot ≡ record { object = self.now.object; path = self.now.path ++ part ∷ [] }) }
    {
        let mut path = path_copied(alloc, &self.path)?;
        path.push(part)?;
        Ok(Spot {
            object: self.object,
            path,
        })
    }
}

fn class_copied(class: &Option<Key>) -> Option<Key>
    ensures { result ≡ class.now }
{
    match class {
        None => None,
        Some(class) => Some(class.copied()),
    }
}

impl Value {
    /// A copy.
    pub fn copied(&self, alloc: Global) -> Result<Value, AllocError>
        ensures { IfOk result (λ copy. copy ≡ self.now) }
    {
        match self {
            Value::Ordinal(z) => Ok(Value::Ordinal(*z)),
            Value::Text(bytes) => Ok(Value::Text(bytes.copied(alloc)?)),
            Value::Elements(set) => Ok(Value::Elements(set.copied(alloc)?)),
            Value::Nil => Ok(Value::Nil),
            Value::Block(serial) => Ok(Value::Block(*serial)),
            Value::Code(routine) => Ok(Value::Code(routine.copied())),
            Value::Class(class) => Ok(Value::Class(class_copied(class))),
            Value::At(spot) => Ok(Value::At(spot.copied(alloc)?)),
            Value::Void => Ok(Value::Void),
        }
    }

    /// The number of an ordinal.
    pub fn number(&self) -> Result<i32, Trap>
        ensures { Finds (λ z. z) result (number_of (view_value self.now)) }
    {
        match self {
            Value::Ordinal(z) => Ok(*z),
            _ => Err(Trap::IllTyped),
        }
    }

    /// The number of an ordinal that is a byte. One above 255, which no string of a typed program holds, is answered as out of memory.
    pub fn byte(&self) -> Result<u8, Stop>
        ensures { Gets (λ byte. byte) result (byte_of (view_value self.now)) }
    {
        match self {
            Value::Ordinal(z) => number_as_byte(*z),
            _ => Err(Stop::Trapped(Trap::IllTyped)),
        }
    }

    /// The bytes of a text.
    pub fn text(&self) -> Result<&[u8], Trap>
        ensures { Finds (λ bytes. bytes.now) result (bytes_of (view_value self.now)) }
    {
        match self {
            Value::Text(bytes) => Ok(bytes.as_slice()),
            _ => Err(Trap::IllTyped),
        }
    }

    /// The place that a variable parameter stands for.
    pub fn spot(&self) -> Result<&Spot, Trap>
        ensures { Finds (λ spot. view_spot spot.now) result (spot_of (view_value self.now)) }
    {
        match self {
            Value::At(spot) => Ok(spot),
            _ => Err(Trap::IllTyped),
        }
    }

    /// The class of an instance, if it has one.
    pub fn class(&self) -> Result<&Option<Key>, Trap>
        ensures { Finds (λ class. option_map view_key class.now) result (class_of (view_value self.now)) }
    {
        match self {
            Value::Class(class) => Ok(class),
            _ => Err(Trap::IllTyped),
        }
    }

    /// The routine to which a procedural value leads.
    pub fn routine(&self) -> Result<&Key, Trap>
        ensures { Finds (λ routine. view_key routine.now) result (routine_of (view_value self.now)) }
    {
        match self {
            Value::Code(routine) => Ok(routine),
            _ => Err(Trap::IllTyped),
        }
    }
}

fn number_as_byte(z: i32) -> Result<u8, Stop>
    ensures { Gets (λ byte. byte) result (byte_of (Ordinal z)) }
{
    if z < 0 {
        return Err(Stop::Trapped(Trap::IllTyped));
    }
    if z > 255 {
        return Err(Stop::OutOfMemory);
    }
    Ok(z as u8)
}
