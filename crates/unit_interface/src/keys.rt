//! Types by the unit that declares them and their number there.

ghost use Rattle.std.specs.Prelude.{◌≡◌, IfOk, OnOk, position};
ghost use Rattle.unit_interface.specs.Merge.{same_key, keys_of, place_of_key, with_key, ids_of, ids_in};

use std::alloc::{AllocError, Global};
use type_layout::{Name, Sequence, TypeId, Types};

/// The unit that declares a type, and the type's number there.
#[derive(Debug, Drop)]
pub struct Key {
    pub unit: Name,
    pub number: u32,
}

/// Keys, in the order of types.
pub(crate) type Keys = Sequence<Key>;

/// Ids, in the order of types.
pub(crate) type Ids = Sequence<TypeId>;

/// The keys of the types of a table.
pub(crate) fn keys_of(alloc: Global, types: &Types) -> Result<Keys, AllocError>
    ensures { IfOk result (λ keys. keys ≡ keys_of types.now) }
{
    let mut keys = Keys::new(alloc);
    for number in 0..types.count() {
        let (unit, own) = types.origin(TypeId(number));
        let origin = types.units()[unit as usize].copied();
        keys.push(Key {
            unit: origin,
            number: own,
        })?;
    }
    Ok(keys)
}

/// The place of a key.
pub(crate) fn find(keys: &[Key], key: &Key) -> Option<usize>
    ensures { result ≡ position (same_key key.now) keys.now }
{
    keys.iter().position(|known| key.unit == known.unit && key.number == known.number)
}

impl Key {
    /// A copy, which takes no memory.
    fn copied(&self) -> Key
        ensures { result ≡ self.now }
    {
        Key {
            unit: self.unit.copied(),
            number: self.number,
        }
    }
}

// The id that a type with this key gets, where types with these keys are known; a new key goes to the end.
fn plan(known: &mut Keys, key: Key) -> Result<TypeId, AllocError>
    ensures id { IfOk result (λ id. id.0 ≡ place_of_key known.old key) }
    ensures known { OnOk result (known.new ≡ with_key known.old key) }
{
    match find(known.as_slice(), &key) {
        Some(place) => narrow(place),
        None => {
            let id = narrow(known.len())?;
            known.push(key)?;
            Ok(id)
        }
    }
}

fn narrow(place: usize) -> Result<TypeId, AllocError>
    ensures { IfOk result (λ id. id.0 ≡ place) }
{
    match u32::try_from(place) {
        Ok(place) => Ok(TypeId(place)),
        Err(_) => Err(AllocError),
    }
}

// The ids that types with these keys get, where types with the first keys are known.
fn plan_all(alloc: Global, known: Keys, keys: &[Key]) -> Result<Ids, AllocError>
    ensures { IfOk result (λ ids. ids ≡ ids_of known keys.now) }
{
    let mut known = known;
    let mut ids = Ids::new(alloc);
    for key in keys {
        let id = plan(&mut known, key.copied())?;
        ids.push(id)?;
    }
    Ok(ids)
}

/// The ids that the types of another table get in this one.
pub(crate) fn ids_in(alloc: Global, types: &Types, other: &Types) -> Result<Ids, AllocError>
    ensures { IfOk result (λ ids. ids ≡ ids_in types.now other.now) }
{
    let known = keys_of(alloc, types)?;
    let keys = keys_of(alloc, other)?;
    plan_all(alloc, known, keys.as_slice())
}
