//! Types that a unit adds to the table, and names that it puts into the innermost block.

ghost use Rattle.std.specs.Prelude.{◌≡◌, ◌==◌, cond};
ghost use Rattle.typing_rules.specs.Judgements.{Gives};
ghost use Rattle.declaration_checker.specs.type_denoters.Additions.{count_of, denoted, added, entered};
ghost use Rattle.declaration_checker.specs.type_denoters.Denoters.{with_set};

use scopes::{Entry, Scope};
use type_layout::{Name, Place, TypeDef, TypeError, TypeId, Types};
use typing_rules::{Refusal, Rule, broken, too_large};

fn one_of(place: usize, origin: u32) -> u32
    ensures { result ≡ cond (origin == place) 1 0 }
{
    if origin as usize == place { 1 } else { 0 }
}

// How many types of a unit the table has.
fn count_of(types: &Types, unit: &Name) -> u32
    ensures { result ≡ count_of types.now unit.now }
{
    let place = types.unit_place(unit).unwrap_or(types.units().len());
    let mut count = 0u32;
    for number in 0..types.count() {
        let (origin, _) = types.origin(TypeId(number));
        count = count.saturating_add(one_of(place, origin));
    }
    count
}

/// Adds a type of a unit that begins at a place. Where the table doesn't take it, that rule fails there; where its size passes the
/// limit, it is told with its size.
#[tactic(auto, unfolding(crate::specs::type_denoters::Additions::added))]
pub fn added(
    scope: &mut Scope,
    unit: &Name,
    place: Place,
    asked: Rule,
    one: TypeDef,
) -> Result<TypeId, Refusal>
    ensures { Gives (λ ty. denoted ty scope.new) result (added unit.now scope.old place asked one).run }
{
    if !scope.types().takes(unit, &one) {
        return Err(Refusal::Because(broken(place, asked)));
    }
    let number = count_of(scope.types(), unit);
    match scope.add_type(unit.copied(), number, one) {
        Ok(ty) => Ok(ty),
        Err(TypeError::TooLarge { bytes }) => Err(Refusal::Because(too_large(place, bytes))),
        Err(TypeError::NoMemory) => Err(Refusal::NoMemory),
    }
}

/// Adds the set over a type, for a type that begins at a place and stands in front of it.
pub(crate) fn with_set(
    scope: &mut Scope,
    unit: &Name,
    place: Place,
    base: TypeId,
) -> Result<(), Refusal>
    ensures { Gives (λ _. scope.new) result (with_set unit.now scope.old place base).run }
{
    let _over = added(scope, unit, place, Rule::SetBase, TypeDef::SetOf { base })?;
    Ok(())
}

/// Puts a name into the innermost block, which doesn't have it yet. Where no block is open, nothing is put anywhere.
#[tactic(auto, unfolding(crate::specs::type_denoters::Additions::entered))]
pub fn entered(scope: &mut Scope, place: Place, name: &Name, entry: Entry) -> Result<(), Refusal>
    ensures { Gives (λ _. scope.new) result (entered scope.old place name.now entry).run }
{
    if !scope.is_open() {
        return Ok(());
    }
    if scope.enter(name.copied(), entry)? {
        Ok(())
    } else {
        Err(Refusal::Because(broken(place, Rule::Duplicate)))
    }
}
