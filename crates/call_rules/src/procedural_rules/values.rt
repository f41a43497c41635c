//! Routines as values.

ghost use Rattle.std.specs.Prelude.{◌≡◌, option_copied, slice_get};
ghost use Rattle.type_layout.specs.Words.{IsName};
ghost use Rattle.typed_tree.specs.Expressions.{view_expr};
ghost use Rattle.typing_rules.specs.Judgements.{Gives};
ghost use Rattle.call_rules.specs.procedural_rules.Values.{overlay, is_overlay, is_predeclared, is_held, value_by, routine_value};

use object_vmt::same_header;
use scopes::Scope;
use type_layout::{Header, Name, Place, RoutineId, TypeDef, TypeId};
use typed_tree::Expr;
use typing_rules::{Fault, Refusal, Rule, broken, definition};

// The name of these bytes, which are one.
fn known(bytes: &[u8]) -> Name
    requires { IsName bytes.now }
    ensures { result ≡ bytes.now }
{
    match Name::new(bytes) {
        Some(name) => name,
        None => unreachable!(),
    }
}

fn overlay() -> Name
    ensures { result ≡ overlay }
{
    known(b"OVERLAY")
}

fn is_overlay(name: Option<&Name>) -> bool
    ensures { result ≡ is_overlay (option_copied name.entry) }
{
    match name {
        Some(name) => overlay() == *name,
        None => false,
    }
}

fn unit_at(units: &[Name], unit: u32) -> Option<&Name>
    ensures { option_copied result ≡ slice_get units.now unit }
{
    units.get(unit as usize)
}

// The routines of OVERLAY come without a source.
fn is_predeclared(scope: &Scope, routine: RoutineId) -> bool
    ensures { result ≡ is_predeclared scope.now routine }
{
    is_overlay(unit_at(scope.units(), routine.unit))
}

// A routine that can be held: it is far, nested in no other, and of the sources.
fn is_held(scope: &Scope, routine: RoutineId, level: u32, far: bool) -> bool
    ensures { result ≡ is_held scope.now routine level far }
{
    far && level == 0 && !is_predeclared(scope, routine)
}

fn value_by(
    fault: Fault,
    ty: TypeId,
    one: Option<&TypeDef>,
    routine: RoutineId,
    header: &Header,
) -> Result<Expr, Refusal>
    ensures { Gives view_expr result (value_by fault ty (option_copied one.entry) routine header.now).run }
{
    match one {
        Some(TypeDef::Procedural { header: wanted }) if same_header(wanted, header) => {
            Ok(Expr::RoutineValue { ty, routine })
        }
        _ => Err(Refusal::Because(fault)),
    }
}

/// The node of a routine whose name stands at a place where a value of a procedural type is wanted. `level` and `far` are those
/// of its entry; where its header is not that of the type, this fault is told.
#[tactic(auto, unfolding(crate::specs::procedural_rules::Values::routine_value))]
pub fn routine_value(
    scope: &Scope,
    place: Place,
    fault: Fault,
    ty: TypeId,
    routine: RoutineId,
    level: u32,
    header: &Header,
    far: bool,
) -> Result<Expr, Refusal>
    ensures { Gives view_expr result (routine_value scope.now place fault ty routine level header.now far).run }
{
    if is_held(scope, routine, level, far) {
        value_by(fault, ty, definition(scope.types(), ty), routine, header)
    } else {
        Err(Refusal::Because(broken(place, Rule::RoutineValue)))
    }
}
