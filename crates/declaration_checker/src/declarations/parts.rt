//! Parts of declarations.

ghost use Rattle.typing_rules.specs.Judgements.{Gives};
ghost use Rattle.declaration_checker.specs.declarations.Progress.{progress};
ghost use Rattle.declaration_checker.specs.declarations.Parts.{part_declared};

use crate::declarations::constants::constants_declared;
use crate::declarations::homes::Home;
use crate::declarations::variables::variables_declared;
use crate::type_parts::type_part;
use scopes::Scope;
use std::alloc::Global;
use syntax_tree::source_tree::DeclarationPart;
use type_layout::Name;
use typed_tree::{Globals, Locals};
use typing_rules::Refusal;

/// Constants, types or variables of a block. Their names are put into the innermost block, types into the table, and variables
/// behind those of the unit or of the routine whose block it is. Where object types may be declared, the number of the unit's next
/// routine is given, and their methods are numbered from it on.
#[tactic(auto, unfolding(crate::specs::declarations::Parts::part_declared))]
pub fn part_declared(
    alloc: Global,
    one: &DeclarationPart,
    scope: &mut Scope,
    globals: &mut Globals,
    locals: &mut Locals,
    unit: &Name,
    home: Home,
    next: Option<u32>,
) -> Result<(), Refusal>
    ensures { Gives (λ _. progress scope.new globals.new locals.new) result (part_declared unit.now home next (progress scope.old globals.old locals.old) one.now).run }
{
    match one {
        DeclarationPart::Constants { constants, .. } => {
            let all = constants.as_slice();
            constants_declared(alloc, all, scope, globals, locals, unit)
        }
        DeclarationPart::Types { types, .. } => {
            type_part(alloc, types.as_slice(), scope, unit, next)
        }
        DeclarationPart::Variables { variables, .. } => {
            let all = variables.as_slice();
            variables_declared(alloc, all, scope, globals, locals, unit, home)
        }
    }
}
