//! Headers of routines that are new.

ghost use Rattle.std.specs.Prelude.{◌≡◌};
ghost use Rattle.typing_rules.specs.Judgements.{Gives};
ghost use Rattle.tp_check_decl.specs.routines.Drafts.{drafted};
ghost use Rattle.tp_check_decl.specs.routines.Headings.{name_of, begins, announced, heading};

use crate::routines::drafts::{Announced, Draft, Site, announce, depth_of, next_number};
use declaration_checker::headers::routine_header;
use declaration_checker::type_denoters::entered;
use pascal_grammar::Position;
use scopes::{Entry, Scope};
use std::alloc::Global;
use syntax_tree::Identifier;
use syntax_tree::source_tree::RoutineHeader;
use type_layout::{Header, RoutineId};
use typing_rules::Refusal;

pub(crate) fn name_of(header: &RoutineHeader) -> &Identifier
    ensures { result.now ≡ name_of header.now }
{
    match header {
        RoutineHeader::Procedure { name, .. } | RoutineHeader::Function { name, .. } => name,
    }
}

pub(crate) fn begins(header: &RoutineHeader) -> Position
    ensures { result ≡ begins header.now }
{
    match header {
        RoutineHeader::Procedure { position, .. } | RoutineHeader::Function { position, .. } => {
            *position
        }
    }
}

/// A routine with a header that was judged. Its name is put into the innermost block.
pub(crate) fn announced(
    alloc: Global,
    one: &RoutineHeader,
    header: Header,
    scope: &mut Scope,
    draft: &mut Draft,
    site: Site,
    far: bool,
) -> Result<(), Refusal>
    ensures { Gives (λ _. drafted scope.new draft.new) result (announced far site (drafted scope.old draft.old) one.now header).run }
{
    let name = name_of(one);
    let here = begins(one);
    let far = far || here.switches.f;
    let routine = RoutineId {
        unit: 0,
        number: next_number(draft.slots.as_slice()),
    };
    let entry = Entry::Code {
        routine,
        level: depth_of(site.home),
        header: header.copied(alloc)?,
        far,
    };
    entered(scope, name.position.place, &name.name, entry)?;
    let first = Announced {
        place: here.place,
        name: name.name.copied(),
        header,
        owner: None,
        outer: site.outer,
        far,
    };
    announce(&mut draft.slots, first)
}

/// The header of a routine that repeats no other. The routine gets the next number, and its name is put into the innermost block.
/// It is far where that is asked for, or where the switch says so at the header.
#[tactic(auto, unfolding(crate::specs::routines::Headings::heading))]
pub fn heading(
    alloc: Global,
    one: &RoutineHeader,
    scope: &mut Scope,
    draft: &mut Draft,
    site: Site,
    far: bool,
) -> Result<(), Refusal>
    ensures { Gives (λ _. drafted scope.new draft.new) result (heading far site (drafted scope.old draft.old) one.now).run }
{
    let header = routine_header(alloc, scope, one)?;
    announced(alloc, one, header, scope, draft, site, far)
}
