//! Routines with their bodies.

ghost use Rattle.std.specs.Prelude.{◌≡◌};
ghost use Rattle.syntax_tree.specs.source_tree.Declarations.{of_routine, routine_of, method_of, block_of};
ghost use Rattle.tp_parser.specs.declaration_parser.Views.{body_of};

use syntax_tree::Identifier;
use syntax_tree::source_tree::{Block, Routine, RoutineHeader};
use syntax_tree::type_tree::MethodHeader;

/// What stands behind the semicolon of a header.
#[derive(Drop)]
pub enum RoutineBody {
    Forward,
    Block(Block),
}

/// A routine that is no method, with what stands behind its header.
#[tactic(auto, using(syntax_tree::proofs::source_tree::Rows::routine_is))]
pub fn routine_node(header: RoutineHeader, body: RoutineBody) -> Routine
    ensures { of_routine result ≡ routine_of header (body_of body) }
{
    match body {
        RoutineBody::Forward => Routine::Forward(header),
        RoutineBody::Block(block) => Routine::Plain { header, block },
    }
}

/// A method of the object type that is named, with its block.
#[tactic(auto, using(syntax_tree::proofs::source_tree::Rows::method_is))]
pub fn method_node(header: MethodHeader, owner: Identifier, block: Block) -> Routine
    ensures { of_routine result ≡ method_of header owner (block_of block) }
{
    Routine::Method {
        header,
        owner,
        block,
    }
}
