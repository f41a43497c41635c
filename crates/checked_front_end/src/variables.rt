//! Whether the variables of each block of a source can be numbered.

ghost use Rattle.std.specs.Prelude.{◌≡◌, ◌↔◌, IsTrue, min};
ghost use Rattle.tp_check_decl.specs.routines.Trees.{view_routine, view_declarations};
ghost use Rattle.programs_well_typed.specs.programs.Below.{names_in, variables_of, variables_in, interface_variables};
ghost use Rattle.token_provenance.specs.sources.Variables.{HasFewInside, EachHasFew, HasFew, HasFewVariables};

use syntax_tree::source_tree::{
    Declaration, DeclarationPart, InterfaceDeclaration, Routine, Tree, VariableDeclaration,
};

// How many numbers the variables of a block have; the others of 32 bits are for what a `with` holds.
const MOST: u64 = 1 << 31;

// How many variables these declare, or the greatest u64 where they pass it.
fn names_in(all: &[VariableDeclaration]) -> u64
    ensures { result ≡ min (names_in all.now) u64.MAX }
{
    let mut count = 0u64;
    for one in all {
        count = count.saturating_add(one.names.len() as u64);
    }
    count
}

fn variables_of(one: &DeclarationPart) -> u64
    ensures { result ≡ min (variables_of one.now) u64.MAX }
{
    match one {
        DeclarationPart::Variables { variables, .. } => names_in(variables.as_slice()),
        _ => 0,
    }
}

// How many variables a block declares itself.
fn variables_in(all: &[Declaration]) -> u64
    ensures { result ≡ min (variables_in (view_declarations all.now)) u64.MAX }
{
    let mut count = 0u64;
    for one in all {
        if let Declaration::Part(one) = one {
            count = count.saturating_add(variables_of(one));
        }
    }
    count
}

// How many variables an interface part declares.
fn interface_variables(all: &[InterfaceDeclaration]) -> u64
    ensures { result ≡ min (interface_variables all.now) u64.MAX }
{
    let mut count = 0u64;
    for one in all {
        if let InterfaceDeclaration::Part(one) = one {
            count = count.saturating_add(variables_of(one));
        }
    }
    count
}

// Whether that is so of the block of a routine, if it has one here.
#[cycle(blocks)]
fn has_few_inside(one: &Routine) -> bool
    ensures { IsTrue result ↔ HasFewInside (view_routine one.now) }
{
    match one {
        Routine::Forward(_) => true,
        Routine::Plain { block, .. } => has_few(block.declarations.as_slice()),
        Routine::Method { block, .. } => has_few(block.declarations.as_slice()),
    }
}

// Whether that is so of each routine of a block.
#[cycle(blocks)]
fn each_has_few(all: &[Declaration]) -> bool
    ensures { IsTrue result ↔ EachHasFew (view_declarations all.now) }
{
    for one in all {
        if let Declaration::Routine(one) = one {
            if !has_few_inside(one) {
                return false;
            }
        }
    }
    true
}

// Whether a block, and each inside it, declares no more variables than there are numbers.
#[cycle(blocks)]
fn has_few(all: &[Declaration]) -> bool
    ensures { IsTrue result ↔ HasFew (view_declarations all.now) }
{
    variables_in(all) < MOST && each_has_few(all)
}

/// Whether no block of a source, nor its interface part, declares more variables than there are numbers.
pub(crate) fn has_few_variables(tree: &Tree) -> bool
    ensures { IsTrue result ↔ HasFewVariables tree.now }
{
    match tree {
        Tree::Program { declarations, .. } => has_few(declarations.as_slice()),
        Tree::Unit {
            interface,
            declarations,
            ..
        } => interface_variables(interface.as_slice()) < MOST && has_few(declarations.as_slice()),
    }
}
