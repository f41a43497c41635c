//! Elements and arguments as they are read.

ghost use Rattle.std.specs.Prelude.{◌≡◌, ◌++◌, IfErr, OnOk, List, [], ◌∷◌};
ghost use Rattle.pascal_grammar.specs.Productions.{bare_factor, named_factor, call, argument_end, set_constructor, no_selectors, no_more_elements, no_more_arguments};
ghost use Rattle.syntax_tree.specs.Expressions.{of, word, mark_at, closed, of_factor, head_of, selectors};
ghost use Rattle.expression_parser.specs.Views.{elements_of, arguments_of};
ghost use Rattle.expression_parser.specs.declared.error.ReadError.TheVariants.{NoMemory};

use crate::error::ReadError;
use pascal_grammar::Position;
use std::alloc::Global;
use syntax_tree::{Argument, Designator, Element, Factor};

/// The elements of a set constructor, so far.
#[derive(Drop)]
pub struct Elements {
    pub items: Vec<Element>,
}

/// The arguments of a call, so far.
#[derive(Drop)]
pub struct Arguments {
    pub items: Vec<Argument>,
}

impl Elements {
    pub fn new(alloc: Global) -> Elements
        ensures { result.items.items ≡ [] }
    {
        Elements {
            items: Vec::new(alloc),
        }
    }

    pub fn push(&mut self, element: Element) -> Result<(), ReadError>
        ensures ok { OnOk result (self.new.items.items ≡ self.old.items.items ++ (element ∷ [])) }
        ensures err { IfErr result (λ e. e ≡ NoMemory) }
    {
        self.items.push(element)?;
        Ok(())
    }

    /// The set constructor of these elements.
    pub fn into_set(self, position: Position) -> Factor
        ensures { of_factor result ≡ closed set_constructor (mark_at position ∷ elements_of self.items.items (of no_more_elements []) ∷ word ∷ []) }
    {
        Factor::Set {
            position,
            elements: self.items,
        }
    }
}

impl Arguments {
    pub fn new(alloc: Global) -> Arguments
        ensures { result.items.items ≡ [] }
    {
        Arguments {
            items: Vec::new(alloc),
        }
    }

    pub fn push(&mut self, argument: Argument) -> Result<(), ReadError>
        ensures ok { OnOk result (self.new.items.items ≡ self.old.items.items ++ (argument ∷ [])) }
        ensures err { IfErr result (λ e. e ≡ NoMemory) }
    {
        self.items.push(argument)?;
        Ok(())
    }

    /// The call with these arguments.
    pub fn into_call(self, callee: Designator) -> Factor
        ensures { of_factor result ≡ of bare_factor (of named_factor (head_of callee ∷ selectors callee (of no_selectors []) ∷ of call (arguments_of self.items.items (of no_more_arguments []) ∷ of argument_end [] ∷ []) ∷ []) ∷ []) }
    {
        Factor::Call {
            callee,
            arguments: self.items,
        }
    }
}
