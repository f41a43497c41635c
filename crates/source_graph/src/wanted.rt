//! Sources that are wanted.

ghost use Rattle.std.specs.Prelude.{◌≡◌, ◌++◌, OnOk, OnErr, ◌<◌, ◌^◌, map};
ghost use Rattle.std.specs.List.{list_any};
ghost use Rattle.source_graph.specs.Files.{is_left_out};
ghost use Rattle.source_graph.specs.Walk.{start, wanted_at, is_predeclared};

use std::collections::VecDeque;
use syntax_tree::Identifier;
use type_layout::{Name, Place};

/// A source that is wanted: a unit at its name in a uses clause, or the program, which no clause names.
#[derive(Debug, Drop)]
pub struct Wanted {
    pub name: Name,
    pub place: Option<Place>,
}

impl Wanted {
    /// The program of this name.
    pub fn start(name: &Name) -> Wanted
        ensures { result ≡ start name.now }
    {
        Wanted {
            name: name.copied(),
            place: None,
        }
    }

    /// The unit at its name in a uses clause.
    pub fn at(unit: &Identifier) -> Wanted
        ensures { result ≡ wanted_at unit.now }
    {
        Wanted {
            name: unit.name.copied(),
            place: Some(unit.position.place),
        }
    }

    /// Whether it is a unit that is always there.
    pub fn is_predeclared(&self) -> bool
        ensures { result ≡ is_predeclared self.now.place self.now.name }
    {
        match self.place {
            None => false,
            Some(_) => {
                self.name.as_bytes() == b"OVERLAY".as_slice()
                    || self.name.as_bytes() == b"SYSTEM".as_slice()
            }
        }
    }
}

/// Whether this profile leaves out a unit of the full language with this name.
pub fn is_left_out(name: &Name) -> bool
    ensures { result ≡ is_left_out name.now }
{
    name.as_bytes() == b"CRT".as_slice()
        || name.as_bytes() == b"DOS".as_slice()
        || name.as_bytes() == b"GRAPH".as_slice()
        || name.as_bytes() == b"PRINTER".as_slice()
}
