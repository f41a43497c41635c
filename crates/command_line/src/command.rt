//! What the words of a command line ask for.

use type_layout::Name;

/// What the words of `run` and `go` say besides the program's name.
#[derive(Clone, Copy, PartialEq, Eq, Debug)]
pub struct RunOptions {
    /// The paragraphs of the overlay buffer.
    pub buffer: Option<u16>,
    /// How many instructions the program may take.
    pub limit: Option<u64>,
    /// How many paragraphs of overlays that live returns need are kept and moved.
    pub retry: Option<u16>,
}

/// What the words ask for.
#[derive(Debug, Drop)]
pub enum Command {
    /// To read, build, write and run this program.
    Go { name: Name, options: RunOptions },
    /// To run this program from its files.
    Run { name: Name, options: RunOptions },
    /// To show what this program means, within so many turns.
    Mean { name: Name, turns: Option<u64> },
    /// To say what words there are.
    Help,
    /// To say which version this is.
    Version,
}
