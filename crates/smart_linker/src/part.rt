//! What stands by itself in a unit.

/// What a part is.
#[derive(Clone, Copy, PartialEq, Eq, Debug)]
pub(crate) enum Kind {
    Routine,
    Datum,
    Vmt,
}

/// A routine, a datum or a virtual method table, by the place of its unit and its number there.
#[derive(Clone, Copy, PartialEq, Eq, Debug)]
pub(crate) struct Part {
    pub(crate) kind: Kind,
    pub(crate) unit: usize,
    pub(crate) number: usize,
}
