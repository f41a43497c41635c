//! Trees without gaps, which are those that some list of lexemes spells.
