//! The laws, the contract of a function that does nothing.

ghost use Rattle.address_independence.specs.yields.Laws.{ExpressionsAreAlike, StatementsAreAlike, SourcesAreAlike, SourcesAreRead};

/// What is spelled alike is alike in all that the rules of typing look at; it does nothing.
pub fn read_back_laws()
    ensures expressions { ExpressionsAreAlike }
    ensures statements { StatementsAreAlike }
    ensures sources { SourcesAreAlike }
    // The parse tree says what is written in a source.
    ensures read { SourcesAreRead }
{}
