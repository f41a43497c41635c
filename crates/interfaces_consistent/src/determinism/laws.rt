//! That the files of a folder hold one program of a name at most, and that it is never refused.

ghost use Rattle.interfaces_consistent.specs.determinism.Laws.{SourcesAlike, OneFolder, NeverRefused};

/// What holds of the program that the files of a folder hold under a name; it does nothing.
pub fn one_program_laws()
    ensures alike { SourcesAlike }
    ensures one { OneFolder }
    ensures never { NeverRefused }
{}
