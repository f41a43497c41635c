//! What the language has at a place of the grammar and this profile leaves out.

ghost use Rattle.std.specs.Prelude.{◌≡◌};
ghost use Rattle.pascal_grammar.specs.Omissions.{feature};

use tp_lexer::Feature;

/// A word or a symbol where it would begin what is left out.
#[derive(Clone, Copy, Debug, PartialEq, Eq)]
pub enum Omission {
    Labels,
    InterfaceExternal,
    InterfaceInterrupt,
    InterfaceInline,
    Absolute,
    FileType,
    DividedRange,
    DividedControl,
    PackedFile,
    Variants,
    UntypedBeforeGroup,
    UntypedLast,
    ParameterFile,
    External,
    Interrupt,
    InlineBody,
    GotoStatement,
    InlineStatement,
    AssignedCast,
    DereferencedCast,
    SelectedCast,
    IndexedCast,
    WithCast,
    Divided,
    Real,
    Address,
    CaretCast,
    DotCast,
    BracketCast,
}

impl Omission {
    /// The feature that it is a part of.
    pub fn feature(self) -> Feature
        ensures { result ≡ feature self }
    {
        match self {
            Omission::Labels | Omission::GotoStatement => Feature::Gotos,
            Omission::InterfaceExternal | Omission::External => Feature::Externals,
            Omission::InterfaceInterrupt | Omission::Interrupt => Feature::Interrupts,
            Omission::InterfaceInline | Omission::InlineBody | Omission::InlineStatement =>
                Feature::Inline,
            Omission::Absolute => Feature::Absolute,
            Omission::FileType | Omission::PackedFile | Omission::ParameterFile => Feature::Files,
            Omission::Variants => Feature::Variants,
            Omission::UntypedBeforeGroup | Omission::UntypedLast => Feature::UntypedParameters,
            Omission::AssignedCast
            | Omission::DereferencedCast
            | Omission::SelectedCast
            | Omission::IndexedCast
            | Omission::WithCast
            | Omission::CaretCast
            | Omission::DotCast
            | Omission::BracketCast => Feature::Casts,
            Omission::DividedRange
            | Omission::DividedControl
            | Omission::Divided
            | Omission::Real => Feature::Reals,
            Omission::Address => Feature::Addresses,
        }
    }
}
