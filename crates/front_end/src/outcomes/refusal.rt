//! Why a command is refused.

use mz_file::ExeCause;
use source_graph::{At, LexCause};
use tp_lexer::Feature;
use type_layout::{FileName, Name};

/// What has a limit that was passed.
#[derive(Clone, Copy, PartialEq, Eq, Debug)]
pub enum What {
    /// The bytes of a text, or of all texts.
    Source,
    /// The bytes of a type, of arguments or of locals, or how deep routines are nested.
    Declaration,
    /// The bytes of a unit's code.
    Code,
    /// The bytes of a program's data segment.
    Data,
    /// The paragraphs of a program's image.
    Image,
    /// The words of a program that are segments.
    Relocations,
    /// The units of a program.
    Units,
    /// The bytes of an input.
    Input,
}

/// Which kind of rule a source breaks.
#[derive(Clone, Copy, PartialEq, Eq, Debug)]
pub enum CheckKind {
    UnknownName,
    DuplicateName,
    TypeMismatch,
    NotAVariable,
    BadConstant,
    MissingBody,
    BadCall,
}

/// What is wrong in a line of object types.
#[derive(Clone, Copy, PartialEq, Eq, Debug)]
pub enum ClassKind {
    /// An override of a virtual method has another header.
    BadOverride,
    /// An override of a virtual method is not virtual.
    MissingVirtual,
    /// A field or a method has the name of a field in the line.
    DuplicateField,
}

/// Why a command was refused. A refused command has changed no file.
#[derive(Debug, Drop)]
pub enum Refusal {
    /// The words name no command.
    Usage,
    /// A file that the command needs is not there.
    MissingFile { name: FileName },
    /// A limit was passed; so many there are.
    TooLarge { what: What, number: u64 },
    /// A token, a comment or a directive breaks a rule.
    BadToken { at: At, cause: LexCause },
    /// No source begins with the tokens up to this one, or none ends here.
    Syntax { at: At },
    /// The source is outside the language that is taken, at this place.
    NotInProfile { at: At, feature: Feature },
    /// The token opens one construct more than may be open at once.
    TooDeep { at: At },
    /// The unit lies on a circle of units that use one another in their interface parts.
    Circular { unit: Name },
    /// The rule of this number is broken here.
    CheckRefused { at: At, kind: CheckKind, rule: u16 },
    /// A line of object types is wrong at this field or method.
    ClassRefused { kind: ClassKind, name: Name },
    /// A type that the unit `unit` has from `import` does not fit those that it has by the units before.
    VersionMismatch { unit: Name, import: Name },
    /// The unit is overlaid, and it was not compiled for that.
    NotOverlayable { unit: Name },
    /// The program to run is no executable file.
    NotExecutable { cause: ExeCause },
    /// The first part of the overlay file that breaks a rule of the format begins at this byte.
    OverlayFileDamaged { at: u64 },
    /// The first overlay whose stub in the program is not that of this overlay of the file, while it is out.
    OverlayMismatch { overlay: u16 },
    /// The largest overlay needs so many paragraphs, and the buffer has fewer.
    BufferTooSmall { need: u16, have: u16 },
    /// The program with its buffer takes so many paragraphs from segment 0 on, which pass segment A000h.
    MemoryTooSmall { need: u32 },
}
