//! Why a source is not typed.

ghost use Rattle.std.specs.Prelude.{◌≡◌};
ghost use Rattle.typing_rules.specs.Faults.{number_of, broken_error, error_of, error_for, broken, left_out, too_large, undeclared};
ghost use Rattle.typing_rules.specs.declared.faults.Refusal.TheVariants.{NoMemory};

use std::alloc::{AllocError, AllocFailed};
use tp_lexer::Feature;
use type_layout::Place;

/// The rules that are built, by what they are on.
#[derive(Clone, Copy, Debug, PartialEq, Eq)]
pub enum Rule {
    /// A name that is used is declared.
    Declared,
    /// A name is declared once in a block, record, parameter list or header.
    Duplicate,
    /// A declared constant, a bound or a label is a constant expression, and no divisor in it is 0.
    Constant,
    /// What a set is over is ordinal and lies in 0..255.
    SetBase,
    /// An index type is ordinal and not LongInt, and types keep their greatest size.
    IndexType,
    /// The size of a string is a constant in 1..255.
    StringSize,
    /// The initializer of a typed constant fits its type.
    FirstValue,
    /// No object type is declared inside a routine or outside a type part, and each one stands behind its ancestor.
    ObjectPlace,
    /// A source has the kind and the name that its file is asked for.
    SourceName,
    /// Arithmetic and shifts have integers.
    Arithmetic,
    /// `and`, `or`, `xor` and `not` have integers or Booleans.
    Logic,
    /// Where `+` has no integer it has texts or sets of one host, and so have `-` and `*` sets.
    Joined,
    /// What is compared is comparable.
    Compared,
    /// `in` has an ordinal and a set of its host.
    Membership,
    /// What a set constructor lists is of one host, and its constants lie in 0..255.
    Listed,
    /// An index stands behind an array and has the host of its index type.
    Indexed,
    /// A field that is selected is there.
    Selected,
    /// `^` follows a pointer.
    Dereferenced,
    /// A call has an argument for each parameter, and each fits its own.
    Called,
    /// A name of a type, a procedure or a function stands where its kind may.
    Stands,
    /// What is assigned joins its target.
    Assigned,
    /// A condition is Boolean.
    Conditional,
    /// A `for` counts by an ordinal variable of this block or of the unit.
    Counted,
    /// A `case` selects by an ordinal, and its labels are of that host and distinct.
    Labelled,
    /// A `with` opens records and objects.
    Opened,
    /// What is written is an integer, a Char, a string or a Boolean, and widths are integers.
    Written,
    /// What is read is a variable of an integer type, a Char or a string.
    Read,
    /// What is assigned to is a variable, or a function within its body.
    Target,
    /// A header that needs a body has one, and with the same header.
    Bodies,
    /// A unit is used once.
    UnitUsed,
    /// A unit that is used or overlaid is there.
    UnitNamed,
    /// A procedural value is a far routine of the sources that is not nested and no method.
    RoutineValue,
    /// The result of a function is ordinal, a pointer or a string.
    ResultType,
    /// A virtual constructor is none, and a call that New or Dispose is to make wants a pointer to an object.
    Allocating,
}

/// What is wrong with a construct: it breaks a rule, it is of what this profile leaves out, or it is larger than may be.
#[derive(Clone, Copy, Debug, PartialEq, Eq)]
pub enum Cause {
    Breaks(Rule),
    LeftOut(Feature),
    TooLarge(u64),
}

/// What is wrong, and where the construct stands.
#[derive(Clone, Copy, Debug, PartialEq, Eq)]
pub struct Fault {
    pub place: Place,
    pub cause: Cause,
}

/// Why a part has no typed node.
#[derive(Debug, Drop)]
pub enum Refusal {
    NoMemory,
    Because(Fault),
}

/// Why a source is refused. The rule is named by its number, which users are told. What is too large are the bytes of a type, of
/// arguments or of locals, or how deep routines are nested.
#[derive(Debug, Drop)]
pub enum CheckError {
    NoMemory,
    UnknownName { place: Place, rule: u16 },
    DuplicateName { place: Place, rule: u16 },
    TypeMismatch { place: Place, rule: u16 },
    NotAVariable { place: Place, rule: u16 },
    BadConstant { place: Place, rule: u16 },
    MissingBody { place: Place, rule: u16 },
    BadCall { place: Place, rule: u16 },
    NotInProfile { place: Place, feature: Feature },
    TooLarge { place: Place, bytes: u64 },
}

impl From<AllocError> for Refusal {
    ghost from_gives = { λ _ refusal. refusal ≡ NoMemory };

    fn from(_error: AllocError) -> Refusal {
        Refusal::NoMemory
    }
}

impl<T: Drop> From<AllocFailed<T>> for Refusal {
    ghost from_gives = { λ _ refusal. refusal ≡ NoMemory };

    fn from(_error: AllocFailed<T>) -> Refusal {
        Refusal::NoMemory
    }
}

impl Rule {
    /// The number under which users know the rule.
    pub fn number(self) -> u16
        ensures { result ≡ number_of self }
    {
        match self {
            Rule::Declared => 1,
            Rule::Duplicate => 2,
            Rule::Constant => 3,
            Rule::SetBase => 4,
            Rule::IndexType => 5,
            Rule::StringSize => 6,
            Rule::FirstValue => 7,
            Rule::ObjectPlace => 8,
            Rule::SourceName => 9,
            Rule::Arithmetic => 10,
            Rule::Logic => 11,
            Rule::Joined => 12,
            Rule::Compared => 13,
            Rule::Membership => 14,
            Rule::Listed => 15,
            Rule::Indexed => 16,
            Rule::Selected => 17,
            Rule::Dereferenced => 18,
            Rule::Called => 19,
            Rule::Stands => 20,
            Rule::Assigned => 21,
            Rule::Conditional => 22,
            Rule::Counted => 23,
            Rule::Labelled => 24,
            Rule::Opened => 25,
            Rule::Written => 26,
            Rule::Read => 27,
            Rule::Target => 28,
            Rule::Bodies => 29,
            Rule::UnitUsed => 31,
            Rule::UnitNamed => 31,
            Rule::RoutineValue => 32,
            Rule::ResultType => 33,
            Rule::Allocating => 34,
        }
    }
}

// What users are told of a construct that breaks a rule.
fn broken_error(place: Place, broken: Rule) -> CheckError
    ensures { result ≡ broken_error place broken }
{
    let rule = broken.number();
    match broken {
        Rule::Declared | Rule::Selected | Rule::ObjectPlace | Rule::SourceName | Rule::UnitNamed =>
            CheckError::UnknownName { place, rule },
        Rule::Duplicate | Rule::UnitUsed => CheckError::DuplicateName { place, rule },
        Rule::Constant | Rule::Labelled | Rule::SetBase | Rule::StringSize => {
            CheckError::BadConstant { place, rule }
        }
        Rule::Counted | Rule::Read | Rule::Target => CheckError::NotAVariable { place, rule },
        Rule::Bodies => CheckError::MissingBody { place, rule },
        Rule::Called | Rule::Stands | Rule::RoutineValue | Rule::Allocating => {
            CheckError::BadCall { place, rule }
        }
        _ => CheckError::TypeMismatch { place, rule },
    }
}

/// What users are told of a fault.
pub fn error_of(fault: Fault) -> CheckError
    ensures { result ≡ error_of fault }
{
    let place = fault.place;
    match fault.cause {
        Cause::LeftOut(feature) => CheckError::NotInProfile { place, feature },
        Cause::TooLarge(bytes) => CheckError::TooLarge { place, bytes },
        Cause::Breaks(rule) => broken_error(place, rule),
    }
}

/// What users are told in place of a refusal.
pub fn error_for(refusal: Refusal) -> CheckError
    ensures { result ≡ error_for refusal }
{
    match refusal {
        Refusal::NoMemory => CheckError::NoMemory,
        Refusal::Because(fault) => error_of(fault),
    }
}

/// What a construct at a place is refused for that breaks a rule.
pub fn broken(place: Place, rule: Rule) -> Fault
    ensures { result ≡ broken place rule }
{
    Fault {
        place,
        cause: Cause::Breaks(rule),
    }
}

/// What a construct at a place is refused for that is of a feature which this profile leaves out.
pub fn left_out(place: Place, feature: Feature) -> Fault
    ensures { result ≡ left_out place feature }
{
    Fault {
        place,
        cause: Cause::LeftOut(feature),
    }
}

/// What a construct at a place is refused for whose bytes pass what may be, or how deep it is nested.
pub fn too_large(place: Place, bytes: u64) -> Fault
    ensures { result ≡ too_large place bytes }
{
    Fault {
        place,
        cause: Cause::TooLarge(bytes),
    }
}

/// What a name at a place is told as that isn't declared: unknown, or of a feature that is left out.
pub fn undeclared(place: Place, feature: Option<Feature>) -> Fault
    ensures { result ≡ undeclared place feature }
{
    match feature {
        Some(feature) => left_out(place, feature),
        None => broken(place, Rule::Declared),
    }
}
