//! The three units of the runtime, its routines, and the data that others name.

ghost use Rattle.std.specs.Prelude.{◌≡◌};
ghost use Rattle.runtime_units.specs.numbers.Named.{number_of, unit_of, key_of};

/// A unit of the runtime.
#[derive(Clone, Copy)]
pub enum RuntimeUnit {
    /// Text: Write, Read, Str and Val.
    Text,
    /// LongInts, strings, sets, loads through pointers and classes.
    Strings,
    /// Overlays and the heap.
    Overlay,
}

/// A routine of the runtime.
#[derive(Clone, Copy)]
pub enum RuntimeRoutine {
    /// Writes a string in a field.
    WriteString,
    /// Writes a character in a field.
    WriteChar,
    /// Writes TRUE or FALSE in a field.
    WriteBoolean,
    /// Ends a line of the output.
    WriteLine,
    /// Whether the input is at its end.
    Eof,
    /// Whether the input is at the end of a line.
    Eoln,
    /// Reads a character.
    ReadChar,
    /// Skips the rest of a line.
    ReadLine,
    /// Writes a LongInt in a field.
    WriteInteger,
    /// Reads a string.
    ReadString,
    /// The value of Val.
    ValValue,
    /// The code of Val.
    ValPlace,
    /// Reads a LongInt.
    ReadNumber,
    /// Str of a LongInt.
    Str,
    /// The negative of a LongInt.
    Negation,
    /// The product of two LongInts.
    Product,
    /// Whether a LongInt is less than another.
    Less,
    /// `div` of two LongInts.
    Quotient,
    /// `mod` of two LongInts.
    Remainder,
    /// The sum of two LongInts.
    Sum,
    /// The difference of two LongInts.
    Difference,
    /// Whether two LongInts are equal.
    Equal,
    /// `shl` of a LongInt.
    LeftShift,
    /// `shr` of a LongInt.
    RightShift,
    /// Tests that a LongInt is in a range.
    Range,
    /// Assigns a string.
    Assign,
    /// Joins a string to another.
    Concat,
    /// Insert.
    Insert,
    /// Copy.
    Copy,
    /// Delete.
    Delete,
    /// UpCase.
    UpCase,
    /// The order of two strings.
    Compare,
    /// Pos.
    Pos,
    /// The union of two sets.
    Union,
    /// The difference of two sets.
    SetDifference,
    /// The intersection of two sets.
    Intersection,
    /// Whether two sets are equal.
    SameSet,
    /// Whether a set is in another.
    Subset,
    /// `in`.
    Member,
    /// Adds a range of elements to a set.
    Include,
    /// The byte that a pointer leads to.
    LoadByte,
    /// The ShortInt that a pointer leads to, with its sign.
    LoadShort,
    /// The word that a pointer leads to.
    LoadWord,
    /// Moves bytes from one pointer to another.
    Move,
    /// Whether a LongInt is in a range.
    Between,
    /// The method that an instance's class has.
    Method,
    /// The size of an instance's class.
    ClassSize,
    /// OvrInit.
    OvrInit,
    /// OvrSetBuf.
    OvrSetBuf,
    /// OvrClearBuf.
    OvrClearBuf,
    /// New.
    New,
    /// Dispose.
    Dispose,
    /// Makes bytes zeros.
    Clear,
}

impl RuntimeRoutine {
    /// The number by which flat code calls it.
    pub fn number(&self) -> u16
        ensures { result ≡ number_of self.now }
    {
        match self {
            RuntimeRoutine::WriteString => 256,
            RuntimeRoutine::WriteChar => 257,
            RuntimeRoutine::WriteBoolean => 258,
            RuntimeRoutine::WriteLine => 259,
            RuntimeRoutine::Eof => 260,
            RuntimeRoutine::Eoln => 261,
            RuntimeRoutine::ReadChar => 262,
            RuntimeRoutine::ReadLine => 263,
            RuntimeRoutine::WriteInteger => 264,
            RuntimeRoutine::ReadString => 265,
            RuntimeRoutine::ValValue => 266,
            RuntimeRoutine::ValPlace => 267,
            RuntimeRoutine::ReadNumber => 268,
            RuntimeRoutine::Str => 269,
            RuntimeRoutine::Negation => 512,
            RuntimeRoutine::Product => 513,
            RuntimeRoutine::Less => 514,
            RuntimeRoutine::Quotient => 515,
            RuntimeRoutine::Remainder => 516,
            RuntimeRoutine::Sum => 517,
            RuntimeRoutine::Difference => 518,
            RuntimeRoutine::Equal => 519,
            RuntimeRoutine::LeftShift => 520,
            RuntimeRoutine::RightShift => 521,
            RuntimeRoutine::Range => 522,
            RuntimeRoutine::Assign => 523,
            RuntimeRoutine::Concat => 524,
            RuntimeRoutine::Insert => 525,
            RuntimeRoutine::Copy => 526,
            RuntimeRoutine::Delete => 527,
            RuntimeRoutine::UpCase => 528,
            RuntimeRoutine::Compare => 529,
            RuntimeRoutine::Pos => 530,
            RuntimeRoutine::Union => 531,
            RuntimeRoutine::SetDifference => 532,
            RuntimeRoutine::Intersection => 533,
            RuntimeRoutine::SameSet => 534,
            RuntimeRoutine::Subset => 535,
            RuntimeRoutine::Member => 536,
            RuntimeRoutine::Include => 537,
            RuntimeRoutine::LoadByte => 538,
            RuntimeRoutine::LoadShort => 539,
            RuntimeRoutine::LoadWord => 540,
            RuntimeRoutine::Move => 541,
            RuntimeRoutine::Between => 542,
            RuntimeRoutine::Method => 543,
            RuntimeRoutine::ClassSize => 544,
            RuntimeRoutine::OvrInit => 768,
            RuntimeRoutine::OvrSetBuf => 769,
            RuntimeRoutine::OvrClearBuf => 770,
            RuntimeRoutine::New => 771,
            RuntimeRoutine::Dispose => 772,
            RuntimeRoutine::Clear => 773,
        }
    }

    /// The unit that holds it.
    pub fn unit(&self) -> RuntimeUnit
        ensures { result ≡ unit_of self.now }
    {
        match self {
            RuntimeRoutine::WriteString => RuntimeUnit::Text,
            RuntimeRoutine::WriteChar => RuntimeUnit::Text,
            RuntimeRoutine::WriteBoolean => RuntimeUnit::Text,
            RuntimeRoutine::WriteLine => RuntimeUnit::Text,
            RuntimeRoutine::Eof => RuntimeUnit::Text,
            RuntimeRoutine::Eoln => RuntimeUnit::Text,
            RuntimeRoutine::ReadChar => RuntimeUnit::Text,
            RuntimeRoutine::ReadLine => RuntimeUnit::Text,
            RuntimeRoutine::WriteInteger => RuntimeUnit::Text,
            RuntimeRoutine::ReadString => RuntimeUnit::Text,
            RuntimeRoutine::ValValue => RuntimeUnit::Text,
            RuntimeRoutine::ValPlace => RuntimeUnit::Text,
            RuntimeRoutine::ReadNumber => RuntimeUnit::Text,
            RuntimeRoutine::Str => RuntimeUnit::Text,
            RuntimeRoutine::Negation => RuntimeUnit::Strings,
            RuntimeRoutine::Product => RuntimeUnit::Strings,
            RuntimeRoutine::Less => RuntimeUnit::Strings,
            RuntimeRoutine::Quotient => RuntimeUnit::Strings,
            RuntimeRoutine::Remainder => RuntimeUnit::Strings,
            RuntimeRoutine::Sum => RuntimeUnit::Strings,
            RuntimeRoutine::Difference => RuntimeUnit::Strings,
            RuntimeRoutine::Equal => RuntimeUnit::Strings,
            RuntimeRoutine::LeftShift => RuntimeUnit::Strings,
            RuntimeRoutine::RightShift => RuntimeUnit::Strings,
            RuntimeRoutine::Range => RuntimeUnit::Strings,
            RuntimeRoutine::Assign => RuntimeUnit::Strings,
            RuntimeRoutine::Concat => RuntimeUnit::Strings,
            RuntimeRoutine::Insert => RuntimeUnit::Strings,
            RuntimeRoutine::Copy => RuntimeUnit::Strings,
            RuntimeRoutine::Delete => RuntimeUnit::Strings,
            RuntimeRoutine::UpCase => RuntimeUnit::Strings,
            RuntimeRoutine::Compare => RuntimeUnit::Strings,
            RuntimeRoutine::Pos => RuntimeUnit::Strings,
            RuntimeRoutine::Union => RuntimeUnit::Strings,
            RuntimeRoutine::SetDifference => RuntimeUnit::Strings,
            RuntimeRoutine::Intersection => RuntimeUnit::Strings,
            RuntimeRoutine::SameSet => RuntimeUnit::Strings,
            RuntimeRoutine::Subset => RuntimeUnit::Strings,
            RuntimeRoutine::Member => RuntimeUnit::Strings,
            RuntimeRoutine::Include => RuntimeUnit::Strings,
            RuntimeRoutine::LoadByte => RuntimeUnit::Strings,
            RuntimeRoutine::LoadShort => RuntimeUnit::Strings,
            RuntimeRoutine::LoadWord => RuntimeUnit::Strings,
            RuntimeRoutine::Move => RuntimeUnit::Strings,
            RuntimeRoutine::Between => RuntimeUnit::Strings,
            RuntimeRoutine::Method => RuntimeUnit::Strings,
            RuntimeRoutine::ClassSize => RuntimeUnit::Strings,
            RuntimeRoutine::OvrInit => RuntimeUnit::Overlay,
            RuntimeRoutine::OvrSetBuf => RuntimeUnit::Overlay,
            RuntimeRoutine::OvrClearBuf => RuntimeUnit::Overlay,
            RuntimeRoutine::New => RuntimeUnit::Overlay,
            RuntimeRoutine::Dispose => RuntimeUnit::Overlay,
            RuntimeRoutine::Clear => RuntimeUnit::Overlay,
        }
    }
}

/// A datum of the runtime that others name. All are in the unit of overlays and the heap.
#[derive(Clone, Copy)]
pub enum RuntimeGlobal {
    /// The variable OvrResult.
    OvrResult,
    /// The heap's segment, a word that a program gets as it starts.
    HeapSegment,
    /// The heap's bytes, a LongInt that a program gets as it starts.
    HeapBytes,
    /// The name of the overlay file, a string that a program gets as it starts.
    OvrName,
    /// 8 bytes for what a routine gives before it is stored.
    Scratch,
}

impl RuntimeGlobal {
    /// Its number among the data of the unit.
    pub fn number(&self) -> u32
        ensures { result ≡ (key_of self.now).number }
    {
        match self {
            RuntimeGlobal::OvrResult => 0,
            RuntimeGlobal::HeapSegment => 1,
            RuntimeGlobal::HeapBytes => 2,
            RuntimeGlobal::OvrName => 3,
            RuntimeGlobal::Scratch => 5,
        }
    }
}
