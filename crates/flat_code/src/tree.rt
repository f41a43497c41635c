//! The nodes of flat code.

use type_layout::RoutineId;

/// An operator on two words, which wraps.
#[derive(Clone, Copy, Debug, PartialEq, Eq)]
pub enum FlatOp {
    Add,
    Sub,
    Mul,
    /// The upper word of the unsigned product.
    MulHigh,
    /// The signed quotient, rounded toward zero.
    Div,
    /// The signed remainder.
    Mod,
    DivUnsigned,
    ModUnsigned,
    And,
    Or,
    Xor,
    /// The count is the lower byte of the right word; 16 places or more leave 0.
    Shl,
    /// The same to the right, with zeros from the left.
    Shr,
    /// 1 where the words are equal, else 0.
    Equal,
    /// 1 where the left is below the right as a signed number, else 0.
    Less,
    /// 1 where the left is below the right as an unsigned number, else 0.
    Below,
}

/// The place of some bytes.
#[derive(Clone, Copy, Debug, PartialEq, Eq)]
pub enum Address {
    /// `plus` bytes into a datum of the unit whose place in the names is `unit`.
    Global { unit: u32, number: u32, plus: u16 },
    /// So far from BP in the routine's own frame.
    Local(i32),
    /// So far from the link word of the activation that `levels` static links lead to; 0 links
    /// lead to the routine's own.
    Outer { levels: u8, at: i32 },
    /// `plus` bytes after where the far pointer points that lies `slot` bytes from BP.
    Through { slot: i32, plus: u16 },
}

/// An expression, whose value is a word.
#[derive(Drop)]
pub enum FlatExpr {
    Number(u16),
    Byte(Address),
    Word(Address),
    /// The offset of a place.
    AddressOf(Address),
    /// The segment of a place.
    SegmentOf(Address),
    /// The offset of a virtual method table.
    VmtOf {
        unit: u32,
        number: u32,
    },
    Op {
        op: FlatOp,
        a: Box<FlatExpr>,
        b: Box<FlatExpr>,
    },
}

/// Expressions, evaluated in order.
pub type FlatExprs = Vec<FlatExpr>;

/// Where the 1, 2 or 4 bytes of a result lie.
#[derive(Clone, Copy, Debug, PartialEq, Eq)]
pub struct FlatResult {
    pub at: Address,
    pub bytes: u8,
}

/// A statement.
#[derive(Drop)]
pub enum FlatStmt {
    StoreByte {
        to: Address,
        value: FlatExpr,
    },
    StoreWord {
        to: Address,
        value: FlatExpr,
    },
    /// Moves bytes one by one, the first first, once both places are known.
    Copy {
        to: Address,
        from: Address,
        bytes: u16,
    },
    If {
        test: FlatExpr,
        yes: FlatList,
        no: FlatList,
    },
    /// Runs its body again and again, until a `Leave` leaves it.
    Loop(FlatList),
    /// Leaves so many of the loops around it.
    Leave {
        loops: u16,
    },
    Call {
        routine: RoutineId,
        args: FlatExprs,
        result: Option<FlatResult>,
    },
    /// Calls the routine that the far pointer at a place names.
    CallThrough {
        pointer: Address,
        args: FlatExprs,
        result: Option<FlatResult>,
    },
    /// Numbers 0 to 4 are effects of the machine, the others routines of the runtime.
    Runtime {
        number: u16,
        args: FlatExprs,
        result: Option<FlatResult>,
    },
    /// Stores the far pointer to a routine.
    StoreRoutine {
        to: Address,
        routine: RoutineId,
    },
    Return,
    /// Ends the run with a runtime error.
    Error(u16),
}

/// Statements, run in order.
pub type FlatList = Vec<FlatStmt>;
