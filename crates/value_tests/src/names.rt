//! Types and operators by their names.

use common_values::ordinals::IntegerType;
use test_rows::Args;
use typed_tree::BinaryOp;

/// The integer type that the next argument names.
pub(crate) fn integer_type(args: &mut Args) -> IntegerType {
    match args.text() {
        "ShortInt" => IntegerType::ShortInt,
        "Byte" => IntegerType::Byte,
        "Integer" => IntegerType::Integer,
        "Word" => IntegerType::Word,
        "LongInt" => IntegerType::LongInt,
        _ => {
            args.fail();
            IntegerType::LongInt
        }
    }
}

const OPERATORS: [(&str, BinaryOp); 16] = [
    ("+", BinaryOp::Add),
    ("-", BinaryOp::Subtract),
    ("*", BinaryOp::Multiply),
    ("div", BinaryOp::Divide),
    ("mod", BinaryOp::Modulo),
    ("shl", BinaryOp::ShiftLeft),
    ("shr", BinaryOp::ShiftRight),
    ("and", BinaryOp::And),
    ("or", BinaryOp::Or),
    ("xor", BinaryOp::Xor),
    ("=", BinaryOp::Equal),
    ("<>", BinaryOp::NotEqual),
    ("<", BinaryOp::Less),
    ("<=", BinaryOp::LessOrEqual),
    (">", BinaryOp::Greater),
    (">=", BinaryOp::GreaterOrEqual),
];

/// The operator that the next argument is.
pub(crate) fn operator(args: &mut Args) -> BinaryOp {
    let told = args.text();
    for (name, op) in OPERATORS {
        if name == told {
            return op;
        }
    }
    args.fail();
    BinaryOp::In
}
