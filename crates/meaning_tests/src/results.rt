//! Operators, texts, sets, first values, and what is read and written.

use crate::programs::{Coded, alone};
use crate::rows::{Shown, expect, first_untold, first_wrong};
use crate::trees::{FIRST, HELD, ONE, SECOND, written};
use crate::types::{BOOLEAN, CHAR, INTEGER, LONG, SET, SHORT_TEXT, TEXT, WORD};
use interpreter::MeanEnd;
use tree_samples::ArgSample::{Place, Value};
use tree_samples::Callee::Standard;
use tree_samples::ElementSample::{One, Span};
use tree_samples::ExprSample::{Binary, Call, Load, Number, SetOf, Text};
use tree_samples::StmtSample::{Assign, Block, For, Read, Run, Write};
use tree_samples::{ExprSample, ForSample, StmtSample};
use typed_tree::standard::{COPY, EOF, LENGTH, ORD, VAL};
use typed_tree::{BinaryOp, Variable};

// Two numbers, and an operator in a type.
macro_rules! numbers {
    ($ty:expr, $op:expr, $left:expr, $right:expr) => {
        alone!(
            &[],
            written!(Binary(
                $ty,
                $op,
                &Number($ty, $left),
                &Number($ty, $right),
                false
            ))
        )
    };
}

// A Word that holds 65535 and an Integer that holds -1 are compared.
macro_rules! mixed {
    ($op:expr) => {
        alone!(
            &[(WORD, None), (INTEGER, None)],
            Block(&[
                Assign(FIRST, Number(WORD, 65_535)),
                Assign(SECOND, Number(INTEGER, -1)),
                written!(Binary(
                    BOOLEAN,
                    $op,
                    &Load(WORD, &FIRST),
                    &Load(INTEGER, &SECOND),
                    false
                )),
            ])
        )
    };
}

// A variable that begins with 5, and its double.
const BEGUN: Coded = alone!(
    &[(INTEGER, Some(&[5, 0]))],
    Block(&[
        written!(HELD),
        written!(Binary(INTEGER, BinaryOp::Add, &HELD, &HELD, false)),
    ])
);

const NUMBERS: &[(Coded, &str)] = &[
    (numbers!(INTEGER, BinaryOp::Divide, -7, 2), "-3"),
    (numbers!(INTEGER, BinaryOp::Modulo, -7, 2), "-1"),
    (numbers!(INTEGER, BinaryOp::Divide, 7, -2), "-3"),
    (numbers!(INTEGER, BinaryOp::Divide, -32_768, -1), "-32768"),
    (numbers!(INTEGER, BinaryOp::Add, 32_767, 1), "-32768"),
    (numbers!(INTEGER, BinaryOp::Subtract, -32_768, 1), "32767"),
    (numbers!(INTEGER, BinaryOp::Multiply, 300, 300), "24464"),
    (numbers!(WORD, BinaryOp::Add, 65_535, 1), "0"),
    (numbers!(LONG, BinaryOp::Multiply, 300, 300), "90000"),
    (
        numbers!(LONG, BinaryOp::Add, 2_147_483_647, 1),
        "-2147483648",
    ),
    (numbers!(INTEGER, BinaryOp::ShiftLeft, 1, 15), "-32768"),
    (numbers!(INTEGER, BinaryOp::ShiftRight, -1, 1), "32767"),
    (numbers!(INTEGER, BinaryOp::Xor, -1, 1), "-2"),
    (mixed!(BinaryOp::Equal), "FALSE"),
    (mixed!(BinaryOp::Greater), "TRUE"),
    (BEGUN, "510"),
];

#[test]
fn integers_wrap_in_their_type(rt: HostRuntime) {
    expect(&rt, first_untold(rt.alloc(), NUMBERS));
}

// Two texts are compared.
macro_rules! texts {
    ($op:expr, $left:expr, $right:expr) => {
        alone!(
            &[],
            written!(Binary(
                BOOLEAN,
                $op,
                &Text(TEXT, $left),
                &Text(TEXT, $right),
                false
            ))
        )
    };
}

// A text is assigned to a string[3].
macro_rules! cut {
    ($text:expr) => {
        alone!(
            &[(SHORT_TEXT, None)],
            Block(&[
                Assign(FIRST, Text(TEXT, $text)),
                written!(Load(SHORT_TEXT, &FIRST)),
            ])
        )
    };
}

// A text in a field of a width.
macro_rules! wide {
    ($text:expr, $width:expr) => {
        alone!(
            &[],
            Write(
                &[(Text(TEXT, $text), Some(Number(INTEGER, $width)))],
                false
            )
        )
    };
}

// The number and the code that Val tells.
macro_rules! valued {
    ($text:expr) => {
        alone!(
            &[(INTEGER, None), (INTEGER, None)],
            Block(&[
                Run(Call(
                    None,
                    Standard(VAL),
                    &[Value(Text(TEXT, $text)), Place(FIRST), Place(SECOND)]
                )),
                written!(HELD),
                written!(Load(INTEGER, &SECOND)),
            ])
        )
    };
}

const TEXTS: &[(Coded, &str)] = &[
    (texts!(BinaryOp::Less, "ab", "abc"), "TRUE"),
    (texts!(BinaryOp::Equal, "ab", "abc"), "FALSE"),
    (texts!(BinaryOp::Less, "abc", "abd"), "TRUE"),
    (texts!(BinaryOp::GreaterOrEqual, "b", "ab"), "TRUE"),
    (cut!("abcd"), "abc"),
    (cut!("ab"), "ab"),
    (wide!("ab", 4), "  ab"),
    (wide!("abc", 2), "abc"),
    (valued!("12x"), "03"),
    (valued!("12"), "120"),
    (valued!("-$10"), "-160"),
];

#[test]
fn texts_have_their_lengths(rt: HostRuntime) {
    expect(&rt, first_untold(rt.alloc(), TEXTS));
}

// [0, 7..9, 255]
const ELEMENTS: ExprSample = SetOf(
    SET,
    &[
        One(Number(INTEGER, 0)),
        Span(Number(INTEGER, 7), Number(INTEGER, 9)),
        One(Number(INTEGER, 255)),
    ],
);

// Whether a number is in it.
macro_rules! member {
    ($number:expr) => {
        alone!(
            &[(SET, None)],
            Block(&[
                Assign(FIRST, ELEMENTS),
                written!(Binary(
                    BOOLEAN,
                    BinaryOp::In,
                    &Number(INTEGER, $number),
                    &Load(SET, &FIRST),
                    false
                )),
            ])
        )
    };
}

const MEMBERS: &[(Coded, &str)] = &[
    (member!(0), "TRUE"),
    (member!(255), "TRUE"),
    (member!(1), "FALSE"),
    (member!(8), "TRUE"),
    (member!(10), "FALSE"),
    (member!(256), "FALSE"),
];

#[test]
fn a_set_has_its_elements(rt: HostRuntime) {
    expect(&rt, first_untold(rt.alloc(), MEMBERS));
}

// A text is added to the first global.
macro_rules! longer {
    ($by:expr) => {
        Assign(
            FIRST,
            Binary(TEXT, BinaryOp::Add, &Load(TEXT, &FIRST), &$by, false),
        )
    };
}

const LETTERS: ForSample = ForSample {
    variable: Variable {
        unit: 0,
        level: 0,
        number: 1,
    },
    ty: INTEGER,
    from: ONE,
    to: Number(INTEGER, 200),
    down: false,
    checked: false,
    body: longer!(Text(TEXT, "a")),
};

// 200 letters are added to a text one by one, and then the first 100 of them; its length.
const GROWN: StmtSample = Block(&[
    Assign(FIRST, Text(TEXT, "")),
    For(&LETTERS),
    longer!(Call(
        Some(TEXT),
        Standard(COPY),
        &[
            Value(Load(TEXT, &FIRST)),
            Value(ONE),
            Value(Number(INTEGER, 100))
        ]
    )),
    written!(Call(
        Some(INTEGER),
        Standard(LENGTH),
        &[Value(Load(TEXT, &FIRST))]
    )),
]);

// Eof, a Char that is read, and an Integer.
const ENDED: StmtSample = Block(&[
    written!(Call(Some(BOOLEAN), Standard(EOF), &[])),
    Read(&[(FIRST, CHAR, false)], false),
    written!(Call(Some(INTEGER), Standard(ORD), &[Value(Load(CHAR, &FIRST))])),
    Read(&[(SECOND, INTEGER, false)], false),
    written!(Load(INTEGER, &SECOND)),
]);

const OTHERS: &[(Coded, Shown)] = &[
    (
        alone!(&[(TEXT, None), (INTEGER, None)], GROWN),
        ("", 200, "255", "", MeanEnd::Ended(0)),
    ),
    (
        alone!(&[(CHAR, None), (INTEGER, None)], ENDED),
        ("\u{1a}A", 0, "TRUE260", "", MeanEnd::Ended(0)),
    ),
];

#[test]
fn a_text_stops_at_255_bytes_and_input_at_byte_26(rt: HostRuntime) {
    expect(&rt, first_wrong(rt.alloc(), OTHERS));
}
