//! Expressions: operators stand between their sides and go from the left, parentheses apart.

use crate::addresses::placed;
use flat_code::{Address, FlatExpr, FlatExprs, FlatOp};
use std::alloc::Global;
use std::mem;
use test_rows::{number, whole, word};

const OPERATORS: [(&str, FlatOp); 16] = [
    ("+", FlatOp::Add),
    ("-", FlatOp::Sub),
    ("*", FlatOp::Mul),
    ("mulhigh", FlatOp::MulHigh),
    ("div", FlatOp::Div),
    ("mod", FlatOp::Mod),
    ("udiv", FlatOp::DivUnsigned),
    ("umod", FlatOp::ModUnsigned),
    ("and", FlatOp::And),
    ("or", FlatOp::Or),
    ("xor", FlatOp::Xor),
    ("shl", FlatOp::Shl),
    ("shr", FlatOp::Shr),
    ("=", FlatOp::Equal),
    ("<", FlatOp::Less),
    ("below", FlatOp::Below),
];

fn operator(word: &str) -> Option<FlatOp> {
    for (told, op) in OPERATORS {
        if told == word {
            return Some(op);
        }
    }
    None
}

/// The values that were read so far, and the operators whose right sides are still to come.
#[derive(Drop)]
pub(crate) struct Values {
    alloc: Global,
    values: FlatExprs,
    // `None` is an open parenthesis.
    pending: Vec<Option<FlatOp>>,
    // What `each` stands for.
    each: i32,
    wrong: bool,
}

impl Values {
    pub(crate) fn new(alloc: Global) -> Values {
        Values {
            alloc,
            values: Vec::new(alloc),
            pending: Vec::new(alloc),
            each: 0,
            wrong: false,
        }
    }

    /// Whether something was no expression.
    pub(crate) fn is_wrong(&self) -> bool {
        self.wrong
    }

    /// Says what `each` stands for.
    pub(crate) fn set_each(&mut self, number: i32) {
        self.each = number;
    }

    fn keep(&mut self, value: FlatExpr) {
        if self.values.push(value).is_err() {
            self.wrong = true;
        }
    }

    fn wait(&mut self, operator: Option<FlatOp>) {
        if self.pending.push(operator).is_err() {
            self.wrong = true;
        }
    }

    // The operator with what was read last on its sides.
    fn join(&mut self, op: FlatOp) {
        let right = self.values.pop();
        let left = self.values.pop();
        if let (Some(a), Some(b)) = (left, right) {
            if let (Ok(a), Ok(b)) = (Box::new(self.alloc, a), Box::new(self.alloc, b)) {
                self.keep(FlatExpr::Op { op, a, b });
                return;
            }
        }
        self.wrong = true;
    }

    // A value: the right side of the operator before it, if one stands there.
    fn push(&mut self, value: FlatExpr) {
        self.keep(value);
        self.join_last();
    }

    fn join_last(&mut self) {
        match self.pending.pop() {
            Some(Some(op)) => self.join(op),
            Some(None) => self.wait(None),
            None => {}
        }
    }

    fn close(&mut self) {
        match self.pending.pop() {
            Some(None) => self.join_last(),
            _ => self.wrong = true,
        }
    }

    fn push_placed(&mut self, kind: &str, at: Address) {
        match kind {
            "" => self.push(FlatExpr::Word(at)),
            "byte" => self.push(FlatExpr::Byte(at)),
            "offset" => self.push(FlatExpr::AddressOf(at)),
            "segment" => self.push(FlatExpr::SegmentOf(at)),
            "far" => {
                self.push(FlatExpr::SegmentOf(at));
                self.push(FlatExpr::AddressOf(at));
            }
            _ => self.wrong = true,
        }
    }

    fn whole(&mut self, text: &str) -> i32 {
        if text == "each" {
            return self.each;
        }
        match whole(text) {
            Ok(number) => number,
            Err(_) => {
                self.wrong = true;
                0
            }
        }
    }

    // The two words of a LongInt, the lower one first.
    fn push_long(&mut self, text: &str) {
        let bits = self.whole(text).cast_unsigned();
        self.push(FlatExpr::Number((bits % 0x1_0000) as u16));
        self.push(FlatExpr::Number((bits / 0x1_0000) as u16));
    }

    fn push_table(&mut self, text: &str) {
        match number(text) {
            Ok(number) => self.push(FlatExpr::VmtOf { unit: 0, number }),
            Err(_) => self.wrong = true,
        }
    }

    fn push_number(&mut self, text: &str) {
        if text == "each" {
            let bits = self.each.cast_unsigned();
            self.push(FlatExpr::Number((bits % 0x1_0000) as u16));
            return;
        }
        match word(text) {
            Ok(number) => self.push(FlatExpr::Number(number)),
            Err(_) => self.wrong = true,
        }
    }

    fn read_word(&mut self, word: &str) {
        if let Some((kind, at)) = placed(word) {
            self.push_placed(kind, at);
        } else if word == "(" {
            self.wait(None);
        } else if word == ")" {
            self.close();
        } else if let Some(op) = operator(word) {
            self.wait(Some(op));
        } else if let Some(digits) = word.strip_prefix("long:") {
            self.push_long(digits);
        } else if let Some(digits) = word.strip_prefix("table:") {
            self.push_table(digits);
        } else {
            self.push_number(word);
        }
    }

    /// The expressions that stand in a text.
    pub(crate) fn read(&mut self, text: &str) -> FlatExprs {
        for word in text.split_whitespace() {
            self.read_word(word);
        }
        if !self.pending.is_empty() {
            self.wrong = true;
        }
        mem::replace(&mut self.values, Vec::new(self.alloc))
    }

    /// The one expression that stands in a text; 0 where it is none.
    pub(crate) fn read_one(&mut self, text: &str) -> FlatExpr {
        let mut all = self.read(text);
        match all.pop() {
            Some(value) if all.is_empty() => value,
            _ => {
                self.wrong = true;
                FlatExpr::Number(0)
            }
        }
    }
}
