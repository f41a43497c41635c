//! Statements.

use crate::addresses::{first_word, placed};
use crate::expressions::Values;
use flat_code::{Address, FlatExpr, FlatList, FlatResult, FlatStmt};
use std::alloc::Global;
use std::mem;
use test_rows::{number, word};
use type_layout::RoutineId;

/// A statement that is not yet at its `end`, with the statements before it.
#[derive(Drop)]
enum Open {
    Loop(FlatList),
    Yes(FlatExpr, FlatList),
    No(FlatExpr, FlatList, FlatList),
}

/// The statements of a routine that were read so far.
#[derive(Drop)]
pub(crate) struct Body {
    alloc: Global,
    // What the numbers of the runtime's routines are called, a line each.
    names: String,
    pub(crate) values: Values,
    body: FlatList,
    open: Vec<Open>,
    wrong: bool,
}

fn counted(text: &str) -> Option<u16> {
    word(text).ok()
}

// A number, or the place in the names of a unit, a dot and a number.
fn routine_id(text: &str) -> Option<RoutineId> {
    let (unit, number_there) = text.split_once('.').unwrap_or(("0", text));
    Some(RoutineId {
        unit: number(unit).ok()?,
        number: number(number_there).ok()?,
    })
}

fn bytes_of(kind: &str) -> u8 {
    match kind {
        "byte" => 1,
        "" => 2,
        "long" => 4,
        _ => 0,
    }
}

/// Where a result goes: `byte` of 1 byte, no word of 2, `long` of 4 stands before the brackets.
pub(crate) fn result_at(text: &str) -> Option<FlatResult> {
    let (kind, at) = placed(text)?;
    let bytes = bytes_of(kind);
    if bytes == 0 {
        None
    } else {
        Some(FlatResult { at, bytes })
    }
}

impl Body {
    pub(crate) fn new(alloc: Global, names: String) -> Body {
        Body {
            alloc,
            names,
            values: Values::new(alloc),
            body: Vec::new(alloc),
            open: Vec::new(alloc),
            wrong: false,
        }
    }

    /// Whether something was no statement.
    pub(crate) fn is_wrong(&self) -> bool {
        self.wrong || self.values.is_wrong()
    }

    fn push(&mut self, statement: FlatStmt) {
        if self.body.push(statement).is_err() {
            self.wrong = true;
        }
    }

    fn named(&self, name: &str) -> Option<u16> {
        for line in self.names.as_str().lines() {
            if let Some((told, number)) = line.split_once(' ') {
                if told == name {
                    return counted(number);
                }
            }
        }
        counted(name)
    }

    fn push_call(&mut self, text: &str, wanted: Option<FlatResult>) {
        let (callee, arguments) = first_word(text);
        let args = self.values.read(arguments);
        match routine_id(callee) {
            Some(routine) => self.push(FlatStmt::Call {
                routine,
                args,
                result: wanted,
            }),
            None => self.wrong = true,
        }
    }

    fn push_call_through(&mut self, text: &str, wanted: Option<FlatResult>) {
        let (callee, arguments) = first_word(text);
        let args = self.values.read(arguments);
        match placed(callee) {
            Some((_, pointer)) => self.push(FlatStmt::CallThrough {
                pointer,
                args,
                result: wanted,
            }),
            None => self.wrong = true,
        }
    }

    fn push_runtime(&mut self, text: &str, wanted: Option<FlatResult>) {
        let (callee, arguments) = first_word(text);
        let args = self.values.read(arguments);
        match self.named(callee) {
            Some(number) => self.push(FlatStmt::Runtime {
                number,
                args,
                result: wanted,
            }),
            None => self.wrong = true,
        }
    }

    // Reads a call, and says whether the text is one.
    fn read_call(&mut self, text: &str, wanted: Option<FlatResult>) -> bool {
        let (verb, rest) = first_word(text);
        match verb {
            "call" => self.push_call(rest, wanted),
            "through" => self.push_call_through(rest, wanted),
            "runtime" => self.push_runtime(rest, wanted),
            _ => return false,
        }
        true
    }

    /// Stores what a text gives: a value, or the result of a call.
    pub(crate) fn assign(&mut self, to: FlatResult, source: &str) {
        if self.read_call(source, Some(to)) {
            return;
        }
        let (verb, rest) = first_word(source);
        if verb == "routine" {
            self.push_pointer(to.at, rest);
            return;
        }
        let value = self.values.read_one(source);
        match to.bytes {
            1 => self.push(FlatStmt::StoreByte { to: to.at, value }),
            2 => self.push(FlatStmt::StoreWord { to: to.at, value }),
            _ => self.wrong = true,
        }
    }

    fn push_pointer(&mut self, to: Address, text: &str) {
        match routine_id(text) {
            Some(routine) => self.push(FlatStmt::StoreRoutine { to, routine }),
            None => self.wrong = true,
        }
    }

    fn push_copy(&mut self, text: &str) {
        let (to, rest) = first_word(text);
        let (from, bytes) = first_word(rest);
        match (placed(to), placed(from), counted(bytes)) {
            (Some((_, to)), Some((_, from)), Some(bytes)) => {
                self.push(FlatStmt::Copy { to, from, bytes });
            }
            _ => self.wrong = true,
        }
    }

    /// Writes so many bytes at a place.
    pub(crate) fn push_write(&mut self, at: Address, bytes: u16) {
        let written = vec![in self.alloc;
            FlatExpr::Number(1),
            FlatExpr::SegmentOf(at),
            FlatExpr::AddressOf(at),
            FlatExpr::Number(bytes),
        ];
        match written {
            Ok(args) => self.push(FlatStmt::Runtime {
                number: 0,
                args,
                result: None,
            }),
            Err(_) => self.wrong = true,
        }
    }

    fn push_exit(&mut self, text: &str) {
        let args = self.values.read(text);
        self.push(FlatStmt::Runtime {
            number: 2,
            args,
            result: None,
        });
    }

    // What was read so far is put off, until the `end` of this.
    fn begin(&mut self, opened: Open) {
        if self.open.push(opened).is_err() {
            self.wrong = true;
        }
    }

    fn taken(&mut self) -> FlatList {
        mem::replace(&mut self.body, Vec::new(self.alloc))
    }

    fn begin_loop(&mut self) {
        let before = self.taken();
        self.begin(Open::Loop(before));
    }

    fn begin_if(&mut self, text: &str) {
        let test = self.values.read_one(text);
        let before = self.taken();
        self.begin(Open::Yes(test, before));
    }

    fn begin_else(&mut self) {
        match self.open.pop() {
            Some(Open::Yes(test, before)) => {
                let yes = self.taken();
                self.begin(Open::No(test, yes, before));
            }
            _ => self.wrong = true,
        }
    }

    fn end(&mut self) {
        let inner = self.taken();
        let (before, whole) = match self.open.pop() {
            Some(Open::Loop(before)) => (before, FlatStmt::Loop(inner)),
            Some(Open::Yes(test, before)) => {
                let no = Vec::new(self.alloc);
                (
                    before,
                    FlatStmt::If {
                        test,
                        yes: inner,
                        no,
                    },
                )
            }
            Some(Open::No(test, yes, before)) => (
                before,
                FlatStmt::If {
                    test,
                    yes,
                    no: inner,
                },
            ),
            None => {
                self.wrong = true;
                return;
            }
        };
        self.body = before;
        self.push(whole);
    }

    fn push_numbered(&mut self, verb: &str, text: &str) {
        match (verb, counted(text)) {
            ("leave", Some(loops)) => self.push(FlatStmt::Leave { loops }),
            ("error", Some(number)) => self.push(FlatStmt::Error(number)),
            _ => self.wrong = true,
        }
    }

    // A statement that is no assignment.
    fn read_verb(&mut self, text: &str) {
        if self.read_call(text, None) {
            return;
        }
        let (verb, rest) = first_word(text);
        match verb {
            "copy" => self.push_copy(rest),
            "exit" => self.push_exit(rest),
            "if" => self.begin_if(rest),
            "else" => self.begin_else(),
            "end" => self.end(),
            "loop" => self.begin_loop(),
            "return" => self.push(FlatStmt::Return),
            _ => self.push_numbered(verb, rest),
        }
    }

    /// Reads a statement.
    pub(crate) fn read(&mut self, text: &str) {
        match text.split_once(" := ") {
            Some((target, source)) => match result_at(target) {
                Some(to) => self.assign(to, source),
                None => self.wrong = true,
            },
            None => self.read_verb(text),
        }
    }

    /// What was read of a routine, all of it closed.
    pub(crate) fn finish(&mut self) -> FlatList {
        if !self.open.is_empty() {
            self.wrong = true;
        }
        self.taken()
    }
}
