//! Units, their routines, and what a program is given.

use crate::addresses::{first_word, placed};
use crate::data::{datum, table};
use crate::program::Program;
use crate::shown::Shown;
use crate::statements::{Body, result_at};
use flat_code::{Address, FlatDatum, FlatResult, FlatRoutine, FlatUnit, FlatVmt};
use std::alloc::Global;
use std::mem;
use test_rows::{number, text_in, whole, word};
use type_layout::{Name, Sequence};

/// What a routine is but for its body.
#[derive(Clone, Copy)]
struct Head {
    far: bool,
    arguments: u32,
    locals: u32,
    frame: u32,
    result: Option<FlatResult>,
}

/// The routine to which statements belong that stand in none.
const MAIN: Head = Head {
    far: true,
    arguments: 0,
    locals: 10,
    frame: 16,
    result: None,
};

/// A program of which the first part was read.
#[derive(Drop)]
pub(crate) struct Reader {
    alloc: Global,
    program: Program,
    names: Sequence<Name>,
    is_library: bool,
    routines: Sequence<FlatRoutine>,
    globals: Sequence<FlatDatum>,
    vmts: Sequence<FlatVmt>,
    head: Option<Head>,
    body: Body,
    // What `each` stands for in turn.
    numbers: Vec<i32>,
}

// The bytes of arguments and locals; `unchecked` where the stack is not tested, and `gives` where a result lies.
fn head_of(far: bool, text: &str) -> Option<Head> {
    let (arguments, rest) = first_word(text);
    let (locals, rest) = first_word(rest);
    let arguments = number(arguments).ok()?;
    let locals = number(locals).ok()?;
    let links = if far { 6 } else { 4 };
    let mut head = Head {
        far,
        arguments,
        locals,
        frame: arguments.saturating_add(locals).saturating_add(links),
        result: None,
    };
    let mut rest = rest;
    if let Some(others) = rest.strip_prefix("unchecked") {
        head.frame = 0;
        rest = others.strip_prefix(" ").unwrap_or(others);
    }
    if let Some(place) = rest.strip_prefix("gives ") {
        head.result = Some(result_at(place)?);
    }
    Some(head)
}

impl Reader {
    pub(crate) fn new(alloc: Global, runtime: Vec<FlatUnit>, names: String) -> Reader {
        Reader {
            alloc,
            program: Program {
                units: runtime,
                overlaid: Vec::new(alloc),
                input: Vec::new(alloc),
                stack: 1024,
                heap: 1024,
                turns: 200_000,
                shown: Vec::new(alloc),
                is_wrong: false,
            },
            names: Sequence::new(alloc),
            is_library: false,
            routines: Sequence::new(alloc),
            globals: Sequence::new(alloc),
            vmts: Sequence::new(alloc),
            head: None,
            body: Body::new(alloc, names),
            numbers: Vec::new(alloc),
        }
    }

    /// Says that the text can't be read.
    pub(crate) fn fail(&mut self) {
        self.program.is_wrong = true;
    }

    fn push_name(&mut self, text: &str) {
        match Name::new(text.as_bytes()) {
            Some(name) => {
                if self.names.push(name).is_err() {
                    self.fail();
                }
            }
            None => self.fail(),
        }
    }

    fn finish_routine(&mut self) {
        let body = self.body.finish();
        let (Some(head), Some(name)) = (self.head, Name::new(b"R")) else {
            return;
        };
        self.head = None;
        let routine = FlatRoutine {
            name,
            far: head.far,
            arguments: head.arguments,
            locals: head.locals,
            frame: head.frame,
            result: head.result,
            body,
        };
        if self.routines.push(routine).is_err() {
            self.fail();
        }
    }

    fn begin_routine(&mut self, far: bool, text: &str) {
        self.finish_routine();
        self.head = head_of(far, text);
        if self.head.is_none() {
            self.fail();
        }
    }

    // The unit that was read so far. The first routine of one that is no library is its main one.
    fn finish_unit(&mut self) {
        self.finish_routine();
        if self.names.is_empty() {
            if self.routines.is_empty() {
                return;
            }
            self.push_name("P");
        }
        let alloc = self.alloc;
        let is_begun = !self.is_library && !self.routines.is_empty();
        let unit = FlatUnit {
            names: mem::replace(&mut self.names, Sequence::new(alloc)),
            initial: if is_begun { Some(0) } else { None },
            routines: mem::replace(&mut self.routines, Sequence::new(alloc)),
            globals: mem::replace(&mut self.globals, Sequence::new(alloc)),
            vmts: mem::replace(&mut self.vmts, Sequence::new(alloc)),
        };
        if self.program.units.push(unit).is_err() {
            self.fail();
        }
    }

    fn begin_unit(&mut self, is_library: bool, names: &str) {
        self.finish_unit();
        self.is_library = is_library;
        for name in names.split_whitespace() {
            self.push_name(name);
        }
    }

    fn push_datum(&mut self, verb: &str, text: &str) {
        match datum(self.alloc, verb, text) {
            Ok(datum) => {
                if self.globals.push(datum).is_err() {
                    self.fail();
                }
            }
            Err(_) => self.fail(),
        }
    }

    fn push_table(&mut self, text: &str) {
        match table(self.alloc, text) {
            Ok(table) => {
                if self.vmts.push(table).is_err() {
                    self.fail();
                }
            }
            Err(_) => self.fail(),
        }
    }

    fn set_size(&mut self, verb: &str, text: &str) {
        match number(text) {
            Ok(size) => match verb {
                "heap" => self.program.heap = size,
                "stack" => self.program.stack = size,
                _ => self.program.turns = u64::from(size),
            },
            Err(_) => self.fail(),
        }
    }

    fn set_input(&mut self, text: &str) {
        match text_in(self.alloc, text) {
            Ok(input) => self.program.input = input,
            Err(_) => self.fail(),
        }
    }

    fn push_overlaid(&mut self, text: &str) {
        match Name::new(text.as_bytes()) {
            Some(name) => {
                if self.program.overlaid.push(name).is_err() {
                    self.fail();
                }
            }
            None => self.fail(),
        }
    }

    fn set_numbers(&mut self, text: &str) {
        self.numbers = Vec::new(self.alloc);
        for one in text.split_whitespace() {
            match whole(one) {
                Ok(number) => {
                    if self.numbers.push(number).is_err() {
                        self.fail();
                    }
                }
                Err(_) => self.fail(),
            }
        }
    }

    // Writes bytes at a place, and says what they are.
    fn show(&mut self, shown: Shown, at: Address) {
        self.body.push_write(at, shown.size());
        if self.program.shown.push(shown).is_err() {
            self.fail();
        }
    }

    fn show_value(&mut self, shown: Shown, bytes: u8, source: &str) {
        let at = Address::Local(-i32::from(bytes));
        self.body.assign(FlatResult { at, bytes }, source);
        self.show(shown, at);
    }

    fn show_place(&mut self, shown: Shown, text: &str) {
        match placed(text) {
            Some((_, at)) => self.show(shown, at),
            None => self.fail(),
        }
    }

    fn read_show(&mut self, text: &str) {
        let (kind, source) = first_word(text);
        match kind {
            "word" => self.show_value(Shown::Word, 2, source),
            "long" => self.show_value(Shown::Long, 4, source),
            "text" => self.show_place(Shown::Text, source),
            _ => match word(kind) {
                Ok(count) => self.show_place(Shown::Bytes(count), source),
                Err(_) => self.fail(),
            },
        }
    }

    fn read_statement(&mut self, verb: &str, rest: &str, text: &str) {
        if self.head.is_none() {
            self.head = Some(MAIN);
        }
        if verb == "show" {
            self.read_show(rest);
        } else {
            self.body.read(text);
        }
    }

    fn read_piece(&mut self, text: &str) {
        let (verb, rest) = first_word(text);
        match verb {
            "unit" => self.begin_unit(false, rest),
            "library" => self.begin_unit(true, rest),
            "near" => self.begin_routine(false, rest),
            "far" => self.begin_routine(true, rest),
            "data" | "string" => self.push_datum(verb, rest),
            "table" => self.push_table(rest),
            "heap" | "stack" | "turns" => self.set_size(verb, rest),
            "input" => self.set_input(rest),
            "overlaid" => self.push_overlaid(rest),
            "numbers" => self.set_numbers(rest),
            _ => self.read_statement(verb, rest, text),
        }
    }

    /// Reads one piece of a program; where `each` stands in it, once for each of the numbers.
    pub(crate) fn read(&mut self, text: &str) {
        if text.find("each").is_none() {
            self.read_piece(text);
            return;
        }
        for place in 0..self.numbers.len() {
            if let Some(number) = self.numbers.get(place).copied() {
                self.body.values.set_each(number);
                self.read_piece(text);
            }
        }
    }

    /// The program that was read.
    pub(crate) fn finish(mut self) -> Program {
        self.finish_unit();
        if self.body.is_wrong() {
            self.fail();
        }
        self.program
    }
}
