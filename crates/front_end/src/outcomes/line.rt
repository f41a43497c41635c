//! The last line on standard error.

ghost use Rattle.std.specs.Prelude.{◌≡◌, ◌≤◌, ◌<◌, ◌+◌, ◌++◌, ◌/◌, ◌%◌, false, decimal, length, OnOk, OnErr};
ghost use Rattle.std.specs.Fmt.{digit_glyph};
ghost use Rattle.std.specs.Io.KnownBytes.{append_known};
ghost use Rattle.arrayvec.specs.ArrayVec.{array_vec_len};
ghost use Rattle.tp_outside.specs.Faults.{HasRisen};
ghost use Rattle.tp_outside.specs.Streams.{TakesPrefix};
ghost use Rattle.front_end.specs.declared.outcomes.refusal.Refusal.{Refusal};
ghost use Rattle.front_end.specs.outcomes.Line.{hexadecimal, place_text, why_text, cause_text, behind, named, numbered, placed, refusal_text, line_of};

use crate::outcomes::outcome::Outcome;
use crate::outcomes::refusal::{CheckKind, ClassKind, Refusal, What};
use crate::outcomes::words::{
    check_kind_text, class_kind_text, feature_text, lex_cause_text, what_text,
};
use arrayvec::ArrayVec;
use cpu_8086::Why;
use itoa::Buffer;
use mz_file::ExeCause;
use source_graph::At;
use tp_outside::{Failed, Sink, write_all};
use type_layout::Name;

/// Room for the longest line.
const LINE_LEN: usize = 256;

type Line = ArrayVec<u8, LINE_LEN>;

fn push_text(line: &mut Line, text: &[u8])
    requires { array_vec_len line.old + length text.now ≤ LINE_LEN }
    ensures { line.new.items ≡ line.old.items ++ text.now }
{
    match line.try_extend_from_slice(text) {
        Ok(()) => (),
        Err(_) => unreachable!(),
    }
}

fn push_decimal(line: &mut Line, number: u64)
    requires { array_vec_len line.old ≤ 216 }
    ensures text { line.new.items ≡ line.old.items ++ decimal number }
    ensures short { array_vec_len line.new ≤ array_vec_len line.old + 20 }
{
    let mut buffer = Buffer::new();
    push_text(line, buffer.format(number).as_bytes());
}

fn hexadecimal_digit(digit: u16) -> u8
    requires { digit < 16 }
    ensures { result ≡ digit_glyph false digit }
{
    if digit < 10 {
        b'0' + digit as u8
    } else {
        b'a' + (digit - 10) as u8
    }
}

fn hexadecimal(word: u16) -> [u8; 4]
    ensures { result ≡ hexadecimal word }
{
    [
        hexadecimal_digit(word / 4096 % 16),
        hexadecimal_digit(word / 256 % 16),
        hexadecimal_digit(word / 16 % 16),
        hexadecimal_digit(word % 16),
    ]
}

fn push_place(line: &mut Line, at: &At)
    requires { array_vec_len line.old ≤ 30 }
    ensures text { line.new.items ≡ line.old.items ++ place_text at.now }
    ensures short { array_vec_len line.new ≤ array_vec_len line.old + 122 }
{
    push_text(line, at.file.as_bytes());
    push_text(line, b":");
    push_decimal(line, at.line as u64);
    push_text(line, b":");
    push_decimal(line, at.column as u64);
}

fn push_why(line: &mut Line, why: Why)
    requires { array_vec_len line.old ≤ 100 }
    ensures text { line.new.items ≡ line.old.items ++ why_text why }
    ensures short { array_vec_len line.new ≤ array_vec_len line.old + 33 }
{
    match why {
        Why::Opcode => push_text(line, b"Opcode"),
        Why::Divide => push_text(line, b"Divide"),
        Why::Interrupt(number) => {
            push_text(line, b"Interrupt ");
            push_decimal(line, number as u64);
        }
        Why::Function(number) => {
            push_text(line, b"Function ");
            push_decimal(line, number as u64);
        }
        Why::NoStub => push_text(line, b"NoStub"),
        Why::BadChain(place) => {
            push_text(line, b"BadChain ");
            push_decimal(line, place as u64);
        }
        Why::ShortOverlay(overlay) => {
            push_text(line, b"ShortOverlay ");
            push_decimal(line, overlay as u64);
        }
    }
}

fn push_cause(line: &mut Line, cause: ExeCause)
    requires { array_vec_len line.old ≤ 100 }
    ensures text { line.new.items ≡ line.old.items ++ cause_text cause }
    ensures short { array_vec_len line.new ≤ array_vec_len line.old + 34 }
{
    match cause {
        ExeCause::Short => push_text(line, b"Short"),
        ExeCause::NotMz => push_text(line, b"NotMz"),
        ExeCause::BadPages => push_text(line, b"BadPages"),
        ExeCause::BadRelocation { number } => {
            push_text(line, b"BadRelocation ");
            push_decimal(line, number as u64);
        }
        ExeCause::NoBlock => push_text(line, b"NoBlock"),
    }
}

/// A word behind others.
fn push_behind(line: &mut Line, word: &[u8])
    requires { array_vec_len line.old + length word.now < LINE_LEN }
    ensures { line.new.items ≡ line.old.items ++ behind word.now }
{
    push_text(line, b" ");
    push_text(line, word);
}

fn push_named(line: &mut Line, name: &[u8], word: &[u8])
    requires { array_vec_len line.old + length name.now + length word.now < LINE_LEN }
    ensures { line.new.items ≡ line.old.items ++ named name.now word.now }
{
    push_text(line, name);
    push_behind(line, word);
}

fn push_numbered(line: &mut Line, name: &[u8], number: u64)
    requires { array_vec_len line.old + length name.now ≤ 210 }
    ensures text { line.new.items ≡ line.old.items ++ numbered name.now number }
    ensures short { array_vec_len line.new ≤ array_vec_len line.old + length name.now + 21 }
{
    push_text(line, name);
    push_text(line, b" ");
    push_decimal(line, number);
}

fn push_placed(line: &mut Line, name: &[u8], at: &At)
    requires { array_vec_len line.old + length name.now ≤ 29 }
    ensures text { line.new.items ≡ line.old.items ++ placed name.now at.now }
    ensures short { array_vec_len line.new ≤ array_vec_len line.old + length name.now + 123 }
{
    push_text(line, name);
    push_text(line, b" ");
    push_place(line, at);
}

/// What has a limit, and the number that passes it.
fn push_too_large(line: &mut Line, what: What, number: u64)
    requires { array_vec_len line.old ≤ 4 }
    ensures text { line.new.items ≡ line.old.items ++ refusal_text (Refusal.TooLarge what number) }
    ensures short { array_vec_len line.new ≤ 180 }
{
    push_named(line, b"TooLarge", what_text(what));
    push_text(line, b" ");
    push_decimal(line, number);
}

/// A place, and what is wrong there.
fn push_wrong(line: &mut Line, name: &[u8], at: &At, word: &[u8])
    requires { (array_vec_len line.old ≤ 4) × (length name.now ≤ 16) × (length word.now ≤ 20) }
    ensures text { line.new.items ≡ line.old.items ++ named (placed name.now at.now) word.now }
    ensures short { array_vec_len line.new ≤ 180 }
{
    push_placed(line, name, at);
    push_behind(line, word);
}

/// A place, and the rule that is broken there.
fn push_check(line: &mut Line, at: &At, kind: CheckKind, rule: u16)
    requires { array_vec_len line.old ≤ 4 }
    ensures text { line.new.items ≡ line.old.items ++ refusal_text (Refusal.CheckRefused at.now kind rule) }
    ensures short { array_vec_len line.new ≤ 201 }
{
    push_wrong(line, b"CheckRefused", at, check_kind_text(kind));
    push_text(line, b" ");
    push_decimal(line, rule as u64);
}

/// What is wrong in a line of object types, and where.
fn push_class(line: &mut Line, kind: ClassKind, name: &Name)
    requires { array_vec_len line.old ≤ 4 }
    ensures text { line.new.items ≡ line.old.items ++ refusal_text (Refusal.ClassRefused kind name.now) }
    ensures short { array_vec_len line.new ≤ 180 }
{
    push_named(line, b"ClassRefused", class_kind_text(kind));
    push_behind(line, name.as_bytes());
}

/// A unit, and the one that it uses.
fn push_mismatch(line: &mut Line, unit: &Name, import: &Name)
    requires { array_vec_len line.old ≤ 4 }
    ensures text { line.new.items ≡ line.old.items ++ refusal_text (Refusal.VersionMismatch unit.now import.now) }
    ensures short { array_vec_len line.new ≤ 180 }
{
    push_named(line, b"VersionMismatch", unit.as_bytes());
    push_behind(line, import.as_bytes());
}

/// The size that a buffer needs, and the one that it has.
fn push_sizes(line: &mut Line, need: u16, have: u16)
    requires { array_vec_len line.old ≤ 4 }
    ensures text { line.new.items ≡ line.old.items ++ refusal_text (Refusal.BufferTooSmall need have) }
    ensures short { array_vec_len line.new ≤ 180 }
{
    push_numbered(line, b"BufferTooSmall", need as u64);
    push_text(line, b" ");
    push_decimal(line, have as u64);
}

fn push_refusal(line: &mut Line, refusal: &Refusal)
    requires { array_vec_len line.old ≤ 4 }
    ensures text { line.new.items ≡ line.old.items ++ refusal_text refusal.now }
    ensures short { array_vec_len line.new ≤ 201 }
{
    match refusal {
        Refusal::Usage => push_text(line, b"Usage"),
        Refusal::MissingFile { name } => push_named(line, b"MissingFile", name.as_bytes()),
        Refusal::TooLarge { what, number } => push_too_large(line, *what, *number),
        Refusal::BadToken { at, cause } => {
            push_wrong(line, b"BadToken", at, lex_cause_text(*cause));
        }
        Refusal::Syntax { at } => push_placed(line, b"Syntax", at),
        Refusal::NotInProfile { at, feature } => {
            push_wrong(line, b"NotInProfile", at, feature_text(*feature));
        }
        Refusal::TooDeep { at } => push_placed(line, b"TooDeep", at),
        Refusal::Circular { unit } => push_named(line, b"Circular", unit.as_bytes()),
        Refusal::CheckRefused { at, kind, rule } => push_check(line, at, *kind, *rule),
        Refusal::ClassRefused { kind, name } => push_class(line, *kind, name),
        Refusal::VersionMismatch { unit, import } => push_mismatch(line, unit, import),
        Refusal::NotOverlayable { unit } => push_named(line, b"NotOverlayable", unit.as_bytes()),
        Refusal::NotExecutable { cause } => {
            push_text(line, b"NotExecutable ");
            push_cause(line, *cause);
        }
        Refusal::OverlayFileDamaged { at } => push_numbered(line, b"OverlayFileDamaged", *at),
        Refusal::OverlayMismatch { overlay } => {
            push_numbered(line, b"OverlayMismatch", *overlay as u64);
        }
        Refusal::BufferTooSmall { need, have } => push_sizes(line, *need, *have),
        Refusal::MemoryTooSmall { need } => {
            push_numbered(line, b"MemoryTooSmall", *need as u64);
        }
    }
}

/// The line that an outcome is due on standard error; empty where it is due none.
fn line_of(outcome: &Outcome) -> Line
    ensures { result.items ≡ line_of outcome.now }
{
    let mut line = Line::new();
    match outcome {
        Outcome::Done => (),
        Outcome::Program { code: _ } => (),
        Outcome::TurnLimit => push_text(&mut line, b"tp: TurnLimit\n"),
        Outcome::Undefined { act } => {
            push_text(&mut line, b"tp: ");
            push_numbered(&mut line, b"Undefined", *act as u64);
            push_text(&mut line, b"\n");
        }
        Outcome::InstructionLimit { taken } => {
            push_text(&mut line, b"tp: InstructionLimit ");
            push_decimal(&mut line, *taken);
            push_text(&mut line, b"\n");
        }
        Outcome::Stopped { cs, ip, why } => {
            push_text(&mut line, b"tp: Stopped ");
            push_text(&mut line, &hexadecimal(*cs));
            push_text(&mut line, b":");
            push_text(&mut line, &hexadecimal(*ip));
            push_text(&mut line, b" ");
            push_why(&mut line, *why);
            push_text(&mut line, b"\n");
        }
        Outcome::Refused(refusal) => {
            push_text(&mut line, b"tp: ");
            push_refusal(&mut line, refusal);
            push_text(&mut line, b"\n");
        }
        Outcome::InputFault => push_text(&mut line, b"tp: InputFault\n"),
        Outcome::OutputFault => push_text(&mut line, b"tp: OutputFault\n"),
        Outcome::ErrorsFault => (),
        Outcome::FilesFault => push_text(&mut line, b"tp: FilesFault\n"),
        Outcome::NoMemory => push_text(&mut line, b"tp: NoMemory\n"),
    }
    line
}

/// Writes the line that an outcome is due.
pub fn write_line<E: Sink>(errors: &mut E, outcome: &Outcome) -> Result<(), Failed>
    ensures written { OnOk result (E.contents errors.new ≡ append_known (E.contents errors.old) (line_of outcome.now)) }
    ensures prefix { TakesPrefix (E.contents errors.old) (E.contents errors.new) (line_of outcome.now) }
    ensures counted { E.faults errors.old ≤ E.faults errors.new }
    ensures failed { OnErr result (HasRisen (E.faults errors.old) (E.faults errors.new)) }
{
    write_all(errors, line_of(outcome).as_slice())
}
