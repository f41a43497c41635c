//! Laws of lines on the resident machine, each the contract of a function that does nothing.

ghost use Rattle.std.specs.Prelude.{◌≡◌, ◌+◌, ◌<◌, ◌≤◌, ℕ, suc, Bool, true, false, List, length};
ghost use Rattle.x86_table.specs.declared.instr.Cond.{Cond};
ghost use Rattle.x86_table.specs.declared.instr.Instr.{Instr};
ghost use Rattle.x86_table.specs.declared.instr.Instr.TheVariants as instr;
ghost use Rattle.x86_table.specs.declared.line.Line.TheVariants.{JumpNear, JumpShort};
ghost use Rattle.x86_table.specs.Spelling.{spelling};
ghost use Rattle.x86_table.specs.Standing.{IsSpelledAt, LineStands, Stands};
ghost use Rattle.cpu_8086.specs.Access.{at_offset};
ghost use Rattle.cpu_8086.specs.Effect.{holds};
ghost use Rattle.cpu_8086.specs.Memory.{address};
ghost use Rattle.resident_machine.specs.Cells.{Cells};
ghost use Rattle.resident_machine.specs.Program.{Segment, Program};
ghost use Rattle.resident_machine.specs.Run.{Runs, RunsFramed};
ghost use Rattle.resident_machine.specs.State.{ResidentState};
ghost use Rattle.resident_machine.specs.machine_lines.Steps.{IsAbove, Leads};
ghost use Rattle.resident_machine.specs.machine_lines.Straight.{all_plain, ones, AskAll, registers_past, cells_past, Placed, IsAt, Carried, div_cx, quotient, Jumps};
ghost use Rattle.resident_machine.specs.machine_lines.Words.{HoldsWord, word_there, stored};
ghost use Rattle.resident_machine.specs.machine_lines.Example.{swap, IsSpare, Swapped};

/// A straight list of plain instructions that stands in code is carried through the machine at once: given what it asks of
/// the bytes that it touches, as many events lead behind it, with the registers and bytes that it computes.
pub fn line_law()
    ensures { (p : Program) (framed : Bool) (cs : Segment) (code : List ℕ) (at : ℕ → ℕ) (labels : ℕ → ℕ) → Placed p cs code at → (k : ℕ) (is : List Instr) (r : ResidentState) → all_plain is ≡ true → IsAt cs (at k) r → Stands (IsSpelledAt code) at labels k (ones is) → AskAll r.cells p.installed at k is r.registers r.cells → Carried p framed cs (length is) (at (k + length is)) r (registers_past at k is r.registers r.cells) (cells_past at k is r.registers r.cells) }
{}

/// A near jump, or the short one in its place, leads to its label's line. A short jump to a label, or over a few
/// instructions, does so where its condition holds, and leads to the next line where it doesn't.
pub fn jump_law()
    ensures label { (p : Program) (framed : Bool) (cs : Segment) (code : List ℕ) (at : ℕ → ℕ) (labels : ℕ → ℕ) → Placed p cs code at → (k : ℕ) (l : ℕ) (r : ResidentState) → IsAt cs (at k) r → LineStands (IsSpelledAt code) at labels k (JumpNear l) → Jumps p framed cs (at (labels l)) r }
    ensures branch { (p : Program) (framed : Bool) (cs : Segment) (code : List ℕ) (at : ℕ → ℕ) (labels : ℕ → ℕ) → Placed p cs code at → (k : ℕ) (l : ℕ) (c : Cond) (r : ResidentState) → IsAt cs (at k) r → LineStands (IsSpelledAt code) at labels k (JumpShort c l) → holds r.registers c ≡ true → Jumps p framed cs (at (labels l)) r }
    ensures pass { (p : Program) (framed : Bool) (cs : Segment) (code : List ℕ) (at : ℕ → ℕ) (labels : ℕ → ℕ) → Placed p cs code at → (k : ℕ) (l : ℕ) (c : Cond) (r : ResidentState) → IsAt cs (at k) r → LineStands (IsSpelledAt code) at labels k (JumpShort c l) → holds r.registers c ≡ false → Jumps p framed cs (at (k + 1)) r }
    ensures over { (p : Program) (framed : Bool) (cs : Segment) (code : List ℕ) (at : ℕ → ℕ) → Placed p cs code at → (k : ℕ) (j : ℕ) (c : Cond) (d : ℕ) (r : ResidentState) → IsAt cs (at k) r → IsSpelledAt code (at k) (instr.JumpShort c d) → at (k + 1) ≡ at k + 2 → holds r.registers c ≡ true → d < 128 → at (k + 1) + d ≡ at j → Jumps p framed cs (at j) r }
    ensures on { (p : Program) (framed : Bool) (cs : Segment) (code : List ℕ) (at : ℕ → ℕ) → Placed p cs code at → (k : ℕ) (c : Cond) (d : ℕ) (r : ResidentState) → IsAt cs (at k) r → IsSpelledAt code (at k) (instr.JumpShort c d) → at (k + 1) ≡ at k + 2 → holds r.registers c ≡ false → Jumps p framed cs (at (k + 1)) r }
{}

/// A division of a word by a word that isn't 0 leaves quotient and remainder, and does not fault.
pub fn divide_law()
    ensures { (p : Program) (framed : Bool) (cs : Segment) (code : List ℕ) (at : ℕ → ℕ) (k : ℕ) (n : ℕ) (r : ResidentState) → Placed p cs code at → IsAt cs (at k) r → IsSpelledAt code (at k) div_cx → at (k + 1) ≡ at k + length (spelling div_cx) → r.registers.cx ≡ suc n → r.registers.dx ≡ 0 → r.registers.ax < 65536 → Carried p framed cs 1 (at (k + 1)) r (quotient (at_offset r.registers (at (k + 1))) (suc n)) r.cells }
{}

/// What leads on composes, and is a run of the resident machine: a framed one, where that was asked for.
pub fn run_law()
    ensures compose { (p : Program) (framed : Bool) (m : ℕ) (n : ℕ) (r : ResidentState) (t : ResidentState) (u : ResidentState) → Leads p framed m r t → Leads p framed n t u → Leads p framed (m + n) r u }
    ensures runs { (p : Program) (framed : Bool) (n : ℕ) (r : ResidentState) (t : ResidentState) → Leads p framed n r t → Runs p n r t }
    ensures framed { (p : Program) (n : ℕ) (r : ResidentState) (t : ResidentState) → Leads p true n r t → RunsFramed p n r t }
{}

/// A stored word is there, and what is there is what the machine reads. What stands from SP on is none of the 64 bytes
/// below it.
pub fn word_law()
    ensures there { (c : Cells) (segment : ℕ) (offset : ℕ) (v : ℕ) → offset < 65536 → HoldsWord (stored c segment offset v) segment offset v }
    ensures read { (c : Cells) (segment : ℕ) (offset : ℕ) (v : ℕ) → HoldsWord c segment offset v → word_there c segment offset ≡ v }
    ensures above { (segment : ℕ) (sp : ℕ) (offset : ℕ) → sp ≤ offset → offset < 65536 → 64 ≤ sp → IsAbove segment sp (address segment offset) }
{}

/// Two registers change places by way of the stack, at any place where two words below SP are free.
pub fn example_law()
    ensures { (p : Program) (framed : Bool) (cs : Segment) (code : List ℕ) (at : ℕ → ℕ) (labels : ℕ → ℕ) → Placed p cs code at → (k : ℕ) (r : ResidentState) → IsAt cs (at k) r → Stands (IsSpelledAt code) at labels k (ones swap) → IsSpare p r → (t : ResidentState) × Leads p framed 3 r t × Swapped (at (k + 3)) r t }
{}
