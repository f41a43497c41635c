//! Laws of the definitions, each the contract of a function that does nothing.

ghost use Rattle.std.specs.Prelude.{◌≡◌, ◌≢◌, ◌+◌, ℕ, Bool, true, false, [], None, Err};
ghost use Rattle.x86_table.specs.declared.instr.Immediate.TheVariants as immediate;
ghost use Rattle.x86_table.specs.declared.instr.Instr.{Instr};
ghost use Rattle.x86_table.specs.declared.instr.Instr.TheVariants as instr;
ghost use Rattle.x86_table.specs.declared.operand.ByteOperand.TheVariants as byte_rm;
ghost use Rattle.x86_table.specs.declared.operand.DataSeg.TheVariants as data_seg;
ghost use Rattle.x86_table.specs.declared.operand.SegReg.TheVariants as seg;
ghost use Rattle.x86_table.specs.declared.operand.WordOperand.TheVariants as word_rm;
ghost use Rattle.x86_table.specs.declared.operand.WordReg.{WordReg};
ghost use Rattle.cpu_8086.specs.Memory.{address};
ghost use Rattle.cpu_8086.specs.Operand.{word_reg};
ghost use Rattle.cpu_8086.specs.Process as process;
ghost use Rattle.cpu_8086.specs.Process.{Process};
ghost use Rattle.cpu_8086.specs.Run as plain;
ghost use Rattle.resident_machine.specs.Astray.{LeadsNowhere, TouchesReturn, TouchesKept, ReadsUnknown, TakesCodeSegment, LeavesHalf, ReturnsElsewhere, Traps, ClearsItself, Uninstalls, MovesStack};
ghost use Rattle.resident_machine.specs.Cells.{Known, Unknown, Kept, Paired};
ghost use Rattle.resident_machine.specs.Effect.{effect_of, is_near_call};
ghost use Rattle.resident_machine.specs.Example.{byte_at, load_al, example, example_start};
ghost use Rattle.resident_machine.specs.Program.{Image, Overlay, Program};
ghost use Rattle.resident_machine.specs.Run.{Goes, Strays, IsAstray, Runs, RunsFramed};
ghost use Rattle.resident_machine.specs.Standing.{StandsFor};
ghost use Rattle.resident_machine.specs.Start.{resident_start, KeepsProgram};
ghost use Rattle.resident_machine.specs.State.{ResidentState, Running, Ended, Service};
ghost use Rattle.resident_machine.specs.Whole.{HasSmallOverlays, IsNamed, IsWhole};

/// Without stubs each run of the resident machine that isn't astray is the plain machine's run, event by event: from a
/// process that stands for the state, so many events lead to one that stands for the state afterwards.
pub fn resident_law()
    ensures { (p : Program) (n : ℕ) (r : ResidentState) (t : ResidentState) (q : Process) → p.overlays ≡ [] → StandsFor p r q → Runs p n r t → (u : Process) × plain.Runs n q u × StandsFor p t u }
{}

/// A process whose memory has the program's code stands for the resident state that it starts.
pub fn start_law()
    ensures { (p : Program) (kept : ℕ → Bool) (q : Process) → q.status ≡ process.Running → KeepsProgram p kept q.machine.memory → StandsFor p (resident_start kept (Image q.machine.cs) q) q }
{}

/// Runs of the resident machine have one outcome and compose, and a framed run is a run. A state that runs goes on or is
/// astray, and never both.
pub fn run_law()
    ensures one { (p : Program) (n : ℕ) (r : ResidentState) (t : ResidentState) (u : ResidentState) → Runs p n r t → Runs p n r u → t ≡ u }
    ensures compose { (p : Program) (m : ℕ) (n : ℕ) (r : ResidentState) (t : ResidentState) (u : ResidentState) → Runs p m r t → Runs p n t u → Runs p (m + n) r u }
    ensures framed { (p : Program) (n : ℕ) (r : ResidentState) (t : ResidentState) → RunsFramed p n r t → Runs p n r t }
    ensures astray { (p : Program) (r : ResidentState) (t : ResidentState) (service : Service) → IsAstray p r → Goes p r t service → ⊥ }
    ensures either { (p : Program) (r : ResidentState) → r.status ≡ Running → ((t : ResidentState) (service : Service) → Goes p r t service → ⊥) → (IsAstray p r → ⊥) → ⊥ }
{}

/// Whatever a run does, also with overlays, its states stay whole: CS and return pairs lead to code, none to the first byte of
/// an overlay; the bytes of pairs stand apart from one another and from what is kept, which stays kept; and no overlay was
/// entered while the installed flag is 0. A start is whole where its CS names code.
pub fn whole_law()
    ensures stays { (p : Program) (kept : ℕ → Bool) (n : ℕ) (r : ResidentState) (t : ResidentState) → HasSmallOverlays p → IsWhole p kept r → Runs p n r t → IsWhole p kept t }
    ensures begins { (p : Program) (kept : ℕ → Bool) (number : ℕ) (q : Process) → IsNamed p (Image number) → IsWhole p kept (resident_start kept (Image number) q) }
{}

/// What goes astray, way by way: interrupts that belong to overlays, halves of return pairs, CS as a value, a far return
/// with no pair, a far jump to no code, bytes that aren't known or are not to be touched, another stack, and the installed
/// flag set back.
pub fn astray_law()
    ensures traps { (p : Program) (r : ResidentState) → r.half ≡ false → effect_of p r (instr.Int 63) ≡ Err Traps }
    ensures clears { (p : Program) (r : ResidentState) (v : ℕ) → r.half ≡ false → r.cs ≡ Overlay v → effect_of p r (instr.Int 96) ≡ Err ClearsItself }
    ensures half { (p : Program) (r : ResidentState) (i : Instr) → r.half ≡ true → is_near_call i ≡ false → effect_of p r i ≡ Err LeavesHalf }
    ensures segment { (p : Program) (r : ResidentState) (w : WordReg) → r.half ≡ false → effect_of p r (instr.MovFromSeg (word_rm.Reg w) seg.Cs) ≡ Err TakesCodeSegment }
    ensures returns { (p : Program) (r : ResidentState) → r.half ≡ false → r.records ≡ [] → effect_of p r instr.RetFar ≡ Err ReturnsElsewhere }
    ensures nowhere { (p : Program) (r : ResidentState) (segment : ℕ) (offset : ℕ) → r.half ≡ false → p.image segment ≡ None → effect_of p r (instr.JumpFar offset segment) ≡ Err LeadsNowhere }
    ensures unknown { (p : Program) (r : ResidentState) (offset : ℕ) → r.half ≡ false → r.cells (address r.registers.ds offset) ≡ Unknown → effect_of p r (load_al offset) ≡ Err ReadsUnknown }
    ensures kept { (p : Program) (r : ResidentState) (offset : ℕ) → r.half ≡ false → r.cells (address r.registers.ds offset) ≡ Kept → effect_of p r (load_al offset) ≡ Err TouchesKept }
    ensures pair { (p : Program) (r : ResidentState) (offset : ℕ) → r.half ≡ false → r.cells (address r.registers.ds offset) ≡ Paired → effect_of p r (load_al offset) ≡ Err TouchesReturn }
    ensures stack { (p : Program) (r : ResidentState) (w : WordReg) → r.half ≡ false → word_reg r.registers w ≢ r.registers.ss → effect_of p r (instr.MovToSeg data_seg.Ss (word_rm.Reg w)) ≡ Err MovesStack }
    ensures flag { (p : Program) (r : ResidentState) (offset : ℕ) (flag : ℕ) → r.half ≡ false → p.installed ≡ address r.registers.ds offset → r.cells p.installed ≡ Known flag → flag ≢ 0 → effect_of p r (instr.MovImmediate (immediate.Byte (byte_at offset) 0)) ≡ Err Uninstalls }
{}

/// A program of two segments and an overlay runs to its end, each step framed: a call through a stub, far calls and
/// returns, a far call out of a near routine, and a near call behind PUSH CS. With no overlay installed it comes to the error routine with AX = 208.
pub fn example_law()
    ensures runs { (t : ResidentState) × RunsFramed example 29 (example_start 1) t × (t.status ≡ Ended 0) × (t.records ≡ []) }
    ensures refused { (t : ResidentState) × RunsFramed example 1 (example_start 0) t × (t.cs ≡ Image 0x80) × (t.registers.ax ≡ 208) }
{}
