//! Laws of the definitions, each the contract of a function that does nothing.

ghost use Rattle.std.specs.Prelude.{◌≡◌, ◌≢◌, ◌+◌, ◌*◌, ◌/◌, ◌<◌, ℕ, false, length, List};
ghost use Rattle.x86_table.specs.declared.instr.Cond.{Cond};
ghost use Rattle.x86_table.specs.declared.instr.Instr.{Instr};
ghost use Rattle.x86_table.specs.declared.instr.Instr.TheVariants as instr;
ghost use Rattle.x86_table.specs.declared.instr.Width.{Width};
ghost use Rattle.x86_table.specs.declared.operand.WordReg.{WordReg};
ghost use Rattle.x86_table.specs.declared.operand.WordReg.TheVariants as word;
ghost use Rattle.cpu_8086.specs.declared.machine.Event.{Event};
ghost use Rattle.cpu_8086.specs.declared.registers.Registers.{Registers};
ghost use Rattle.cpu_8086.specs.Access.{Done, lowered};
ghost use Rattle.cpu_8086.specs.Arithmetic.{size, sum_of, difference_of};
ghost use Rattle.cpu_8086.specs.Direct.{with_registers, direct, settled};
ghost use Rattle.cpu_8086.specs.Effect.{accumulator, dividend, with_halves, multiplied, divided, holds};
ghost use Rattle.cpu_8086.specs.Laws.{compared, decides};
ghost use Rattle.cpu_8086.specs.Memory.{address, next_offset, load_byte, load_word, store_word};
ghost use Rattle.cpu_8086.specs.Operand.{word_reg};
ghost use Rattle.cpu_8086.specs.Process.{Process, Running};
ghost use Rattle.cpu_8086.specs.Run.{Goes, Runs};
ghost use Rattle.cpu_8086.specs.State.{State};
ghost use Rattle.cpu_8086.specs.Step.{effect, past, Steps};

/// A word that was written is read back, also where it wraps at the segment's end, and other bytes stay.
pub fn memory_law()
    ensures back { (m : List ℕ) (segment : ℕ) (offset : ℕ) (v : ℕ) → length m ≡ 1048576 → offset < 65536 → load_word (store_word m segment offset v) segment offset ≡ v }
    ensures stays { (m : List ℕ) (segment : ℕ) (offset : ℕ) (g : ℕ) (o : ℕ) (v : ℕ) → address g o ≢ address segment offset → address g o ≢ address segment (next_offset offset) → load_byte (store_word m segment offset v) g o ≡ load_byte m g o }
{}

/// After CMP each condition of a jump holds exactly where its relation does, signed or unsigned.
pub fn compare_law()
    ensures { (g : Registers) (w : Width) (x : ℕ) (y : ℕ) (c : Cond) → x < size w → y < size w → holds (compared g w x y) c ≡ decides c w x y }
{}

/// ADD then SUB of the same operand gives back what was there; MUL and DIV undo each other where DIV doesn't fault.
pub fn arithmetic_law()
    ensures sum { (w : Width) (x : ℕ) (y : ℕ) → x < size w → y < size w → (difference_of w (sum_of w x y false).value y false).value ≡ x }
    ensures product { (g : Registers) (w : Width) (v : ℕ) → 0 < v → v < size w → accumulator g w < size w → divided (multiplied g w v) w v ≡ Done (with_halves (multiplied g w v) w 0 (accumulator g w)) }
    ensures quotient { (g : Registers) (w : Width) (v : ℕ) → 0 < v → dividend g w / v < size w → (h : Registers) × (divided g w v ≡ Done h) × (accumulator h w * v + dividend h w / size w ≡ dividend g w) }
{}

/// PUSH then POP gives the word back, SP's own being that after the decrement, and leaves SP.
pub fn stack_law()
    ensures word { (s : State) (r : WordReg) (q : WordReg) → length s.memory ≡ 1048576 → word_reg (effect (effect s (instr.Push r)).0 (instr.Pop q)).0.registers q ≡ word_reg (lowered s.registers) r }
    ensures pointer { (s : State) (r : WordReg) (q : WordReg) → s.registers.sp < 65536 → word.Sp ≢ q → (effect (effect s (instr.Push r)).0 (instr.Pop q)).0.registers.sp ≡ s.registers.sp }
{}

/// What an instruction's tree does over memory is what the code does; and a step has one outcome.
pub fn step_law()
    ensures direct { (s : State) (i : Instr) → effect s i ≡ settled s.registers.ip (direct (with_registers s (past i s.registers)) i) }
    ensures one { (s : State) (t : State) (u : State) (a : Event) (b : Event) → Steps s t a → Steps s u b → (t ≡ u) × (a ≡ b) }
    ensures memory { (s : State) (t : State) (event : Event) → Steps s t event → length t.memory ≡ length s.memory }
{}

/// Runs compose, have one outcome, and end where a process ended or was stopped.
pub fn run_law()
    ensures compose { (m : ℕ) (n : ℕ) (p : Process) (q : Process) (r : Process) → Runs m p q → Runs n q r → Runs (m + n) p r }
    ensures one { (n : ℕ) (p : Process) (q : Process) (r : Process) → Runs n p q → Runs n p r → q ≡ r }
    ensures over { (p : Process) (q : Process) → p.status ≢ Running → Goes p q → ⊥ }
{}
