//! Laws of spellings and of assembled lines, by which the definitions can be believed.

ghost use Rattle.std.specs.Prelude.{◌≡◌, ◌+◌, ◌%◌, ◌<◌, ◌≤◌, ℕ, List, ◌++◌, length};
ghost use Rattle.x86_table.specs.declared.instr.Instr.{Instr};
ghost use Rattle.x86_table.specs.Spelling.{spelling};
ghost use Rattle.x86_table.specs.declared.line.Line.{Line};
ghost use Rattle.x86_table.specs.Lines.{assembled, byte_distance, word_distance, Reaches, ShortJumpsReach, Shortens};
ghost use Rattle.x86_table.specs.Standing.{IsSpelledAt, label_line, LabelsAreOnce, Stands, offset_of};

/// No spelling begins another, so bytes spell one instruction alone; and a spelling has 1 to 7 bytes.
#[tactic(auto, using(crate::proofs::Spellings::spelling_unique, crate::proofs::Spellings::spelling_bounds))]
pub fn spelling_law()
    ensures unique { (i : Instr) (j : Instr) (r : List ℕ) (s : List ℕ) → spelling i ++ r ≡ spelling j ++ s → (i ≡ j) × (r ≡ s) }
    ensures bounds { (i : Instr) → (1 ≤ length (spelling i)) × (length (spelling i) ≤ 7) }
{}

/// Lines stand in the bytes that `assemble` makes of them, or of what `relax` made of them: each instruction at its line's
/// offset, each jump and call with the distance to its label's line.
#[tactic(auto, using(crate::proofs::Stand::lines_are_spelled))]
pub fn standing_law()
    ensures { (xs : List Line) (ys : List Line) → Shortens xs ys → LabelsAreOnce xs → ShortJumpsReach ys → Stands (IsSpelledAt (assembled ys)) (offset_of 0 ys) (label_line xs) 0 xs }
{}

/// A jump lands on its target: the distance from the next instruction, with its sign, leads there, modulo 2^16. A byte
/// from 80 to FF hex stands for itself less 256.
#[tactic(auto, using(crate::proofs::Stand::near_lands, crate::proofs::Stand::short_lands_ahead, crate::proofs::Stand::short_lands_behind))]
pub fn landing_law()
    ensures near { (end : ℕ) (target : ℕ) → end ≤ 65536 → target < 65536 → (end + word_distance end target) % 65536 ≡ target }
    ensures ahead { (end : ℕ) (target : ℕ) → Reaches end target → end ≤ 65536 → target < 65536 → byte_distance end target < 128 → (end + byte_distance end target) % 65536 ≡ target }
    ensures behind { (end : ℕ) (target : ℕ) → Reaches end target → end ≤ 65536 → target < 65536 → 128 ≤ byte_distance end target → (end + (byte_distance end target + 65280)) % 65536 ≡ target }
{}
