//! The kernel is what the code of programs is proved on.
#![tactic(auto)]

ghost use Rattle.std.specs.Prelude.{ℕ, List};
ghost use Rattle.flat_code.specs.Program.{Name};
ghost use Rattle.code_templates.specs.code_lines.Addresses.{Addresses};
ghost use Rattle.kernel_laws.specs.Laws.{KernelLaws};

/// With addresses filled in, the kernel's routines are the lines of the start, of the error routine, of the clear of the overlay
/// buffer and of the act that sets the installed flag, whatever the addresses are and wherever the kernel stands; and its text is the error
/// routine's. It does nothing.
pub fn kernel_laws()
    ensures { (a : Addresses) (own : Name) (names : List Name) (kernel : Name) (p : ℕ) → KernelLaws a own names kernel p }
{}
