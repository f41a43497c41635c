//! The program that uses the units.

ghost use Rattle.std.specs.Prelude.{◌≡◌, ◌≤◌, IfOk, string_bytes};
ghost use Rattle.std.specs.List.{flat_map};
ghost use Rattle.tp_gen.specs.Draws.{state_after};
ghost use Rattle.tp_gen.specs.Programs.{call_behind, used_text, directive_text, program_text};

use crate::draws::Draws;
use crate::units::DrawnUnit;
use std::alloc::{AllocError, Global};

/// What a generated program computes: the function of a unit, at a number.
#[derive(Clone, Copy, Debug)]
pub struct DrawnCall {
    /// The number of the unit.
    pub function: u16,
    pub argument: u16,
}

/// The call of a program of so many units.
pub(crate) fn drawn_call(draws: &mut Draws, units: u16) -> DrawnCall
    requires { 1 ≤ units }
    ensures call { result ≡ call_behind draws.old units }
    ensures state { draws.new ≡ state_after draws.old 2 }
{
    let function = 1 + draws.draw(units);
    let argument = 12 + draws.draw(8);
    DrawnCall { function, argument }
}

// The units of the uses clause, behind Overlay.
fn used_texts(alloc: Global, units: &[DrawnUnit]) -> Result<String, AllocError>
    ensures { IfOk result (λ text. string_bytes text ≡ flat_map used_text units.now) }
{
    let mut text = String::new(alloc);
    for unit in units {
        let number = unit.number;
        write!(text, ", G{number}")?;
    }
    Ok(text)
}

// The directives that overlay the units.
fn directive_texts(alloc: Global, units: &[DrawnUnit]) -> Result<String, AllocError>
    ensures { IfOk result (λ text. string_bytes text ≡ flat_map directive_text units.now) }
{
    let mut text = String::new(alloc);
    for unit in units {
        let number = unit.number;
        write!(text, "{{$O G{number}}}\n")?;
    }
    Ok(text)
}

/// The source of the program.
pub(crate) fn program_text(
    alloc: Global,
    units: &[DrawnUnit],
    call: DrawnCall,
) -> Result<String, AllocError>
    ensures { IfOk result (λ text. string_bytes text ≡ program_text units.now call) }
{
    let used = used_texts(alloc, units)?;
    let directives = directive_texts(alloc, units)?;
    let DrawnCall { function, argument } = call;
    format!(in alloc;
        "{{$F+}} program Gen;
uses Overlay{used};
{directives}var i: Integer;
begin
OvrInit('GEN.OVR');
for i := 1 to 3 do WriteLn(i, ' ', F{function}({argument}))
end.
"
    )
}
