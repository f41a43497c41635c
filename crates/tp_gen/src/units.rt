//! The units of a program.

ghost use Rattle.std.specs.Prelude.{◌≡◌, ◌≤◌, ◌<◌, ◌*◌, IfOk, OnOk, string_bytes};
ghost use Rattle.tp_gen.specs.Draws.{state_after};
ghost use Rattle.tp_gen.specs.Units.{other_unit, unit_behind, units_of, uses_text, header_text, calls_text, statement_text, unit_text};

use crate::draws::Draws;
use std::alloc::{AllocError, Global};

/// A unit of a generated program. Its function is given by recursion over the functions of two other units, which may be the same.
#[derive(Clone, Copy, Debug)]
pub struct DrawnUnit {
    /// Its number, from 1 on.
    pub number: u16,
    /// The number of the unit whose function is called first.
    pub first: u16,
    /// The number of the unit whose function is called second.
    pub second: u16,
    /// What the function gives up to 0.
    pub base: u16,
    /// What the second call is multiplied by.
    pub factor: u16,
    /// How far the argument of the first call lies below the function's own; that of the second lies one further below.
    pub step: u16,
}

fn other_unit(own: u16, place: u16) -> u16
    requires { place < 64 }
    ensures { result ≡ other_unit own place }
{
    if place + 1 < own {
        place + 1
    } else {
        place + 2
    }
}

fn drawn_unit(draws: &mut Draws, units: u16, number: u16) -> DrawnUnit
    requires { 2 ≤ units × units ≤ 64 }
    ensures unit { result ≡ unit_behind draws.old units number }
    ensures state { draws.new ≡ state_after draws.old 5 }
{
    let first = other_unit(number, draws.draw(units - 1));
    let second = other_unit(number, draws.draw(units - 1));
    let base = draws.draw(1000);
    let factor = draws.draw(100);
    let step = 1 + draws.draw(2);
    DrawnUnit {
        number,
        first,
        second,
        base,
        factor,
        step,
    }
}

/// So many units, in the order of their numbers.
pub(crate) fn drawn_units(
    alloc: Global,
    draws: &mut Draws,
    units: u16,
) -> Result<Vec<DrawnUnit>, AllocError>
    requires { 2 ≤ units × units ≤ 64 }
    ensures all { IfOk result (λ all. all.items ≡ units_of draws.old units) }
    ensures state { OnOk result (draws.new ≡ state_after draws.old (5 * units)) }
{
    let mut all = Vec::new(alloc);
    for place in 0..units {
        all.push(drawn_unit(draws, units, place + 1))?;
    }
    Ok(all)
}

fn uses_text(alloc: Global, first: u16, second: u16) -> Result<String, AllocError>
    ensures { IfOk result (λ text. string_bytes text ≡ uses_text first second) }
{
    if first == second {
        format!(in alloc; "uses G{first};")
    } else {
        format!(in alloc; "uses G{first}, G{second};")
    }
}

fn header_text(alloc: Global, number: u16) -> Result<String, AllocError>
    ensures { IfOk result (λ text. string_bytes text ≡ header_text number) }
{
    format!(in alloc; "function F{number}(n: Integer): Integer;")
}

// The calls of the two others.
fn calls_text(alloc: Global, unit: DrawnUnit) -> Result<String, AllocError>
    ensures { IfOk result (λ text. string_bytes text ≡ calls_text unit) }
{
    let DrawnUnit {
        first,
        second,
        step,
        ..
    } = unit;
    let further = step as u32 + 1;
    format!(in alloc; "F{first}(n - {step}) + F{second}(n - {further})")
}

// What the function of a unit does.
fn statement_text(alloc: Global, unit: DrawnUnit) -> Result<String, AllocError>
    ensures { IfOk result (λ text. string_bytes text ≡ statement_text unit) }
{
    let calls = calls_text(alloc, unit)?;
    let DrawnUnit {
        number,
        base,
        factor,
        ..
    } = unit;
    format!(in alloc;
        "if n <= 0 then F{number} := {base}
else F{number} := {calls} * {factor}
"
    )
}

/// The source of a unit.
pub(crate) fn unit_text(alloc: Global, unit: DrawnUnit) -> Result<String, AllocError>
    ensures { IfOk result (λ text. string_bytes text ≡ unit_text unit) }
{
    let header = header_text(alloc, unit.number)?;
    let uses = uses_text(alloc, unit.first, unit.second)?;
    let statement = statement_text(alloc, unit)?;
    let number = unit.number;
    format!(in alloc;
        "{{$F+,O+}} unit G{number};
interface
{header}
implementation
{uses}
{header}
begin
{statement}end;
end.
"
    )
}
