//! Generated sources.

ghost use Rattle.std.specs.Prelude.{◌≡◌, ◌≤◌, ◌<◌, ◌++◌, List, map, IfOk, OnOk, string_bytes};
ghost use Rattle.tp_gen.specs.Sources.{unit_file, unit_source, sources_of};

use crate::draws::Draws;
use crate::program::{drawn_call, program_text};
use crate::units::{DrawnUnit, drawn_units, unit_text};
use std::alloc::{AllocError, Global};
use tp_lexer::Text;
use type_layout::{Bytes, FileName, Sequence};

/// Source texts, in order.
pub type Texts = Sequence<Text>;

/// The name of the file of the program.
const PROGRAM_FILE: &str = "gen.pas";

fn program_file() -> FileName
    ensures { result ≡ PROGRAM_FILE.now }
{
    match FileName::new(PROGRAM_FILE) {
        Some(name) => name,
        None => unreachable!(),
    }
}

#[tactic(auto, using(crate::proofs::NameLaws::short_name))]
fn unit_file(alloc: Global, number: u16) -> Result<FileName, AllocError>
    ensures { IfOk result (λ name. name ≡ unit_file number) }
{
    let name = format!(in alloc; "g{number}.pas")?;
    match FileName::new(name.as_str()) {
        Some(name) => Ok(name),
        None => unreachable!(),
    }
}

fn source(name: FileName, text: String) -> Text
    ensures name { result.name ≡ name }
    ensures bytes { result.bytes ≡ string_bytes text }
{
    Text {
        name,
        bytes: Bytes::from_vec(text.into_bytes()),
    }
}

fn unit_source(alloc: Global, unit: DrawnUnit) -> Result<Text, AllocError>
    ensures { IfOk result (λ source. source ≡ unit_source unit) }
{
    let name = unit_file(alloc, unit.number)?;
    let text = unit_text(alloc, unit)?;
    Ok(source(name, text))
}

fn push_units(alloc: Global, texts: &mut Texts, units: &[DrawnUnit]) -> Result<(), AllocError>
    ensures { OnOk result (texts.new ≡ texts.old ++ map unit_source units.now) }
{
    for unit in units {
        texts.push(unit_source(alloc, *unit)?)?;
    }
    Ok(())
}

/// The sources of an overlaid program of so many units, drawn from a seed: the program, `gen.pas`, and then its units, `g1.pas` and
/// so on. The same seed gives the same sources. Fails only without memory.
pub fn generate(alloc: Global, seed: u32, units: u16) -> Result<Texts, AllocError>
    requires { 2 ≤ units × units ≤ 64 }
    ensures { IfOk result (λ texts. texts ≡ sources_of seed units) }
{
    let mut draws = Draws::new(seed);
    let all = drawn_units(alloc, &mut draws, units)?;
    let call = drawn_call(&mut draws, units);
    let text = program_text(alloc, all.as_slice(), call)?;
    let mut texts = Texts::new(alloc);
    texts.push(source(program_file(), text))?;
    push_units(alloc, &mut texts, all.as_slice())?;
    Ok(texts)
}
