//! The texts by their names.

ghost use Rattle.std.specs.Prelude.{◌≡◌, nat_eq, OnOk, IfOk, Some, if◌then◌else◌, ℕ, List};
ghost use Rattle.std.specs.HashMap.{get};
ghost use Rattle.std.specs.Cmp.Lexicographic.{pointwise};
ghost use Rattle.tp_lexer.specs.Acting.{AreNumbers};

use crate::token::Text;
use std::alloc::{AllocError, Global};
use std::collections::HashMap;
use type_layout::FileName;

// Gives a name a number, in place of one that it has.
fn enter(
    numbers: &mut HashMap<FileName, usize>,
    name: FileName,
    number: usize,
) -> Result<(), AllocError>
    ensures { OnOk result ((other : List ℕ) → get (pointwise nat_eq) numbers.new other ≡ (if pointwise nat_eq name other then Some number else get (pointwise nat_eq) numbers.old other)) }
{
    match numbers.insert(name, number) {
        Ok(_) => Ok(()),
        Err(_) => Err(AllocError),
    }
}

/// The number of the first text with each name.
pub fn numbers_of(alloc: Global, texts: &[Text]) -> Result<HashMap<FileName, usize>, AllocError>
    ensures { IfOk result (λ numbers. AreNumbers texts.now numbers) }
{
    let mut numbers = HashMap::new(alloc);
    let mut number = texts.len();
    while number > 0 {
        number -= 1;
        enter(&mut numbers, texts[number].name.copied(), number)?;
    }
    Ok(numbers)
}

/// The number of the first text with this name, where there is one.
pub fn number_named(numbers: &HashMap<FileName, usize>, name: &FileName) -> Option<usize>
    ensures { result ≡ get (pointwise nat_eq) numbers.now name.now }
{
    numbers.get(name).copied()
}
