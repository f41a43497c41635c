//! Lists as they are read.

ghost use Rattle.std.specs.Prelude.{◌≡◌, ◌++◌, IfErr, OnOk, List, [], ◌∷◌};
ghost use Rattle.expression_parser.specs.declared.error.ReadError.TheVariants.{NoMemory};

use expression_parser::ReadError;

/// One item more.
pub fn push<T: Drop>(all: &mut Vec<T>, item: T) -> Result<(), ReadError>
    ensures ok { OnOk result (all.new.items ≡ all.old.items ++ (item ∷ [])) }
    ensures err { IfErr result (λ e. e ≡ NoMemory) }
{
    all.push(item)?;
    Ok(())
}
