//! Names of fields.

ghost use Rattle.std.specs.Prelude.{◌≡◌};
ghost use Rattle.typing_rules.specs.Judgements.{Gives};
ghost use Rattle.declaration_checker.specs.type_denoters.Denoters.{has_field, names_onto};

use syntax_tree::Identifier;
use type_layout::{Field, Fields, Name, TypeId};
use typing_rules::{Refusal, Rule, broken};

fn has_field(fields: &[Field], name: &Name) -> bool
    ensures { result ≡ has_field fields.now name.now }
{
    fields.iter().any(|field| *name == field.name)
}

/// Puts fields of one type behind those that are there, none of which has the name of another.
pub(crate) fn add_names(
    fields: &mut Fields,
    ty: TypeId,
    names: &[Identifier],
) -> Result<(), Refusal>
    ensures { Gives (λ _. fields.new) result (names_onto fields.old ty names.now).run }
{
    for one in names {
        if has_field(fields.as_slice(), &one.name) {
            let place = one.position.place;
            return Err(Refusal::Because(broken(place, Rule::Duplicate)));
        }
        fields.push(Field {
            name: one.name.copied(),
            ty,
        })?;
    }
    Ok(())
}
