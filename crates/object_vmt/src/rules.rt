//! Tests of members of an object type against those before them in its line.

ghost use Rattle.std.specs.Prelude.{◌≡◌, ℕ, ◌==◌, nat_eq, option_copied, length};
ghost use Rattle.object_vmt.specs.Members.{has_field, has_method, nearest};
ghost use Rattle.object_vmt.specs.Rules.{kind_number, same_param, same_params, same_result, same_header, first_virtual};

use type_layout::{Field, Header, Kind, Method, Name, Param, TypeId};

fn kind_number(kind: Kind) -> u8
    ensures { result ≡ kind_number kind }
{
    match kind {
        Kind::Procedure => 0,
        Kind::Function => 1,
        Kind::Constructor => 2,
        Kind::Destructor => 3,
    }
}

fn same_param(one: &Param, other: &Param) -> bool
    ensures { result ≡ same_param one.now other.now }
{
    let same_flag = if one.by_ref {
        other.by_ref
    } else {
        !other.by_ref
    };
    same_flag && one.ty.0 == other.ty.0
}

fn same_params(ones: &[Param], others: &[Param]) -> bool
    ensures { result ≡ same_params ones.now others.now }
{
    match (ones.split_first(), others.split_first()) {
        (None, None) => true,
        (Some((one, ones)), Some((other, others))) => same_param(one, other)
            && same_params(ones, others),
        _ => false,
    }
}

fn same_result(one: Option<TypeId>, other: Option<TypeId>) -> bool
    ensures { result ≡ same_result one other }
{
    match (one, other) {
        (None, None) => true,
        (Some(one), Some(other)) => one.0 == other.0,
        _ => false,
    }
}

/// Whether two headers are the same: the kind, the number, types and `var` of the parameters, and the result. Names
/// of parameters do not count.
pub fn same_header(one: &Header, other: &Header) -> bool
    ensures { result ≡ same_header one.now other.now }
{
    kind_number(one.kind) == kind_number(other.kind)
        && same_params(one.params.as_slice(), other.params.as_slice())
        && same_result(one.result, other.result)
}

pub(crate) fn has_field(fields: &[Field], name: &Name) -> bool
    ensures { result ≡ has_field fields.now name.now }
{
    fields.iter().any(|field| *name == field.name)
}

pub(crate) fn has_method(methods: &[Method], name: &Name) -> bool
    ensures { result ≡ has_method methods.now name.now }
{
    methods.iter().any(|method| *name == method.name)
}

/// The first virtual method of this name.
pub(crate) fn first_virtual<'a>(methods: &'a [Method], name: &Name) -> Option<&'a Method>
    ensures { option_copied result ≡ first_virtual methods.now name.now }
{
    for method in methods {
        if method.is_virtual && *name == method.name {
            return Some(method);
        }
    }
    None
}

/// The last method of this name.
pub(crate) fn nearest<'a>(methods: &'a [Method], name: &Name) -> Option<&'a Method>
    ensures { option_copied result ≡ nearest methods.now name.now }
{
    let mut found = None;
    for method in methods {
        if *name == method.name {
            found = Some(method);
        }
    }
    found
}
