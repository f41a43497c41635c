//! An object type with the members of its line.

ghost use Rattle.std.specs.Prelude.{◌≡◌, ℕ, ◌<◌, ◌^◌, ◌∷◌, [], Some, None, IfOk, OnOk, IfErr, IfSome, length, slice_get, option_copied};
ghost use Rattle.std.specs.List.{list_any};
ghost use Rattle.type_layout.specs.Words.{same_bytes};
ghost use Rattle.object_vmt.specs.Members.{Members, no_members, with_fields, with_methods};
ghost use Rattle.object_vmt.specs.Slots.{with_slot, slots_of, method_at};
ghost use Rattle.object_vmt.specs.Faults.{field_fault, override_fault, method_fault, fields_fault, methods_fault, IsAnswerTo};

use crate::ClassError;
use crate::rules::{first_virtual, has_field, has_method, nearest, same_header};
use std::alloc::{AllocError, Global};
use std::marker::Model;
use type_layout::{Field, Fields, Method, Methods, Name, Names};

// How many slots a class has at most, so that their numbers are numbers of 32 bits.
const MOST: usize = 0xffff_ffff;

/// The fields and methods of a line, the first ancestor's first, and the names of its virtual slots.
#[derive(Debug, Drop)]
pub struct Class {
    fields: Fields,
    methods: Methods,
    slots: Names,
}

impl Model for Class {
    ghost use Rattle.object_vmt.specs.Members.{Members};
    ghost use Rattle.object_vmt.specs.Slots.{HasSlots};

    ghost Value = { Members };

    ghost view = { λ c. record { fields = c.fields; methods = c.methods } };

    ghost invariant = { λ c. HasSlots c.methods c.slots };
}

fn field_fault(fields: &[Field], methods: &[Method], field: &Field) -> Option<ClassError>
    ensures { result ≡ field_fault (record { fields = fields.now; methods = methods.now }) field.now }
{
    if has_field(fields, &field.name) || has_method(methods, &field.name) {
        Some(ClassError::DuplicateField {
            name: field.name.copied(),
        })
    } else {
        None
    }
}

fn override_fault(above: Option<&Method>, method: &Method) -> Option<ClassError>
    ensures { result ≡ override_fault (option_copied above.entry) method.now }
{
    match above {
        None => None,
        Some(above) => {
            if !method.is_virtual {
                Some(ClassError::MissingVirtual {
                    method: method.name.copied(),
                })
            } else if same_header(&above.header, &method.header) {
                None
            } else {
                Some(ClassError::BadOverride {
                    method: method.name.copied(),
                })
            }
        }
    }
}

fn method_fault(fields: &[Field], methods: &[Method], method: &Method) -> Option<ClassError>
    ensures { result ≡ method_fault (record { fields = fields.now; methods = methods.now }) method.now }
{
    if has_field(fields, &method.name) {
        Some(ClassError::DuplicateField {
            name: method.name.copied(),
        })
    } else {
        override_fault(first_virtual(methods, &method.name), method)
    }
}

fn has_name(slots: &[Name], name: &Name) -> bool
    ensures { result ≡ list_any (same_bytes name.now) slots.now }
{
    slots.iter().any(|slot| *name == *slot)
}

// Adds the slot that a method takes, if it takes one.
fn add_slot(slots: &mut Names, method: &Method) -> Result<(), AllocError>
    requires { length slots.old < 2 ^ 32 }
    ensures ok { OnOk result (slots.new ≡ with_slot slots.old method.now) }
    ensures few { OnOk result (length slots.new < 2 ^ 32) }
{
    if method.is_virtual && !has_name(slots.as_slice(), &method.name) {
        if slots.len() >= MOST {
            return Err(AllocError);
        }
        slots.push(method.name.copied())?;
    }
    Ok(())
}

fn copied_fields(alloc: Global, fields: &[Field]) -> Result<Fields, AllocError>
    ensures { IfOk result (λ copy. copy ≡ fields.now) }
{
    let mut copy = Fields::new(alloc);
    for field in fields {
        copy.push(field.copied())?;
    }
    Ok(copy)
}

fn copied_methods(alloc: Global, methods: &[Method]) -> Result<Methods, AllocError>
    ensures { IfOk result (λ copy. copy ≡ methods.now) }
{
    let mut copy = Methods::new(alloc);
    for method in methods {
        copy.push(method.copied(alloc)?)?;
    }
    Ok(copy)
}

fn copied_names(alloc: Global, names: &[Name]) -> Result<Names, AllocError>
    ensures { IfOk result (λ copy. copy ≡ names.now) }
{
    let mut copy = Names::new(alloc);
    for name in names {
        copy.push(name.copied())?;
    }
    Ok(copy)
}

impl Class {
    /// A class without members.
    pub(crate) fn new(alloc: Global) -> Class
        ensures { result ≡ no_members }
    {
        Class {
            fields: Fields::new(alloc),
            methods: Methods::new(alloc),
            slots: Names::new(alloc),
        }
    }

    /// The class with a further field of its line.
    pub(crate) fn with_field(self, field: &Field) -> Result<Class, ClassError>
        ensures ok { IfOk result (λ class. class ≡ with_fields self (field.now ∷ [])) }
        ensures lawful { OnOk result (field_fault self field.now ≡ None) }
        ensures err { IfErr result (IsAnswerTo (field_fault self field.now)) }
    {
        let Class {
            mut fields,
            methods,
            slots,
        } = self;
        if let Some(fault) = field_fault(fields.as_slice(), methods.as_slice(), field) {
            return Err(fault);
        }
        fields.push(field.copied())?;
        Ok(Class {
            fields,
            methods,
            slots,
        })
    }

    /// The class with a further method of its line.
    pub(crate) fn with_method(self, alloc: Global, method: &Method) -> Result<Class, ClassError>
        ensures ok { IfOk result (λ class. class ≡ with_methods self (method.now ∷ [])) }
        ensures lawful { OnOk result (method_fault self method.now ≡ None) }
        ensures err { IfErr result (IsAnswerTo (method_fault self method.now)) }
    {
        let Class {
            fields,
            mut methods,
            mut slots,
        } = self;
        if let Some(fault) = method_fault(fields.as_slice(), methods.as_slice(), method) {
            return Err(fault);
        }
        add_slot(&mut slots, method)?;
        methods.push(method.copied(alloc)?)?;
        Ok(Class {
            fields,
            methods,
            slots,
        })
    }

    /// The class with further fields of its line.
    pub(crate) fn with_fields(self, fields: &[Field]) -> Result<Class, ClassError>
        ensures ok { IfOk result (λ class. class ≡ with_fields self fields.now) }
        ensures lawful { OnOk result (fields_fault self fields.now ≡ None) }
        ensures err { IfErr result (IsAnswerTo (fields_fault self fields.now)) }
    {
        let mut class = self;
        for field in fields {
            class = class.with_field(field)?;
        }
        Ok(class)
    }

    /// The class with further methods of its line.
    pub(crate) fn with_methods(self, alloc: Global, methods: &[Method]) -> Result<Class, ClassError>
        ensures ok { IfOk result (λ class. class ≡ with_methods self methods.now) }
        ensures lawful { OnOk result (methods_fault self methods.now ≡ None) }
        ensures err { IfErr result (IsAnswerTo (methods_fault self methods.now)) }
    {
        let mut class = self;
        for method in methods {
            class = class.with_method(alloc, method)?;
        }
        Ok(class)
    }

    /// A copy.
    pub(crate) fn copied(&self, alloc: Global) -> Result<Class, AllocError>
        ensures { IfOk result (λ class. class ≡ self.now) }
    {
        Ok(Class {
            fields: copied_fields(alloc, self.fields.as_slice())?,
            methods: copied_methods(alloc, self.methods.as_slice())?,
            slots: copied_names(alloc, self.slots.as_slice())?,
        })
    }

    /// The fields of the line, the first ancestor's first.
    pub fn fields(&self) -> &[Field]
        ensures { result.now ≡ self.now.fields }
    {
        self.fields.as_slice()
    }

    /// The methods of the line, the first ancestor's first.
    pub fn methods(&self) -> &[Method]
        ensures { result.now ≡ self.now.methods }
    {
        self.methods.as_slice()
    }

    /// The number of virtual slots.
    pub fn slots(&self) -> u32
        ensures { result ≡ length (slots_of self.now.methods) }
    {
        self.slots.len() as u32
    }

    /// The method that answers a slot: the nearest declaration of the method that took it.
    pub fn method_at(&self, slot: u32) -> &Method
        requires { slot < length (slots_of self.now.methods) }
        ensures { method_at self.now slot ≡ Some result.now }
    {
        let name = &self.slots.as_slice()[slot as usize];
        match nearest(self.methods.as_slice(), name) {
            Some(method) => method,
            None => unreachable!(),
        }
    }
}
