//! The types of places, and how values of them are stored.

ghost use Rattle.std.specs.Prelude.{◌≡◌, ◌-◌, ◌≤◌, Some, IfOk, OnOk, option_and_then, slice_get};
ghost use Rattle.std.specs.Option.{option_map};
ghost use Rattle.type_layout.specs.Layouts.{bounds_at, layout_at, offset_of};
ghost use Rattle.typed_tree.specs.Expressions.{view_expr, view_place, type_of};
ghost use Rattle.tp_meaning.specs.Programs.{Sort as TypeInTable, definition, beside, size_in, sort_in, key_of};
ghost use Rattle.tp_meaning.specs.Activations.{first_held};
ghost use Rattle.lower_places.specs.Sorts.{sort_of_number, held_sort_or, sort_of_variable, target_sort, element_sort, field_sort, sort_of_place};
ghost use Rattle.lower_places.specs.Scenes.{HeldPlace, view_sort, view_held, view_scene, sort_among, surroundings_in};
ghost use Rattle.lower_places.specs.Shapes.{shape_of, holds_class, index_bounds, slot_kind};

use crate::homes::type_of_variable;
use crate::scene::{FIRST_HELD, Held, Scene};
use crate::shapes::{bounds_at, class_at, field_type, holds_class, shape_of};
use crate::sizes::size_at;
use object_vmt::Classes;
use std::alloc::AllocError;
use type_layout::{Host, Kind, TypeDef, TypeId, Types, has_field, offset_of};
use typed_tree::{Expr, PlaceExpr, Routine, Variable};

/// How values of a type are stored.
#[derive(Clone, Copy, Debug, PartialEq, Eq)]
pub enum Shape {
    /// A number as the host stores it, with the bounds of its type.
    Number { host: Host, low: i32, high: i32 },
    /// A string with its greatest length.
    Text { max: u8 },
    /// So many bytes of a set of 32, from the one with this number on.
    Set { first: u16, bytes: u16 },
    /// A pointer or a procedural value.
    Far,
    /// A record, an array or an object, with the offset of its class.
    Whole { size: u16, class: Option<u16> },
}

/// A type, with the table that it stands in and its classes.
#[derive(Clone, Copy)]
pub enum Sort<'a> {
    /// The type of a string's bytes.
    Char,
    /// The type of OvrResult.
    Integer,
    Of {
        types: &'a Types,
        classes: &'a Classes,
        ty: TypeId,
    },
}

impl<'a> Sort<'a> {
    /// How values are stored.
    pub fn shape(&self) -> Result<Shape, AllocError>
        ensures { IfOk result (λ shape. shape_of (view_sort self.now).table.types (view_sort self.now).ty ≡ Some shape) }
    {
        match self {
            Sort::Char => Ok(Shape::Number {
                host: Host::Char,
                low: 0,
                high: 255,
            }),
            Sort::Integer => Ok(Shape::Number {
                host: Host::Integer,
                low: -32_768,
                high: 32_767,
            }),
            Sort::Of { types, ty, .. } => shape_of(types, *ty).ok_or(AllocError),
        }
    }

    /// The bytes of a value.
    pub fn size(&self) -> u32
        ensures { result ≡ size_in (view_sort self.now) }
    {
        match self {
            Sort::Char => 1,
            Sort::Integer => 2,
            Sort::Of { types, ty, .. } => size_at(types, *ty),
        }
    }

    /// The type itself.
    pub fn definition(&self) -> Result<&'a TypeDef, AllocError>
        ensures { IfOk result (λ one. definition (view_sort self.now) ≡ Some one.now) }
    {
        match self {
            Sort::Of { types, ty, .. } => {
                if ty.0 < types.count() {
                    Ok(types.get(*ty))
                } else {
                    Err(AllocError)
                }
            }
            Sort::Char | Sort::Integer => Err(AllocError),
        }
    }

    // A type of the same table.
    fn beside(&self, other: TypeId) -> Result<Sort<'a>, AllocError>
        ensures { IfOk result (λ sort. view_sort sort ≡ beside (view_sort self.now) other) }
    {
        match self {
            Sort::Char | Sort::Integer => Err(AllocError),
            Sort::Of { types, classes, .. } => Ok(Sort::Of {
                types: *types,
                classes: *classes,
                ty: other,
            }),
        }
    }

    fn bounds_of(&self, index: TypeId) -> Result<(i32, i32), AllocError>
        ensures { IfOk result (λ bounds. bounds ≡ bounds_at (view_sort self.now).table.types index) }
    {
        match self {
            Sort::Char | Sort::Integer => Err(AllocError),
            Sort::Of { types, .. } => Ok(bounds_at(types, index)),
        }
    }

    /// The lowest index, the greatest one, and the type of an element: of an array or a string.
    pub fn elements(&self) -> Result<(i32, i32, Sort<'a>), AllocError>
        ensures bounds { IfOk result (λ elements. index_bounds (view_sort self.now) ≡ Some (elements.0, elements.1)) }
        ensures element { IfOk result (λ elements. element_sort (view_sort self.now) ≡ Some (view_sort elements.2)) }
    {
        match self.definition()? {
            TypeDef::ArrayOf { index, element } => {
                let (low, high) = self.bounds_of(*index)?;
                Ok((low, high, self.beside(*element)?))
            }
            TypeDef::Str { max } => Ok((0, i32::from(*max), Sort::Char)),
            _ => Err(AllocError),
        }
    }

    /// Where a field lies in a record or an object, those of ancestors counted first.
    pub fn offset(&self, field: u32) -> Result<u16, AllocError>
        ensures { IfOk result (λ at. at ≡ offset_of (view_sort self.now).table.types (view_sort self.now).ty field) }
    {
        match self {
            Sort::Of { types, ty, .. } => {
                if ty.0 < types.count() && has_field(types, *ty, field) {
                    u16::try_from(offset_of(types, *ty, field)).map_err(|_| AllocError)
                } else {
                    Err(AllocError)
                }
            }
            Sort::Char | Sort::Integer => Err(AllocError),
        }
    }

    /// The type of a field of a record or an object.
    #[tactic(auto, using(crate::proofs::SortParts::field_found))]
    pub fn field(&self, number: u32) -> Result<Sort<'a>, AllocError>
        ensures { IfOk result (λ field. field_sort number (view_sort self.now) ≡ Some (view_sort field)) }
    {
        match self {
            Sort::Of { types, classes, ty } => match field_type(types, *ty, number) {
                Some(found) => Ok(Sort::Of {
                    types: *types,
                    classes: *classes,
                    ty: found,
                }),
                None => Err(AllocError),
            },
            Sort::Char | Sort::Integer => Err(AllocError),
        }
    }

    /// What a pointer type points to.
    pub fn target(&self) -> Result<Sort<'a>, AllocError>
        ensures { IfOk result (λ target. target_sort (view_sort self.now) ≡ Some (view_sort target)) }
    {
        match self.definition()? {
            TypeDef::PointerTo { target } => self.beside(*target),
            _ => Err(AllocError),
        }
    }

    /// Where an instance says its class, if it does.
    pub fn class_offset(&self) -> Option<u16>
        ensures { result ≡ (layout_at (view_sort self.now).table.types (view_sort self.now).ty).class_field }
    {
        match self {
            Sort::Char | Sort::Integer => None,
            Sort::Of { types, ty, .. } => class_at(types, *ty),
        }
    }

    /// Whether a value has the class of an instance in it.
    pub fn holds_class(&self) -> bool
        ensures { result ≡ holds_class (view_sort self.now).table.types (view_sort self.now).ty }
    {
        match self {
            Sort::Char | Sort::Integer => false,
            Sort::Of { types, ty, .. } => holds_class(types, *ty),
        }
    }

    /// The kind of the method that answers a virtual slot.
    #[tactic(auto, using(crate::proofs::SortParts::kind_found))]
    pub fn virtual_kind(&self, slot: u32) -> Result<Kind, AllocError>
        ensures { IfOk result (λ kind. slot_kind self.now slot ≡ Some kind) }
    {
        match self {
            Sort::Of { classes, ty, .. } => {
                if classes.has(*ty) && slot < classes.slots(*ty) {
                    Ok(classes.class(*ty).method_at(slot).header.kind)
                } else {
                    Err(AllocError)
                }
            }
            Sort::Char | Sort::Integer => Err(AllocError),
        }
    }
}

/// The type of an expression, if it has one.
pub fn type_of(expr: &Expr) -> Option<TypeId>
    ensures { result ≡ type_of (view_expr expr.now) }
{
    match expr {
        Expr::Const { ty, .. }
        | Expr::RoutineValue { ty, .. }
        | Expr::Load { ty, .. }
        | Expr::Unary { ty, .. }
        | Expr::Binary { ty, .. }
        | Expr::Convert { ty, .. }
        | Expr::Range { ty, .. }
        | Expr::SetOf { ty, .. }
        | Expr::Make { ty, .. } => Some(*ty),
        Expr::Call { ty, .. }
        | Expr::CallVirtual { ty, .. }
        | Expr::CallThrough { ty, .. }
        | Expr::Std { ty, .. } => *ty,
    }
}

impl<'a> Scene<'a> {
    /// A type of the unit's own table.
    pub fn sort(&self, ty: TypeId) -> Sort<'a>
        ensures { view_sort result ≡ sort_in self.now.unit.now ty }
    {
        Sort::Of {
            types: &self.unit.types,
            classes: self.classes,
            ty,
        }
    }

    /// How values of a type of the unit are stored.
    pub fn shape(&self, ty: TypeId) -> Result<Shape, AllocError>
        ensures { IfOk result (λ shape. shape_of self.now.unit.now.types.types ty ≡ Some shape) }
    {
        shape_of(&self.unit.types, ty).ok_or(AllocError)
    }

    /// How the value of an expression is stored.
    pub fn shape_of(&self, expr: &Expr) -> Result<Shape, AllocError>
        ensures { IfOk result (λ shape. option_and_then (shape_of self.now.unit.now.types.types) (type_of (view_expr expr.now)) ≡ Some shape) }
    {
        match type_of(expr) {
            Some(ty) => self.shape(ty),
            None => Err(AllocError),
        }
    }

    // The type of a global.
    #[tactic(auto, using(crate::proofs::SortParts::global_found, crate::proofs::SortParts::overlay_found))]
    fn global_sort(&self, variable: Variable) -> Result<Sort<'a>, AllocError>
        ensures { IfOk result (λ sort. option_and_then (sort_among self.now.globals.now) (key_of self.now.unit.now variable.unit variable.number) ≡ Some (view_sort sort)) }
    {
        if self.is_overlay(variable.unit) {
            return Ok(Sort::Integer);
        }
        let named = self.globals_of(variable.unit)?;
        match named.unit.globals.as_slice().get(variable.number as usize) {
            Some(global) => Ok(Sort::Of {
                types: &named.unit.types,
                classes: named.classes,
                ty: global.ty,
            }),
            None => Err(AllocError),
        }
    }

    /// The place that an open `with` holds, by the number of its variable.
    pub fn held(&self, number: u32) -> Result<&'a Held<'a>, AllocError>
        ensures value { IfOk result (λ held. slice_get self.now.withs.now (number - first_held) ≡ Some held.now) }
        ensures held { OnOk result (first_held ≤ number) }
    {
        if number < FIRST_HELD {
            return Err(AllocError);
        }
        match self.withs.get((number - FIRST_HELD) as usize) {
            Some(held) => Ok(held),
            None => Err(AllocError),
        }
    }

    #[tactic(auto, using(crate::proofs::SortParts::local_found))]
    fn local_sort(&self, number: u32, routine: &Routine) -> Result<Sort<'a>, AllocError>
        ensures { IfOk result (λ sort. sort_of_number (surroundings_in (view_scene self.now)) number routine.now ≡ Some (view_sort sort)) }
    {
        match type_of_variable(routine, number) {
            Some(ty) => Ok(self.sort(ty)),
            None => Err(AllocError),
        }
    }

    // The type of a variable of the routine itself, or of what an open `with` holds.
    fn inner_sort(&self, number: u32) -> Result<Sort<'a>, AllocError>
        ensures { IfOk result (λ sort. held_sort_or (surroundings_in (view_scene self.now)) number (sort_of_number (surroundings_in (view_scene self.now)) number self.now.routine.now) ≡ Some (view_sort sort)) }
    {
        if number < FIRST_HELD {
            self.local_sort(number, self.routine)
        } else {
            Ok(self.held(number)?.sort)
        }
    }

    // The type of a variable of the routine that so many static links lead to.
    fn outer_sort(&self, links: u32, number: u32) -> Result<Sort<'a>, AllocError>
        ensures { IfOk result (λ sort. option_and_then (sort_of_number (surroundings_in (view_scene self.now)) number) ((surroundings_in (view_scene self.now)).routines links) ≡ Some (view_sort sort)) }
    {
        let routine = self.routine_around(links)?;
        self.local_sort(number, routine)
    }

    /// The type of a variable.
    #[tactic(auto, using(crate::proofs::SortParts::global_level, crate::proofs::SortParts::inner_level, crate::proofs::SortParts::outer_level))]
    pub fn sort_of_variable(&self, variable: Variable) -> Result<Sort<'a>, AllocError>
        ensures { IfOk result (λ sort. sort_of_variable (surroundings_in (view_scene self.now)) variable ≡ Some (view_sort sort)) }
    {
        if variable.level == 0 {
            return self.global_sort(variable);
        }
        if variable.level == 1 {
            return self.inner_sort(variable.number);
        }
        self.outer_sort(variable.level - 1, variable.number)
    }

    /// What a pointer expression points to.
    pub fn target_of(&self, pointer: &Expr) -> Result<Sort<'a>, AllocError>
        ensures { IfOk result (λ target. option_and_then (λ ty. target_sort (sort_in self.now.unit.now ty)) (type_of (view_expr pointer.now)) ≡ Some (view_sort target)) }
    {
        match type_of(pointer) {
            Some(ty) => self.sort(ty).target(),
            None => Err(AllocError),
        }
    }

    /// The type of a place.
    pub fn sort_of_place(&self, place: &PlaceExpr) -> Result<Sort<'a>, AllocError>
        ensures { IfOk result (λ sort. sort_of_place (surroundings_in (view_scene self.now)) (view_place place.now) ≡ Some (view_sort sort)) }
    {
        match place {
            PlaceExpr::Var(variable) => self.sort_of_variable(*variable),
            PlaceExpr::Deref { pointer } => self.target_of(pointer),
            PlaceExpr::Index { place, .. } => {
                let (_, _, element) = self.sort_of_place(place)?.elements()?;
                Ok(element)
            }
            PlaceExpr::FieldOf { place, number } => self.sort_of_place(place)?.field(*number),
        }
    }
}
