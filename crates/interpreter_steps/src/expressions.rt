//! Steps of expressions that run no others.

ghost use Rattle.std.specs.Prelude.{◌≡◌, IfOk, map};
ghost use Rattle.std.specs.Option.{option_map, option_copied};
ghost use Rattle.typed_tree.specs.type_fits.Fits.{stored_as};
ghost use Rattle.typed_tree.specs.Expressions.{view_expr, type_of};
ghost use Rattle.tp_meaning.specs.Outcomes.{State, looked, found};
ghost use Rattle.tp_meaning.specs.Programs.{sort_in};
ghost use Rattle.tp_meaning.specs.Operators.{unary, binary, converted, ranged, element_of, spanned};
ghost use Rattle.tp_meaning.specs.Expressions.{constant_value, sort_of, storage};
ghost use Rattle.interpreter_store.specs.cell_store.Views.{view_value};
ghost use Rattle.interpreter_store.specs.typed_cells.Sorts.{view_sort};
ghost use Rattle.interpreter_effects.specs.activations.Views.{view_activation};
ghost use Rattle.interpreter_effects.specs.standard_effects.Operands.{view_operand};
ghost use Rattle.interpreter_steps.specs.Running.{view_run, program_of, Comes};
ghost use Rattle.interpreter_steps.specs.Places.{code_of, performed, block_for};

use crate::state::{Interpreter, Over, Run};
use interpreter_effects::activations::Activation;
use interpreter_effects::program_names::routine_key;
use interpreter_effects::standard_effects::{
    Operand, make, perform, standard_of, stored_as, target,
};
use interpreter_store::cell_store::Value;
use interpreter_store::typed_cells::Sort;
use interpreter_store::value_operators::{binary, converted, element_of, ranged, spanned, unary};
use std::alloc::{AllocError, Global};
use type_layout::{Host, RoutineId, TypeId};
use typed_tree::{BinaryOp, Expr, UnaryOp, Value as Constant};

/// The value of a constant.
pub fn constant_value(alloc: Global, constant: &Constant) -> Result<Value, AllocError>
    ensures { IfOk result (λ value. view_value value ≡ constant_value constant.now) }
{
    match constant {
        Constant::Number(z) => Ok(Value::Ordinal(*z)),
        Constant::Chars(bytes) => Ok(Value::Text(bytes.copied(alloc)?)),
        Constant::Nil => Ok(Value::Nil),
        Constant::Elements(elements) => Ok(Value::Elements(elements.copied(alloc)?)),
    }
}

// The type that an expression says it has; the call of a procedure has none.
fn type_of(e: &Expr) -> Option<TypeId>
    ensures { result ≡ type_of (view_expr e.now) }
{
    match e {
        Expr::Const { ty, .. } => Some(*ty),
        Expr::RoutineValue { ty, .. } => Some(*ty),
        Expr::Load { ty, .. } => Some(*ty),
        Expr::Unary { ty, .. } => Some(*ty),
        Expr::Binary { ty, .. } => Some(*ty),
        Expr::Convert { ty, .. } => Some(*ty),
        Expr::Range { ty, .. } => Some(*ty),
        Expr::SetOf { ty, .. } => Some(*ty),
        Expr::Make { ty, .. } => Some(*ty),
        Expr::Call { ty, .. } => *ty,
        Expr::CallVirtual { ty, .. } => *ty,
        Expr::CallThrough { ty, .. } => *ty,
        Expr::Std { ty, .. } => *ty,
    }
}

// A type of the unit that runs.
pub(crate) fn sort_in<'a>(f: &Activation<'a>, ty: TypeId) -> Sort<'a>
    ensures { view_sort result ≡ sort_in f.now.unit.now ty }
{
    Sort::Of {
        types: &f.unit.types,
        ty,
    }
}

/// The type that an expression has in its unit.
pub fn sort_of<'a>(f: &Activation<'a>, e: &Expr) -> Result<Sort<'a>, Over>
    ensures { (s : State) → Comes view_sort result s (sort_of (view_activation f.now) (view_expr e.now) s) }
{
    match type_of(e) {
        None => Err(Over::Stuck),
        Some(ty) => Ok(sort_in(f, ty)),
    }
}

// The type of a result, if there is one.
fn result_sort<'a>(f: &Activation<'a>, ty: Option<TypeId>) -> Option<Sort<'a>>
    ensures { option_map view_sort result ≡ option_map (sort_in f.now.unit.now) ty }
{
    match ty {
        None => None,
        Some(ty) => Some(sort_in(f, ty)),
    }
}

// What a variable of a type of the unit stores its values as.
fn stored_in(f: &Activation, ty: TypeId) -> Option<Host>
    ensures { result ≡ stored_as (storage (view_activation f.now) ty) }
{
    let sort = sort_in(f, ty);
    stored_as(sort.definition())
}

/// A routine of the unit as a value.
pub fn routine_value(f: &Activation, routine: RoutineId) -> Result<Value, Over>
    ensures { (s : State) → Comes view_value result s (code_of (view_activation f.now) routine s) }
{
    match routine_key(f.unit, routine) {
        None => Err(Over::Stuck),
        Some(key) => Ok(Value::Code(key)),
    }
}

/// The number of an element of a set.
pub fn element_number(value: &Value) -> Result<u8, Over>
    ensures { (s : State) → Comes (λ element. element) result s (found (element_of (view_value value.now)) s) }
{
    Ok(element_of(value)?)
}

/// The set with the elements from one number to another.
pub fn set_spanned(alloc: Global, set: Vec<u8>, low: &Value, high: &Value) -> Result<Vec<u8>, Over>
    ensures { (s : State) → Comes (λ more. more.items) result s (found (spanned set.items (view_value low.now) (view_value high.now)) s) }
{
    Ok(spanned(alloc, set, low, high)?)
}

/// A value that must lie between bounds.
pub fn value_within(operand: &Value, low: i32, high: i32) -> Result<Value, Over>
    ensures { (s : State) → Comes view_value result s (found (ranged low high (view_value operand.now)) s) }
{
    Ok(ranged(low, high, operand)?)
}

/// An operator with one operand.
pub fn unary_value(f: &Activation, ty: TypeId, op: UnaryOp, operand: &Value) -> Result<Value, Over>
    ensures { (s : State) → Comes view_value result s (found (unary op (stored_as (storage (view_activation f.now) ty)) (view_value operand.now)) s) }
{
    Ok(unary(op, stored_in(f, ty), operand)?)
}

impl<'a> Interpreter<'a> {
    /// An operator with two operands.
    pub fn binary_value(
        &self,
        run: &Run,
        f: &Activation,
        ty: TypeId,
        op: BinaryOp,
        left: &Value,
        right: &Value,
    ) -> Result<Value, Over>
        ensures { let s = view_run run.now in Comes view_value result s (looked (binary op (stored_as (storage (view_activation f.now) ty)) (view_value left.now) (view_value right.now)) s) }
    {
        let stored = stored_in(f, ty);
        Ok(binary(self.alloc, op, stored, left, right, &run.store)?)
    }

    /// A conversion to a type of the unit.
    pub fn converted_value(
        &self,
        f: &Activation,
        ty: TypeId,
        operand: &Value,
    ) -> Result<Value, Over>
        ensures { (s : State) → Comes view_value result s (found (converted (storage (view_activation f.now) ty) (view_value operand.now)) s) }
    {
        let sort = sort_in(f, ty);
        Ok(converted(self.alloc, sort.definition(), operand)?)
    }

    /// What a standard routine gives, with a result of this type, if it has one.
    pub fn standard_value(
        &self,
        run: &mut Run,
        f: &Activation<'a>,
        ty: Option<TypeId>,
        number: u32,
        args: &[Operand<'a>],
    ) -> Result<Value, Over>
        ensures { Comes view_value result (view_run run.new) (performed (program_of self.now) (view_activation f.now) ty number (map view_operand args.now) (view_run run.old)) }
    {
        let Some(one) = standard_of(number) else {
            return Err(Over::Stuck);
        };
        let sort = result_sort(f, ty);
        Ok(perform(
            self.alloc,
            self.sources.program,
            one,
            sort.as_ref(),
            args,
            run.input,
            &mut run.store,
        )?)
    }

    /// A new block for what a pointer type of the unit points to: its serial number, and its type.
    pub fn block_for(
        &self,
        run: &mut Run,
        f: &Activation<'a>,
        ty: TypeId,
    ) -> Result<(usize, Sort<'a>), Over>
        ensures { Comes (λ made. (made.0, view_sort made.1)) result (view_run run.new) (block_for (program_of self.now) (view_activation f.now) ty (view_run run.old)) }
    {
        let pointer = sort_in(f, ty);
        let sort = target(&pointer)?;
        let serial = run.store.next_serial();
        make(self.alloc, self.sources.program, &sort, &mut run.store)?;
        Ok((serial, sort))
    }
}
