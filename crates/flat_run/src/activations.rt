//! Statements and calls, which run one another.

ghost use Rattle.std.specs.Prelude.{◌≡◌, ◌+◌, ◌*◌, ◌^◌, ◌<◌, length};
ghost use Rattle.flat_code.specs.Tree.{Call, CallThrough, Runtime, End, Do, If, Loop};
ghost use Rattle.flat_code.specs.Meaning.{run, called, activated};
ghost use Rattle.flat_code.specs.View.{view_expr, view_exprs, view_stmt, view_list};
ghost use Rattle.flat_code.specs.Plain.{view_unit, view_routine};
ghost use Rattle.flat_run.specs.Views.{view_frame, view_callee};
ghost use Rattle.flat_run.specs.Running.{view_program, view_choice, view_run, Flows, Passes};

use crate::calls::{activation_bytes, frame_of};
use crate::context::Interpreter;
use crate::program::{Callee, routine_of, runtime_callee, unit_of};
use crate::state::{Flow, Run, Stop};
use crate::statements::{around, then_next};
use crate::value::{Activation, value_of};
use flat_code::{Address, FlatExpr, FlatResult, FlatRoutine, FlatStmt, FlatUnit};
use type_layout::RoutineId;

impl Interpreter<'_> {
    /// Runs statements in order.
    #[cycle(run)]
    pub fn run_list(&self, state: &mut Run, f: &Activation, list: &[FlatStmt]) -> Result<Flow, Stop>
        ensures { Flows result (view_run state.new) (run (view_program self.now) (view_choice self.now) (view_list list.now) (view_frame f.now) (view_run state.old)) }
    {
        'statements: for statement in list {
            let flow = self.run_statement(state, f, statement)?;
            match flow {
                Flow::Next => {}
                Flow::Left(loops) => return Ok(Flow::Left(loops)),
                Flow::Returned => return Ok(Flow::Returned),
            }
        }
        Ok(Flow::Next)
    }

    #[cycle(run)]
    fn run_statement(
        &self,
        state: &mut Run,
        f: &Activation,
        statement: &FlatStmt,
    ) -> Result<Flow, Stop>
        ensures { Flows result (view_run state.new) (run (view_program self.now) (view_choice self.now) (view_stmt statement.now End) (view_frame f.now) (view_run state.old)) }
    {
        match statement {
            FlatStmt::StoreByte { to, value } => self.store_byte(state, f, *to, value),
            FlatStmt::StoreWord { to, value } => self.store_word(state, f, *to, value),
            FlatStmt::Copy { to, from, bytes } => self.copy(state, f, *to, *from, *bytes),
            FlatStmt::If { test, yes, no } => self.choose(
                state,
                f,
                test,
                yes.as_slice(),
                no.as_slice(),
            ),
            FlatStmt::Loop(body) => self.repeat(state, f, body.as_slice()),
            FlatStmt::Leave { loops } => self.leave(state, f, *loops),
            FlatStmt::Call {
                routine,
                args,
                result: wanted,
            } => self.call_routine(state, f, *routine, args.as_slice(), *wanted),
            FlatStmt::CallThrough {
                pointer,
                args,
                result: wanted,
            } => self.call_through(state, f, *pointer, args.as_slice(), *wanted),
            FlatStmt::Runtime {
                number,
                args,
                result: wanted,
            } => self.call_runtime(state, f, *number, args.as_slice(), *wanted),
            FlatStmt::StoreRoutine { to, routine } => self.store_routine(state, f, *to, *routine),
            FlatStmt::Return => self.return_from(state, f),
            FlatStmt::Error(code) => self.stop(state, f, *code),
        }
    }

    #[cycle(run)]
    fn choose(
        &self,
        state: &mut Run,
        f: &Activation,
        test: &FlatExpr,
        yes: &[FlatStmt],
        no: &[FlatStmt],
    ) -> Result<Flow, Stop>
        ensures { Flows result (view_run state.new) (run (view_program self.now) (view_choice self.now) (If (view_expr test.now) (view_list yes.now) (view_list no.now) End) (view_frame f.now) (view_run state.old)) }
    {
        state.begin(1)?;
        state.begin_expr(test)?;
        let value = value_of(self.units, f, &state.memory, test)?;
        if value == 0 {
            return self.run_list(state, f, no);
        }
        self.run_list(state, f, yes)
    }

    #[cycle(run)]
    fn repeat(&self, state: &mut Run, f: &Activation, body: &[FlatStmt]) -> Result<Flow, Stop>
        ensures { Flows result (view_run state.new) (run (view_program self.now) (view_choice self.now) (Loop (view_list body.now) End) (view_frame f.now) (view_run state.old)) }
    {
        'rounds: loop {
            state.begin(1)?;
            state.spend()?;
            state.begin(1)?;
            let flow = self.run_list(state, f, body)?;
            match around(flow) {
                None => {}
                Some(flow) => return Ok(flow),
            }
        }
    }

    #[cycle(run)]
    fn call_routine(
        &self,
        state: &mut Run,
        f: &Activation,
        routine: RoutineId,
        args: &[FlatExpr],
        wanted: Option<FlatResult>,
    ) -> Result<Flow, Stop>
        ensures { Flows result (view_run state.new) (run (view_program self.now) (view_choice self.now) (Do (Call routine.unit routine.number (view_exprs args.now) wanted) End) (view_frame f.now) (view_run state.old)) }
    {
        let values = self.prepare(state, f, args)?;
        let callee = self.callee_named(state, f, routine)?;
        then_next(self.call(state, f, callee, values.as_slice(), wanted))
    }

    #[cycle(run)]
    fn call_through(
        &self,
        state: &mut Run,
        f: &Activation,
        pointer: Address,
        args: &[FlatExpr],
        wanted: Option<FlatResult>,
    ) -> Result<Flow, Stop>
        ensures { Flows result (view_run state.new) (run (view_program self.now) (view_choice self.now) (Do (CallThrough pointer (view_exprs args.now) wanted) End) (view_frame f.now) (view_run state.old)) }
    {
        let values = self.prepare(state, f, args)?;
        let callee = self.callee_at(state, f, pointer)?;
        then_next(self.call(state, f, callee, values.as_slice(), wanted))
    }

    #[cycle(run)]
    fn call_runtime(
        &self,
        state: &mut Run,
        f: &Activation,
        number: u16,
        args: &[FlatExpr],
        wanted: Option<FlatResult>,
    ) -> Result<Flow, Stop>
        ensures { Flows result (view_run state.new) (run (view_program self.now) (view_choice self.now) (Do (Runtime number (view_exprs args.now) wanted) End) (view_frame f.now) (view_run state.old)) }
    {
        let values = self.prepare(state, f, args)?;
        if number < 5 {
            return then_next(self.act(state, f, number, values.as_slice(), wanted));
        }
        let callee = runtime_callee(number);
        then_next(self.call(state, f, callee, values.as_slice(), wanted))
    }

    /// Calls a routine, with the values of its arguments.
    #[cycle(run)]
    pub fn call(
        &self,
        state: &mut Run,
        f: &Activation,
        callee: Callee,
        args: &[u16],
        wanted: Option<FlatResult>,
    ) -> Result<(), Stop>
        ensures { Passes result (view_run state.new) (called (view_program self.now) (view_choice self.now) (run (view_program self.now) (view_choice self.now)) args.now wanted (view_frame f.now) (view_run state.old) (view_callee callee.entry)) }
    {
        let Some(unit) = unit_of(0, self.units, callee.name) else {
            return Err(Stop::Undefined(1));
        };
        let Some(routine) = routine_of(unit, callee.number) else {
            return Err(Stop::Undefined(1));
        };
        self.admit(state, f, callee.name, routine, args)?;
        self.activate(state, f, callee.name, unit, routine, args, wanted)
    }

    #[cycle(run)]
    fn activate(
        &self,
        state: &mut Run,
        f: &Activation,
        name: &[u8],
        unit: &FlatUnit,
        routine: &FlatRoutine,
        args: &[u16],
        wanted: Option<FlatResult>,
    ) -> Result<(), Stop>
        requires fits { 2 * length args.now ≡ routine.now.arguments }
        requires sum { f.now.sum + routine.now.frame < 2 ^ 32 }
        ensures { Passes result (view_run state.new) (activated (view_choice self.now) (run (view_program self.now) (view_choice self.now)) name.now (view_unit unit.now) (view_routine routine.now) args.now wanted (view_frame f.now) (view_run state.old)) }
    {
        if u64::from(f.sp) < activation_bytes(routine) {
            return Err(Stop::Undefined(2));
        }
        let g = frame_of(name, unit, routine, f);
        self.open(state, f, routine, args);
        let _flow = self.run_list(state, &g, routine.body.as_slice())?;
        self.close(state, f, &g, routine, wanted)
    }
}
