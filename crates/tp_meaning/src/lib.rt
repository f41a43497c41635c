//! What a program means.
#![tactic(auto)]

pub mod operator_laws;

ghost use Rattle.std.specs.Prelude.{ℕ, List};
ghost use Rattle.common_values.specs.behaviour.Seen.{IsRun};
ghost use Rattle.typed_tree.specs.declared.units.Program.{Program};
ghost use Rattle.common_values.specs.declared.ordinals.IntegerType.{IntegerType};
ghost use Rattle.type_layout.specs.declared.definitions.Host.{Host};
ghost use Rattle.type_layout.specs.declared.definitions.TypeId.{TypeId};
ghost use Rattle.typed_tree.specs.declared.expressions.Variable.{Variable};
ghost use Rattle.typed_tree.specs.Statements.{Statement};
ghost use Rattle.tp_meaning.specs.Store.{Store};
ghost use Rattle.tp_meaning.specs.Activations.{Activation, Reached};
ghost use Rattle.tp_meaning.specs.ForLaws.{IsCounter, LeavesAlone, ForLaws};
ghost use Rattle.tp_meaning.specs.Programs.{Sort};
ghost use Rattle.tp_meaning.specs.Meaning.{mean};
ghost use Rattle.tp_meaning.specs.Laws.{RunLaws, StoreLaws, TextLaws, HeapLaws, WholeNumberLaws};
ghost use Rattle.tp_meaning.specs.ShownStatements.{StatementExamples};
ghost use Rattle.tp_meaning.specs.ShownParts.{PartExamples};
ghost use Rattle.tp_meaning.specs.ShownCalls.{Boxed, CallExamples};

/// The laws of the meaning: greater numbers of turns change nothing of a run that is over and only add to what was
/// written; the meaning solves its equations; how the store, texts, the heap and numbers behave; how often a `for` turns
/// whose body leaves the loop alone; and what small programs show. It does nothing.
pub fn meaning_laws()
    ensures runs { (program : Program) (input : List ℕ) → IsRun (mean program input) }
    ensures steps { (program : Program) → RunLaws program }
    ensures store { (store : Store) → StoreLaws store }
    ensures texts { TextLaws }
    ensures heap { (program : Program) (sort : Sort) (store : Store) → HeapLaws program sort store }
    ensures numbers { (t : IntegerType) → WholeNumberLaws t }
    ensures for_loops { (program : Program) (f : Activation) (variable : Variable) (ty : TypeId) (body : Statement) (at : Reached) (host : Host) → IsCounter program f variable at host → LeavesAlone program f at body → ForLaws program f variable ty body at host }
    ensures statements { StatementExamples }
    ensures parts { PartExamples }
    ensures calls { (b : Boxed) → CallExamples b }
{}
