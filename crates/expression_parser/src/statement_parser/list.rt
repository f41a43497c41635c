//! Statements, arms and labels as they are read.

ghost use Rattle.std.specs.Prelude.{◌≡◌, ◌++◌, IfErr, OnOk, List, [], ◌∷◌};
ghost use Rattle.pascal_grammar.specs.Productions.{compound, repeat_statement, case_statement, case_else, no_statements};
ghost use Rattle.syntax_tree.specs.Expressions.{of, word, mark_at, of_expression};
ghost use Rattle.syntax_tree.specs.Statements.{of_statement, statements_of, compound_of, of_case_else, first_of, others_of, arms_end, of_arm, arm_of};
ghost use Rattle.expression_parser.specs.declared.error.ReadError.TheVariants.{NoMemory};

use crate::ReadError;
use pascal_grammar::Position;
use std::alloc::Global;
use syntax_tree::{CaseArm, CaseElse, CaseLabel, CompoundStatement, Expression, Statement};

/// The statements of a list, so far.
#[derive(Drop)]
pub struct Statements {
    pub items: Vec<Statement>,
}

/// The arms of a `case`, so far.
#[derive(Drop)]
pub struct Arms {
    pub items: Vec<CaseArm>,
}

/// The labels of an arm, so far.
#[derive(Drop)]
pub struct Labels {
    pub items: Vec<CaseLabel>,
}

impl Statements {
    pub fn new(alloc: Global) -> Statements
        ensures { result.items.items ≡ [] }
    {
        Statements {
            items: Vec::new(alloc),
        }
    }

    pub fn push(&mut self, statement: Statement) -> Result<(), ReadError>
        ensures ok { OnOk result (self.new.items.items ≡ self.old.items.items ++ (statement ∷ [])) }
        ensures err { IfErr result (λ e. e ≡ NoMemory) }
    {
        self.items.push(statement)?;
        Ok(())
    }

    /// The compound statement of these.
    pub fn into_compound(self, position: Position) -> CompoundStatement
        ensures { compound_of result ≡ of compound (mark_at position ∷ statements_of self.items.items (of no_statements []) ∷ word ∷ []) }
    {
        CompoundStatement {
            position,
            statements: self.items,
        }
    }

    /// The `repeat` of these, until the condition holds.
    pub fn into_repeat(self, position: Position, condition: Expression) -> Statement
        ensures { of_statement result ≡ of repeat_statement (mark_at position ∷ statements_of self.items.items (of no_statements []) ∷ word ∷ of_expression condition ∷ []) }
    {
        Statement::Repeat {
            position,
            statements: self.items,
            condition,
        }
    }

    /// These, where no label of a `case` is met.
    #[tactic(auto, using(crate::proofs::statement_parser::Rows::case_else_is))]
    pub fn into_else(self) -> CaseElse
        ensures { of_case_else result ≡ of case_else (word ∷ statements_of self.items.items (of no_statements []) ∷ []) }
    {
        CaseElse::Present(self.items)
    }
}

impl Arms {
    pub fn new(alloc: Global) -> Arms
        ensures { result.items.items ≡ [] }
    {
        Arms {
            items: Vec::new(alloc),
        }
    }

    pub fn push(&mut self, arm: CaseArm) -> Result<(), ReadError>
        ensures ok { OnOk result (self.new.items.items ≡ self.old.items.items ++ (arm ∷ [])) }
        ensures err { IfErr result (λ e. e ≡ NoMemory) }
    {
        self.items.push(arm)?;
        Ok(())
    }

    /// The `case` with these arms.
    pub fn into_case(
        self,
        position: Position,
        selector: Expression,
        semicolon: bool,
        otherwise: CaseElse,
    ) -> Statement
        ensures { of_statement result ≡ of case_statement (mark_at position ∷ of_expression selector ∷ word ∷ first_of self.items.items ∷ others_of self.items.items (arms_end semicolon) ∷ of_case_else otherwise ∷ word ∷ []) }
    {
        Statement::Case {
            position,
            selector,
            arms: self.items,
            semicolon,
            otherwise,
        }
    }
}

impl Labels {
    pub fn new(alloc: Global) -> Labels
        ensures { result.items.items ≡ [] }
    {
        Labels {
            items: Vec::new(alloc),
        }
    }

    pub fn push(&mut self, label: CaseLabel) -> Result<(), ReadError>
        ensures ok { OnOk result (self.new.items.items ≡ self.old.items.items ++ (label ∷ [])) }
        ensures err { IfErr result (λ e. e ≡ NoMemory) }
    {
        self.items.push(label)?;
        Ok(())
    }

    /// The arm with these labels.
    pub fn into_arm(self, body: Statement) -> CaseArm
        ensures { of_arm result ≡ arm_of self.items.items (of_statement body) }
    {
        CaseArm::Arm {
            labels: self.items,
            body,
        }
    }
}
