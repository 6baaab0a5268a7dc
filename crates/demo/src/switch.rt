//! The script of a `switch`.
#![tactic(auto, using(ast_types::specs::Reading::shapes, rhai_base::specs::Reading::kinds, crate::proofs::Switches::made))]

ghost use Rattle.std.specs.Prelude.{◌≡◌, ◌∷◌, [], IfOk, map};
ghost use Rattle.ast_types.specs.Reading.{arms_of, case_of, expr_of, expressions_of, stmts_of, table_of};
ghost use Rattle.theory_meaning.specs.Tree.{IntegerConstant};
ghost use Rattle.demo.specs.Trees.{array, int};
ghost use Rattle.demo.specs.Statements as spec;

use crate::expressions::{array, both, certain, integer};
use crate::lines::alone;
use ast_make::call;
use indexmap::IndexMap;
use rhai_ast::{BinaryExpr, CaseBlocksList, Cases, Expr, Stmt, SwitchBlock, SwitchCasesCollection};
use rhai_base::{Boxed, Dynamic, INT, OutOfMemory, Position, Seq};
use std::alloc::Global;

/// The statement of `switch [1] { [1] if f() => 1, [1] => 2, _ => 3 }`.
pub fn switch_statements(alloc: Global) -> Result<Vec<Stmt>, OutOfMemory>
    ensures { IfOk result (λ statements. stmts_of statements.items ≡ spec.switch_statements) }
{
    let (cases, expr) = both(table(alloc)?, array_of_one(alloc))?;
    let switch = Boxed::new(alloc, SwitchBlock { expr, cases })?;
    alone(alloc, Stmt::Switch(switch, Position::NONE))
}

/// `[1]`
fn array_of_one(alloc: Global) -> Result<Expr, OutOfMemory>
    ensures { IfOk result (λ expr. expr_of expr ≡ array (int 1 ∷ [])) }
{
    array(alloc, Seq::from_array(alloc, [integer(1)])?)
}

fn table(alloc: Global) -> Result<SwitchCasesCollection, OutOfMemory>
    ensures arms { IfOk result (λ table. arms_of (expressions_of table) ≡ spec.switch_arms) }
    ensures table { IfOk result (λ table. table_of table ≡ spec.switch_table) }
{
    let (expressions, cases) = both(arms(alloc)?, cases(alloc))?;
    Ok(SwitchCasesCollection {
        expressions,
        cases,
        ranges: Seq::new(alloc),
        def_case: Some(2),
    })
}

/// `[1]` with the first two arms.
fn cases(alloc: Global) -> Result<Cases, OutOfMemory>
    ensures { IfOk result (λ cases. map case_of cases ≡ spec.switch_cases) }
{
    let key = Dynamic::Array(Seq::from_array(alloc, [Dynamic::Int(1)])?);
    let (key, blocks) = both(key, Seq::from_array(alloc, [0, 1]))?;
    let mut cases = IndexMap::new(alloc);
    cases.insert(key, CaseBlocksList { blocks })?;
    Ok(Cases::from_map(cases))
}

/// Arms with the answers 1, 2 and 3; the first one asks `f()`.
fn arms(alloc: Global) -> Result<Seq<BinaryExpr>, OutOfMemory>
    ensures { IfOk result (λ arms. arms_of arms ≡ spec.switch_arms) }
{
    let asked = call(alloc, "f", Seq::new(alloc), Position::NONE)?;
    let arms = [arm(asked, 1), arm(certain(), 2), arm(certain(), 3)];
    Ok(Seq::from_array(alloc, arms)?)
}

fn arm(lhs: Expr, answer: INT) -> BinaryExpr
    ensures condition { result.lhs ≡ lhs }
    ensures answer { expr_of result.rhs ≡ IntegerConstant answer }
{
    BinaryExpr {
        lhs,
        rhs: integer(answer),
    }
}
