//! Makes a tree by hand with a `switch` in a `for`, looks for faults, and prints it before and after it is optimised.
#![tactic(auto)]

use rhai_lang::{
    AST, BinaryExpr, Boxed, CaseBlocksList, Cases, Dynamic, EngineInfo, Expr, FlowControl, FnLib,
    IndexMap, OptimizationLevel, OutOfMemory, Position, RangeCase, Refusal, Seq, Stmt, StmtBlock,
    SwitchBlock, SwitchCasesCollection, Token, check_tree, make, optimize_ast, push_script,
    push_source,
};
use std::alloc::Global;
use std::fmt::Write;
use std::io;
use std::rc::Rc;

/// Where a node stands that was not read from a text.
const NOWHERE: Position = Position::NONE;

/// An arm that prints this, without a condition.
fn arm(alloc: Global, printed: Expr) -> Result<BinaryExpr, OutOfMemory> {
    let args = Seq::from_array(alloc, [printed])?;
    Ok(BinaryExpr {
        lhs: Expr::BoolConstant(true, NOWHERE),
        rhs: make::call(alloc, "print", args, NOWHERE)?,
    })
}

/// The arms `print("one")`, `print(number)` and `print("many")`.
fn arms(alloc: Global) -> Result<Seq<BinaryExpr>, OutOfMemory> {
    let one = arm(alloc, make::text(alloc, "one", NOWHERE)?)?;
    let number = arm(alloc, make::variable(alloc, "number", NOWHERE)?)?;
    let many = arm(alloc, make::text(alloc, "many", NOWHERE)?)?;
    Ok(Seq::from_array(alloc, [one, number, many])?)
}

/// The table `{ 1 => print("one"), 2..100 => print(number), _ => print("many") }`, if the default is the arm 2.
fn table(alloc: Global, default: usize) -> Result<SwitchCasesCollection, OutOfMemory> {
    let mut cases = IndexMap::new(alloc);
    let blocks = Seq::from_array(alloc, [0])?; // the first arm
    cases.insert(Dynamic::Int(1), CaseBlocksList { blocks })?;
    let mut range = RangeCase::from(2..100);
    range.set_index(1); // the second arm
    Ok(SwitchCasesCollection {
        expressions: arms(alloc)?,
        cases: Cases::from_map(cases),
        ranges: Seq::from_array(alloc, [range])?,
        def_case: Some(default),
    })
}

/// `switch 3 + 4 { .. }` with that table, as if it stood in line 2 of a text.
fn choice(alloc: Global, default: usize) -> Result<Stmt, OutOfMemory> {
    let (three, four) = (make::integer(3, NOWHERE), make::integer(4, NOWHERE));
    let expr = make::operator(alloc, Token::Plus, three, four, NOWHERE)?;
    let cases = table(alloc, default)?;
    let block = Boxed::new(alloc, SwitchBlock { expr, cases })?;
    Ok(Stmt::Switch(block, Position::new(2, 5)))
}

/// `for number in [1, 2] { switch 3 + 4 { .. } }`
fn counting(alloc: Global, default: usize) -> Result<Stmt, OutOfMemory> {
    let items = [make::integer(1, NOWHERE), make::integer(2, NOWHERE)];
    let flow = FlowControl {
        expr: make::array(alloc, Seq::from_array(alloc, items)?, NOWHERE)?,
        body: StmtBlock::new(vec![in alloc; choice(alloc, default)?]?, NOWHERE, NOWHERE),
        branch: StmtBlock::none(alloc), // a loop has one block
    };
    let name = make::ident(alloc, "number", NOWHERE)?;
    let parts = Boxed::new(alloc, (name, None, flow))?; // no counter
    Ok(Stmt::For(parts, Position::new(1, 1)))
}

/// The script of the loop alone, without functions.
fn script(alloc: Global, default: usize) -> Result<AST, OutOfMemory> {
    let statements = vec![in alloc; counting(alloc, default)?]?;
    let functions = Rc::new(alloc, FnLib::new(alloc))?;
    Ok(AST::new(statements, functions))
}

/// Appends the first fault of a script.
fn push_fault(alloc: Global, script: &AST, text: &mut String) -> Result<(), OutOfMemory> {
    match check_tree(alloc, script.statements(), &[]) {
        Ok(()) => writeln!(text, "fault: none")?,
        Err(error) => writeln!(text, "fault: {error}")?,
    }
    Ok(())
}

/// Appends a script in rhai's own syntax, and in the notation of trees.
fn push_both(script: &AST, text: &mut String) -> Result<(), Refusal> {
    push_source(script, text)?;
    push_script(script, text)?;
    Ok(())
}

/// What is said of the tree.
fn told(alloc: Global) -> Result<String, Refusal> {
    let mut text = String::new(alloc);
    push_fault(alloc, &script(alloc, 3)?, &mut text)?; // there is no arm 3
    let written = script(alloc, 2)?;
    push_fault(alloc, &written, &mut text)?;
    push_both(&written, &mut text)?;
    text.push_str("becomes\n")?;
    let info = EngineInfo::new(alloc); // overrides no operator
    let optimized = optimize_ast(alloc, &info, None, written, OptimizationLevel::Simple)?;
    push_both(&optimized, &mut text)?;
    Ok(text)
}

/// Prints what is said of the tree, or why there is no text of it.
fn main(rt: HostRuntime) -> io::Result<()> {
    match told(rt.alloc()) {
        Ok(text) => rt.print(text.as_str()),
        Err(refusal) => println!(rt; "{refusal}"),
    }
}
