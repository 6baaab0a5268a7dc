//! A question to every node of a tree.

#![tactic(auto, using(ast_types::specs::Reading::shapes, crate::proofs::EveryNode::bodies))]

ghost use Rattle.std.specs.Prelude.{◌≡◌, Bool, map};
ghost use Rattle.theory_meaning.specs.Plain.{all_true};
ghost use Rattle.theory_meaning.specs.Walk.{Node, over_functions, over_stmts};
ghost use Rattle.ast_types.specs.Reading.{function_of, stmts_of};
ghost use Rattle.rhai_ast.specs.Children.{over_children, over_parts};
ghost use Rattle.rhai_ast.specs.Left.{left_of};
ghost use Rattle.rhai_ast.specs.Nodes.{node_of};

use crate::walker::children::Children;
use crate::walker::node::ASTNode;
use ast_types::{ScriptFuncDef, Stmt};
use std::rc::Rc;

/// A question to one node, what is below it not looked at.
pub trait NodeTest {
    /// What a test answers.
    ghost holds: { Self → Node → Bool };

    /// Does it hold at a node?
    fn holds_at(&self, node: ASTNode) -> bool
        ensures { result ≡ holds self.now (node_of node.entry) };
}

/// Does a test hold at every node of functions' bodies?
pub fn every_body<T: NodeTest>(test: &T, functions: &[Rc<ScriptFuncDef>]) -> bool
    ensures { result ≡ over_functions (all_true (T.holds test.now)) (map (λ f. function_of f.value) functions.now) }
{
    for function in functions {
        if !every_statement(test, function.body.statements()) {
            return false;
        }
    }
    true
}

/// Does it hold at every node of statements?
pub fn every_statement<T: NodeTest>(test: &T, statements: &[Stmt]) -> bool
    ensures { result ≡ over_stmts (all_true (T.holds test.now)) (stmts_of statements.now) }
{
    every_child(test, Children::of_statements(statements))
}

/// Does it hold at children, and at every node below them?
#[cycle(every)]
fn every_child<T: NodeTest>(test: &T, children: Children) -> bool
    ensures { result ≡ over_children (all_true (T.holds test.now)) (left_of children.entry) }
{
    for child in children {
        if !test.holds_at(child.node) || !every_below(test, child.node) {
            return false;
        }
    }
    true
}

/// Does it hold at every node below one?
#[cycle(every)]
pub fn every_below<T: NodeTest>(test: &T, node: ASTNode) -> bool
    ensures { result ≡ over_parts (all_true (T.holds test.now)) (node_of node.entry) }
{
    let children = Children::of(node);
    if children.are_of_leaf() {
        true
    } else {
        every_child(test, children)
    }
}
