//! What statements call, and how deep they nest.

use rhai_ast::{ASTNode, Children, Expr, FnCallExpr, Stmt};
use rhai_base::OutOfMemory;
use std::alloc::Global;
use std::collections::BTreeMap;

/// Names, each once.
#[derive(Drop)]
pub(crate) struct Names {
    alloc: Global,
    names: BTreeMap<String, ()>,
}

impl Names {
    /// None.
    pub(crate) fn new(alloc: Global) -> Names {
        Names {
            alloc,
            names: BTreeMap::new(alloc),
        }
    }

    /// Adds a name.
    pub(crate) fn add(&mut self, name: &str) -> Result<(), OutOfMemory> {
        let name = String::from_str(self.alloc, name)?;
        self.names.insert(name, ())?;
        Ok(())
    }

    /// Whether one of them is among others.
    fn any_among(&self, others: &Names) -> bool {
        for name in self.names.keys() {
            if others.names.contains_key(name.as_str()) {
                return true;
            }
        }
        false
    }
}

/// What statements reach.
#[derive(Drop)]
pub(crate) struct Reach {
    called: Names,
    depth: u64,
    depth_of_calls: u64,
}

impl Reach {
    /// What these statements reach.
    pub(crate) fn of(alloc: Global, statements: &[Stmt]) -> Result<Reach, OutOfMemory> {
        let mut reach = Reach {
            called: Names::new(alloc),
            depth: 0,
            depth_of_calls: 0,
        };
        let children = Children::of_statements(statements);
        reach.add_all(children, 1)?;
        Ok(reach)
    }

    /// How many nodes the longest path has.
    pub(crate) fn depth(&self) -> u64 {
        self.depth
    }

    /// How many nodes the longest path to a call has.
    pub(crate) fn depth_of_calls(&self) -> u64 {
        self.depth_of_calls
    }

    /// Whether a function of one of these names may be called.
    pub(crate) fn calls_any(&self, names: &Names) -> bool {
        self.called.any_among(names)
    }

    #[cycle(reach)]
    fn add_all(&mut self, children: Children, depth: u64) -> Result<(), OutOfMemory> {
        for child in children {
            self.add_own(child.node, depth)?;
            self.add_below(child.node, depth)?;
        }
        Ok(())
    }

    #[cycle(reach)]
    fn add_below(&mut self, node: ASTNode, depth: u64) -> Result<(), OutOfMemory> {
        let children = Children::of(node);
        self.add_all(children, depth.saturating_add(1))
    }

    /// Adds a node alone.
    fn add_own(&mut self, node: ASTNode, depth: u64) -> Result<(), OutOfMemory> {
        self.depth = self.depth.max(depth);
        match node {
            ASTNode::Expr(Expr::FnCall(call, _) | Expr::MethodCall(call, _)) => {
                self.add_call(call.get(), depth)
            }
            ASTNode::Stmt(Stmt::FnCall(call, _)) => self.add_call(call.get(), depth),
            _ => Ok(()),
        }
    }

    /// Adds a call at this depth. Operators call no function of a script.
    fn add_call(&mut self, call: &FnCallExpr, depth: u64) -> Result<(), OutOfMemory> {
        if call.op_token.is_some() {
            return Ok(());
        }
        self.depth_of_calls = self.depth_of_calls.max(depth);
        self.called.add(call.name.as_str())
    }
}
