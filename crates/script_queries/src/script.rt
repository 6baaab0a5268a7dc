//! What may be asked of a script.

ghost use Rattle.std.specs.Prelude.{◌≡◌, map};
ghost use Rattle.ast_types.specs.Reading.{stmts_of};
ghost use Rattle.script_queries.specs.Literals.{left_to, sought_in};
ghost use Rattle.script_queries.specs.Metadata.{description_of, descriptions};
ghost use Rattle.script_queries.specs.Scripts.{WalksScript, bodies_standing};
ghost use Rattle.rhai_ast.specs.Walking.{WalksOver};

use crate::{FnMetadataIter, LiteralVariables};
use rhai_ast::{ASTNode, walk_statements};
use rhai_base::OutOfMemory;
use rhai_script::AST;
use script_tables::{FnLib, FnLibIter, allocator_of};

/// What may be asked of a script.
pub trait ScriptQueries {
    /// Calls the closure at each node, from the top down, until it answers `false`, with the path to the node: of
    /// the statements, then of the body of each function in order. It answers `true` when all nodes were seen, and
    /// `false` after the closure did.
    ///
    /// In rhai it answers a bool alone.
    fn walk<F: FnMut(&[ASTNode]) -> bool>(&self, on_node: &mut F) -> Result<bool, OutOfMemory>
        requires { F.IsAlwaysCallable on_node.old };

    /// The functions, in the table's order.
    fn iter_fn_def(&self) -> FnLibIter<'_>;

    /// What the functions say of themselves, in the table's order.
    fn iter_functions(&self) -> FnMetadataIter<'_>;

    /// The top-level variables that have literal values, in order: those that are constants, where they are
    /// wanted, and those that are none.
    ///
    /// In rhai no item is refused for want of memory.
    fn iter_literal_variables(&self, constants: bool, variables: bool) -> LiteralVariables<'_>;
}

impl ScriptQueries for AST {
    fn walk<F: FnMut(&[ASTNode]) -> bool>(&self, on_node: &mut F) -> Result<bool, OutOfMemory>
        requires { F.IsAlwaysCallable on_node.old }
        ensures callable { F.IsAlwaysCallable on_node.new }
        ensures walks { WalksScript F.FnMut result on_node.old self.now on_node.new }
    {
        let lib = &**self.shared_lib();
        let mut path = Vec::new(allocator_of(lib));
        if !walk_statements(self.statements(), &mut path, on_node)? {
            return Ok(false);
        }
        walk_bodies(lib, &mut path, on_node)
    }

    fn iter_fn_def(&self) -> FnLibIter<'_>
        ensures { result ≡ self.now.lib.value.functions }
    {
        self.shared_lib().iter()
    }

    fn iter_functions(&self) -> FnMetadataIter<'_>
        ensures { descriptions result ≡ map description_of self.now.lib.value.functions }
    {
        FnMetadataIter::new(self.shared_lib())
    }

    fn iter_literal_variables(&self, constants: bool, variables: bool) -> LiteralVariables<'_>
        ensures { left_to result ≡ sought_in constants variables (stmts_of self.now.body.block) }
    {
        let alloc = allocator_of(self.shared_lib());
        LiteralVariables::new(alloc, self.statements(), constants, variables)
    }
}

/// Walks over the bodies of functions, in the table's order.
fn walk_bodies<'a, F: FnMut(&[ASTNode]) -> bool>(
    lib: &'a FnLib,
    path: &mut Vec<ASTNode<'a>>,
    on_node: &mut F,
) -> Result<bool, OutOfMemory>
    requires { F.IsAlwaysCallable on_node.old }
    ensures callable { F.IsAlwaysCallable on_node.new }
    ensures walks { WalksOver F.FnMut path.old.items result on_node.old (bodies_standing lib.now.functions) on_node.new
        path.new.items }
{
    for function in lib.iter() {
        if !walk_statements(function.body.statements(), path, on_node)? {
            return Ok(false);
        }
    }
    Ok(true)
}
