//! `import` and `export`.

#![tactic(auto, using(ast_types::specs::Reading::shapes, rhai_base::specs::Reading::kinds))]

ghost use Rattle.std.specs.Prelude.{◌≡◌};
ghost use Rattle.ast_types.specs.Reading.{expr_of};
ghost use Rattle.theory_meaning.specs.Core.{ModuleOf};
ghost use Rattle.theory_meaning.specs.Desugar.{core_expr, core_stmt};
ghost use Rattle.theory_meaning.specs.Desugar as desugar;
ghost use Rattle.theory_meaning.specs.Tree as tree;
ghost use Rattle.run_steps.specs.Setting.{setting};
ghost use Rattle.run_state.specs.Evaluating.{RunsCore, RunsLine};

use crate::evaluator::Evaluator;
use rhai_ast::Expr;
use rhai_base::{Dynamic, Ident, ImmutableString};
use run_host::Host;
use run_state::{EntryKind, Interrupt, State};
use run_steps::Root;

impl<'a, H: Host> Evaluator<'a, H> {
    /// `import`: the path first, and then an alias of its module where one is named.
    #[cycle(evaluate)]
    #[inline(never)]
    pub fn import(
        &self,
        state: &mut State,
        path: &Expr,
        alias: &Ident,
    ) -> Result<Dynamic, Interrupt>
        ensures { RunsLine (setting H.answers H.modules self.now.machine)
            (core_stmt self.now.in_loop (tree.Import (expr_of path.now) alias.now.name)) state.old result state.new }
    {
        let module = self.module_of(state, path)?;
        state.declare_alias(&alias.name, module)?;
        Ok(Dynamic::Unit)
    }

    /// The name of the module that a path leads to.
    #[cycle(evaluate)]
    fn module_of(&self, state: &mut State, path: &Expr) -> Result<Dynamic, Interrupt>
        ensures { RunsCore (setting H.answers H.modules self.now.machine)
            (ModuleOf (core_expr self.now.in_loop (expr_of path.now))) state.old result state.new }
    {
        let path = self.expr(state, path)?;
        self.machine.module_at(&path)
    }

    /// `export`: the value of a name, under its alias where it has one.
    #[inline(never)]
    pub fn export(
        &self,
        state: &mut State,
        name: &Ident,
        alias: &Ident,
    ) -> Result<Dynamic, Interrupt>
        ensures { RunsLine (setting H.answers H.modules self.now.machine)
            (core_stmt self.now.in_loop (tree.Export name.now.name alias.now.name)) state.old result state.new }
    {
        let value = self.machine.read(state, Root::Name(&name.name))?;
        state.declare(or_own(&alias.name, &name.name), EntryKind::Export, value)?;
        Ok(Dynamic::Unit)
    }
}

/// The alias, or the name itself where there is none.
fn or_own<'s>(alias: &'s ImmutableString, name: &'s ImmutableString) -> &'s ImmutableString
    ensures { result.now ≡ desugar.or_own alias.now name.now }
{
    if alias.as_str().is_empty() {
        name
    } else {
        alias
    }
}
