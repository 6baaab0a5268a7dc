//! Names, constants of the script's own list and `this`: what stands there; modules.

#![tactic(auto, using(ast_types::specs::Reading::shapes, rhai_base::specs::Reading::kinds))]

ghost use Rattle.ast_types.specs.Reading.{path_of};
ghost use Rattle.theory_meaning.specs.Act.{Read};
ghost use Rattle.run_steps.specs.Setting.{setting};
ghost use Rattle.run_state.specs.Evaluating.{Runs, RunsCore};
ghost use Rattle.run_state.specs.Runs.{Acting};
ghost use Rattle.run_steps.specs.Variables.{root_meant};
ghost use Rattle.rhai_base.specs.Reading.{value_of};
ghost use Rattle.run_state.specs.declared.state.State.{State};
ghost use Rattle.theory_meaning.specs.Desugar as desugar;
ghost use Rattle.theory_meaning.specs.Meaning as meaning;

use crate::nodes::{Root, named_root, qualified};
use crate::steps::machine::Machine;
use rhai_base::{Dynamic, ImmutableString, Namespace};
use run_host::{Host, Stuck};
use run_state::{Interrupt, State};

impl<'a, H: Host> Machine<'a, H> {
    /// A variable's value: that of its latest entry, of the latest constant of the script's own list by `global::`, or of
    /// a module of the host, which an alias may name. rhai has a module `global` where the script has functions and
    /// declares a constant; where there is none of the name, this is stuck and rhai ends with an error.
    #[inline(never)]
    pub fn variable(
        &self,
        state: &State,
        namespace: &Namespace,
        name: &ImmutableString,
    ) -> Result<Dynamic, Interrupt>
        ensures { RunsCore (setting H.answers H.modules self.now) (desugar.variable (path_of namespace.now) name.now)
            state.now result state.now }
    {
        if let Some(root) = named_root(namespace, name) {
            return self.read(state, root);
        }
        let scope = state.scope.as_slice();
        let qualified = qualified(self.alloc, scope, namespace, name.as_str())?;
        match self.host.module_value(self.alloc, qualified.as_str())? {
            Some(value) => Ok(value),
            None => Err(Interrupt::Stuck(Stuck::Unbound)),
        }
    }

    /// The value of what has one of its own.
    #[inline(never)]
    pub fn read(&self, state: &State, root: Root) -> Result<Dynamic, Interrupt>
        ensures { Runs (setting H.answers H.modules self.now) (Acting (Read (root_meant root.entry))) state.now result
            state.now }
    {
        match self.root_value(state, root) {
            Ok(value) => Ok(value.clone()?),
            Err(stuck) => Err(Interrupt::Stuck(stuck)),
        }
    }

    /// The name of the module that a path leads to. What is no text is stuck, and so is a path that the host does not
    /// know. This is no call.
    pub fn module_at(&self, path: &Dynamic) -> Result<Dynamic, Interrupt>
        ensures { let here = setting H.answers H.modules self.now in
            (s : State) → Runs here (Acting (meaning.module_at here.world (value_of path.now))) s result s }
    {
        let Ok(path) = path.as_immutable_string_ref() else {
            return Err(Interrupt::Stuck(Stuck::WrongKind));
        };
        match self.host.module(self.alloc, path.as_str())? {
            Some(name) => Ok(Dynamic::Str(name)),
            None => Err(Interrupt::Stuck(Stuck::UnknownModule)),
        }
    }
}
