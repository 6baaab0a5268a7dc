//! Assignments to names and to `this`, straight or by an operator.

#![tactic(auto, using(ast_types::specs::Reading::shapes, rhai_base::specs::Reading::kinds))]

ghost use Rattle.std.specs.Prelude.{◌≡◌, map, true, Some};
ghost use Rattle.rhai_base.specs.Reading.{value_of};
ghost use Rattle.rhai_base.specs.Builtin.{operator_of};
ghost use Rattle.theory_meaning.specs.Act.{Write};
ghost use Rattle.theory_meaning.specs.ActForms.{ask_host};
ghost use Rattle.theory_meaning.specs.Engine.{assigning};
ghost use Rattle.run_steps.specs.Setting.{setting};
ghost use Rattle.run_state.specs.Evaluating.{Runs};
ghost use Rattle.run_state.specs.Runs.{Acting};
ghost use Rattle.run_steps.specs.Variables.{root_meant};
ghost use Rattle.theory_meaning.specs.Calls as calls;
ghost use Rattle.theory_meaning.specs.Chains as chains;

use crate::nodes::{Root, asks_assigning, assigning_name, assigning_operator};
use crate::steps::machine::Machine;
use rhai_base::{Dynamic, OpAssignment, Seq, Token};
use run_host::Host;
use run_state::{Interrupt, State};

impl<'a, H: Host> Machine<'a, H> {
    /// Writes to a name or to `this`, which an operator reads first.
    pub fn assign_root(
        &self,
        state: &mut State,
        op: &OpAssignment,
        root: Root,
        value: Dynamic,
    ) -> Result<Dynamic, Interrupt>
        ensures { let here = setting H.answers H.modules self.now in
            Runs here
            (Acting
            (chains.assign_root here.world (operator_of op.now.op) (value_of value) (root_meant root.entry)))
            state.old result state.new }
    {
        match assigning_operator(op) {
            Some(token) => {
                let old = self.read(state, root)?;
                let written = self.assigned(state, token, old, value)?;
                self.write_value(state, root, written)
            }
            None => self.write_value(state, root, value),
        }
    }

    /// Writes a value, which must be possible, and answers unit. A constant is stuck.
    fn write_value(
        &self,
        state: &mut State,
        root: Root,
        value: Dynamic,
    ) -> Result<Dynamic, Interrupt>
        ensures { Runs (setting H.answers H.modules self.now)
            (Acting (Write true (root_meant root.entry) (value_of value))) state.old result state.new }
    {
        match root {
            Root::Name(name) => self.write_name(state, name.as_str(), value)?,
            Root::Global(name) => return self.write_global(state, name),
            Root::This => self.write_this(state, value)?,
        }
        Ok(Dynamic::Unit)
    }

    /// `old op= new`: a host call of that name where the record says so, else the operator.
    pub fn assigned(
        &self,
        state: &mut State,
        op: Token,
        old: Dynamic,
        new: Dynamic,
    ) -> Result<Dynamic, Interrupt>
        ensures { let here = setting H.answers H.modules self.now in
            (o : _) → operator_of op ≡ Some o
            → Runs here (Acting (calls.assigned here.world (Some o) (value_of old) (value_of new))) state.old
            result state.new }
    {
        let asks = asks_assigning(self.alloc, self.info, op, &old, &new)?;
        if asks {
            let args = Seq::from_array(self.alloc, [old, new])?;
            self.ask_assigning(state, op, args)
        } else {
            self.operate_two(state, op, old, new)
        }
    }

    /// The host's call of an operator's assignment.
    fn ask_assigning(
        &self,
        state: &mut State,
        op: Token,
        args: Seq<Dynamic>,
    ) -> Result<Dynamic, Interrupt>
        ensures { let here = setting H.answers H.modules self.now in
            (o : _) → operator_of op ≡ Some o
            → Runs here (Acting (ask_host (assigning o) (map value_of args))) state.old result state.new }
    {
        let name = assigning_name(self.alloc, op)?;
        self.ask_host(state, name, args)
    }
}
