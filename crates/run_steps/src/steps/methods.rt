//! Methods: the language's own words, and the script's function of a method.

#![tactic(auto, using(rhai_base::specs::Reading::kinds))]

ghost use Rattle.std.specs.Prelude.{◌≡◌, IfOk, map};
ghost use Rattle.std.specs.Option.{option_copied, option_map};
ghost use Rattle.std.specs.Rc.{rc_value};
ghost use Rattle.rhai_base.specs.Reading.{value_of};
ghost use Rattle.theory_meaning.specs.Act.{Act};
ghost use Rattle.run_state.specs.declared.state.State.{State};
ghost use Rattle.run_steps.specs.Setting.{setting};
ghost use Rattle.run_state.specs.Runs.{Acting, Leads};
ghost use Rattle.run_state.specs.Words.{method_or, value_or, word_meant};
ghost use Rattle.theory_meaning.specs.Places as places;
ghost use Rattle.run_steps.specs.Chaining as spec;

use crate::steps::machine::Machine;
use rhai_ast::ScriptFuncDef;
use rhai_base::{Dynamic, ImmutableString};
use run_host::Host;
use run_state::{Interrupt, State, Word, curried, is_shared_by};
use script_tables::FnKey;
use std::alloc::AllocError;
use std::rc::Rc;

impl<'a, H: Host> Machine<'a, H> {
    /// What a word answers at once for a receiver; `None` where a function of its name is called.
    pub fn word_method(
        &self,
        word: Word,
        receiver: &Dynamic,
        args: &[Dynamic],
    ) -> Result<Option<Dynamic>, Interrupt>
        ensures { let here = setting H.answers H.modules self.now in
            (s : State) (next : places.Current → Act) (other : Act)
            → Leads here
            (Acting
            (method_or here.world.engine (word_meant word) (value_of receiver.now) (map value_of args.now)
            next other))
            s result s (λ o. value_or next other o) }
    {
        match word {
            Word::TypeOf => match args {
                [] => Ok(Some(self.type_of(receiver)?)),
                _ => Ok(None),
            },
            Word::IsShared => Ok(is_shared_by(args)),
            Word::Curry => Ok(Some(curried(receiver, args)?)),
            Word::Fn | Word::ToHost | Word::Call | Word::NoWord => Ok(None),
        }
    }

    /// The script's function of a method.
    pub fn method_function(
        &self,
        name: &ImmutableString,
        receiver_type: &str,
        params: usize,
    ) -> Result<Option<&Rc<ScriptFuncDef>>, AllocError>
        ensures { IfOk result (λ o.
            option_map rc_value (option_copied o)
            ≡ spec.method_in self.now.functions.now.functions name.now params receiver_type.now) }
    {
        let for_type = FnKey {
            name: name.clone()?,
            params,
            this_type: Some(ImmutableString::new(self.alloc, receiver_type)?),
        };
        if let Some(function) = self.functions.get(&for_type) {
            return Ok(Some(function));
        }
        let for_all = FnKey {
            name: name.clone()?,
            params,
            this_type: None,
        };
        Ok(self.functions.get(&for_all))
    }
}
