//! What the language's own words answer at once.

#![tactic(auto, using(rhai_base::specs::Reading::kinds))]

ghost use Rattle.std.specs.Prelude.{◌≡◌, IfOk, map};
ghost use Rattle.rhai_base.specs.Reading.{value_of};
ghost use Rattle.rhai_base.specs.Value.{TextV};
ghost use Rattle.base_engine.specs.EngineInfo.{engine_of};
ghost use Rattle.theory_meaning.specs.Act.{Act};
ghost use Rattle.theory_meaning.specs.Engine.{mapped_type_name};
ghost use Rattle.run_state.specs.declared.state.State.{State};
ghost use Rattle.run_steps.specs.Setting.{setting};
ghost use Rattle.run_state.specs.Evaluating.{arm_then};
ghost use Rattle.run_state.specs.Runs.{Acting, Leads};
ghost use Rattle.run_state.specs.Words.{word_meant, word_or};

use crate::steps::machine::Machine;
use rhai_base::{Dynamic, ImmutableString};
use run_host::Host;
use run_state::{Interrupt, Word, curried, is_shared, pointer_to};
use std::alloc::AllocError;

impl<'a, H: Host> Machine<'a, H> {
    /// What a word answers at once; `None` where a function of its name is called.
    #[inline(never)]
    pub fn word_value(&self, word: Word, args: &[Dynamic]) -> Result<Option<Dynamic>, Interrupt>
        ensures { let here = setting H.answers H.modules self.now in
            (s : State) (next : Act)
            → Leads here (Acting (word_or here.world.engine (word_meant word) (map value_of args.now) next)) s
            result s (λ o. arm_then next o) }
    {
        match word {
            Word::TypeOf => match args {
                [value] => Ok(Some(self.type_of(value)?)),
                _ => Ok(None),
            },
            Word::IsShared => Ok(is_shared(args)),
            Word::Fn => match args {
                [name] => Ok(Some(pointer_to(self.alloc, name)?)),
                _ => Ok(None),
            },
            Word::Curry => match args {
                [pointer, values @ ..] => Ok(Some(curried(pointer, values)?)),
                _ => Ok(None),
            },
            Word::ToHost | Word::Call | Word::NoWord => Ok(None),
        }
    }

    /// The name that scripts see for a value's type.
    pub fn type_of(&self, value: &Dynamic) -> Result<Dynamic, AllocError>
        ensures { IfOk result (λ v.
            value_of v ≡ TextV (mapped_type_name (engine_of self.now.info.now) (value_of value.now))) }
    {
        let name = self.info.map_type_name(value.type_name());
        Ok(Dynamic::Str(ImmutableString::new(self.alloc, name)?))
    }
}
