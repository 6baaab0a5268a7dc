//! The language's own words.

#![tactic(auto, using(rhai_base::specs::Reading::kinds))]

ghost use Rattle.std.specs.Prelude.{◌≡◌, Ok, map};
ghost use Rattle.rhai_base.specs.Reading.{value_of};
ghost use Rattle.theory_meaning.specs.Act.{Act};
ghost use Rattle.run_state.specs.declared.state.State.{State};
ghost use Rattle.run_state.specs.Evaluating.{arm_then};
ghost use Rattle.run_state.specs.Runs.{Acting, Goes, Leads, Setting};
ghost use Rattle.run_state.specs.Words.{calls_pointer, goes_to_host, method_or, value_or, word_meant, word_or};
ghost use Rattle.theory_meaning.specs.Calls as calls;
ghost use Rattle.theory_meaning.specs.Places as places;

use rhai_base::Dynamic;

/// What a name calls that is the language's own.
#[derive(Clone, Copy)]
pub enum Word {
    /// The host, whatever functions the script has: `print`, `debug`.
    ToHost,
    /// `type_of`
    TypeOf,
    /// `is_shared`
    IsShared,
    /// `Fn`
    Fn,
    /// `curry`
    Curry,
    /// `call`
    Call,
    /// No such name.
    NoWord,
}

impl Word {
    /// What a name calls.
    pub fn of(name: &str) -> Word
        ensures { word_meant result ≡ calls.word name.now }
    {
        match name {
            "print" | "debug" => Word::ToHost,
            "type_of" => Word::TypeOf,
            "is_shared" => Word::IsShared,
            "Fn" => Word::Fn,
            "curry" => Word::Curry,
            "call" => Word::Call,
            _ => Word::NoWord,
        }
    }

    /// Whether the host is asked, whatever functions the script has.
    pub fn is_to_host(self) -> bool
        ensures { result ≡ goes_to_host (word_meant self) }
    {
        matches!(self, Word::ToHost)
    }

    /// Whether it is `call`.
    pub fn is_call(self) -> bool
        ensures { result ≡ calls_pointer (word_meant self) }
    {
        matches!(self, Word::Call)
    }
}

/// `is_shared`: no value is.
pub fn is_shared(args: &[Dynamic]) -> Option<Dynamic>
    ensures { (here : Setting) (s : State) (next : Act)
        → Goes here (Acting (word_or here.world.engine calls.IsShared (map value_of args.now) next)) s
        (arm_then next result) s }
{
    match args {
        [_] => Some(Dynamic::Bool(false)),
        _ => None,
    }
}

/// `is_shared` of a receiver: no value is.
pub fn is_shared_by(args: &[Dynamic]) -> Option<Dynamic>
    ensures { (here : _) (s : State) (v : _) (next : places.Current → Act) (other : Act)
        → Leads here (Acting (method_or here.world.engine calls.IsShared v (map value_of args.now) next other)) s
        (Ok result) s (λ o. value_or next other o) }
{
    match args {
        [] => Some(Dynamic::Bool(false)),
        _ => None,
    }
}
