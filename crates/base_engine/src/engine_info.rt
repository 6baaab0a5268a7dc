//! What an engine fixes for every script that it runs.
ghost use Rattle.std.specs.Prelude.{◌≡◌, [], ◌∷◌, map, false, not, IfOk, OnOk, OnErr};
ghost use Rattle.std.specs.Option.{option_map};
ghost use Rattle.std.specs.Map.Iter.{deref};
ghost use Rattle.rhai_base.specs.Builtin.{answered, computed_of};
ghost use Rattle.rhai_base.specs.Reading.{value_of};
ghost use Rattle.rhai_base.specs.Value.{type_name};
ghost use Rattle.theory_meaning.specs.Engine.{constant_named, has_override, mapped_name, overrides_any, same_texts};
ghost use Rattle.base_engine.specs.Override.{is_override};
ghost use Rattle.theory_meaning.specs.Shape.{is_none};

use rhai_base::{
    Dynamic, Fault, ImmutableString, OutOfMemory, Seq, Token, builtin_binary_op, builtin_unary_op,
};
use std::alloc::Global;
use std::marker::Model;

/// A constant that every script sees.
#[derive(Debug, Drop)]
struct EngineConstant {
    name: ImmutableString,
    value: Dynamic,
}

/// The name that scripts see for a type.
#[derive(Debug, Drop)]
struct TypeName {
    from: ImmutableString,
    to: ImmutableString,
}

impl Model for TypeName {
    ghost use Rattle.theory_meaning.specs.Engine.{TypeName};

    ghost Value = { TypeName };

    ghost view = { λ m. record { from = m.from; to = m.to } };
}

/// An operator that the host answers at operands of these types.
#[derive(Debug, Drop)]
struct OperatorOverride {
    name: ImmutableString,
    types: Seq<ImmutableString>,
}

impl Model for OperatorOverride {
    ghost use Rattle.theory_meaning.specs.Engine.{Override};

    ghost Value = { Override };

    ghost view = { λ o. record { name = o.name; types = o.types } };
}

impl OperatorOverride {
    fn is(&self, name: &str, types: &[&str]) -> bool
        ensures { result ≡ is_override self.now name.now (map deref types.now) }
    {
        self.name.as_str() == name && are_named(types, self.types.as_slice())
    }
}

fn are_named(types: &[&str], names: &[ImmutableString]) -> bool
    ensures { result ≡ same_texts names.now (map deref types.now) }
{
    if names.len() != types.len() {
        return false;
    }
    for (name, text) in names.iter().zip(types) {
        if name.as_str() != *text {
            return false;
        }
    }
    true
}

/// What the host sets: constants that every script sees, the operators that it answers itself, other names of types,
/// and whether built-in operators go before its own. Types are given by their own names, as `i64` and `string`,
/// whatever names are set for them.
#[derive(Debug)]
pub struct EngineInfo {
    constants: Seq<EngineConstant>,
    overrides: Seq<OperatorOverride>,
    type_names: Seq<TypeName>,
    fast_operators: bool,
}

impl Drop for EngineInfo {
    fn drop(self) {
        let EngineInfo {
            constants: _constants,
            overrides: _overrides,
            type_names: _type_names,
            fast_operators: _fast_operators,
        } = self;
    }
}

impl EngineInfo {
    ghost use Rattle.base_engine.specs.declared.engine_info.EngineConstant.{EngineConstant};
    ghost use Rattle.base_engine.specs.EngineInfo.{built_in_at, engine_of, knowing_constant, mapping, nothing_set, overriding, tries_builtin};

    /// Nothing set, fast operators off.
    pub fn new(alloc: Global) -> EngineInfo
        ensures { engine_of result ≡ nothing_set }
    {
        EngineInfo {
            constants: Seq::new(alloc),
            overrides: Seq::new(alloc),
            type_names: Seq::new(alloc),
            fast_operators: false,
        }
    }

    /// From now on scripts see this constant where nothing in scope has its name. Any value may be one; a later one
    /// of a name wins. Refused, the record is as it was. In rhai constants come from modules registered with the
    /// engine.
    pub fn add_constant(&mut self, name: ImmutableString, value: Dynamic) -> Result<(), OutOfMemory>
        ensures ok { OnOk result (engine_of self.new ≡ knowing_constant (engine_of self.old) name (value_of value)) }
        ensures err { OnErr result (self.new ≡ self.old) }
    {
        self.constants.push(EngineConstant { name, value })?;
        Ok(())
    }

    /// The constants in the order in which they were added, each name with its value; a later one of a name wins.
    pub fn constants(&self) -> EngineConstants<'_>
        ensures { result.constants.now ≡ self.now.constants }
    {
        EngineConstants {
            constants: self.constants.as_slice(),
        }
    }

    /// The value of the latest constant of this name.
    pub fn constant_named(&self, name: &str) -> Option<&Dynamic>
        ensures { option_map (λ v. value_of v.now) result ≡ constant_named (engine_of self.now).constants name.now }
    {
        let mut constants = self.constants.as_slice();
        while let Some((constant, earlier)) = constants.split_last() {
            if constant.name.as_str() == name {
                return Some(&constant.value);
            }
            constants = earlier;
        }
        None
    }

    /// From now on `type_of` names the type `from` by `to`. A later name wins. Methods are looked up by a value's
    /// own type name all the same, and so are overrides. Refused, the record is as it was.
    pub fn set_type_name(
        &mut self,
        from: ImmutableString,
        to: ImmutableString,
    ) -> Result<(), OutOfMemory>
        ensures ok { OnOk result (engine_of self.new ≡ mapping (engine_of self.old) from to) }
        ensures err { OnErr result (self.new ≡ self.old) }
    {
        self.type_names.push(TypeName { from, to })?;
        Ok(())
    }

    /// The name that scripts see for the type of this name: the latest that was set for it, else its own.
    pub fn map_type_name<'a>(&'a self, name: &'a str) -> &'a str
        ensures { result.now ≡ mapped_name (engine_of self.now) name.now }
    {
        let mut type_names = self.type_names.as_slice();
        while let Some((mapping, earlier)) = type_names.split_last() {
            if mapping.from.as_str() == name {
                return mapping.to.as_str();
            }
            type_names = earlier;
        }
        name
    }

    /// From now on the host answers the operator of this name at operands of these types. Refused, the record is
    /// as it was.
    pub fn override_operator(
        &mut self,
        name: ImmutableString,
        types: Vec<ImmutableString>,
    ) -> Result<(), OutOfMemory>
        ensures ok { OnOk result (engine_of self.new ≡ overriding (engine_of self.old) name types.items) }
        ensures err { OnErr result (self.new ≡ self.old) }
    {
        let types = Seq::from_vec(types);
        self.overrides.push(OperatorOverride { name, types })?;
        Ok(())
    }

    /// Whether the host answers any operator.
    pub fn has_overrides(&self) -> bool
        ensures { result ≡ not (is_none (engine_of self.now).overrides) }
    {
        !self.overrides.is_empty()
    }

    /// Whether the host answers the operator of this name at operands of these types.
    pub fn is_overridden(&self, name: &str, types: &[&str]) -> bool
        ensures { result ≡ has_override (engine_of self.now).overrides name.now (map deref types.now) }
    {
        for operator in self.overrides.as_slice() {
            if operator.is(name, types) {
                return true;
            }
        }
        false
    }

    /// Whether the host answers the operator of this name at operands of any types.
    pub fn has_any_override(&self, name: &str) -> bool
        ensures { result ≡ overrides_any (engine_of self.now).overrides name.now }
    {
        for operator in self.overrides.as_slice() {
            if operator.name.as_str() == name {
                return true;
            }
        }
        false
    }

    /// Whether built-in operators go before the host's.
    pub fn set_fast_operators(&mut self, enable: bool)
        ensures { engine_of self.new ≡ record (engine_of self.old) { fast_operators = enable } }
    {
        self.fast_operators = enable;
    }

    /// Whether built-in operators go before the host's.
    pub fn fast_operators(&self) -> bool
        ensures { result ≡ (engine_of self.now).fast_operators }
    {
        self.fast_operators
    }

    /// What the built-in operator answers at a value, where it is tried before the host.
    #[tactic(auto, unfolding(rhai_base::specs::Operators::computed))]
    pub fn builtin_unary(&self, op: Token, x: &Dynamic) -> Option<Dynamic>
        ensures { answered result ≡ built_in_at (engine_of self.now) op (value_of x.now ∷ []) }
    {
        if !self.tries_builtin(op, &[x.type_name()]) {
            return None;
        }
        builtin_unary_op(&op, x)
    }

    /// What the built-in operator answers at two values, where it is tried before the host: a value or a fault.
    #[tactic(auto, unfolding(rhai_base::specs::Operators::computed))]
    pub fn builtin_binary(
        &self,
        alloc: Global,
        op: Token,
        x: &Dynamic,
        y: &Dynamic,
    ) -> Result<Option<Result<Dynamic, Fault>>, OutOfMemory>
        ensures { IfOk result (λ r.
            computed_of r ≡ built_in_at (engine_of self.now) op (value_of x.now ∷ value_of y.now ∷ [])) }
    {
        if !self.tries_builtin_at(op, x, y) {
            return Ok(None);
        }
        builtin_binary_op(alloc, &op, x, y)
    }

    /// Whether the built-in operator is tried at two values. Where none is overridden, their types are not asked for.
    fn tries_builtin_at(&self, op: Token, x: &Dynamic, y: &Dynamic) -> bool
        ensures { result
            ≡ tries_builtin (engine_of self.now) op (type_name (value_of x.now) ∷ type_name (value_of y.now) ∷ []) }
    {
        self.overrides.is_empty() || self.tries_builtin(op, &[x.type_name(), y.type_name()])
    }

    /// Whether the built-in operator is tried at operands of these types, and the host is asked only where
    /// there is none. Ranges cannot be overridden.
    fn tries_builtin(&self, op: Token, types: &[&str]) -> bool
        ensures { result ≡ tries_builtin (engine_of self.now) op (map deref types.now) }
    {
        matches!(op, Token::ExclusiveRange | Token::InclusiveRange)
            || self.fast_operators
            || !self.is_overridden(op.literal_syntax(), types)
    }
}

/// Goes over the constants of an engine's record.
#[derive(Drop)]
pub struct EngineConstants<'a> {
    constants: &'a [EngineConstant],
}

impl<'a> Iterator for EngineConstants<'a> {
    ghost use Rattle.std.specs.Iterator.{YieldsFirstBy, item_count};

    type Item = (&'a ImmutableString, &'a Dynamic);

    ghost next_gives = { YieldsFirstBy (λ e. record { name = e.0.now; value = e.1.now }) (λ s. s.constants.now) };

    ghost remaining = { item_count (λ s. s.constants.now) };

    fn next(&mut self) -> Option<(&'a ImmutableString, &'a Dynamic)> {
        let (first, others) = self.constants.split_first()?;
        self.constants = others;
        Some((&first.name, &first.value))
    }
}
