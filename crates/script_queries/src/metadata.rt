//! What functions say of themselves.
ghost use Rattle.std.specs.Prelude.{◌≡◌, map};
ghost use Rattle.std.specs.Option.{option_copied};
ghost use Rattle.std.specs.Iterator.{YieldsFirstBy, item_count};
ghost use Rattle.script_queries.specs.Metadata.{described, description_of, descriptions};

use rhai_ast::{FnAccess, ScriptFuncDef};
use rhai_base::ImmutableString;
use script_tables::{FnLib, FnLibIter};

/// What a function of a script says of itself, lent.
#[derive(Clone, Copy)]
pub struct ScriptFnMetadata<'a> {
    /// Its name.
    pub name: &'a str,
    /// The names of its parameters.
    pub params: &'a [ImmutableString],
    /// The type of its receiver, where it is a method of one type alone.
    pub this_type: Option<&'a str>,
    /// Whether other scripts see it.
    pub access: FnAccess,
    /// The lines of its doc comment.
    pub comments: &'a [ImmutableString],
}

impl<'a> From<&'a ScriptFuncDef> for ScriptFnMetadata<'a> {
    ghost from_gives = { λ f m. described m ≡ description_of f.now };

    fn from(function: &'a ScriptFuncDef) -> ScriptFnMetadata<'a> {
        ScriptFnMetadata {
            name: function.name.as_str(),
            params: function.params.as_slice(),
            this_type: receiver_type(function),
            access: function.access,
            comments: function.comments.as_slice(),
        }
    }
}

fn receiver_type(function: &ScriptFuncDef) -> Option<&str>
    ensures { option_copied result ≡ function.now.this_type }
{
    match &function.this_type {
        Some(name) => Some(name.as_str()),
        None => None,
    }
}

/// What the functions of a table say of themselves, in its order.
#[derive(Drop)]
pub struct FnMetadataIter<'a> {
    functions: FnLibIter<'a>,
}

impl<'a> FnMetadataIter<'a> {
    /// Over all functions of a table.
    pub(crate) fn new(lib: &'a FnLib) -> FnMetadataIter<'a>
        ensures { descriptions result ≡ map description_of lib.now.functions }
    {
        FnMetadataIter {
            functions: lib.iter(),
        }
    }
}

impl<'a> Iterator for FnMetadataIter<'a> {
    type Item = ScriptFnMetadata<'a>;

    ghost next_gives = { YieldsFirstBy described descriptions };

    ghost remaining = { item_count descriptions };

    fn next(&mut self) -> Option<ScriptFnMetadata<'a>> {
        match self.functions.next() {
            Some(function) => Some(ScriptFnMetadata::from(&**function)),
            None => None,
        }
    }
}
