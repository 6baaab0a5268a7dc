//! The functions of a script.

ghost use Rattle.std.specs.Prelude.{◌≡◌};

use crate::StmtBlock;
use crate::copy::both;
use rhai_base::{ImmutableString, Seq};
use std::alloc::AllocError;

/// Whether other scripts see a function.
#[derive(Clone, Copy, Debug, PartialEq, Eq)]
pub enum FnAccess {
    /// They do not.
    Private,
    /// They do.
    Public,
}

/// Where a function is looked up.
#[derive(Clone, Copy, Debug, PartialEq, Eq)]
pub enum FnNamespace {
    /// In its module alone.
    Internal,
    /// Among the global names too.
    Global,
}

/// A function of a script.
#[derive(Drop)]
pub struct ScriptFuncDef {
    /// What it does.
    pub body: StmtBlock,
    /// Its name.
    pub name: ImmutableString,
    /// The type of its receiver, where it is a method of one type alone.
    pub this_type: Option<ImmutableString>,
    /// Whether other scripts see it.
    pub access: FnAccess,
    /// The names of its parameters.
    pub params: Seq<ImmutableString>,
    /// The lines of its doc comment.
    pub comments: Seq<ImmutableString>,
}

impl Clone for ScriptFuncDef {
    ghost is_clone = { λ f g. g ≡ f };

    #[tactic(auto, using(base_lists::proofs::Copies::copies))]
    fn clone(&self) -> Result<ScriptFuncDef, AllocError> {
        let start = both(self.body.clone()?, self.name.clone())?;
        let start = both(start, self.this_type.clone())?;
        let start = both(start, self.params.clone())?;
        let ((((body, name), this_type), params), comments) = both(start, self.comments.clone())?;
        Ok(ScriptFuncDef {
            body,
            name,
            this_type,
            access: self.access,
            params,
            comments,
        })
    }
}
