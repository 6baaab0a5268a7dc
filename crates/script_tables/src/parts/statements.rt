//! The statements of two scripts.
ghost use Rattle.std.specs.Prelude.{◌≡◌, ◌++◌, IfOk, OnOk, OnErr};

use rhai_ast::StmtBlock;
use rhai_base::OutOfMemory;

/// The statements of both.
pub fn joined(first: &StmtBlock, second: &StmtBlock) -> Result<StmtBlock, OutOfMemory>
    ensures { IfOk result (λ body. body.block ≡ first.now.block ++ second.now.block) }
{
    let mut body = first.clone()?;
    append(&mut body, second.clone()?)?;
    Ok(body)
}

/// Moves statements to the end.
pub fn append(body: &mut StmtBlock, more: StmtBlock) -> Result<(), OutOfMemory>
    ensures ok { OnOk result (body.new.block ≡ body.old.block ++ more.block) }
    ensures err { OnErr result (body.new.block ≡ body.old.block) }
{
    body.extend(more.into_statements().into_vec())
}
