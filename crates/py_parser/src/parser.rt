//! The tree of a module, or why there is none.

ghost use Rattle.std.specs.Prelude.{◌≡◌, IfOk, IfErr};
ghost use Rattle.py_syntax.specs.Grammar.{IsModule};
ghost use Rattle.py_syntax.specs.Heights.{IsShallow};
ghost use Rattle.py_table.specs.PlainTokens.{plain_tokens};
ghost use Rattle.py_recogniser.specs.Refused.{IsParseRefused};
ghost use Rattle.py_ast.specs.PlainTrees.{plain};

use crate::building::build;
use py_ast::Module;
use py_lexer::token::Token;
use py_recogniser::recognise;
use py_recogniser::refusal::ParseRefusal;
use shed_base::Names;
use std::alloc::Global;

/// The tree of a module's tokens, in which names stand for the texts of `names`.
///
/// Fails with the first token with which no front of a module goes on; with the first place where a node of the tree has
/// more than 100 others above it; and with `NoMemory` where memory runs out.
pub fn parse(alloc: Global, tokens: &[Token], names: &Names) -> Result<Module, ParseRefusal>
    ensures tree { IfOk result (λ m. IsModule (plain m) (plain_tokens names.now tokens.now) × IsShallow (plain m)) }
    ensures refused { IfErr result (IsParseRefused names.now tokens.now) }
{
    recognise(alloc, tokens, names)?;
    let module = build(alloc, tokens, names)?;
    Ok(module)
}
