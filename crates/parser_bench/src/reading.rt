//! From the bytes of a text to its module.

ghost use Rattle.std.specs.Prelude.{◌≤◌, length};

use clafer_lexer::{laid_tokens_stand_in_order, lay, lex};
use clafer_parser::parse;
use clf_base::Fault;
use clf_tree::Module;
use std::alloc::Global;

/// The module of a text, or its first refusal.
pub(crate) fn read(alloc: Global, text: &[u8]) -> Result<Module, Fault>
    requires { length text.now ≤ 1048576 }
{
    laid_tokens_stand_in_order();
    let tokens = lex(alloc, text)?;
    let laid = lay(alloc, &tokens)?;
    parse(alloc, &laid)
}
