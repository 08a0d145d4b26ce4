//! From the bytes of a text to its model.

ghost use Rattle.std.specs.Prelude.{◌≤◌, length};

use clafer_desugar::plain;
use clafer_lexer::{laid_tokens_stand_in_order, lay, lex};
use clafer_parser::parse;
use clf_base::Fault;
use clf_tree::Named;
use model_resolver::resolve;
use std::alloc::Global;
use written_modules::{clafers_are_few, modules_are_written, names_are_names};

/// The model of a text with its names looked up, or the first refusal of the text.
pub(crate) fn read(alloc: Global, text: &[u8]) -> Result<Named, Fault>
    requires { length text.now ≤ 1048576 }
{
    laid_tokens_stand_in_order();
    names_are_names();
    modules_are_written();
    clafers_are_few();
    let tokens = lex(alloc, text)?;
    let laid = lay(alloc, &tokens)?;
    let module = parse(alloc, &laid)?;
    let plain = plain(alloc, &module)?;
    resolve(alloc, &plain)
}
