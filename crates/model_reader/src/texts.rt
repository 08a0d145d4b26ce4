//! The first stages: from a text to its plain model.

ghost use Rattle.std.specs.Prelude.{◌≡◌, ◌≤◌, length, IfOk, IfErr};
ghost use Rattle.model_reader.specs.Texts.{IsLaidText, SpellsItems, IsPlainText, HasNoModule};
ghost use Rattle.model_reader.specs.Models.{HasNoModel};
ghost use Rattle.model_reader.specs.Reading.{WhenRefused};

use crate::LIMIT;
use clafer_desugar::plain;
use clafer_lexer::{laid_tokens_stand_in_order, lay, lex};
use clafer_parser::parse;
use clf_base::{Fault, List};
use clf_tree::{Module, Plain, Token};
use std::alloc::Global;
use written_modules::clafers_are_few;

/// The tokens of a text with the marks of its layout.
fn laid_tokens(alloc: Global, text: &[u8]) -> Result<List<Token>, Fault>
    requires { length text.now ≤ LIMIT }
    ensures laid { IfOk result (λ tokens. IsLaidText text.now tokens) }
    ensures refused { IfErr result (λ fault. WhenRefused fault (HasNoModule text.now)) }
{
    let tokens = lex(alloc, text)?;
    let laid = lay(alloc, &tokens)?;
    Ok(laid)
}

/// The module of a text.
fn module_of(alloc: Global, text: &[u8]) -> Result<Module, Fault>
    requires { length text.now ≤ LIMIT }
    ensures spelled { IfOk result (λ read. SpellsItems text.now read.items) }
    ensures refused { IfErr result (λ fault. WhenRefused fault (HasNoModule text.now)) }
{
    laid_tokens_stand_in_order();
    let tokens = laid_tokens(alloc, text)?;
    let read = parse(alloc, &tokens)?;
    Ok(read)
}

/// The plain model of a text.
pub fn plain_text(alloc: Global, text: &[u8]) -> Result<Plain, Fault>
    requires { length text.now ≤ LIMIT }
    ensures plain { IfOk result (λ plain. IsPlainText text.now plain) }
    ensures refused { IfErr result (λ fault. WhenRefused fault (HasNoModel text.now)) }
{
    clafers_are_few();
    let items = module_of(alloc, text)?;
    let plain = plain(alloc, &items)?;
    Ok(plain)
}
