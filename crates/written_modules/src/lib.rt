//! What is known of the plain model of a text of which nothing is refused: its names are names, in its expressions nothing is looked up
//! yet, and it has no more clafers than the text has bytes.
//!
//! Each function is a law; it does nothing.
#![tactic(auto)]

ghost use Rattle.std.specs.Prelude.{◌≡◌, ◌≤◌, ℕ, length, IsTrue, None, Ok, List as Seq};
ghost use Rattle.refusal_order.specs.Order.{first_refusal};
ghost use Rattle.clf_tree.specs.declared.module.Module.{Module};
ghost use Rattle.clf_tree.specs.declared.token.Token.{Token};
ghost use Rattle.clafer_lexer.specs.Cuts.{IsLexed};
ghost use Rattle.clafer_lexer.specs.Layout.{laid};
ghost use Rattle.clafer_grammar.specs.Symbols.{Symbol, symbols};
ghost use Rattle.clafer_grammar.specs.Modules.{SpellsModule};
ghost use Rattle.clafer_desugar.specs.PlainModel.{plain_of, count_items};
ghost use Rattle.clafer_desugar.specs.Refusals.{refusals};
ghost use Rattle.plain_models.specs.Written.{IsWritten};
ghost use Rattle.written_modules.specs.Names.{have_names};

use clafer_lexer::tokens_stand_in_order;
use plain_models::{names_differ, plain_is_known};

/// The name tokens of a text are names.
pub fn names_are_names()
    ensures { (text : Seq ℕ) (tokens laid_tokens : Seq Token) → IsLexed text tokens → laid tokens ≡ Ok laid_tokens → IsTrue (have_names (symbols laid_tokens)) }
{
    tokens_stand_in_order();
}

/// The plain model of a module that such tokens spell is a written one, where nothing of it is refused.
pub fn modules_are_written()
    ensures { (tokens : Seq Symbol) (read : Module) → SpellsModule tokens read.items → IsTrue (have_names tokens) → first_refusal (refusals read) ≡ None → IsWritten (plain_of read) }
{
    plain_is_known();
    names_differ();
}

/// A text has at least as many bytes as its module declares clafers, and as its plain model has.
pub fn clafers_are_few()
    ensures declared { (text : Seq ℕ) (tokens laid_tokens : Seq Token) (read : Module) → IsLexed text tokens → laid tokens ≡ Ok laid_tokens → SpellsModule (symbols laid_tokens) read.items → count_items read.items ≤ length text }
    ensures plain { (text : Seq ℕ) (tokens laid_tokens : Seq Token) (read : Module) → IsLexed text tokens → laid tokens ≡ Ok laid_tokens → SpellsModule (symbols laid_tokens) read.items → length (plain_of read).clafers ≤ length text }
{
    tokens_stand_in_order();
}
