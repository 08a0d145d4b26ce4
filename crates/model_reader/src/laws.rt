//! What holds of the readings and refusals of texts.

ghost use Rattle.std.specs.Prelude.{◌≡◌, ℕ, List as Seq};
ghost use Rattle.clf_base.specs.declared.fault.Refusal.{Refusal};
ghost use Rattle.clf_tree.specs.declared.scopes.Given.{Given};
ghost use Rattle.model_reader.specs.declared.reader.Read.{Read as Reading};
ghost use Rattle.model_reader.specs.Reading.{IsReadOf, IsRefused};

use clafer_lexer::text_has_one_answer;
use clafer_parser::tokens_have_one_answer;

/// A law: a text with given scopes has at most one model, with its scopes and its weight, or at most one first refusal, and not
/// both.
pub fn texts_have_one_answer()
    ensures read_once { (text : Seq ℕ) (given : Given) (some other : Reading) → IsReadOf text given some → IsReadOf text given other → (some.model ≡ other.model) × (some.scopes ≡ other.scopes) × (some.weight ≡ other.weight) }
    ensures refusal_once { (text : Seq ℕ) (given : Given) (some other : Refusal) → IsRefused text given some → IsRefused text given other → some ≡ other }
    ensures not_both { (text : Seq ℕ) (given : Given) (read : Reading) (refusal : Refusal) → IsReadOf text given read → IsRefused text given refusal → ⊥ }
{
    text_has_one_answer();
    tokens_have_one_answer();
}
