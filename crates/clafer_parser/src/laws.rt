//! What holds of the answers of lists of tokens.

ghost use Rattle.std.specs.Prelude.{◌≡◌, List as Seq};
ghost use Rattle.clf_base.specs.declared.fault.Refusal.{Refusal};
ghost use Rattle.clf_tree.specs.declared.module.Item.{Item};
ghost use Rattle.clafer_grammar.specs.Modules.{SpellsModule};
ghost use Rattle.clafer_grammar.specs.Symbols.{Symbol};
ghost use Rattle.clafer_parser.specs.Limits.{AreFine, IsFirstRefusal};

use clafer_grammar::laws::spells_one_module;

/// A law: a list of tokens has at most one module, and at most one first refusal; and where each token is fine it has none.
pub fn tokens_have_one_answer()
    ensures module_once { (tokens : Seq Symbol) (some others : Seq Item) → SpellsModule tokens some → SpellsModule tokens others → some ≡ others }
    ensures refusal_once { (tokens : Seq Symbol) (some other : Refusal) → IsFirstRefusal tokens some → IsFirstRefusal tokens other → some ≡ other }
    ensures not_both { (tokens : Seq Symbol) (refusal : Refusal) → AreFine tokens → IsFirstRefusal tokens refusal → ⊥ }
{
    spells_one_module();
}
