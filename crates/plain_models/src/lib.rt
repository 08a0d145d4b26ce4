//! What is known of a plain model of which nothing is refused: each parent stands before its child, the context of each rule is there,
//! bounds are right, abstract clafers stand at top level, and names differ beside their like.
//!
//! Each function is a law; it does nothing.
#![tactic(auto)]

ghost use Rattle.std.specs.Prelude.{◌≡◌, [], List, IsTrue, None};
ghost use Rattle.refusal_order.specs.Order.{first_refusal};
ghost use Rattle.clf_tree.specs.declared.module.Module.{Module};
ghost use Rattle.clf_tree.specs.declared.plain.Plain.{Plain};
ghost use Rattle.clf_tree.specs.declared.token.Title.{Title};
ghost use Rattle.clf_tree.specs.Lists.{each_two};
ghost use Rattle.clf_tree.specs.Named.{differ};
ghost use Rattle.clafer_desugar.specs.PlainModel.{plain_of};
ghost use Rattle.clafer_desugar.specs.Refusals.{names_refusals, refusals};
ghost use Rattle.super_linker.specs.Supers.{linked};
ghost use Rattle.plain_models.specs.Known.{IsPlain, StandsWell};

/// The plain model of a text that is not refused is known to be so.
pub fn plain_is_known()
    ensures { (text : Module) → first_refusal (refusals text) ≡ None → IsPlain (plain_of text) }
{}

/// With their supers linked the clafers of such a model have right bounds, stand where they may, and are told apart.
pub fn plain_stands_well()
    ensures { (plain : Plain) → IsPlain plain → StandsWell (linked plain.clafers) }
{}

/// Where none is refused, the names of a quantifier differ.
pub fn names_differ()
    ensures { (names : List Title) → names_refusals [] names ≡ [] → IsTrue (each_two differ names) }
{}
