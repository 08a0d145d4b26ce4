//! A model whose expressions are known to have kinds.

ghost use Rattle.std.specs.Prelude.{◌≡◌};
ghost use Rattle.clf_tree.specs.Named.{IsNamed};
ghost use Rattle.clf_tree.specs.Typed.{IsTyped};

use crate::model::Model as Plan;
use crate::named::Named;
use std::marker::Model;

/// A model after look-up in which each expression has a kind and each operand fits its position.
///
/// A rule is a truth value or a set of nodes, a goal is an integer or can be read as one. Contracts see it as the model.
#[derive(Drop)]
pub struct Typed {
    named: Named,
}

impl Model for Typed {
    ghost use Rattle.clf_tree.specs.declared.model.Model.{Model};
    ghost use Rattle.clf_tree.specs.contracts.expr.Form as form;
    ghost use Rattle.clf_tree.specs.Typed.{IsTyped};
    ghost use Rattle.std.specs.Coded.{codes};

    ghost Value = { Model };

    ghost coded = { Prim.hlevel (codes, form.the_row.coded) };

    ghost view = { λ typed. typed.named };

    ghost invariant = { λ typed. IsTyped typed.named };
}

impl Typed {
    /// The same model, of which all this is known.
    pub fn new(named: Named) -> Typed
        requires { IsTyped named }
        ensures { result ≡ named }
    {
        Typed { named }
    }

    /// The model.
    pub fn model(&self) -> &Plan
        ensures same { result.now ≡ self.now }
        ensures known { IsNamed self.now }
        ensures typed { IsTyped self.now }
    {
        self.named.model()
    }
}
