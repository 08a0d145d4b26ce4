//! A model whose names are known to be looked up.

ghost use Rattle.std.specs.Prelude.{◌≡◌};
ghost use Rattle.clf_tree.specs.Named.{IsNamed};

use crate::model::Model as Plan;
use std::marker::Model;

/// A model that look-up has gone through, and that nothing before the kinds of its expressions refuses.
///
/// No name is left in its expressions, and each number in it names what is there. Contracts see it as the model.
#[derive(Drop)]
pub struct Named {
    model: Plan,
}

impl Model for Named {
    ghost use Rattle.clf_tree.specs.declared.model.Model.{Model};
    ghost use Rattle.clf_tree.specs.contracts.expr.Form as form;
    ghost use Rattle.clf_tree.specs.Named.{IsNamed};
    ghost use Rattle.std.specs.Coded.{codes};

    ghost Value = { Model };

    ghost coded = { Prim.hlevel (codes, form.the_row.coded) };

    ghost view = { λ named. named.model };

    ghost invariant = { λ named. IsNamed named.model };
}

impl Named {
    /// The same model, of which all this is known.
    pub fn new(model: Plan) -> Named
        requires { IsNamed model }
        ensures { result ≡ model }
    {
        Named { model }
    }

    /// The model.
    pub fn model(&self) -> &Plan
        ensures same { result.now ≡ self.now }
        ensures known { IsNamed self.now }
    {
        &self.model
    }
}
