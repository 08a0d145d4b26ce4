//! What the premises of the rules come to.

ghost use Rattle.std.specs.Prelude.{◌<◌, All, length, List as Items};
ghost use Rattle.bool_circuit.specs.declared.gate.Gate.{Gate};
ghost use Rattle.clf_tree.specs.declared.model.Clafer.{Clafer};
ghost use Rattle.clf_tree.specs.declared.scopes.Scopes.{Scopes};
ghost use Rattle.set_bits.specs.declared.layout.Layout.{Layout};
ghost use Rattle.set_bits.specs.Fitting.{Fits, IsRead, size};
ghost use Rattle.shape_encoder.specs.Reading.{IsLaid};

/// The edges of a layout that fits lead between slots, and its wires are those of its bits in a circuit whose inputs the layout has.
pub fn layouts_that_fit_are_laid()
    ensures parents { (clafers : Items Clafer) (scopes : Scopes) (layout : Layout) → Fits clafers scopes layout → All (λ e. e.to < length layout.live) layout.parents }
    ensures targets { (clafers : Items Clafer) (scopes : Scopes) (layout : Layout) → Fits clafers scopes layout → All (λ e. e.to < length layout.live) layout.targets }
    ensures children { (clafers : Items Clafer) (scopes : Scopes) (layout : Layout) → Fits clafers scopes layout → All (λ e. e.from < length layout.slots) layout.parents }
    ensures owners { (clafers : Items Clafer) (scopes : Scopes) (layout : Layout) → Fits clafers scopes layout → All (λ e. e.to < length layout.slots) layout.parents }
    ensures laid { (clafers : Items Clafer) (scopes : Scopes) (layout : Layout) (gates : Items Gate) → Fits clafers scopes layout → IsRead gates (size layout) → IsLaid gates layout }
{}
