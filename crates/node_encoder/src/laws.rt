//! How many members a set of some clafers has.

ghost use Rattle.std.specs.Prelude.{◌≤◌, ℕ, length, List as Items};
ghost use Rattle.clf_tree.specs.declared.model.Clafer.{Clafer};
ghost use Rattle.clf_tree.specs.declared.scopes.Scopes.{Scopes};
ghost use Rattle.set_bits.specs.declared.layout.Layout.{Layout};
ghost use Rattle.set_bits.specs.declared.sets.Member.{Member};
ghost use Rattle.set_bits.specs.Fitting.{Fits};
ghost use Rattle.set_bits.specs.Sets.{AscendFrom};
ghost use Rattle.node_encoder.specs.Listing.{room, AreBelow, AreListed};

/// A set of listed slots has no more members than its clafers can have nodes.
pub fn listed_sets_are_few()
    ensures { (clafers : Items Clafer) (scopes : Scopes) (layout : Layout) (ks : Items ℕ) (set : Items Member) →
        Fits clafers scopes layout → AscendFrom 0 set → AreListed layout ks set → length set ≤ room scopes ks }
{}

/// Listed slots are slots of the layout.
pub fn listed_slots_are_there()
    ensures { (layout : Layout) (ks : Items ℕ) (set : Items Member) → AreListed layout ks set → AreBelow (length layout.slots) set }
{}
