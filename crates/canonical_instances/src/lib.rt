//! The law of canonical instances: each instance becomes canonical by new numbers for its nodes.
#![tactic(auto)]

ghost use Rattle.std.specs.Prelude.{◌↔◌, IsTrue, List};
ghost use Rattle.clf_tree.specs.declared.model.Clafer.{Clafer};
ghost use Rattle.clf_tree.specs.declared.instance.Entry.{Entry};
ghost use Rattle.clf_tree.specs.Nodes.{is_ordered};
ghost use Rattle.canonical_instances.specs.Canonical.{is_canonical, IsCanonical};
ghost use Rattle.canonical_instances.specs.Exists.{NewNumbersAreCanonical, NewNumbersRename, SatisfyingHaveCanonical, TreesHaveCanonical};

/// Each instance that satisfies a model within its scopes is isomorphic to a canonical one that satisfies it too, and their
/// goals have equal values. Of each instance within the scopes whose entries make trees there is a canonical one of which
/// every model says the same.
///
/// The new numbers of a clafer follow those of its owners: nodes that are there come first, then those with the earlier
/// parent, then those with the smaller number. They are a renaming, and the entries that have them, put in order, are canonical.
pub fn each_instance_has_a_canonical_one()
    ensures trees { TreesHaveCanonical }
    ensures satisfying { SatisfyingHaveCanonical }
    ensures renaming { NewNumbersRename }
    ensures renumbered { NewNumbersAreCanonical }
{}

/// The test of canonical instances is exact: of ordered entries it says that for each clafer the numbers are 0 to n - 1 for some n, and
/// that of two of one nested clafer the one with the smaller number has no later parent.
pub fn canonical_is_tested()
    ensures { (clafers : List Clafer) (entries : List Entry) → IsTrue (is_ordered entries)
        → IsTrue (is_canonical clafers entries) ↔ IsCanonical clafers entries }
{}
