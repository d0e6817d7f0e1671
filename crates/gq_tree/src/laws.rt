//! Laws of plain trees.
ghost use Rattle.std.specs.Prelude.{◌≡◌, List, map};
ghost use Rattle.gq_tree.specs.Forest.{Forest, labels, relabel};
ghost use Rattle.gq_tree.specs.Plain.{Def, place_name, place_def};
ghost use Rattle.gq_tree.specs.Names.{fragment_names};

/// The labels of changed trees are the changed labels.
pub fn labels_are_changed<L, M>()
    ensures { (f : L → M) (trees : Forest L) → labels (relabel f trees) ≡ map f (labels trees) }
{}

/// Two changes of the labels are one.
pub fn changes_are_one<L, M, N>()
    ensures { (g : M → N) (f : L → M) (trees : Forest L) → relabel g (relabel f trees) ≡ relabel (λ l. g (f l)) trees }
{}

/// The names of fragments do not depend on places.
pub fn names_ignore_places<P, Q>()
    ensures { (f : P → Q) (ds : List (Def P)) → fragment_names (map (place_def f) ds) ≡ map (place_name f) (fragment_names ds) }
{}
