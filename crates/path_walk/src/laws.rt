ghost use Rattle.std.specs.Prelude.{◌≡◌, List, ℕ, map};
ghost use Rattle.mds_base.specs.declared.walked.Walked.{Walked};
ghost use Rattle.path_walk.specs.declared.asker.Lookup.{Lookup};
ghost use Rattle.path_walk.specs.Walks.{IsWalk};

/// The laws of walks, for all paths and all answers.
pub fn laws_of_walks()
    // A path and the answers on its way have one walk: the same asks, and the same verdict.
    ensures one { (path : List ℕ) → (asks others : List Lookup) → (verdict other : Walked)
        → IsWalk path asks verdict → IsWalk path others other
        → map (λ ask. ask.answer) asks ≡ map (λ ask. ask.answer) others → (asks ≡ others) × (verdict ≡ other) }
{}
