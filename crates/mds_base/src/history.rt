ghost use Rattle.std.specs.Prelude.{◌≡◌, ◌≤◌, List, ◌++◌, ◌∷◌, [], nat_eq};
ghost use Rattle.std.specs.List.{AllByRecursion, IsDistinct};
ghost use Rattle.std.specs.FinMap as map;
ghost use Rattle.mds_base.specs.declared.entry.Entry.{Entry};
ghost use Rattle.mds_base.specs.declared.call.Call.{Call};
ghost use Rattle.mds_base.specs.declared.reply.Reply.{Reply};
ghost use Rattle.mds_base.specs.Entries.{Place, Entries};
ghost use Rattle.mds_base.specs.PlainRules.{PlainStep, Allows, given_by};
ghost use Rattle.mds_base.specs.History.{IsLegal, IsLookup, Spares, map_after, given};

/// The laws of plain rules and legal histories (`crates/mds_base/README.md`), for all maps and histories.
pub fn laws_of_histories()
    // The map after a step is determined by the map before, the call and the reply.
    ensures one_map { (old m n : Entries) → (call : Call) → (reply : Reply) → PlainStep old call reply m
        → PlainStep old call reply n → m ≡ n }

    // A history's front is legal, and leads to where the rest goes on.
    ensures front { (start : Entries) → (front rest : List Entry) → IsLegal start (front ++ rest)
        → IsLegal start front }
    ensures leads_on { (start : Entries) → (front rest : List Entry)
        → map_after start (front ++ rest) ≡ map_after (map_after start front) rest }
    ensures rest { (start : Entries) → (front rest : List Entry) → IsLegal start (front ++ rest)
        → IsLegal (map_after start front) rest }

    // One entry more, which the rules allow at the end and which gives no number that was given.
    ensures one_more { (start : Entries) → (history : List Entry) → (entry : Entry) → IsLegal start history
        → Allows (map_after start history) entry.call entry.reply
        → AllByRecursion (λ number. 2 ≤ number) (given_by entry.call entry.reply)
        → IsDistinct nat_eq (given history ++ given_by entry.call entry.reply) → IsLegal start (history ++ entry ∷ []) }
    ensures more_legal { (start : Entries) → (history : List Entry) → (entry : Entry)
        → IsLegal start (history ++ entry ∷ []) → Allows (map_after start history) entry.call entry.reply }

    // What no entry speaks of stays.
    ensures stays { (start : Entries) → (history : List Entry) → (place : Place) → Spares place history
        → map.get (map_after start history) place ≡ map.get start place }

    // Two maps with the same look-ups are one.
    ensures same { (m n : Entries) → ((place : Place) → map.get m place ≡ map.get n place) → m ≡ n }

    // A lookup that is dropped leaves a legal history legal, with the same end.
    ensures dropped { (start : Entries) → (front rest : List Entry) → (entry : Entry) → IsLookup entry
        → IsLegal start (front ++ entry ∷ rest) → IsLegal start (front ++ rest) }
    ensures same_end { (start : Entries) → (front rest : List Entry) → (entry : Entry) → IsLookup entry
        → map_after start (front ++ entry ∷ rest) ≡ map_after start (front ++ rest) }
{}
