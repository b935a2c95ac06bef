ghost use Rattle.std.specs.Prelude.{◌≡◌, ◌<◌, ◌≤◌, ℕ, List, Bool, true, false};
ghost use Rattle.std.specs.FinMap as map;
ghost use Rattle.mds_base.specs.declared.reply.Reply.{Reply};
ghost use Rattle.mds_base.specs.declared.row_key.RowKey.{RowKey};
ghost use Rattle.mds_base.specs.Calls.{OnName, asked_of, dir_of};
ghost use Rattle.mds_base.specs.Entries.{Entries};
ghost use Rattle.mds_base.specs.PlainRules.{Allows, after};
ghost use Rattle.mds_base.specs.RowKeys.{RowMap};
ghost use Rattle.leases.specs.Leases.{LeasesV, granted, swept};
ghost use Rattle.partition.specs.declared.plan.Step.TheVariants.{Said};
ghost use Rattle.partition.specs.Replies.{IsServed};
ghost use Rattle.partition.specs.Serving.{edits_in, IsInPart};
ghost use Rattle.partition.specs.Meaning.{CallIn, plan_in, part_left, rows_left, IsCarried};
ghost use Rattle.partition.specs.Meaning.{names_of, IsApart, AreWithin, Mirrors, count_in};

/// The laws of serving in a partition (`crates/partition/README.md`, "Serving in a partition"), for all partitions,
/// rows, calls and moments.
pub fn laws_of_serving()
    // No row changes but those of the call's names, and none where a call on a name was refused.
    ensures rows { (at : CallIn) → (key : RowKey) → IsApart at.dir at.number (names_of at.ask.call) key
        → map.get (rows_left at) key ≡ map.get at.rows key }
    ensures refused { (at : CallIn) → (left : RowMap) → (d : ℕ) → (name : List ℕ)
        → asked_of at.ask.call ≡ OnName d name true
        → IsInPart at.rows (edits_in (plan_in at).change) left → left ≡ at.rows }

    // A change that is carried out is a step of the plain rules, on the entries of the names that lie in the partition.
    ensures plain { (at : CallIn) → (within : List ℕ → Bool) → (entries : Entries) → (reply : Reply)
        → Mirrors within entries at.dir at.rows at.number → IsServed at.ask.call → dir_of at.ask.call ≡ at.dir
        → AreWithin within (names_of at.ask.call) → IsCarried (plan_in at) reply
        → Allows entries at.ask.call reply
        × Mirrors within (after entries at.ask.call reply) at.dir (rows_left at) at.number }

    // What a lookup is answered is allowed by them too.
    ensures looked { (at : CallIn) → (within : List ℕ → Bool) → (entries : Entries) → (reply : Reply)
        → (d : ℕ) → (name : List ℕ)
        → Mirrors within entries at.dir at.rows at.number → asked_of at.ask.call ≡ OnName d name false
        → dir_of at.ask.call ≡ at.dir → within name ≡ true → (plan_in at).step ≡ Said reply
        → Allows entries at.ask.call reply }

    // The leases that have ended may as well be dropped before a lease of some length is granted; one of none is not
    // kept.
    ensures first { (leases : LeasesV) → (name : List ℕ) → (until now : ℕ) → now < until
        → swept (granted leases name until) now ≡ granted (swept leases now) name until }
    ensures not_kept { (leases : LeasesV) → (name : List ℕ) → (until now : ℕ) → until ≤ now
        → swept (granted leases name until) now ≡ swept leases now }

    // The count stays the number of the partition's rows.
    ensures counted { (at : CallIn) → at.part.count ≡ count_in at.rows at.dir at.number
        → (part_left at).count ≡ count_in (rows_left at) at.dir at.number }
{}
