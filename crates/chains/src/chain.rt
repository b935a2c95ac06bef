ghost use Rattle.std.specs.Prelude.{◌≡◌, ℕ, suc, ◌+◌, ◌%◌, ◌^◌, ◌<◌, ◌≤◌, ◌↔◌, length, [], ◌∷◌, ◌++◌};
ghost use Rattle.std.specs.Int.{bit_at};
ghost use Rattle.std.specs.List.{Contains};
ghost use Rattle.std.specs.List.Sorted.{IsStrictlyIncreasing};
ghost use Rattle.chains.specs.Chain.{chain_of, OnChain, FollowsOnChain, IsLastOnChain, IsNextOnChain};

/// The element after `part` on the chain of `hash`, of which `part` has to be an element, and None exactly at
/// the chain's end (`crates/chains/README.md`, "Chain"). In constant time.
pub fn chain_next(radix: u32, hash: u64, part: u32) -> Option<u32>
    requires fits { radix ≤ 32 }
    requires on { OnChain radix hash part }
    ensures { FollowsOnChain radix hash part result }
{
    // What the hash has past `part`: its lowest bit is the one that the next element adds.
    let rest = (hash % (1 << radix)) as u32 - part;
    if rest == 0 {
        return None;
    }
    Some(part + (1 << rest.trailing_zeros()))
}

/// The laws of chains (`crates/chains/README.md`, "Chain"), for every radix and hash.
pub fn laws_of_chains()
    // The list is the rising list of the remainders, and so also that of the sums of set bits.
    ensures rising { (radix hash : ℕ) → IsStrictlyIncreasing (chain_of radix hash) }
    ensures elements { (radix hash part : ℕ) → Contains (chain_of radix hash) part ↔ OnChain radix hash part }
    ensures count { (radix hash : ℕ) → length (chain_of radix hash) ≤ radix + 1 }
    ensures unset_bit { (radix hash : ℕ) → bit_at hash radix ≡ 0 → chain_of (suc radix) hash ≡ chain_of radix hash }
    ensures set_bit { (radix hash : ℕ) → bit_at hash radix ≡ 1
        → chain_of (suc radix) hash ≡ chain_of radix hash ++ (hash % 2 ^ radix + 2 ^ radix) ∷ [] }

    ensures below { (radix hash part : ℕ) → OnChain radix hash part → part < 2 ^ radix }

    // A child is on the chain exactly where the hash is in its range.
    ensures range { (radix hash part depth : ℕ) → depth < radix → part < 2 ^ depth
        → OnChain radix hash (part + 2 ^ depth) ↔ (hash % 2 ^ suc depth ≡ part + 2 ^ depth) }
    ensures parent_range { (radix hash part depth : ℕ) → part < 2 ^ depth
        → OnChain radix hash (part + 2 ^ depth) → hash % 2 ^ depth ≡ part }

    // The chain from one element to the next.
    ensures last { (radix hash part : ℕ) → hash % 2 ^ radix ≡ part → IsLastOnChain radix hash part }
    ensures next { (radix hash part depth : ℕ) → depth < radix → hash % 2 ^ depth ≡ part
        → hash % 2 ^ suc depth ≡ part + 2 ^ depth → IsNextOnChain radix hash part (part + 2 ^ depth) }
{}
