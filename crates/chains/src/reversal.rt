ghost use Rattle.std.specs.Prelude.{◌≡◌, ℕ, suc, ◌+◌, ◌-◌, ◌%◌, ◌^◌, ◌<◌, ◌≤◌, ◌↔◌, Bool, IsTrue};
ghost use Rattle.std.specs.Int.{bit_at};
ghost use Rattle.chains.specs.WellFormed.{IsWellFormed};
ghost use Rattle.chains.specs.Located.{located};
ghost use Rattle.chains.specs.Depth.{depth_of, HasNoChildrenFrom};
ghost use Rattle.chains.specs.Reversed.{reversed, first_of, last_of, IsInSpan};
ghost use Rattle.chains.specs.Swapped.{swapped};

/// The number with the bits of a mask and those `by` above them in each other's places.
#[inline]
fn swap(n: u64, by: u32, mask: u64) -> u64
    requires { by < 64 }
    ensures { result ≡ swapped by mask n }
{
    ((n >> by) & mask) | ((n & mask) << by)
}

/// The number with its 64 bits in the opposite order (`crates/chains/README.md`, "Reversed hash").
pub fn reverse(n: u64) -> u64
    ensures { result ≡ reversed 64 n }
{
    // Neighbours first, then pairs, and so on up to the halves.
    let n = swap(n, 1, 0x5555_5555_5555_5555);
    let n = swap(n, 2, 0x3333_3333_3333_3333);
    let n = swap(n, 4, 0x0f0f_0f0f_0f0f_0f0f);
    let n = swap(n, 8, 0x00ff_00ff_00ff_00ff);
    let n = swap(n, 16, 0x0000_ffff_0000_ffff);
    swap(n, 32, 0x0000_0000_ffff_ffff)
}

/// The laws of hashes with their bits in the opposite order (`crates/chains/README.md`, "Reversed hash"), for every
/// width.
pub fn laws_of_reversed_hashes()
    ensures below { (width n : ℕ) → reversed width n < 2 ^ width }
    ensures bits { (width n i : ℕ) → i < width → bit_at (reversed width n) i ≡ bit_at n (width - suc i) }
    ensures twice { (width n : ℕ) → n < 2 ^ width → reversed width (reversed width n) ≡ n }

    // The range of a partition is one interval, and a split moves its upper half.
    ensures interval { (width depth part hash : ℕ) → depth ≤ width → part < 2 ^ depth
        → (hash % 2 ^ depth ≡ part) ↔ IsInSpan width part depth (reversed width hash) }
    ensures upper_half { (width depth part hash : ℕ) → depth < width → part < 2 ^ depth → hash % 2 ^ depth ≡ part
        → (bit_at hash depth ≡ 1) ↔ (reversed width part + 2 ^ (width - suc depth) ≤ reversed width hash) }
{}

/// The laws of spans of reversed hashes (`crates/chains/README.md`, "Reversed hash"), for every width, radix and set.
pub fn laws_of_spans()
    ensures fits { (width depth part : ℕ) → depth ≤ width → part < 2 ^ depth → last_of width part depth < 2 ^ width }

    // A split cuts the span in the middle, and the upper half is the child's.
    ensures middle { (width depth part : ℕ) → depth < width → part < 2 ^ depth
        → first_of width (part + 2 ^ depth) ≡ first_of width part + 2 ^ (width - suc depth) }
    ensures lower_half { (width depth part : ℕ) → depth < width → part < 2 ^ depth
        → last_of width part (suc depth) + 1 ≡ first_of width (part + 2 ^ depth) }
    ensures upper_half { (width depth part : ℕ) → depth < width → part < 2 ^ depth
        → last_of width (part + 2 ^ depth) (suc depth) ≡ last_of width part depth }

    // From a place that is located at a partition up to the end of its span, all places are.
    ensures to_end { (radix width part x y : ℕ) → (set : ℕ → Bool) → IsWellFormed radix set → radix ≤ width
        → x < 2 ^ width → y < 2 ^ width → located radix (reversed width x) set ≡ part → x ≤ y
        → y ≤ last_of width part (depth_of radix part set) → located radix (reversed width y) set ≡ part }

    // So are the places of the span at a lower depth from which on there is no child.
    ensures active { (radix width part depth y : ℕ) → (set : ℕ → Bool) → IsWellFormed radix set → radix ≤ width
        → depth ≤ radix → part < 2 ^ depth → IsTrue (set part) → HasNoChildrenFrom part depth set → y < 2 ^ width
        → IsInSpan width part depth y → located radix (reversed width y) set ≡ part }
    ensures active_to_end { (radix width part depth x y : ℕ) → (set : ℕ → Bool) → IsWellFormed radix set
        → radix ≤ width → depth ≤ radix → IsTrue (set part) → HasNoChildrenFrom part depth set → x < 2 ^ width
        → y < 2 ^ width → reversed width x % 2 ^ depth ≡ part → x ≤ y → y ≤ last_of width part depth
        → located radix (reversed width y) set ≡ part }
{}
