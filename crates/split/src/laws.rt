//! The laws of halves and of their pieces.
ghost use Rattle.std.specs.Prelude.{◌≡◌, ◌<◌, ◌+◌, ◌*◌, ◌^◌, ◌%◌, ℕ, false, true, Bool, not, List, [], map, length};
ghost use Rattle.std.specs.Prelude.{suc, IfSome, IsSome, Some, None};
ghost use Rattle.std.specs.FinMap as map;
ghost use Rattle.mds_base.specs.declared.attr.Attr.{Attr};
ghost use Rattle.mds_base.specs.declared.row.Row.{Row};
ghost use Rattle.mds_base.specs.declared.row_key.RowKey.{RowKey};
ghost use Rattle.mds_base.specs.RowKeys.{RowMap, row_key_cmp, is_in_page, row_of};
ghost use Rattle.name_hash.specs.NameHash.{hash_of};
ghost use Rattle.name_hash.specs.ScanOrder.{place_of};
ghost use Rattle.split.specs.Halves.{is_frozen, is_moving, half_of, IsKeyed, is_half_key, with_rows, without_rows};
ghost use Rattle.split.specs.Pieces.{pieces_in, first_pieces};
ghost use Rattle.mds_base.specs.declared.split_state.SplitState.TheVariants.{Moving};

/// The laws of moving halves (`crates/split/README.md`, "Moving half"), for all rows.
pub fn laws_of_halves()
    // A name of the partition moves exactly where it is frozen.
    ensures frozen { (part depth : ℕ) → (name : List ℕ) → part < 2 ^ depth → hash_of name % 2 ^ depth ≡ part
        → is_moving part depth name ≡ is_frozen (Moving depth) (hash_of name) }

    // Where each row stands at the key of its name, the half is exactly the rows whose names move, in their order,
    ensures exact { (rows : RowMap) → (dir part depth : ℕ) → depth < 64 → part < 2 ^ depth → IsKeyed rows dir part
        → half_of rows dir part depth ≡ map.entries (map.retain_keys rows (is_half_key dir part depth)) }

    // and what is left without them is exactly the other rows.
    ensures rest { (rows : RowMap) → (dir part depth : ℕ) → depth < 64 → part < 2 ^ depth → IsKeyed rows dir part
        → without_rows rows (half_of rows dir part depth)
        ≡ map.retain_keys rows (λ key. not (is_half_key dir part depth key)) }

    // A write of a name that doesn't move leaves the half.
    ensures outside { (rows : RowMap) → (dir part depth : ℕ) → (key : RowKey) → (attr : Attr) → depth < 64
        → part < 2 ^ depth → IsKeyed rows dir part
        → key.rev ≡ place_of key.name → is_half_key dir part depth key ≡ false
        → (half_of (map.insert rows key attr) dir part depth ≡ half_of rows dir part depth)
        × (half_of (map.remove rows key) dir part depth ≡ half_of rows dir part depth) }
{}

/// The laws of pieces, for all rows.
pub fn laws_of_pieces()
    // All of them, joined in order, are the rows.
    ensures joined { (rows : List Row) → first_pieces rows (pieces_in rows) ≡ rows }
{}
