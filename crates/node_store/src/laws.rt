//! Laws of what a disk stands for.
ghost use Rattle.std.specs.Prelude.{◌≡◌, ℕ, List};
ghost use Rattle.mds_base.specs.declared.setup.Setup.{Setup};
ghost use Rattle.mds_base.specs.declared.store_fault.Damage.{Damage};
ghost use Rattle.records.specs.Spelling.{IsHead};
ghost use Rattle.node_core.specs.Durable.{durable};
ghost use Rattle.node_core.specs.Nodes.{NodeAndRows};
ghost use Rattle.node_core.specs.Terms.{SharesHead, store_on};
ghost use Rattle.node_store.specs.Damage.{IsDamaged, IsDamagedAtRestart};
ghost use Rattle.node_store.specs.Stands.{FileStandsFor, StandsForNone};

/// The laws of what a file stands for (`crates/node_store/README.md`, "What a disk stands for"), for all servers,
/// setups, files and stores.
pub fn laws_of_disks()
    // A file stands for one store at most, so far as a log can bring it back.
    ensures one { (server : ℕ) → (setup : Setup) → (file : List ℕ) → (a b : NodeAndRows)
        → FileStandsFor server setup file a
        → FileStandsFor server setup file b → durable a ≡ durable b }

    // A file that stands for a store is not damaged.
    ensures sound { (server : ℕ) → (setup : Setup) → (file : List ℕ) → (store : NodeAndRows) → (offset : ℕ)
        → (damage : Damage) → IsHead 1 setup.servers server setup.threshold
        → FileStandsFor server setup file store → IsDamaged server setup file offset damage → ⊥ }

    // On other terms that share the head a file stands for the same store, on those terms.
    ensures terms { (server : ℕ) → (setup terms : Setup) → SharesHead setup terms → (file : List ℕ)
        → (store : NodeAndRows) → FileStandsFor server setup file store
        → FileStandsFor server terms file (store_on terms store) }

    // One that a restart finds damaged has no log that stands for a store.
    ensures none { (server : ℕ) → (setup : Setup) → (file : List ℕ) → (offset : ℕ) → (damage : Damage)
        → IsHead 1 setup.servers server setup.threshold
        → IsDamagedAtRestart server setup file offset damage → StandsForNone server setup file }
{}
