ghost use Rattle.std.specs.Prelude.{◌≡◌, ℕ, true};
ghost use Rattle.records.specs.declared.msg.Msg.{Msg};
ghost use Rattle.records.specs.declared.record.Record.{Record};
ghost use Rattle.node_core.specs.Nodes.{NodeAndRows, has_numbers};
ghost use Rattle.node_core.specs.Durable.{durable, ReplaysDurably};
ghost use Rattle.node_core.specs.Serving.{serve, replayed_all};
ghost use Rattle.node_core.specs.Terms.{ReplaysOnAllTerms};

/// The laws on replay (`crates/node_core/README.md`, "Durable"), for all stores, messages, moments and records:
/// replaying the records of a message that was served gives what a log can bring back of the node and the rows that
/// serving made; and replaying goes the same way at what a log can bring back of a store.
pub fn laws_of_replay()
    ensures served { (store : NodeAndRows) → (msg : Msg) → (now : ℕ) → has_numbers store.node ≡ true
        → replayed_all (durable store) (serve store msg now).records ≡ durable (serve store msg now).store }
    ensures replayed { (store : NodeAndRows) → (item : Record) → ReplaysDurably store item }
{}

/// The law on terms (`crates/node_core/README.md`, "Terms"): on all terms that share the head of a log with those of a
/// store, the same records may follow, and they lead to the same store but for its terms.
pub fn laws_of_terms()
    ensures { ReplaysOnAllTerms }
{}
