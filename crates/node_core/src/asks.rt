ghost use Rattle.std.specs.Prelude.{◌≡◌};
ghost use Rattle.std.specs.Option.{option_copied};
ghost use Rattle.node_core.specs.Rules.{asked_of, is_served, request_in, shown};

use mds_base::{Ask, Asked, Call, Name};
use records::Msg;

/// What a call asks of a server (`crates/node_core/README.md`, "Serving").
#[derive(Clone, Copy, Debug)]
pub enum Asks<'a> {
    /// A change on a name of a directory.
    Change { dir: u64, name: &'a Name },
    /// A look at a name of a directory.
    Look { dir: u64, name: &'a Name },
    /// What is not served yet.
    NothingYet,
}

/// Whether a call is served yet. One that is not is left without an answer.
pub fn is_served(call: &Call) -> bool
    ensures { result ≡ is_served call.now }
{
    match call {
        Call::Create { .. } => true,
        Call::Mkdir { .. } => true,
        Call::Remove { .. } => true,
        Call::Setattr { .. } => true,
        Call::Lookup { .. } => true,
        _ => false,
    }
}

/// What a call asks of a server.
pub fn asks_of(call: &Call) -> Asks<'_>
    ensures { shown result ≡ asked_of call.now }
{
    if !is_served(call) {
        return Asks::NothingYet;
    }
    match call.asked() {
        Asked::Name { dir, name, changes } => {
            if changes {
                Asks::Change { dir, name }
            } else {
                Asks::Look { dir, name }
            }
        }
        Asked::Directory { .. } => Asks::NothingYet,
        Asked::Partition { .. } => Asks::NothingYet,
    }
}

/// The request that a message is, where it is one: messages of a split are not served yet.
pub fn request_in(msg: &Msg) -> Option<&Ask>
    ensures { option_copied result ≡ request_in msg.now }
{
    match msg {
        Msg::Request { ask, .. } => Some(ask),
        _ => None,
    }
}
