//! The set of the messages that wait.
ghost use Rattle.std.specs.Prelude.{◌≡◌, true, OnOk, OnErr};
ghost use Rattle.std.specs.FinSet as set;
ghost use Rattle.simulation.specs.Shows.{AreFew, IsFirst, earlier, waiting_cmp};
ghost use Rattle.simulation.specs.Waits.{last_for, unless_last, with_last};

use std::alloc::{AllocError, Global};
use std::collections::BTreeSet;
use std::marker::Model;

/// The messages that wait for their servers, each by its server and its number.
#[derive(Drop)]
pub(crate) struct Waits {
    // The message that was sent last, where it waits: mostly it waits alone, and is served next.
    last: Option<(u32, u64)>,
    others: BTreeSet<(u32, u64)>,
}

impl Model for Waits {
    ghost use Rattle.std.specs.FinSet as set;
    ghost use Rattle.std.specs.Coded.{codes};
    ghost use Rattle.simulation.specs.Shows.{waiting_cmp};
    ghost use Rattle.simulation.specs.Waits.{with_last};

    ghost Value = { set.FinSet waiting_cmp };

    ghost coded = { Prim.hlevel (codes, set.code) };

    ghost view = { λ a. with_last (set.from_list {R = waiting_cmp} a.others.keys) a.last };
}

/// What waits, where that is at most the message that was sent last.
pub(crate) enum Few {
    None,
    One { server: u32, message: u64 },
    More,
}

impl Waits {
    /// No message.
    pub(crate) fn new(alloc: Global) -> Waits
        ensures { result ≡ set.empty }
    {
        Waits {
            last: None,
            others: BTreeSet::new(alloc),
        }
    }

    /// Has a message wait. Where there is no memory the set stays as it is.
    pub(crate) fn insert(&mut self, server: u32, message: u64) -> Result<(), AllocError>
        ensures ok { OnOk result (self.new ≡ set.insert self.old (server, message)) }
        ensures err { OnErr result (self.new ≡ self.old) }
    {
        settle(&mut self.others, self.last)?;
        self.last = Some((server, message));
        Ok(())
    }

    /// Has a message wait no longer.
    pub(crate) fn remove(&mut self, server: u32, message: u64)
        ensures { self.new ≡ set.remove self.old (server, message) }
    {
        self.last = unless_last(self.last, server, message);
        take_out(&mut self.others, server, message);
    }

    /// What waits, where that is little. It takes constant time.
    pub(crate) fn few(&self) -> Few
        ensures { AreFew self.now result }
    {
        if !self.others.is_empty() {
            return Few::More;
        }
        match self.last {
            None => Few::None,
            Some((server, message)) => Few::One { server, message },
        }
    }

    /// The first number of a message that waits for a server.
    pub(crate) fn first_for(&self, server: u32) -> Option<u64>
        ensures { IsFirst (λ message. set.contains self.now (server, message) ≡ true) result }
    {
        earlier(
            first_among(&self.others, server),
            last_for(self.last, server),
        )
    }
}

// Puts the last message among the others.
fn settle(others: &mut BTreeSet<(u32, u64)>, last: Option<(u32, u64)>) -> Result<(), AllocError>
    ensures ok { OnOk result
        (set.from_list {R = waiting_cmp} others.new.keys ≡ with_last (set.from_list others.old.keys) last) }
    ensures err { OnErr result
        (set.from_list {R = waiting_cmp} others.new.keys ≡ set.from_list {R = waiting_cmp} others.old.keys) }
{
    if let Some(key) = last {
        others.insert(key)?;
    }
    Ok(())
}

// Takes a message out of the others.
fn take_out(others: &mut BTreeSet<(u32, u64)>, server: u32, message: u64)
    ensures { set.from_list {R = waiting_cmp} others.new.keys
        ≡ set.remove (set.from_list others.old.keys) (server, message) }
{
    let _ = others.remove(&(server, message));
}

// The last message, where it is another than this.
fn unless_last(last: Option<(u32, u64)>, server: u32, message: u64) -> Option<(u32, u64)>
    ensures { result ≡ unless_last last (server, message) }
{
    match last {
        None => None,
        Some((of, number)) => {
            if of == server && number == message {
                None
            } else {
                Some((of, number))
            }
        }
    }
}

// The number of the last message, where it waits for a server.
fn last_for(last: Option<(u32, u64)>, server: u32) -> Option<u64>
    ensures { result ≡ last_for last server }
{
    match last {
        None => None,
        Some((of, message)) => { if of == server { Some(message) } else { None } }
    }
}

// The first number of one of the others that waits for a server.
fn first_among(others: &BTreeSet<(u32, u64)>, server: u32) -> Option<u64>
    ensures { IsFirst (λ message. set.contains (set.from_list {R = waiting_cmp} others.now.keys) (server, message)
        ≡ true)
        result }
{
    match others.range(&(server, 0)..).next() {
        None => None,
        Some((of, message)) => {
            if *of != server {
                return None;
            }
            Some(*message)
        }
    }
}

/// The earlier one of two places, where there are any.
pub(crate) fn earlier(a: Option<u64>, b: Option<u64>) -> Option<u64>
    ensures { result ≡ earlier a b }
{
    match (a, b) {
        (None, b) => b,
        (Some(a), None) => Some(a),
        (Some(a), Some(b)) => Some(a.min(b)),
    }
}
