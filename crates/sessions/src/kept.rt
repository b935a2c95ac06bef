ghost use Rattle.std.specs.Prelude.{◌≡◌, IfOk, OnOk, OnErr, Some};
ghost use Rattle.std.specs.FinMap as map;
ghost use Rattle.std.specs.Ordering.{nat_cmp};
ghost use Rattle.sessions.specs.Kept.{judge_kept, judged, noted, listed, from_listed, restored};

use mds_base::{Final, Session, SessionList};
use std::alloc::{AllocError, Global};
use std::collections::BTreeMap;
use std::marker::Model;

/// What is kept of a client: the number of its last change, and the reply that this change got.
#[derive(Clone, Copy, Debug, PartialEq, Eq)]
pub struct Kept {
    /// The number of the change among the client's calls.
    pub seq: u64,
    /// Its reply.
    pub said: Final,
}

impl Kept {
    fn judge(&self, seq: u64) -> Judged
        ensures { result ≡ judge_kept (Some self.now) seq }
    {
        if self.seq < seq {
            Judged::New
        } else if self.seq == seq {
            Judged::Again(self.said)
        } else {
            Judged::Old { kept: self.seq }
        }
    }
}

/// How a change stands to what is kept of its client.
#[derive(Clone, Copy, Debug, PartialEq, Eq)]
pub enum Judged {
    /// A smaller number is kept, or none: the change is to be carried out.
    New,
    /// This very number is kept, with the reply that is to be sent again.
    Again(Final),
    /// A greater number is kept: the change is an old one, and nothing is to be sent.
    Old {
        /// The number that is kept.
        kept: u64,
    },
}

/// The sessions of a partition: a finite map from clients to the numbers and the replies of their last changes
/// there (`crates/sessions/README.md`, "Sessions"). A look-up and a note take a time that grows with the logarithm of
/// the number of clients.
#[derive(Debug, Drop)]
pub struct Sessions {
    kept: BTreeMap<u32, Kept>,
}

impl Model for Sessions {
    ghost use Rattle.std.specs.FinMap as map;
    ghost use Rattle.sessions.specs.Kept.{SessionMap};
    ghost use Rattle.std.specs.Coded.{codes};

    ghost Value = { SessionMap };

    ghost coded = { Prim.hlevel (codes, map.code) };

    ghost view = { λ a. map.from_entries a.kept.entries };
}

impl Sessions {
    /// No client has a session.
    pub fn new(alloc: Global) -> Sessions
        ensures { result ≡ map.empty }
    {
        Sessions {
            kept: BTreeMap::new(alloc),
        }
    }

    /// How a change of this client with this number stands to what is kept: `New` exactly where no number is kept
    /// or a smaller one, `Again` exactly where it is this one, `Old` exactly where it is a greater one.
    pub fn judge(&self, client: u32, seq: u64) -> Judged
        ensures { result ≡ judged self.now client seq }
    {
        match self.kept.get(&client) {
            None => Judged::New,
            Some(kept) => kept.judge(seq),
        }
    }

    /// Keeps the number and the reply of a change that was carried out, in place of what was kept of its client.
    /// Where there is no memory for it the sessions stay as they are.
    pub fn note(&mut self, client: u32, seq: u64, said: Final) -> Result<(), AllocError>
        requires { judged self.old client seq ≡ Judged.New }
        ensures ok { OnOk result (self.new ≡ noted self.old client seq said) }
        ensures err { OnErr result (self.new ≡ self.old) }
    {
        self.kept.insert(client, Kept { seq, said })?;
        Ok(())
    }

    /// What is kept of a client. It takes no memory.
    pub fn kept(&self, client: u32) -> Option<Kept>
        ensures { result ≡ map.get self.now client }
    {
        self.kept.get(&client).copied()
    }

    /// Puts back what was kept of a client before a change was noted. It takes no memory.
    pub fn restore(&mut self, client: u32, kept: Option<Kept>)
        ensures { self.new ≡ restored self.old client kept }
    {
        match kept {
            None => {
                let _ = self.kept.remove(&client);
            }
            Some(kept) => put_over(&mut self.kept, client, kept),
        }
    }

    /// The sessions as a list, by rising clients.
    pub fn list(&self, alloc: Global) -> Result<SessionList, AllocError>
        ensures { IfOk result (λ list. list ≡ listed self.now) }
    {
        let _clients = self.kept.len();
        let mut list = SessionList::new(alloc);
        for (client, kept) in &self.kept {
            list.push(Session {
                client: *client,
                seq: kept.seq,
                said: kept.said,
            })?;
        }
        Ok(list)
    }

    /// The sessions that a list names. Where a client stands twice in it, its first session counts; in the lists of
    /// messages and records the clients rise.
    pub fn from_list(alloc: Global, list: &SessionList) -> Result<Sessions, AllocError>
        ensures { IfOk result (λ sessions. sessions ≡ from_listed list.now) }
    {
        let mut kept = BTreeMap::new(alloc);
        let sessions = list.sessions();
        let mut left = sessions.len();
        while left > 0 {
            left -= 1;
            let Session { client, seq, said } = sessions[left];
            kept.insert(client, Kept { seq, said })?;
        }
        Ok(Sessions { kept })
    }

    /// A copy of the sessions; it is refused only where there is no memory for it.
    pub fn copy(&self, alloc: Global) -> Result<Sessions, AllocError>
        ensures { IfOk result (λ sessions. sessions ≡ self.now) }
    {
        let list = self.list(alloc)?;
        Sessions::from_list(alloc, &list)
    }

    /// Forgets all sessions.
    pub fn clear(&mut self)
        ensures { self.new ≡ map.empty }
    {
        self.kept.clear();
    }
}

// Puts a client's session in place of the one that is kept, where one is.
fn put_over(held: &mut BTreeMap<u32, Kept>, client: u32, kept: Kept)
    ensures { map.from_entries {R = nat_cmp} held.new.entries
        ≡ restored (map.from_entries held.old.entries) client (Some kept) }
{
    if let Some(slot) = held.get_mut(&client) {
        *slot = kept;
    }
}
