ghost use Rattle.std.specs.Prelude.{◌≡◌, ◌++◌, ◌∷◌, [], IfOk, OnOk, OnErr};

use crate::reply::Final;
use std::alloc::{AllocError, Global};
use std::marker::Model;

/// What a partition keeps of a client: the greatest number of its changes there, and the reply to it.
#[derive(Clone, Copy, Debug, PartialEq, Eq)]
pub struct Session {
    /// The client, from 1.
    pub client: u32,
    /// The number of the change among the client's calls, from 1.
    pub seq: u64,
    /// The reply that it got.
    pub said: Final,
}

/// Sessions in an order; where a partition's sessions are listed, by rising clients.
#[derive(Debug, Drop)]
pub struct SessionList {
    sessions: Vec<Session>,
}

impl Model for SessionList {
    ghost use Rattle.std.specs.Prelude.{List};
    ghost use Rattle.mds_base.specs.declared.session.Session.{Session};

    ghost Value = { List Session };

    ghost view = { λ a. a.sessions.items };
}

impl SessionList {
    /// The list with no session.
    pub fn new(alloc: Global) -> SessionList
        ensures { result ≡ [] }
    {
        SessionList {
            sessions: Vec::new(alloc),
        }
    }

    /// Adds a session at the end. Where there is no memory for it the list stays as it is.
    pub fn push(&mut self, session: Session) -> Result<(), AllocError>
        ensures ok { OnOk result (self.new ≡ self.old ++ session ∷ []) }
        ensures err { OnErr result (self.new ≡ self.old) }
    {
        self.sessions.push(session)?;
        Ok(())
    }

    /// The sessions, in their order.
    pub fn sessions(&self) -> &[Session]
        ensures { result.now ≡ self.now }
    {
        self.sessions.as_slice()
    }

    /// A copy of the list; it is refused only where there is no memory for it.
    pub fn copy(&self, alloc: Global) -> Result<SessionList, AllocError>
        ensures { IfOk result (λ sessions. sessions ≡ self.now) }
    {
        let sessions = Vec::from_slice(alloc, self.sessions.as_slice())?;
        Ok(SessionList { sessions })
    }
}
