//! The history of a run of `world`: the effects in their order, and the calls with their answers; and the check that it
//! is legal by the plain rules and has each answered call once.
use mds_base::{Call, Entry, Reply};
use plain_dir::{Check, check_history};
use std::alloc::{AllocError, Global};

/// A call that took effect.
#[derive(Drop)]
pub(crate) struct Effect {
    pub(crate) client: u32,
    pub(crate) seq: u64,
    pub(crate) call: Call,
    pub(crate) reply: Reply,
    /// The event in which it took effect.
    pub(crate) event: u32,
    /// Where the answer stands that has to be taken first, for a lookup.
    pub(crate) answer: Option<u64>,
}

/// A call that was issued.
#[derive(Drop)]
pub(crate) struct Issued {
    pub(crate) client: u32,
    pub(crate) seq: u64,
    /// The event in which it was issued.
    pub(crate) event: u32,
    /// The event in which its answer was taken, and that answer.
    pub(crate) answered: Option<(u32, Reply)>,
}

/// The effects of a run, oldest first, and its calls.
#[derive(Drop)]
pub(crate) struct History {
    effects: Vec<Effect>,
    calls: Vec<Issued>,
}

impl History {
    pub(crate) fn new(alloc: Global) -> History {
        History {
            effects: Vec::new(alloc),
            calls: Vec::new(alloc),
        }
    }

    /// How many calls took effect.
    pub(crate) fn effects(&self) -> u64 {
        self.effects.len() as u64
    }

    /// How many calls were answered.
    pub(crate) fn answers(&self) -> u64 {
        let answered = self.calls.iter().filter(|call| call.answered.is_some());
        answered.count() as u64
    }

    /// Whether a change took effect.
    pub(crate) fn has(&self, client: u32, seq: u64) -> bool {
        self.effects.iter().any(|effect| is_of(effect, client, seq))
    }

    /// Whether a call was issued and not answered yet.
    pub(crate) fn is_open(&self, client: u32, seq: u64) -> bool {
        let mut calls = self.calls.iter();
        calls.any(|call| call.client == client && call.seq == seq && call.answered.is_none())
    }

    pub(crate) fn push_effect(&mut self, effect: Effect) -> Result<(), AllocError> {
        self.effects.push(effect)?;
        Ok(())
    }

    pub(crate) fn push_call(&mut self, call: Issued) -> Result<(), AllocError> {
        self.calls.push(call)?;
        Ok(())
    }

    /// A call was answered: of its lookups the one whose answer stands at this place took effect, and no other one.
    pub(crate) fn answered(&mut self, client: u32, seq: u64, event: u32, place: u64, reply: Reply) {
        self.effects.retain(|effect| {
            !is_of(effect, client, seq) || effect.answer.is_none() || effect.answer == Some(place)
        });
        for effect in self.effects.iter_mut() {
            if is_of(effect, client, seq) {
                effect.answer = None;
            }
        }
        for call in self.calls.iter_mut() {
            if call.client == client && call.seq == seq {
                call.answered = Some((event, reply));
                return;
            }
        }
    }

    /// Whether the effects are a legal history of a plain directory, and each answered call stands among them once,
    /// with its reply, between its issue and its answer.
    pub(crate) fn is_right(&self, alloc: Global) -> Result<bool, AllocError> {
        let entries = self.entries(alloc)?;
        match check_history(alloc, entries.as_slice())? {
            Check::Breaks { .. } => Ok(false),
            Check::Legal => Ok(self.calls.iter().all(|call| self.explains(call))),
        }
    }

    /// The effects as entries of a history; a lookup whose answer was not taken is none.
    fn entries(&self, alloc: Global) -> Result<Vec<Entry>, AllocError> {
        let mut entries = Vec::new(alloc);
        for effect in &self.effects {
            if effect.answer.is_none() {
                entries.push(Entry {
                    client: effect.client,
                    seq: effect.seq,
                    call: effect.call.copy(alloc)?,
                    reply: effect.reply.copy(alloc)?,
                })?;
            }
        }
        Ok(entries)
    }

    /// Whether a call that was answered stands among the effects once; one that was not answered stands there once at
    /// most.
    fn explains(&self, call: &Issued) -> bool {
        let mut times = 0u32;
        for effect in &self.effects {
            if effect.answer.is_none() && is_of(effect, call.client, call.seq) {
                times = times.saturating_add(1);
                if !answers(effect, call) {
                    return false;
                }
            }
        }
        times == 1 || times == 0 && call.answered.is_none()
    }
}

fn is_of(effect: &Effect, client: u32, seq: u64) -> bool {
    effect.client == client && effect.seq == seq
}

/// Whether an effect came after its call was issued and, where it was answered, before that and with this reply.
fn answers(effect: &Effect, call: &Issued) -> bool {
    if effect.event < call.event {
        return false;
    }
    match &call.answered {
        None => true,
        Some((event, reply)) => effect.event <= *event && is_same(&effect.reply, reply),
    }
}

fn is_same(a: &Reply, b: &Reply) -> bool {
    match (a, b) {
        (Reply::Said(a), Reply::Said(b)) => *a == *b,
        (Reply::Found { attr: a, .. }, Reply::Found { attr: b, .. }) => *a == *b,
        _ => false,
    }
}
