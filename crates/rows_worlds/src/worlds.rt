//! Rows of `world`: random schedules of events.
ghost use Rattle.std.specs.Prelude.{◌≡◌, ◌<◌, true};
ghost use Rattle.world.specs.Events.{enabled};

use crate::history::{Effect, History, Issued};
use bitmap::Bitmap;
use mds_base::{Call, Name, NameFault, PlaceList, Reply, Setup, Stamp};
use records::{Msg, MsgList, Record};
use row_words::{Answer, RowFault, Words};
use std::alloc::{AllocError, Global};
use world::{Event, ServeEnd, StopCause, World};

/// `runs FIRST LAST EVENTS SERVERS CLIENTS ANSWERS EFFECTS`: of each seed from FIRST to LAST a schedule of so many
/// random events, of which those that are enabled happen. `ok` where each history is right, and all have at least so
/// many answers and effects; else the seed whose history is wrong, or how few there are.
pub(crate) fn answer(alloc: Global, mut words: Words<'_>) -> Answer {
    match words.word()? {
        "runs" => runs_row(alloc, words),
        _ => Err(RowFault::NotARow),
    }
}

/// What all runs have together.
#[derive(Clone, Copy)]
struct Counts {
    answers: u64,
    effects: u64,
}

fn runs_row(alloc: Global, mut words: Words<'_>) -> Answer {
    let first = words.number()?;
    let last = words.number()?;
    let events = words.small()?;
    let setup = read_setup(&mut words)?;
    let answers = words.number()?;
    let effects = words.number()?;
    words.end()?;
    let mut counts = Counts {
        answers: 0,
        effects: 0,
    };
    for seed in first..=last {
        if !is_right(alloc, seed, events, setup, &mut counts)? {
            return Ok(format!(in alloc; "wrong {seed}")?);
        }
    }
    if counts.answers < answers || counts.effects < effects {
        return Ok(format!(in alloc; "{} answers and {} effects", counts.answers, counts.effects)?);
    }
    Ok(String::from_str(alloc, "ok")?)
}

fn read_setup(words: &mut Words<'_>) -> Result<Setup, RowFault> {
    let servers = words.small()?;
    let clients = words.small()?;
    Ok(Setup {
        servers,
        threshold: 8000,
        lease: 0,
        clients,
    })
}

/// Runs a schedule, and says whether its history is right.
fn is_right(
    alloc: Global,
    seed: u64,
    events: u32,
    setup: Setup,
    counts: &mut Counts,
) -> Result<bool, RowFault> {
    if !setup.is_fit() {
        return Err(RowFault::Refused);
    }
    let mut dice = Dice { state: seed };
    let mut history = History::new(alloc);
    let mut world = World::new(alloc, setup)?;
    for number in 0..events {
        let event = random_event(alloc, &mut dice, &world)?;
        if world.enabled(&event) {
            happen(alloc, &mut world, &mut history, &event, number)?;
        }
    }
    counts.answers = counts.answers.saturating_add(history.answers());
    counts.effects = counts.effects.saturating_add(history.effects());
    Ok(history.is_right(alloc)?)
}

/// Numbers that only look random.
#[derive(Drop)]
struct Dice {
    state: u64,
}

impl Dice {
    fn below(&mut self, sides: u64) -> u64
        requires { 0 < sides }
        ensures { result < sides }
    {
        self.state = self
            .state
            .wrapping_mul(6364136223846793005)
            .wrapping_add(1442695040888963407);
        (self.state >> 33) % sides
    }
}

/// A call on `a` or `b` in directory 1, 2 or 3.
fn random_call(alloc: Global, dice: &mut Dice) -> Result<Call, RowFault> {
    let name = random_name(alloc, dice)?;
    let dir = 1 + dice.below(3);
    Ok(match dice.below(6) {
        0 | 1 => Call::Create { dir, name },
        2 => Call::Mkdir { dir, name },
        3 => Call::Remove { dir, name },
        4 => Call::Setattr {
            dir,
            name,
            mode: 256,
            size: dice.below(1000),
            stamp: random_stamp(dice),
        },
        _ => Call::Lookup { dir, name },
    })
}

/// A stamp, half of the time.
fn random_stamp(dice: &mut Dice) -> Option<Stamp> {
    if dice.below(2) == 0 {
        return None;
    }
    Some(Stamp {
        owner: dice.below(3) as u32,
        mtime: dice.below(1000),
    })
}

fn random_name(alloc: Global, dice: &mut Dice) -> Result<Name, RowFault> {
    let bytes = if dice.below(2) == 0 { b"a" } else { b"b" };
    match Name::read(alloc, bytes.as_slice()) {
        Ok(name) => Ok(name),
        Err(NameFault::BadName) => Err(RowFault::Refused),
        Err(NameFault::OutOfMemory) => Err(RowFault::OutOfMemory),
    }
}

/// The place of one of the last messages, and of the first where there is none.
fn random_place(dice: &mut Dice, sent: &MsgList) -> u64 {
    let back = dice.below(5) as usize;
    if back < sent.len() {
        (sent.len() - 1 - back) as u64
    } else {
        0
    }
}

/// The server to which a message goes, or the client.
fn receiver(sent: &MsgList, message: u64) -> u32 {
    match sent.get(message as usize) {
        Some(Msg::Request { server, .. }) => *server,
        Some(Msg::Answer { client, .. }) => *client,
        _ => 0,
    }
}

/// An event that may well be enabled.
fn random_event(alloc: Global, dice: &mut Dice, world: &World) -> Result<Event, RowFault> {
    let setup = world.setup();
    let client = 1 + dice.below(u64::from(setup.clients)) as u32;
    let server = dice.below(u64::from(setup.servers)) as u32;
    let message = random_place(dice, world.sent());
    match dice.below(26) {
        0..=5 => Ok(Event::Issue {
            client,
            call: random_call(alloc, dice)?,
        }),
        6 => Ok(Event::Resend { client }),
        7..=13 => random_serve(alloc, dice, receiver(world.sent(), message), message),
        14..=18 => Ok(Event::Take {
            client: receiver(world.sent(), message),
            message,
        }),
        number => Ok(rare_event(dice, number, client, server, message)),
    }
}

fn random_serve(
    alloc: Global,
    dice: &mut Dice,
    server: u32,
    message: u64,
) -> Result<Event, RowFault> {
    let mut places = PlaceList::new(alloc);
    places.push(message)?;
    let how = if dice.below(5) == 0 {
        ServeEnd::Stop
    } else {
        ServeEnd::Done
    };
    Ok(Event::Serve {
        server,
        places,
        how,
    })
}

fn rare_event(dice: &mut Dice, number: u64, client: u32, server: u32, message: u64) -> Event {
    match number {
        19 => Event::Stop {
            server,
            cause: StopCause::Asked,
        },
        20 | 21 => Event::Restart {
            server,
            kept: dice.below(2) as u32,
        },
        22 => Event::Miss { message },
        23 => Event::Hint {
            client,
            dir: 1 + dice.below(3),
            bitmap: Bitmap::zero(),
        },
        24 if dice.below(10) == 0 => Event::GiveUp { client },
        24 => Event::Remind { server },
        _ => Event::Tick {
            by: dice.below(100),
        },
    }
}

/// Lets an enabled event happen, and notes its effects.
fn happen(
    alloc: Global,
    world: &mut World,
    history: &mut History,
    event: &Event,
    number: u32,
) -> Result<(), RowFault>
    requires { enabled world.old event.now ≡ true }
{
    let first = world.sent().len();
    if let Event::Restart { server, kept } = event {
        if *kept > 0 {
            note_kept(alloc, world, history, *server, number)?;
        }
    }
    world.step(alloc, event)?;
    match event {
        Event::Issue { client, .. } => note_issued(world, history, *client, number),
        Event::Serve { places, .. } => {
            let message = places.places().first().copied();
            note_served(alloc, world.sent(), history, message, first, number)
        }
        Event::Take { client, message } => {
            note_taken(alloc, world, history, *client, *message, number)
        }
        _ => Ok(()),
    }
}

/// The records in doubt of a server take effect.
fn note_kept(
    alloc: Global,
    world: &World,
    history: &mut History,
    server: u32,
    event: u32,
) -> Result<(), RowFault> {
    let Some(state) = world.servers().get(server as usize) else {
        return Ok(());
    };
    for item in state.doubt.records() {
        if let Record::Served {
            client,
            seq,
            call,
            said,
            ..
        } = item
        {
            history.push_effect(Effect {
                client: *client,
                seq: *seq,
                call: call.copy(alloc)?,
                reply: Reply::Said(*said),
                event,
                answer: None,
            })?;
        }
    }
    Ok(())
}

fn note_issued(
    world: &World,
    history: &mut History,
    client: u32,
    event: u32,
) -> Result<(), RowFault> {
    if let Some(seq) = open_call(world, client) {
        history.push_call(Issued {
            client,
            seq,
            event,
            answered: None,
        })?;
    }
    Ok(())
}

/// The number of the open call of a client, where it has one.
fn open_call(world: &World, client: u32) -> Option<u64> {
    if client == 0 {
        return None;
    }
    let seat = world.clients().get(client as usize - 1)?;
    if seat.client.busy() {
        Some(seat.client.seq())
    } else {
        None
    }
}

/// A request at this place was served, and what was sent for it stands from `first` on.
fn note_served(
    alloc: Global,
    sent: &MsgList,
    history: &mut History,
    message: Option<u64>,
    first: usize,
    event: u32,
) -> Result<(), RowFault> {
    let Some(Msg::Request { ask, .. }) = message.and_then(|at| sent.get(at as usize)) else {
        return Ok(());
    };
    let Some(Msg::Answer { reply, .. }) = sent.get(first) else {
        return Ok(());
    };
    let answer = match ask.call {
        Call::Lookup { .. } => Some(first as u64),
        _ => None,
    };
    // A change that took effect before is answered again, and has no second effect.
    if answer.is_none() && history.has(ask.client, ask.seq) {
        return Ok(());
    }
    history.push_effect(Effect {
        client: ask.client,
        seq: ask.seq,
        call: ask.call.copy(alloc)?,
        reply: reply.copy(alloc)?,
        event,
        answer,
    })?;
    Ok(())
}

/// A client took the message of this number: where it has no open call then, the call was answered by it.
fn note_taken(
    alloc: Global,
    world: &World,
    history: &mut History,
    client: u32,
    message: u64,
    event: u32,
) -> Result<(), RowFault> {
    if open_call(world, client).is_some() {
        return Ok(());
    }
    let Some(Msg::Answer { seq, reply, .. }) = world.sent().get(message as usize) else {
        return Ok(());
    };
    if !history.is_open(client, *seq) {
        return Ok(());
    }
    let reply = reply.copy(alloc)?;
    history.answered(client, *seq, event, message, reply);
    Ok(())
}
