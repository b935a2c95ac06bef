ghost use Rattle.std.specs.Prelude.{◌≡◌, ◌&&◌, not};
ghost use Rattle.std.specs.Option.{option_copied};
ghost use Rattle.std.specs.List.{slice_get};
ghost use Rattle.world.specs.Events.{is_call, is_one, is_for_server, is_for_client, can_issue, can_resend, can_take};
ghost use Rattle.world.specs.Events.{can_give_up, can_serve, is_up, is_there, is_down_at, misses, can_restart};
ghost use Rattle.world.specs.Events.{can_stop, is_known, seat_at, serves_at, are_known, can_hint};

use crate::event::StopCause;
use crate::state::{ClientState, ServerState};
use bitmap::Bitmap;
use mds_base::limits::{ATTEMPTS, CALLS};
use mds_base::{Call, PlaceList, RADIX};
use node_core::is_served;
use records::{Msg, MsgList};

/// The client of a number.
pub fn seat_at(clients: &[ClientState], client: u32) -> Option<&ClientState>
    ensures { option_copied result ≡ seat_at clients.now client }
{
    if client == 0 {
        return None;
    }
    clients.get(client as usize - 1)
}

/// The message.
pub fn msg_at(sent: &MsgList, message: u64) -> Option<&Msg>
    ensures { option_copied result ≡ slice_get sent.now message }
{
    sent.get(message as usize)
}

/// Whether a client may number a call and send it.
pub fn can_issue(seat: Option<&ClientState>, call: &Call) -> bool
    ensures { result ≡ can_issue (option_copied seat.entry) call.now }
{
    match seat {
        None => false,
        Some(seat) => {
            (!seat.quit && !seat.client.busy()) && (seat.client.seq() < CALLS && is_call(call))
        }
    }
}

/// Whether a client may send its open call again.
pub fn can_resend(seat: Option<&ClientState>) -> bool
    ensures { result ≡ can_resend (option_copied seat.entry) }
{
    match seat {
        None => false,
        Some(seat) => {
            (!seat.quit && seat.client.busy())
                && (seat.client.seq() < CALLS && seat.client.attempt() < ATTEMPTS)
        }
    }
}

/// Whether a client may take a message.
pub fn can_take(seat: Option<&ClientState>) -> bool
    ensures { result ≡ can_take (option_copied seat.entry) }
{
    match seat {
        None => false,
        Some(seat) => seat.client.seq() < CALLS && seat.client.attempt() < ATTEMPTS,
    }
}

/// Whether a client may give its open call up.
pub fn can_give_up(seat: Option<&ClientState>) -> bool
    ensures { result ≡ can_give_up (option_copied seat.entry) }
{
    match seat {
        None => false,
        Some(seat) => !seat.quit && seat.client.busy(),
    }
}

fn is_call(call: &Call) -> bool
    ensures { result ≡ is_call call.now }
{
    is_served(call) && call.is_well_made()
}

/// Whether a server may serve a message.
pub fn can_serve(state: Option<&ServerState>) -> bool
    ensures { result ≡ can_serve (option_copied state.entry) }
{
    match state {
        None => false,
        Some(state) => state.up && state.node.has_numbers(),
    }
}

/// Whether there is a server, and it is up.
pub fn is_up(state: Option<&ServerState>) -> bool
    ensures { result ≡ is_up (option_copied state.entry) }
{
    match state {
        None => false,
        Some(state) => state.up,
    }
}

/// Whether a server may stop for this cause.
pub fn can_stop(state: Option<&ServerState>, cause: StopCause) -> bool
    ensures { result ≡ can_stop (option_copied state.entry) cause }
{
    match cause {
        StopCause::Asked => is_up(state),
        StopCause::Device => state.is_some(),
    }
}

/// Whether a server may come up with so many of its records in doubt.
pub fn can_restart(state: Option<&ServerState>, kept: u32) -> bool
    ensures { result ≡ can_restart (option_copied state.entry) kept }
{
    match state {
        None => false,
        Some(state) => !state.up && (kept == 0 || kept as usize == state.doubt.records().len()),
    }
}

/// Whether the places are those of one message, which is for the server.
pub fn serves_at(sent: &MsgList, server: u32, places: &PlaceList) -> bool
    ensures { result ≡ serves_at sent.now server places.now }
{
    match places.places() {
        [message] => is_for_server(server, msg_at(sent, *message)),
        _ => false,
    }
}

fn is_for_server(server: u32, msg: Option<&Msg>) -> bool
    ensures { result ≡ is_for_server server (option_copied msg.entry) }
{
    match msg {
        None => false,
        Some(msg) => is_one(server, msg.server()),
    }
}

fn is_one(number: u32, other: Option<u32>) -> bool
    ensures { result ≡ is_one number other }
{
    match other {
        None => false,
        Some(other) => other == number,
    }
}

/// Whether a message is for a client.
pub fn is_for_client(client: u32, msg: Option<&Msg>) -> bool
    ensures { result ≡ is_for_client client (option_copied msg.entry) }
{
    match msg {
        None => false,
        Some(msg) => is_one(client, msg.client()),
    }
}

/// Whether a message is for a server that is down.
pub fn misses(servers: &[ServerState], msg: Option<&Msg>) -> bool
    ensures { result ≡ misses servers.now (option_copied msg.entry) }
{
    match msg {
        None => false,
        Some(msg) => is_down_at(servers, msg.server()),
    }
}

fn is_down_at(servers: &[ServerState], server: Option<u32>) -> bool
    ensures { result ≡ is_down_at servers.now server }
{
    match server {
        None => false,
        Some(server) => is_down(servers.get(server as usize)),
    }
}

fn is_down(state: Option<&ServerState>) -> bool
    ensures { result ≡ (is_there (option_copied state.entry) && not (is_up (option_copied state.entry))) }
{
    match state {
        None => false,
        Some(state) => !state.up,
    }
}

/// Whether a client may merge a bitmap of a directory. That it is well formed is left to its type.
pub fn can_hint(clients: &[ClientState], client: u32, dir: u64, bitmap: &Bitmap) -> bool
    ensures { result ≡ can_hint clients.now client dir bitmap.now }
{
    // A bitmap is well formed, as `has` says.
    let _well_formed = bitmap.has(0);
    seat_at(clients, client).is_some() && are_known(clients, dir, bitmap)
}

fn are_known(clients: &[ClientState], dir: u64, bitmap: &Bitmap) -> bool
    ensures { result ≡ are_known clients.now dir bitmap.now }
{
    // A bitmap has no partition from 2 ^ RADIX on, as `has` says.
    let _whole = bitmap.has(0);
    for part in 0..1 << RADIX {
        if bitmap.has(part) && !is_known(clients, dir, part) {
            return false;
        }
    }
    true
}

fn is_known(clients: &[ClientState], dir: u64, part: u32) -> bool
    ensures { result ≡ is_known clients.now dir part }
{
    clients.iter().any(|seat| seat.client.bitmap(dir).has(part))
}
