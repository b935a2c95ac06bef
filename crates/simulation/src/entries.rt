//! What a Serve hands out: messages that are sent, and entries that were made.
ghost use Rattle.std.specs.Prelude.{◌≡◌, ◌++◌, ◌<◌, length, take, is_some, Some, IfOk, OnOk, OnErr, option_copied};
ghost use Rattle.std.specs.Prelude.{IsSome};
ghost use Rattle.std.specs.List.{slice_get};
ghost use Rattle.records.specs.declared.msg.Msg.{Msg};
ghost use Rattle.simulation.specs.Entries.{change_of, changes_of, ended_by, lookup_of, only_of, with_one};
ghost use Rattle.simulation.specs.Entries.{is_lookup, is_lookup_call};
ghost use Rattle.simulation.specs.Moves.{awaiting_all};

use crate::servers::Served;
use crate::waiting::await_all;
use crate::waits::Waits;
use mds_base::Call;
use message_store::MessageStore;
use records::{Handled, Msg, MsgList, Record, RecordList};
use std::alloc::{AllocError, Global};

/// Sends what a Serve of the message handed out, which waits for its servers, and makes its entries; or sends and makes
/// nothing.
pub(crate) fn hand_out(
    alloc: Global,
    messages: &mut MessageStore,
    waiting: &mut Waits,
    message: u64,
    handled: Handled,
) -> Result<Served, AllocError>
    requires { message < length messages.old.sent }
    ensures sent { OnOk result (messages.new.sent ≡ messages.old.sent ++ handled.outputs) }
    ensures made { OnOk result
        ((msg : Msg) → slice_get messages.old.sent message ≡ Some msg
        → messages.new.made
        ≡ with_one (messages.old.made ++ changes_of handled.records)
        (lookup_of msg handled.outputs (length messages.old.sent))) }
    ensures waits { OnOk result
        (waiting.new ≡ awaiting_all waiting.old handled.outputs (length messages.old.sent)) }
    ensures served { IfOk result (λ served. served ≡ ended_by handled.outputs (length messages.old.sent)) }
    ensures err { OnErr result (messages.new ≡ messages.old) }
{
    let first = messages.len() as u64;
    let made = messages.made_len();
    let Handled {
        records,
        mut outputs,
    } = handled;
    let served = ended(&outputs, first);
    await_all(waiting, &outputs, first)?;
    add_changes(alloc, messages, &records, message)?;
    if send_outputs(alloc, messages, message, &mut outputs).is_err() {
        messages.cut_made(made);
        return Err(AllocError);
    }
    Ok(served)
}

// How a Serve ended that was done, by what it sends from a place on.
fn ended(outputs: &MsgList, first: u64) -> Served
    ensures { result ≡ ended_by outputs.now first }
{
    match outputs.get(0) {
        None => Served::Silent,
        Some(_) => Served::Answered { message: first },
    }
}

/// Adds the entries of the changes that records tell of, or none. `request` is the number of the message that asked for
/// them, where there is one.
pub(crate) fn add_changes(
    alloc: Global,
    messages: &mut MessageStore,
    records: &RecordList,
    request: u64,
) -> Result<(), AllocError>
    ensures ok { OnOk result (messages.new.made ≡ messages.old.made ++ changes_of records.now) }
    ensures sent { messages.new.sent ≡ messages.old.sent }
    ensures err { OnErr result (messages.new ≡ messages.old) }
{
    let made = messages.made_len();
    if add_each(alloc, messages, records, request).is_err() {
        messages.cut_made(made);
        return Err(AllocError);
    }
    Ok(())
}

// Adds the entries of the changes that records tell of, or some of them.
fn add_each(
    alloc: Global,
    messages: &mut MessageStore,
    records: &RecordList,
    request: u64,
) -> Result<(), AllocError>
    ensures ok { OnOk result (messages.new.made ≡ messages.old.made ++ changes_of records.now) }
    ensures sent { messages.new.sent ≡ messages.old.sent }
    ensures grows { take (length messages.old.made) messages.new.made ≡ messages.old.made }
{
    for item in records.records() {
        add_change(alloc, messages, item, request)?;
    }
    Ok(())
}

// Adds the entry of the change that a record tells of, where it tells of one.
fn add_change(
    alloc: Global,
    messages: &mut MessageStore,
    item: &Record,
    request: u64,
) -> Result<(), AllocError>
    ensures ok { OnOk result (messages.new.made ≡ with_one messages.old.made (change_of item.now)) }
    ensures sent { messages.new.sent ≡ messages.old.sent }
    ensures err { OnErr result (messages.new.made ≡ messages.old.made) }
{
    let Record::Served {
        client,
        seq,
        call,
        said,
        ..
    } = item
    else {
        return Ok(());
    };
    messages.add_change(alloc, request, *client, *seq, call, *said)?;
    Ok(())
}

// Sends what a Serve of the message hands out, and adds the entry of a lookup where it was one; or nothing.
fn send_outputs(
    alloc: Global,
    messages: &mut MessageStore,
    message: u64,
    outputs: &mut MsgList,
) -> Result<(), AllocError>
    requires { message < length messages.old.sent }
    ensures sent { OnOk result (messages.new.sent ≡ messages.old.sent ++ outputs.old) }
    ensures made { OnOk result
        ((msg : Msg) → slice_get messages.old.sent message ≡ Some msg
        → messages.new.made ≡ with_one messages.old.made (lookup_of msg outputs.old (length messages.old.sent))) }
    ensures err { OnErr result (messages.new ≡ messages.old) }
{
    if is_looked_up(alloc, messages, message, outputs)? {
        messages.append_answer(alloc, message, outputs)?;
    } else {
        messages.append(alloc, outputs)?;
    }
    Ok(())
}

// Whether the message asks for a lookup, and the outputs are one answer.
fn is_looked_up(
    alloc: Global,
    messages: &MessageStore,
    message: u64,
    outputs: &MsgList,
) -> Result<bool, AllocError>
    requires { IsSome (slice_get messages.now.sent message) }
    ensures { (msg : Msg) → slice_get messages.now.sent message ≡ Some msg
        → IfOk result (λ is. is ≡ is_some (lookup_of msg outputs.now 0)) }
{
    match only(outputs) {
        Some(Msg::Answer { .. }) => asks_lookup(alloc, messages, message),
        _ => Ok(false),
    }
}

// The message of a list of one message.
fn only(messages: &MsgList) -> Option<&Msg>
    ensures { option_copied result ≡ only_of messages.now }
{
    if messages.len() != 1 {
        return None;
    }
    messages.get(0)
}

// Whether the message of a number asks for a lookup.
fn asks_lookup(alloc: Global, messages: &MessageStore, message: u64) -> Result<bool, AllocError>
    requires { IsSome (slice_get messages.now.sent message) }
    ensures { (msg : Msg) → slice_get messages.now.sent message ≡ Some msg → IfOk result (λ is. is ≡ is_lookup msg) }
{
    match messages.lent(message as usize) {
        Some(msg) => Ok(is_lookup(msg)),
        None => {
            let Some(msg) = messages.get(alloc, message as usize)? else {
                unreachable!();
            };
            Ok(is_lookup(&msg))
        }
    }
}

fn is_lookup(msg: &Msg) -> bool
    ensures { result ≡ is_lookup msg.now }
{
    match msg {
        Msg::Request { ask, .. } => is_lookup_call(&ask.call),
        _ => false,
    }
}

fn is_lookup_call(call: &Call) -> bool
    ensures { result ≡ is_lookup_call call.now }
{
    match call {
        Call::Lookup { .. } => true,
        _ => false,
    }
}
