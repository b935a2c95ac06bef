ghost use Rattle.std.specs.Prelude.{◌≡◌, ◌∷◌, [], IfOk};
ghost use Rattle.mds_base.specs.Calls.{dir_of};
ghost use Rattle.records.specs.declared.msg.Msg.{Msg};
ghost use Rattle.records.specs.declared.record.Record.{Record};
ghost use Rattle.node_core.specs.Serving.{answer_to};

use bitmap::Bitmap;
use mds_base::{Ask, Final, Reply};
use records::{BoxedBitmap, Handled, Msg, MsgList, Record, RecordList};
use std::alloc::{AllocError, Global};

/// No record.
pub fn no_records(alloc: Global) -> RecordList
    ensures { result ≡ [] }
{
    RecordList::new(alloc)
}

/// Nothing is recorded, and nothing is sent.
pub fn nothing(alloc: Global) -> Handled
    ensures records { result.records ≡ [] }
    ensures outputs { result.outputs ≡ [] }
{
    Handled {
        records: RecordList::new(alloc),
        outputs: MsgList::new(alloc),
    }
}

/// The answer to a request.
pub fn answer(alloc: Global, ask: &Ask, reply: Reply) -> Result<MsgList, AllocError>
    ensures { IfOk result (λ outputs. outputs ≡ answer_to ask.now reply ∷ []) }
{
    let mut outputs = MsgList::new(alloc);
    outputs.push(Msg::Answer {
        client: ask.client,
        seq: ask.seq,
        attempt: ask.attempt,
        reply,
    })?;
    Ok(outputs)
}

/// A request is answered, and nothing is recorded.
pub fn answered(alloc: Global, ask: &Ask, reply: Reply) -> Result<Handled, AllocError>
    ensures records { IfOk result (λ handled. handled.records ≡ []) }
    ensures outputs { IfOk result (λ handled. handled.outputs ≡ answer_to ask.now reply ∷ []) }
{
    let outputs = answer(alloc, ask, reply)?;
    Ok(Handled {
        records: RecordList::new(alloc),
        outputs,
    })
}

/// The record of a change that was carried out in a partition.
pub fn record_of(alloc: Global, ask: &Ask, part: u32, said: Final) -> Result<RecordList, AllocError>
    ensures { IfOk result
        (λ records. records ≡ Record.Served ask.now.client ask.now.seq part ask.now.call said ∷ []) }
{
    let call = ask.call.copy(alloc)?;
    let mut records = RecordList::new(alloc);
    records.push(Record::Served {
        client: ask.client,
        seq: ask.seq,
        part,
        call,
        said,
    })?;
    Ok(records)
}

/// The redirection of a request, with what this server knows of the directory.
pub fn redirected(alloc: Global, ask: &Ask, bitmap: Bitmap) -> Result<Handled, AllocError>
    ensures records { IfOk result (λ handled. handled.records ≡ []) }
    ensures outputs { IfOk result (λ handled. handled.outputs
        ≡ Msg.Redirect ask.now.client ask.now.seq ask.now.attempt (dir_of ask.now.call) bitmap ∷ []) }
{
    let mut outputs = MsgList::new(alloc);
    outputs.push(Msg::Redirect {
        client: ask.client,
        seq: ask.seq,
        attempt: ask.attempt,
        dir: ask.call.dir(),
        bitmap: BoxedBitmap::new(alloc, bitmap)?,
    })?;
    Ok(Handled {
        records: RecordList::new(alloc),
        outputs,
    })
}

/// A request on a name that this partition moves away at this depth is to be sent again later.
pub fn busy(alloc: Global, ask: &Ask, part: u32, depth: u32) -> Result<Handled, AllocError>
    ensures records { IfOk result (λ handled. handled.records ≡ []) }
    ensures outputs { IfOk result (λ handled. handled.outputs
        ≡ Msg.Busy ask.now.client ask.now.seq ask.now.attempt part depth ∷ []) }
{
    let mut outputs = MsgList::new(alloc);
    outputs.push(Msg::Busy {
        client: ask.client,
        seq: ask.seq,
        attempt: ask.attempt,
        part,
        depth,
    })?;
    Ok(Handled {
        records: RecordList::new(alloc),
        outputs,
    })
}
