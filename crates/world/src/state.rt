ghost use Rattle.std.specs.Prelude.{◌≡◌, ◌<◌, ◌≤◌, true, false, take, length, IfOk, OnOk, OnErr};
ghost use Rattle.std.specs.FinMap as map;
ghost use Rattle.mds_base.specs.declared.limits.TheConstants.{LEASE_MOST, MOMENTS, SERVERS_MOST};
ghost use Rattle.node_core.specs.Nodes.{has_numbers};
ghost use Rattle.node_core.specs.Serving.{serve, replayed_all, restarted};
ghost use Rattle.node_core.specs.Ranges.{DirFits, RecordFits};
ghost use Rattle.mds_base.specs.Lists.{Each};
ghost use Rattle.world.specs.Worlds.{new_server, new_seat, store_of, with_store};
ghost use Rattle.world.specs.Events.{up_with};

use client_core::Client;
use mds_base::{MapRows, Setup};
use node_core::Node;
use records::{Msg, MsgList, Record, RecordList};
use std::alloc::{AllocError, Global};

/// A server in a world.
#[derive(Debug, Drop)]
pub struct ServerState {
    /// What it keeps beside its rows; where records are in doubt, the node without them.
    pub node: Node,
    /// Its rows.
    pub rows: MapRows,
    /// Whether it is up.
    pub up: bool,
    /// The records in doubt.
    pub doubt: RecordList,
}

impl ServerState {
    /// A server that is up and on which nothing happened yet.
    pub(crate) fn new(alloc: Global, number: u32, setup: Setup) -> ServerState
        requires in_setup { number < setup.servers }
        requires servers { setup.servers ≤ SERVERS_MOST }
        requires lease { setup.lease ≤ LEASE_MOST }
        ensures { result ≡ new_server setup number }
    {
        ServerState {
            node: Node::new(alloc, number, setup),
            rows: MapRows::new(alloc),
            up: true,
            doubt: RecordList::new(alloc),
        }
    }

    /// Serves a message, and hands out the messages to send. Its rows are in memory, so only want of memory refuses it.
    pub(crate) fn serve(
        &mut self,
        alloc: Global,
        msg: &Msg,
        now: u64,
    ) -> Result<MsgList, AllocError>
        requires fits { DirFits msg.now }
        requires moment { now < MOMENTS }
        requires numbers { has_numbers self.old.node ≡ true }
        ensures outputs { IfOk result (λ outputs. outputs ≡ (serve (store_of self.old) msg.now now).outputs) }
        ensures ok { OnOk result (self.new ≡ with_store self.old (serve (store_of self.old) msg.now now).store) }
        ensures doubt { self.new.doubt ≡ self.old.doubt }
    {
        match self.node.serve(alloc, &mut self.rows, msg, now) {
            Ok(handled) => Ok(handled.outputs),
            Err(_) => Err(AllocError),
        }
    }

    /// Works out what serving a message does, and stops before it is made: the records are in doubt. Where there is no
    /// memory for it nothing changes.
    pub(crate) fn stop_serving(
        &mut self,
        alloc: Global,
        msg: &Msg,
        now: u64,
    ) -> Result<(), AllocError>
        requires fits { DirFits msg.now }
        requires moment { now < MOMENTS }
        ensures ok { OnOk result
            (self.new ≡ record {
              node = self.old.node;
              rows = self.old.rows;
              up = false;
              doubt =
                  (serve (store_of self.old) msg.now now).records;
            }) }
        ensures err { OnErr result (self.new ≡ self.old) }
    {
        match self.node.plan(alloc, &mut self.rows, msg, now) {
            Ok(plan) => {
                self.up = false;
                self.doubt = plan.handled.records;
                Ok(())
            }
            Err(_) => Err(AllocError),
        }
    }

    /// Comes up again with the first `kept` of its records in doubt.
    pub(crate) fn restart(&mut self, alloc: Global, kept: u32, now: u64) -> Result<(), AllocError>
        requires kept { kept ≤ length self.old.doubt }
        requires fits { Each self.old.doubt (λ k item. RecordFits item) }
        ensures ok { OnOk result
            (self.new ≡ up_with self.old
            (restarted (replayed_all (store_of self.old) (take kept self.old.doubt)) now)) }
        ensures err { OnErr result (self.new.doubt ≡ self.old.doubt) }
    {
        let items = &self.doubt.records()[..kept as usize];
        replay_all(alloc, &mut self.node, &mut self.rows, items)?;
        self.node.restarted(now);
        self.doubt = RecordList::new(alloc);
        self.up = true;
        Ok(())
    }
}

// Replays records, one after another.
fn replay_all(
    alloc: Global,
    node: &mut Node,
    rows: &mut MapRows,
    items: &[Record],
) -> Result<(), AllocError>
    requires { Each items.now (λ k item. RecordFits item) }
    ensures node { OnOk result
        (node.new ≡ (replayed_all (record { node = node.old; rows = rows.old }) items.now).node) }
    ensures rows { OnOk result
        (rows.new ≡ (replayed_all (record { node = node.old; rows = rows.old }) items.now).rows) }
{
    for item in items {
        if node.replay(alloc, rows, item).is_err() {
            return Err(AllocError);
        }
    }
    Ok(())
}

/// A client in a world.
#[derive(Debug, Drop)]
pub struct ClientState {
    /// The client.
    pub client: Client,
    /// Whether it gave a call up, and so makes no further one.
    pub quit: bool,
}

impl ClientState {
    /// A client that numbered no call yet.
    pub(crate) fn new(alloc: Global, number: u32, setup: Setup) -> ClientState
        requires { 1 ≤ setup.servers }
        ensures { result ≡ new_seat setup number }
    {
        ClientState {
            client: Client::new(alloc, number, setup),
            quit: false,
        }
    }
}
