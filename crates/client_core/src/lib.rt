//! A client without its link: it numbers its calls, sends them, and takes what comes.
//!
//! It stands on `mds_base` for calls and replies, on `name_hash`, `bitmap` and `placement` for where a call is sent,
//! and on `records` for messages. Its contract for the layers above: `issue`, `resend`, `take` and `hint` equal the
//! functions of `specs/Clients.antt` and `specs/Taking.antt`, a message of another call or another sending changes
//! nothing, and where a call is refused the client stays as it was. A call costs a look-up of a bitmap and a copy of
//! the call.
#![tactic(auto)]

mod client;
mod taken;

pub use client::{Client, Pending};
pub use taken::Taken;
