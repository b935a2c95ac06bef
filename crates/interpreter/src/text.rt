//! How replies and events are printed (`docs/FORMATS.md`, "Lines carried out"); a call is printed by `script`. A line
//! is written from its end to its front.
ghost use Rattle.std.specs.Prelude.{◌≡◌, ◌++◌, ◌≤◌, ◌+◌, [], length};
ghost use Rattle.interpreter.specs.Text.{effect_line, final_text, kind_text, reply_text, taken_text};
ghost use Rattle.interpreter.specs.declared.text.TheConstants.{REPLY_TEXT};
ghost use Rattle.script.specs.declared.line_text.TheConstants.{LINE_TEXT};

use client_core::Taken;
use mds_base::{Attr, Entry, Final, Reply};
use script::LineText;

/// The most bytes of a reply.
pub(crate) const REPLY_TEXT: usize = 128;

/// What is printed as a line.
pub(crate) trait Printed {
    ghost use Rattle.std.specs.Prelude.{List, ℕ};

    // The line, with its line feed; or nothing.
    ghost text: { Self → List ℕ };

    /// Writes the line.
    fn print(&self, line: &mut LineText)
        requires { line.old ≡ [] }
        ensures { line.new ≡ text self.now };
}

/// Puts what an entry is in front, with its attributes.
fn put_kind(line: &mut LineText, attr: Attr)
    requires { REPLY_TEXT + length line.old ≤ LINE_TEXT }
    ensures text { line.new ≡ kind_text attr ++ line.old }
    ensures room { length line.new + 6 ≤ REPLY_TEXT + length line.old }
{
    line.put_stamp(attr.stamp());
    line.put_spaced(attr.size);
    line.put_spaced(u64::from(attr.mode));
    if attr.dir == 0 {
        line.put(b"file");
    } else {
        line.put_number(attr.dir);
        line.put(b"dir ");
    }
}

/// Puts a final reply in front, as an answer line says it.
fn put_final(line: &mut LineText, said: Final)
    requires { REPLY_TEXT + length line.old ≤ LINE_TEXT }
    ensures text { line.new ≡ final_text said ++ line.old }
    ensures room { length line.new ≤ REPLY_TEXT + length line.old }
{
    match said {
        Final::Created => line.put(b"created"),
        Final::CreatedDir(number) => {
            line.put_number(number);
            line.put(b"created ");
        }
        Final::Exists => line.put(b"exists"),
        Final::Removed => line.put(b"removed"),
        Final::Missing => line.put(b"missing"),
        Final::IsDir => line.put(b"isdir"),
        Final::Set => line.put(b"set"),
        Final::Ids(first) => {
            line.put_number(first);
            line.put(b"ids ");
        }
        Final::Loaded(count) => {
            line.put_number(u64::from(count));
            line.put(b"loaded ");
        }
        Final::Stale => line.put(b"stale"),
        Final::Sealed { depth, epoch } => {
            line.put_spaced(epoch);
            line.put_number(u64::from(depth));
            line.put(b"sealed ");
        }
        Final::NotEmpty => line.put(b"notempty"),
        Final::Late => line.put(b"late"),
        Final::Opened => line.put(b"opened"),
        Final::Killed => line.put(b"killed"),
    }
}

/// Puts a reply in front, as an answer line says it.
fn put_reply(line: &mut LineText, reply: &Reply)
    requires { REPLY_TEXT + length line.old ≤ LINE_TEXT }
    ensures text { line.new ≡ reply_text reply.now ++ line.old }
    ensures room { length line.new ≤ REPLY_TEXT + length line.old }
{
    match reply {
        Reply::Said(said) => put_final(line, *said),
        Reply::Found { attr, .. } => {
            put_kind(line, *attr);
            line.put(b"found ");
        }
        Reply::Listed { rows } => {
            line.put_number(rows.rows().len() as u64);
            line.put(b"listed ");
        }
    }
}

/// Puts in front what a client made of a message, as a line says it; nothing where it went on to the next page or
/// ignored it.
fn put_taken(line: &mut LineText, taken: &Taken)
    requires { REPLY_TEXT + length line.old ≤ LINE_TEXT }
    ensures text { line.new ≡ taken_text taken.now ++ line.old }
    ensures room { length line.new ≤ REPLY_TEXT + length line.old }
{
    match taken {
        Taken::Answer(reply) => put_reply(line, reply),
        Taken::Redirected { part } => {
            line.put_number(u64::from(*part));
            line.put(b"redirect ");
        }
        Taken::Busy { part } => {
            line.put_number(u64::from(*part));
            line.put(b"busy ");
        }
        Taken::Held { until } => {
            line.put_number(*until);
            line.put(b"held ");
        }
        Taken::Paged => {}
        Taken::Ignored => {}
    }
}

/// The line of a client that took a message; nothing where that says nothing.
#[derive(Drop)]
pub(crate) struct TakenLine<'a> {
    /// The client.
    pub(crate) client: u32,
    /// The number of its present call.
    pub(crate) seq: u64,
    /// What it made of the message.
    pub(crate) taken: &'a Taken,
}

impl Printed for TakenLine<'_> {
    ghost use Rattle.interpreter.specs.Text.{taken_line};

    ghost text = { λ line. taken_line line.client line.seq line.taken.now };

    fn print(&self, line: &mut LineText) {
        match self.taken {
            Taken::Paged => {}
            Taken::Ignored => {}
            taken => {
                line.put(b"\n");
                put_taken(line, taken);
                line.put(b" ");
                line.put_spaced(self.seq);
                line.put_number(u64::from(self.client));
            }
        }
    }
}

/// The line of a server that stopped.
#[derive(Drop)]
pub(crate) struct StoppedLine(pub(crate) u32);

impl Printed for StoppedLine {
    ghost use Rattle.std.specs.Prelude.{codes};
    ghost use Rattle.interpreter.specs.Text.{server_line};

    ghost text = { λ line. server_line (codes "stopped ") line.0 };

    fn print(&self, line: &mut LineText) {
        line.put(b"\n");
        line.put_number(u64::from(self.0));
        line.put(b"stopped ");
    }
}

/// The line of a message that met a server that is down.
#[derive(Drop)]
pub(crate) struct DownLine(pub(crate) u32);

impl Printed for DownLine {
    ghost use Rattle.std.specs.Prelude.{codes};
    ghost use Rattle.interpreter.specs.Text.{server_line};

    ghost text = { λ line. server_line (codes "down ") line.0 };

    fn print(&self, line: &mut LineText) {
        line.put(b"\n");
        line.put_number(u64::from(self.0));
        line.put(b"down ");
    }
}

/// Writes the line of a call's effect.
pub(crate) fn print_effect(line: &mut LineText, entry: &Entry)
    requires { line.old ≡ [] }
    ensures { line.new ≡ effect_line entry.now }
{
    line.put(b"\n");
    put_reply(line, &entry.reply);
    line.put(b" ");
    line.put_call(&entry.call);
    line.put(b" ");
    line.put_spaced(entry.seq);
    line.put_number(u64::from(entry.client));
    line.put(b"= ");
}
