//! Reads a line, word by word.
ghost use Rattle.std.specs.Prelude.{◌≡◌, ◌↔◌, ℕ, List, Ok, false, IfOk, IfSome, IsErrOf, IsTrue, MatchBool};
ghost use Rattle.std.specs.Str.Parse.{digits_value};
ghost use Rattle.mds_base.specs.declared.limits.TheConstants.{BATCH_MOST};
ghost use Rattle.mds_base.specs.declared.setup.Setup.{Setup};
ghost use Rattle.script.specs.declared.line.Line.{Line};
ghost use Rattle.script.specs.Grammar.{IsSpelled, Number, IsNumeral, IsComment, IsLine, IsWithin, keeps};
ghost use Rattle.script.specs.Text.{line_text, ArePrinted};
ghost use Rattle.script.specs.Answers.{Finds, Gives, OnMemory, IsLineOrMemory};
ghost use Rattle.script.specs.Reading.{numbers_at, call_line, issue_line, retry_line, deliver_line, batch_line};
ghost use Rattle.script.specs.Reading.{take_line, remind_line, tick_line, fuse_line, stop_line, restart_line};
ghost use Rattle.script.specs.Reading.{walk_line, bulk_line, rmdir_line, feed_line, promote_line, line_after, line_of};

use crate::asking::asked;
use crate::fault::{LineFault, Outside};
use crate::line::Line;
use crate::unread::Unread;
use crate::verb::{Verb, verb_of};
use mds_base::limits::{BATCH_MOST, FUSE_MOST, TICK_MOST};
use mds_base::{PlaceList, Setup};
use std::alloc::Global;

/// Reads bytes, a line without its end, as what the line says. They are refused as `NotALine` exactly where they are
/// outside the grammar (`docs/FORMATS.md`, "Lines of a script"), and as `OutOfMemory` only where there is no memory for
/// a name, a path, a text or places of the line.
/// Whether the line is allowed at its place in a script is not tested here.
pub fn read_line(alloc: Global, bytes: &[u8], setup: &Setup) -> Result<Line, LineFault>
    // What is read is what the bytes say.
    ensures found { IfOk result (λ line. IsLine setup.now bytes.now line) }
    // What the bytes say is read, unless there is no memory.
    ensures only { (line : Line) → IsLine setup.now bytes.now line → IsLineOrMemory result line }
    // A line that keeps no bytes is read whatever memory there is.
    ensures plain { (line : Line) → IsLine setup.now bytes.now line → keeps line ≡ false → result ≡ Ok line }
    ensures not_a_line { IsErrOf result LineFault.NotALine → (line : Line) → IsLine setup.now bytes.now line → ⊥ }
{
    if is_comment(bytes) {
        return Ok(Line::Skipped);
    }
    line(alloc, bytes, setup)
}

fn is_comment(bytes: &[u8]) -> bool
    ensures { MatchBool result (IsComment bytes.now) (IsComment bytes.now → ⊥) }
{
    bytes.first() == Some(&b'#')
}

/// The line that the words of these bytes are.
#[tactic(auto, unfolding(crate::specs::Reading::line_of, crate::specs::Reading::line_from, crate::specs::Reading::is_end))]
fn line(alloc: Global, bytes: &[u8], setup: &Setup) -> Result<Line, LineFault>
    ensures gives { Gives (λ line. line) result (line_of setup.now bytes.now) }
    ensures memory { OnMemory result (IfSome (line_of setup.now bytes.now) (λ line. IsTrue (keeps line))) }
{
    let mut unread = Unread::new(bytes);
    let Ok(word) = unread.word() else {
        return Ok(Line::Skipped);
    };
    let Some(verb) = verb_of(word) else {
        return Err(LineFault::NotALine);
    };
    let line = line_after(alloc, verb, &mut unread, setup)?;
    if !unread.is_end() {
        return Err(LineFault::NotALine);
    }
    Ok(line)
}

/// The line of this verb.
#[tactic(auto, unfolding(crate::specs::Reading::line_after))]
fn line_after(
    alloc: Global,
    verb: Verb,
    unread: &mut Unread<'_>,
    setup: &Setup,
) -> Result<Line, LineFault>
    ensures gives { Gives (λ line. (line, unread.new)) result (line_after verb setup.now unread.old) }
    ensures memory { OnMemory result (IfSome (line_after verb setup.now unread.old) (λ x. IsTrue (keeps x.0))) }
{
    match verb {
        Verb::Call => call_line(alloc, unread, setup),
        Verb::Issue => issue_line(alloc, unread, setup),
        Verb::Retry => Ok(retry_line(unread, setup)?),
        Verb::Deliver => Ok(deliver_line(unread)?),
        Verb::Batch => batch_line(alloc, unread, setup),
        Verb::Take => Ok(take_line(unread, setup)?),
        Verb::Settle => Ok(Line::Settle),
        Verb::Remind => Ok(remind_line(unread, setup)?),
        Verb::Tick => Ok(tick_line(unread)?),
        Verb::Fuse => Ok(fuse_line(unread, setup)?),
        Verb::Stop => Ok(stop_line(unread, setup)?),
        Verb::Restart => Ok(restart_line(unread, setup)?),
        Verb::Walk => walk_line(alloc, unread, setup),
        Verb::Bulk => bulk_line(alloc, unread, setup),
        Verb::Rmdir => rmdir_line(alloc, unread, setup),
        Verb::Feed => Ok(feed_line(unread, setup)?),
        Verb::Promote => Ok(promote_line(unread, setup)?),
    }
}

#[tactic(auto, unfolding(crate::specs::Reading::call_line))]
fn call_line(alloc: Global, unread: &mut Unread<'_>, setup: &Setup) -> Result<Line, LineFault>
    ensures gives { Gives (λ line. (line, unread.new)) result (call_line setup.now unread.old) }
    ensures memory { OnMemory result (IfSome (call_line setup.now unread.old) (λ x. IsTrue (keeps x.0))) }
{
    let (client, call) = asked(alloc, unread, setup)?;
    Ok(Line::Call { client, call })
}

#[tactic(auto, unfolding(crate::specs::Reading::issue_line))]
fn issue_line(alloc: Global, unread: &mut Unread<'_>, setup: &Setup) -> Result<Line, LineFault>
    ensures gives { Gives (λ line. (line, unread.new)) result (issue_line setup.now unread.old) }
    ensures memory { OnMemory result (IfSome (issue_line setup.now unread.old) (λ x. IsTrue (keeps x.0))) }
{
    let (client, call) = asked(alloc, unread, setup)?;
    Ok(Line::Issue { client, call })
}

#[tactic(auto, unfolding(crate::specs::Reading::retry_line))]
fn retry_line(unread: &mut Unread<'_>, setup: &Setup) -> Result<Line, Outside>
    ensures { Finds (λ line. (line, unread.new)) result (retry_line setup.now unread.old) }
{
    let client = unread.client(setup)?;
    Ok(Line::Retry { client })
}

#[tactic(auto, unfolding(crate::specs::Reading::deliver_line))]
fn deliver_line(unread: &mut Unread<'_>) -> Result<Line, Outside>
    ensures { Finds (λ line. (line, unread.new)) result (deliver_line unread.old) }
{
    let message = unread.number()?;
    Ok(Line::Deliver { message })
}

#[tactic(auto, unfolding(crate::specs::Reading::batch_line))]
fn batch_line(alloc: Global, unread: &mut Unread<'_>, setup: &Setup) -> Result<Line, LineFault>
    ensures { Gives (λ line. (line, unread.new)) result (batch_line setup.now unread.old) }
{
    let server = unread.server(setup)?;
    let places = places(alloc, unread)?;
    if places.places().is_empty() {
        return Err(LineFault::NotALine);
    }
    Ok(Line::Batch { server, places })
}

/// As many places as there are, but at most `BATCH_MOST`.
fn places(alloc: Global, unread: &mut Unread<'_>) -> Result<PlaceList, LineFault>
    ensures { Gives (λ places. (places, unread.new)) result (numbers_at BATCH_MOST unread.old) }
{
    let mut places = PlaceList::new(alloc);
    let mut most = BATCH_MOST;
    while most > 0 && !unread.is_end() {
        let place = unread.number()?;
        places.push(place)?;
        most -= 1;
    }
    Ok(places)
}

#[tactic(auto, unfolding(crate::specs::Reading::take_line))]
fn take_line(unread: &mut Unread<'_>, setup: &Setup) -> Result<Line, Outside>
    ensures { Finds (λ line. (line, unread.new)) result (take_line setup.now unread.old) }
{
    let client = unread.client(setup)?;
    let message = unread.number()?;
    Ok(Line::Take { client, message })
}

#[tactic(auto, unfolding(crate::specs::Reading::remind_line))]
fn remind_line(unread: &mut Unread<'_>, setup: &Setup) -> Result<Line, Outside>
    ensures { Finds (λ line. (line, unread.new)) result (remind_line setup.now unread.old) }
{
    let server = unread.server(setup)?;
    Ok(Line::Remind { server })
}

#[tactic(auto, unfolding(crate::specs::Reading::tick_line))]
fn tick_line(unread: &mut Unread<'_>) -> Result<Line, Outside>
    ensures { Finds (λ line. (line, unread.new)) result (tick_line unread.old) }
{
    let by = unread.number_within(1, TICK_MOST)?;
    Ok(Line::Tick { by })
}

#[tactic(auto, unfolding(crate::specs::Reading::fuse_line))]
fn fuse_line(unread: &mut Unread<'_>, setup: &Setup) -> Result<Line, Outside>
    ensures { Finds (λ line. (line, unread.new)) result (fuse_line setup.now unread.old) }
{
    let server = unread.server(setup)?;
    let calls = unread.number_within(0, FUSE_MOST)?;
    Ok(Line::Fuse { server, calls })
}

#[tactic(auto, unfolding(crate::specs::Reading::stop_line))]
fn stop_line(unread: &mut Unread<'_>, setup: &Setup) -> Result<Line, Outside>
    ensures { Finds (λ line. (line, unread.new)) result (stop_line setup.now unread.old) }
{
    let server = unread.server(setup)?;
    Ok(Line::Stop { server })
}

#[tactic(auto, unfolding(crate::specs::Reading::restart_line))]
fn restart_line(unread: &mut Unread<'_>, setup: &Setup) -> Result<Line, Outside>
    ensures { Finds (λ line. (line, unread.new)) result (restart_line setup.now unread.old) }
{
    let server = unread.server(setup)?;
    Ok(Line::Restart { server })
}

#[tactic(auto, unfolding(crate::specs::Reading::walk_line))]
fn walk_line(alloc: Global, unread: &mut Unread<'_>, setup: &Setup) -> Result<Line, LineFault>
    ensures { Gives (λ line. (line, unread.new)) result (walk_line setup.now unread.old) }
{
    let client = unread.client(setup)?;
    let path = unread.raw_word(alloc)?;
    Ok(Line::Walk { client, path })
}

#[tactic(auto, unfolding(crate::specs::Reading::bulk_line))]
fn bulk_line(alloc: Global, unread: &mut Unread<'_>, setup: &Setup) -> Result<Line, LineFault>
    ensures { Gives (λ line. (line, unread.new)) result (bulk_line setup.now unread.old) }
{
    let client = unread.client(setup)?;
    let (dir, name) = unread.place(alloc)?;
    let json = unread.raw_rest(alloc)?;
    Ok(Line::Bulk {
        client,
        dir,
        name,
        json,
    })
}

#[tactic(auto, unfolding(crate::specs::Reading::rmdir_line))]
fn rmdir_line(alloc: Global, unread: &mut Unread<'_>, setup: &Setup) -> Result<Line, LineFault>
    ensures { Gives (λ line. (line, unread.new)) result (rmdir_line setup.now unread.old) }
{
    let client = unread.client(setup)?;
    let (dir, name) = unread.place(alloc)?;
    Ok(Line::Rmdir { client, dir, name })
}

#[tactic(auto, unfolding(crate::specs::Reading::feed_line))]
fn feed_line(unread: &mut Unread<'_>, setup: &Setup) -> Result<Line, Outside>
    ensures { Finds (λ line. (line, unread.new)) result (feed_line setup.now unread.old) }
{
    let server = unread.server(setup)?;
    Ok(Line::Feed { server })
}

#[tactic(auto, unfolding(crate::specs::Reading::promote_line))]
fn promote_line(unread: &mut Unread<'_>, setup: &Setup) -> Result<Line, Outside>
    ensures { Finds (λ line. (line, unread.new)) result (promote_line setup.now unread.old) }
{
    let server = unread.server(setup)?;
    Ok(Line::Promote { server })
}

/// What holds of all lines: bytes say one line, a line that is printed is read back, and the words that are numbers
/// are those of 1 to 20 digits without a leading zero but in `0`.
pub fn laws_of_lines()
    ensures one { (setup : Setup) → (bytes : List ℕ) → (a b : Line) → IsLine setup bytes a → IsLine setup bytes b
        → a ≡ b }
    ensures printed { (setup : Setup) → (line : Line) → IsWithin setup line → ArePrinted line
        → IsLine setup (line_text line) line }
    ensures numbers { (word : List ℕ) → (number : ℕ)
        → IsSpelled word (Number number) ↔ (IsNumeral word × (digits_value 10 word ≡ number)) }
{}
