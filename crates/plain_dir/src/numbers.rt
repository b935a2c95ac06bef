//! The directory numbers that a history gave so far.
ghost use Rattle.std.specs.Prelude.{◌≡◌, ◌≤◌, ◌++◌, [], IfOk, MatchBool};
ghost use Rattle.std.specs.List.{range_with_len, list_any, AllByRecursion};
ghost use Rattle.mds_base.specs.PlainRules.{given_by};
ghost use Rattle.plain_dir.specs.Numbers.{IsNew, meets};

use mds_base::{Call, Final, Reply};
use std::alloc::{AllocError, Global};
use std::marker::Model;

/// So many numbers, from the first one on.
#[derive(Clone, Copy, Debug)]
struct Range {
    first: u64,
    count: u32,
}

const NO_NUMBER: Range = Range { first: 0, count: 0 };

/// The numbers that were given, in their order.
#[derive(Drop)]
pub(crate) struct Numbers {
    ranges: Vec<Range>,
}

impl Model for Numbers {
    ghost use Rattle.std.specs.Prelude.{List, ℕ};
    ghost use Rattle.plain_dir.specs.Numbers.{numbers_of};

    ghost Value = { List ℕ };

    ghost view = { λ a. numbers_of a.ranges.items };
}

impl Numbers {
    /// No number.
    pub(crate) fn new(alloc: Global) -> Numbers
        ensures { result ≡ [] }
    {
        Numbers {
            ranges: Vec::new(alloc),
        }
    }

    /// Adds the numbers that a call with this reply gives, if each is at least 2 and none was given before; answers
    /// whether it is so.
    pub(crate) fn give(&mut self, call: &Call, reply: &Reply) -> Result<bool, AllocError>
        ensures { IfOk result
            (λ b. MatchBool b
            (IsNew self.old (given_by call.now reply.now) × (self.new ≡ self.old ++ given_by call.now reply.now))
            (IsNew self.old (given_by call.now reply.now) → ⊥)) }
    {
        self.add(range_of(call, reply))
    }

    fn add(&mut self, range: Range) -> Result<bool, AllocError>
        ensures { let more = range_with_len range.first range.count in IfOk result
            (λ b. MatchBool b (IsNew self.old more × (self.new ≡ self.old ++ more)) (IsNew self.old more → ⊥)) }
    {
        if !is_from_two(range) {
            return Ok(false);
        }
        if has_common(self.ranges.as_slice(), range) {
            return Ok(false);
        }
        self.ranges.push(range)?;
        Ok(true)
    }
}

/// The numbers that a call with this reply gives.
fn range_of(call: &Call, reply: &Reply) -> Range
    ensures { range_with_len result.first result.count ≡ given_by call.now reply.now }
{
    match call {
        Call::Mkdir { .. } => match reply {
            Reply::Said(Final::CreatedDir(number)) => Range {
                first: *number,
                count: 1,
            },
            _ => NO_NUMBER,
        },
        Call::Grab { count, .. } => match reply {
            Reply::Said(Final::Ids(first)) => Range {
                first: *first,
                count: *count,
            },
            _ => NO_NUMBER,
        },
        _ => NO_NUMBER,
    }
}

/// Whether each number of a range is at least 2.
#[tactic(auto, using(crate::proofs::Giving::from_two, crate::proofs::Giving::below_two))]
fn is_from_two(range: Range) -> bool
    ensures { let P =
        AllByRecursion (λ number. 2 ≤ number) (range_with_len range.first range.count) in MatchBool result P (P → ⊥) }
{
    range.count == 0 || range.first >= 2
}

/// Whether one of these ranges has a number in common with a range.
fn has_common(ranges: &[Range], range: Range) -> bool
    ensures { result ≡ list_any (λ r. meets r range) ranges.now }
{
    ranges.iter().any(|other| meets(*other, range))
}

/// Whether two ranges have a number in common.
fn meets(a: Range, b: Range) -> bool
    ensures { result ≡ meets a b }
{
    if a.count == 0 || b.count == 0 {
        return false;
    }
    if a.first <= b.first {
        b.first - a.first < u64::from(a.count)
    } else {
        a.first - b.first < u64::from(b.count)
    }
}
