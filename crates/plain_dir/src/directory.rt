ghost use Rattle.std.specs.Prelude.{◌≡◌, ◌==◌, ◌≤◌, length, IfOk, OnErr, OnOk, MatchBool};
ghost use Rattle.std.specs.List.{list_any};
ghost use Rattle.std.specs.Map.{keys_of};
ghost use Rattle.std.specs.FinMap as map;
ghost use Rattle.mds_base.specs.Entries.{edited};
ghost use Rattle.mds_base.specs.PlainRules.{PlainStep, after, added, with_rows, edit_of, HasEntry, HasNoEntry};
ghost use Rattle.plain_dir.specs.Served.{IsServed, IsPlainReply};
ghost use Rattle.plain_dir.specs.Steps.{IsNoLoad};

use crate::replies::{found, made, removed, set, unlinked};
use mds_base::{Attr, Call, Edit, Final, Name, Reply, Row};
use std::alloc::{AllocError, Global};
use std::collections::BTreeMap;
use std::marker::Model;

/// A plain directory: which entry stands at which name of which directory.
#[derive(Drop)]
pub struct PlainDir {
    entries: BTreeMap<(u64, Name), Attr>,
}

impl Model for PlainDir {
    ghost use Rattle.std.specs.FinMap as map;
    ghost use Rattle.mds_base.specs.Entries.{Entries, coded_place, coded_attr};

    ghost Value = { Entries };

    ghost coded = { map.code coded_place coded_attr };

    ghost view = { λ a. map.from_entries a.entries.entries };
}

impl PlainDir {
    /// The directory with no entry.
    pub fn new(alloc: Global) -> PlainDir
        ensures { result ≡ map.empty }
    {
        PlainDir {
            entries: BTreeMap::new(alloc),
        }
    }

    /// Carries a call out by the plain rules (`crates/mds_base/README.md`) and gives its reply. `fresh` is the number
    /// that a mkdir or a grab gives. Where the rules leave a choice, a lease ends at moment 0, a load is not stale, a
    /// directory with no entry is sealed at depth 0 with the epoch asked for, and a seal is always taken off. Where
    /// there is no memory the directory stays as it is.
    pub fn apply(&mut self, alloc: Global, call: &Call, fresh: u64) -> Result<Reply, AllocError>
        requires { IsServed call.now }
        ensures reply { IfOk result (IsPlainReply self.old call.now fresh) }
        ensures step { IfOk result (λ reply. PlainStep self.old call.now reply self.new) }
        ensures err { OnErr result (self.new ≡ self.old) }
    {
        if let Call::Load { dir, rows } = call {
            let count = self.load(alloc, *dir, rows.rows())?;
            return Ok(Reply::Said(Final::Loaded(count as u32)));
        }
        let reply = self.answer(alloc, call, fresh)?;
        self.follow(alloc, call, &reply)?;
        Ok(reply)
    }

    /// The reply to a call that is no load.
    fn answer(&self, alloc: Global, call: &Call, fresh: u64) -> Result<Reply, AllocError>
        requires served { IsServed call.now }
        requires no_load { IsNoLoad call.now }
        ensures { IfOk result (IsPlainReply self.now call.now fresh) }
    {
        let said = match call {
            Call::Create { dir, name } => made(self.find(alloc, *dir, name)?, Final::Created),
            Call::Mkdir { dir, name } => {
                made(self.find(alloc, *dir, name)?, Final::CreatedDir(fresh))
            }
            Call::Link { dir, name, id } => {
                made(self.find(alloc, *dir, name)?, Final::CreatedDir(*id))
            }
            Call::Remove { dir, name } => removed(self.find(alloc, *dir, name)?),
            Call::Unlink { dir, name, id } => unlinked(self.find(alloc, *dir, name)?, *id),
            Call::Setattr { dir, name, .. } => set(self.find(alloc, *dir, name)?),
            Call::Lookup { dir, name } => return Ok(found(self.find(alloc, *dir, name)?)),
            Call::Grab { .. } => Final::Ids(fresh),
            Call::Seal { dir, epoch, .. } => {
                if self.has_entry(*dir) {
                    return Ok(Reply::Said(Final::NotEmpty));
                }
                Final::Sealed {
                    depth: 0,
                    epoch: *epoch,
                }
            }
            Call::Unseal { .. } => Final::Opened,
            Call::Kill { dir, .. } => {
                if self.has_entry(*dir) {
                    return Ok(Reply::Said(Final::Late));
                }
                Final::Killed
            }
            Call::Load { .. } | Call::Scan { .. } => unreachable!(),
        };
        Ok(Reply::Said(said))
    }

    /// Makes the map what a call that is no load leaves with this reply.
    pub(crate) fn follow(
        &mut self,
        alloc: Global,
        call: &Call,
        reply: &Reply,
    ) -> Result<(), AllocError>
        requires { IsNoLoad call.now }
        ensures ok { OnOk result (self.new ≡ after self.old call.now reply.now) }
        ensures err { OnErr result (self.new ≡ self.old) }
    {
        let Reply::Said(said) = reply else {
            return Ok(());
        };
        match call {
            Call::Create { dir, name } => self.edit(alloc, *dir, name, call, *said),
            Call::Mkdir { dir, name } => self.edit(alloc, *dir, name, call, *said),
            Call::Link { dir, name, .. } => self.edit(alloc, *dir, name, call, *said),
            Call::Remove { dir, name } => self.edit(alloc, *dir, name, call, *said),
            Call::Unlink { dir, name, .. } => self.edit(alloc, *dir, name, call, *said),
            Call::Setattr { dir, name, .. } => self.edit(alloc, *dir, name, call, *said),
            _ => Ok(()),
        }
    }

    /// Makes of an entry what the call with this final reply makes of it.
    fn edit(
        &mut self,
        alloc: Global,
        dir: u64,
        name: &Name,
        call: &Call,
        said: Final,
    ) -> Result<(), AllocError>
        ensures ok { OnOk result
            (self.new ≡ edited self.old (dir, name.now)
            (edit_of call.now (Reply.Said said) (map.get self.old (dir, name.now)))) }
        ensures err { OnErr result (self.new ≡ self.old) }
    {
        let place = (dir, name.copy(alloc)?);
        match Edit::of(call, said, self.get(&place)) {
            Edit::Keep => Ok(()),
            Edit::Put(attr) => self.insert(place, attr),
            Edit::Take => {
                self.take(&place);
                Ok(())
            }
        }
    }

    /// Adds each row whose name is absent, the first one first, and answers how many these are.
    pub(crate) fn load(
        &mut self,
        alloc: Global,
        dir: u64,
        rows: &[Row],
    ) -> Result<usize, AllocError>
        ensures count { IfOk result (λ count. count ≡ added self.old dir rows.now) }
        ensures few { IfOk result (λ count. count ≤ length rows.now) }
        ensures ok { OnOk result (self.new ≡ with_rows self.old dir rows.now) }
        ensures err { OnErr result (self.new ≡ self.old) }
    {
        let Some((row, more)) = rows.split_first() else {
            return Ok(0);
        };
        let place = (dir, row.name.copy(alloc)?);
        if self.get(&place).is_some() {
            return self.load(alloc, dir, more);
        }
        let again = (dir, row.name.copy(alloc)?);
        self.insert(place, row.attr)?;
        match self.load(alloc, dir, more) {
            Ok(count) => Ok(count + 1),
            Err(fault) => {
                self.take(&again);
                Err(fault)
            }
        }
    }

    /// The attributes of the entry with this name.
    pub(crate) fn find(
        &self,
        alloc: Global,
        dir: u64,
        name: &Name,
    ) -> Result<Option<Attr>, AllocError>
        ensures { IfOk result (λ attr. attr ≡ map.get self.now (dir, name.now)) }
    {
        let place = (dir, name.copy(alloc)?);
        Ok(self.get(&place))
    }

    /// Whether the directory has an entry.
    pub(crate) fn has_entry(&self, dir: u64) -> bool
        ensures { MatchBool result (HasEntry self.now dir) (HasNoEntry self.now dir) }
    {
        has_place_in(&self.entries, dir)
    }

    fn get(&self, place: &(u64, Name)) -> Option<Attr>
        ensures { result ≡ map.get self.now place.now }
    {
        self.entries.get(place).copied()
    }

    fn insert(&mut self, place: (u64, Name), attr: Attr) -> Result<(), AllocError>
        ensures ok { OnOk result (self.new ≡ map.insert self.old place attr) }
        ensures err { OnErr result (self.new ≡ self.old) }
    {
        self.entries.insert(place, attr)?;
        Ok(())
    }

    fn take(&mut self, place: &(u64, Name))
        ensures { self.new ≡ map.remove self.old place.now }
    {
        self.entries.remove(place);
    }
}

/// Whether a place is in the directory.
fn has_place_in(entries: &BTreeMap<(u64, Name), Attr>, dir: u64) -> bool
    ensures { result ≡ list_any (λ p. p.0 == dir) (keys_of entries.now.entries) }
{
    entries.keys().any(|place| place.0 == dir)
}
