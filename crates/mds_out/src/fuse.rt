//! A fuse round a disk, which refuses calls from a chosen one on.
ghost use Rattle.std.specs.Prelude.{◌≡◌, ◌+◌, ◌-◌, ◌*◌, ◌^◌, ◌<◌, ◌≤◌, None, Some, true, false, min, max, length, take};
ghost use Rattle.std.specs.Prelude.{drop, IfOk, OnOk, OnErr, IsErrOf, MatchBool, ⊤, ℕ};
ghost use Rattle.mds_out.specs.Calls.{next_number};
ghost use Rattle.mds_out.specs.Known.{OnKnown, OnTold};
ghost use Rattle.mds_out.specs.Images.{IsTorn, IsShortened};
ghost use Rattle.mds_out.specs.Disk.{Image, Tells, put, Shows, IsUnchanged, IsElsewhereUnchanged, AreSame, Follows};
ghost use Rattle.mds_out.specs.Disk.{Elapses, IsReading, IsChanging};
ghost use Rattle.mds_out.specs.Fused.{fused_faults, fused_asked, fused_changes, look_refused, change_refused, is_blown};
ghost use Rattle.mds_out.specs.Fused.{one_less, IsFused, OutlastsBy, FailsBy};
ghost use Rattle.mds_out.specs.FusedLaws.{fused_here, fused_on, fused_fails_on, fused_fails_after};

use crate::{Disk, DiskFault};
use std::marker::Model;

/// A disk that can be made to fail: after `arm(k)` exactly `k` calls pass and all later ones answer `Device` until
/// `mend`. A refused call does not reach the disk. Its count of faults is the disk's and the refused calls.
#[derive(Drop)]
pub struct Fuse<D> {
    inner: D,
    left: Option<u64>,
    refused: u64,
    refused_changes: u64,
}

impl<D> Model for Fuse<D> {
    ghost use Rattle.mds_out.specs.Fused.{Fused};

    ghost Value = { Fused D };

    ghost view = { λ f.
        record { inner = f.inner; left = f.left; refused = f.refused; refused_changes = f.refused_changes } };
}

impl<D> Fuse<D> {
    /// A fuse that is not armed.
    pub fn new(inner: D) -> Fuse<D>
        ensures { result ≡ record { inner = inner; left = None; refused = 0; refused_changes = 0 } }
    {
        Fuse {
            inner,
            left: None,
            refused: 0,
            refused_changes: 0,
        }
    }

    /// From here on `k` calls pass. It takes the place of the `arm` before it.
    pub fn arm(&mut self, k: u64)
        ensures { self.new ≡ record self.old { left = Some k } }
    {
        self.left = Some(k);
    }

    /// From here on all calls pass.
    pub fn mend(&mut self)
        ensures { self.new ≡ record self.old { left = None } }
    {
        self.left = None;
    }

    /// The disk.
    pub fn into_inner(self) -> D
        ensures { result ≡ self.inner }
    {
        let Fuse { inner, .. } = self;
        inner
    }

    // Counts a write or a cut, and says whether it is refused.
    fn refuses_change(&mut self) -> bool
        ensures { MatchBool result
            ((is_blown self.old.left ≡ true) × (self.old.refused < 2 ^ 64) × (self.new ≡ change_refused self.old))
            ((is_blown self.old.left ≡ false) × (self.new ≡ record self.old { left = one_less self.old.left })) }
    {
        if self.refuses() {
            self.refused_changes = self.refused_changes.saturating_add(1);
            return true;
        }
        false
    }

    // Counts a call, and says whether it is refused.
    fn refuses(&mut self) -> bool
        ensures { MatchBool result
            ((is_blown self.old.left ≡ true) × (self.old.refused < 2 ^ 64) × (self.new ≡ look_refused self.old))
            ((is_blown self.old.left ≡ false) × (self.new ≡ record self.old { left = one_less self.old.left })) }
    {
        match self.left {
            None => false,
            Some(0) => {
                self.refused = self.refused.saturating_add(1);
                true
            }
            Some(left) => {
                self.left = Some(left - 1);
                false
            }
        }
    }
}

impl<D: Disk> Disk for Fuse<D> {
    ghost seen = { λ f. D.seen f.inner };

    ghost sizes = { λ f. D.sizes f.inner };

    ghost images = { λ f. D.images f.inner };

    ghost moment = { λ f. D.moment f.inner };

    ghost images_since = { λ f. D.images_since f.inner };

    ghost faults = { fused_faults D.faults };

    ghost lasts = { OutlastsBy D.lasts D.faults };

    ghost fails = { FailsBy D.fails D.faults };

    ghost asked = { fused_asked D.asked };

    ghost changes_asked = { fused_changes D.changes_asked };

    ghost tells_length = { λ f. D.tells_length f.inner };

    ghost reads_as = { λ f. D.reads_as f.inner };

    ghost counts_now = { λ f. D.counts_now f.inner };

    ghost only_now = { λ f. D.only_now f.inner };

    ghost lasts_here = { fused_here D.lasts D.faults D.lasts_here };

    ghost lasts_on = { fused_on D.lasts D.faults D.lasts_on };

    ghost fails_on = { fused_fails_on D.lasts D.fails D.faults D.fails_on };

    ghost fails_after = { fused_fails_after D.lasts D.fails D.faults D.fails_after };

    ghost fails_rise = { λ _ _ is. is.rose };

    fn length(&mut self, file: u32) -> Result<u64, DiskFault>
        ensures short { IfOk result (λ size. size < 2 ^ 63) }
        ensures told { IfOk result
            (λ size. (D.sizes self.new.inner file ≡ Some size)
            × OnTold (D.sizes self.old.inner file) (λ before. size ≡ before)) }
        ensures call { IsReading (λ f. D.seen f.inner) (λ f. D.sizes f.inner) (λ f. D.images f.inner)
            (λ f. D.moment f.inner) (λ f. D.images_since f.inner)
            (fused_faults D.faults) (fused_changes D.changes_asked) (OutlastsBy D.lasts D.faults)
            (FailsBy D.fails D.faults) self.old self.new result }
        ensures asked { fused_asked D.asked self.new ≡ next_number (fused_asked D.asked self.old) }
        ensures fused { IsFused look_refused self.old self.new result }
    {
        if self.refuses() {
            return Err(DiskFault::Device);
        }
        self.inner.length(file)
    }

    fn read(&mut self, file: u32, at: u64, into: &mut [u8]) -> Result<(), DiskFault>
        requires short { at + length into.old < 2 ^ 63 }
        requires within { OnTold (D.sizes self.old.inner file) (λ size. at + length into.old ≤ size) }
        ensures bytes { OnOk result
            (OnTold (D.seen self.old.inner file) (λ bytes. into.new ≡ take (length into.old) (drop at bytes))) }
        ensures call { IsReading (λ f. D.seen f.inner) (λ f. D.sizes f.inner) (λ f. D.images f.inner)
            (λ f. D.moment f.inner) (λ f. D.images_since f.inner)
            (fused_faults D.faults) (fused_changes D.changes_asked) (OutlastsBy D.lasts D.faults)
            (FailsBy D.fails D.faults) self.old self.new result }
        ensures asked { fused_asked D.asked self.new ≡ next_number (fused_asked D.asked self.old) }
        ensures fused { IsFused look_refused self.old self.new result }
    {
        if self.refuses() {
            return Err(DiskFault::Device);
        }
        self.inner.read(file, at, into)
    }

    fn write_at(&mut self, file: u32, at: u64, bytes: &[u8]) -> Result<(), DiskFault>
        requires short { at + length bytes.now < 2 ^ 63 }
        requires within { OnTold (D.sizes self.old.inner file) (λ size. at ≤ size) }
        ensures written { OnOk result
            (Tells (D.seen self.old.inner file) (D.seen self.new.inner file) (λ old new. new ≡ put old at bytes.now)) }
        ensures size { OnOk result
            (OnKnown (D.sizes self.old.inner file) (D.sizes self.new.inner file)
            (λ old new. new ≡ max old (at + length bytes.now))) }
        ensures torn { OnErr result
            (Tells (D.seen self.old.inner file) (D.seen self.new.inner file) (IsTorn at (length bytes.now))) }
        ensures elsewhere { IsElsewhereUnchanged file (D.seen self.old.inner) (D.seen self.new.inner)
            (D.sizes self.old.inner) (D.sizes self.new.inner) }
        ensures crash { Follows file (IsTorn at (length bytes.now)) (D.images self.old.inner)
            (D.images self.new.inner) }
        ensures time { Elapses (D.moment self.old.inner) (D.moment self.new.inner) (D.images_since self.old.inner)
            (D.images_since self.new.inner) (D.images self.new.inner) }
        ensures call { IsChanging (fused_faults D.faults) (OutlastsBy D.lasts D.faults) (FailsBy D.fails D.faults)
            self.old self.new result }
        ensures asked { fused_asked D.asked self.new ≡ next_number (fused_asked D.asked self.old) }
        ensures changes { fused_changes D.changes_asked self.new
            ≡ next_number (fused_changes D.changes_asked self.old) }
        ensures fused { IsFused change_refused self.old self.new result }
    {
        if self.refuses_change() {
            return Err(DiskFault::Device);
        }
        self.inner.write_at(file, at, bytes)
    }

    fn cut(&mut self, file: u32, to: u64) -> Result<(), DiskFault>
        requires { OnTold (D.sizes self.old.inner file) (λ size. to ≤ size) }
        ensures cut { OnOk result
            (Tells (D.seen self.old.inner file) (D.seen self.new.inner file) (λ old new. new ≡ take to old)) }
        ensures size { OnOk result (D.sizes self.new.inner file ≡ Some to) }
        ensures torn { OnErr result (Tells (D.seen self.old.inner file) (D.seen self.new.inner file) (IsShortened to)) }
        ensures elsewhere { IsElsewhereUnchanged file (D.seen self.old.inner) (D.seen self.new.inner)
            (D.sizes self.old.inner) (D.sizes self.new.inner) }
        ensures crash { Follows file (IsShortened to) (D.images self.old.inner) (D.images self.new.inner) }
        ensures time { Elapses (D.moment self.old.inner) (D.moment self.new.inner) (D.images_since self.old.inner)
            (D.images_since self.new.inner) (D.images self.new.inner) }
        ensures call { IsChanging (fused_faults D.faults) (OutlastsBy D.lasts D.faults) (FailsBy D.fails D.faults)
            self.old self.new result }
        ensures asked { fused_asked D.asked self.new ≡ next_number (fused_asked D.asked self.old) }
        ensures changes { fused_changes D.changes_asked self.new
            ≡ next_number (fused_changes D.changes_asked self.old) }
        ensures fused { IsFused change_refused self.old self.new result }
    {
        if self.refuses_change() {
            return Err(DiskFault::Device);
        }
        self.inner.cut(file, to)
    }

    fn sync(&mut self, file: u32) -> Result<(), DiskFault>
        ensures durable { OnOk result
            (OnTold (D.seen self.old.inner file)
            (λ bytes. (image : Image) → D.images self.new.inner image → image file ≡ bytes)) }
        ensures unchanged { IsUnchanged (D.seen self.old.inner) (D.seen self.new.inner) (D.sizes self.old.inner)
            (D.sizes self.new.inner) }
        ensures crash { (image : Image) → D.images self.new.inner image → D.images self.old.inner image }
        ensures refused { OnErr result (AreSame (D.images self.old.inner) (D.images self.new.inner)) }
        ensures time { Elapses (D.moment self.old.inner) (D.moment self.new.inner) (D.images_since self.old.inner)
            (D.images_since self.new.inner) (D.images self.new.inner) }
        ensures call { IsChanging (fused_faults D.faults) (OutlastsBy D.lasts D.faults) (FailsBy D.fails D.faults)
            self.old self.new result }
        ensures asked { fused_asked D.asked self.new ≡ next_number (fused_asked D.asked self.old) }
        ensures changes { fused_changes D.changes_asked self.new ≡ fused_changes D.changes_asked self.old }
        ensures fused { IsFused look_refused self.old self.new result }
    {
        if self.refuses() {
            return Err(DiskFault::Device);
        }
        self.inner.sync(file)
    }

    fn restart(&mut self) -> Result<(), DiskFault>
        ensures left { OnOk result
            ((image : Image) × D.images self.old.inner image × Shows (D.seen self.new.inner) image) }
        ensures tells { OnOk result
            ((file : ℕ) → Tells (D.seen self.old.inner file) (D.seen self.new.inner file) (λ old new. ⊤)) }
        ensures crash { (image : Image) → D.images self.new.inner image → D.images self.old.inner image }
        ensures unchanged { OnErr result
            (IsUnchanged (D.seen self.old.inner) (D.seen self.new.inner) (D.sizes self.old.inner)
            (D.sizes self.new.inner)) }
        ensures refused { OnErr result (AreSame (D.images self.old.inner) (D.images self.new.inner)) }
        ensures time { Elapses (D.moment self.old.inner) (D.moment self.new.inner) (D.images_since self.old.inner)
            (D.images_since self.new.inner) (D.images self.new.inner) }
        ensures call { IsChanging (fused_faults D.faults) (OutlastsBy D.lasts D.faults) (FailsBy D.fails D.faults)
            self.old self.new result }
        ensures asked { fused_asked D.asked self.new ≡ next_number (fused_asked D.asked self.old) }
        ensures changes { fused_changes D.changes_asked self.new ≡ fused_changes D.changes_asked self.old }
        ensures fused { IsFused look_refused self.old self.new result }
    {
        if self.refuses() {
            return Err(DiskFault::Device);
        }
        self.inner.restart()
    }
}
