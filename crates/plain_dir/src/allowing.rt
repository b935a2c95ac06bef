//! Which replies the plain rules allow where an entry of these attributes stands, or none.
ghost use Rattle.std.specs.Prelude.{◌≡◌, ◌==◌, ℕ, MatchBool, MatchOption, if◌then◌else◌};
ghost use Rattle.mds_base.specs.declared.reply.Final.TheVariants.{Exists, Missing, Removed, IsDir, Set, CreatedDir};
ghost use Rattle.mds_base.specs.declared.reply.Final.TheVariants.{Ids};
ghost use Rattle.mds_base.specs.declared.reply.Reply.TheVariants.{Said, Found};
ghost use Rattle.mds_base.specs.Entries.{is_file};
ghost use Rattle.mds_base.specs.PlainRules.{UnsealAllows};

use mds_base::{Attr, Final, Reply};

fn is_final(a: Final, b: Final) -> bool
    ensures { MatchBool result (a ≡ b) (a ≡ b → ⊥) }
{
    a == b
}

fn is_attr(a: Attr, b: Attr) -> bool
    ensures { MatchBool result (a ≡ b) (a ≡ b → ⊥) }
{
    a == b
}

/// Whether the reply is this final one.
fn is_said(reply: &Reply, said: Final) -> bool
    ensures { MatchBool result (reply.now ≡ Said said) (reply.now ≡ Said said → ⊥) }
{
    match reply {
        Reply::Said(other) => is_final(*other, said),
        Reply::Found { .. } | Reply::Listed { .. } => false,
    }
}

/// Whether a call that makes an entry may be answered so, where it says `said` of an entry that it made.
pub(crate) fn may_make(before: Option<Attr>, reply: &Reply, said: Final) -> bool
    ensures { let P =
        MatchOption before (reply.now ≡ Said said) (λ _. reply.now ≡ Said Exists) in MatchBool result P (P → ⊥) }
{
    match before {
        None => is_said(reply, said),
        Some(_) => is_said(reply, Final::Exists),
    }
}

/// Whether a mkdir may be answered so.
pub(crate) fn may_make_directory(before: Option<Attr>, reply: &Reply) -> bool
    ensures { let P = MatchOption before ((number : ℕ) × (reply.now ≡ Said (CreatedDir number)))
        (λ _. reply.now ≡ Said Exists) in MatchBool result P (P → ⊥) }
{
    match before {
        None => match reply {
            Reply::Said(Final::CreatedDir(_)) => true,
            _ => false,
        },
        Some(_) => is_said(reply, Final::Exists),
    }
}

/// Whether a remove may be answered so.
pub(crate) fn may_remove(before: Option<Attr>, reply: &Reply) -> bool
    ensures { let P = MatchOption before (reply.now ≡ Said Missing)
        (λ attr. reply.now ≡ Said (if is_file attr then Removed else IsDir)) in MatchBool result P (P → ⊥) }
{
    match before {
        None => is_said(reply, Final::Missing),
        Some(attr) => {
            let said = if attr.is_file() {
                Final::Removed
            } else {
                Final::IsDir
            };
            is_said(reply, said)
        }
    }
}

/// Whether an unlink of the directory `id` may be answered so.
pub(crate) fn may_unlink(before: Option<Attr>, id: u64, reply: &Reply) -> bool
    ensures { let P = MatchOption before (reply.now ≡ Said Missing)
        (λ attr. reply.now ≡ Said (if attr.dir == id then Removed else Exists)) in MatchBool result P (P → ⊥) }
{
    match before {
        None => is_said(reply, Final::Missing),
        Some(attr) => {
            let said = if attr.dir == id {
                Final::Removed
            } else {
                Final::Exists
            };
            is_said(reply, said)
        }
    }
}

/// Whether a setattr may be answered so.
pub(crate) fn may_set(before: Option<Attr>, reply: &Reply) -> bool
    ensures { let P =
        MatchOption before (reply.now ≡ Said Missing) (λ _. reply.now ≡ Said Set) in MatchBool result P (P → ⊥) }
{
    match before {
        None => is_said(reply, Final::Missing),
        Some(_) => is_said(reply, Final::Set),
    }
}

/// Whether a lookup may be answered so; the end of the lease may be any.
pub(crate) fn may_find(before: Option<Attr>, reply: &Reply) -> bool
    ensures { let P = MatchOption before (reply.now ≡ Said Missing)
        (λ attr. (until : ℕ) × (reply.now ≡ Found attr until)) in MatchBool result P (P → ⊥) }
{
    match before {
        None => is_said(reply, Final::Missing),
        Some(attr) => match reply {
            Reply::Found { attr: other, .. } => is_attr(*other, attr),
            Reply::Said(_) | Reply::Listed { .. } => false,
        },
    }
}

/// Whether a grab may be answered so.
pub(crate) fn may_grab(reply: &Reply) -> bool
    ensures { let P = (first : ℕ) × (reply.now ≡ Said (Ids first)) in MatchBool result P (P → ⊥) }
{
    match reply {
        Reply::Said(said) => match said {
            Final::Ids(_) => true,
            _ => false,
        },
        _ => false,
    }
}

/// Whether taking a seal off may be answered so.
pub(crate) fn may_unseal(reply: &Reply) -> bool
    ensures { let P = UnsealAllows reply.now in MatchBool result P (P → ⊥) }
{
    match reply {
        Reply::Said(said) => match said {
            Final::Opened => true,
            Final::Late => true,
            _ => false,
        },
        _ => false,
    }
}
