ghost use Rattle.std.specs.Prelude.{◌≡◌};
ghost use Rattle.mds_base.specs.declared.reply.Reply.{Reply};
ghost use Rattle.mds_base.specs.Entries.{edited_entry};
ghost use Rattle.mds_base.specs.PlainRules.{edit_of};

use crate::attr::Attr;
use crate::call::Call;
use crate::reply::Final;

/// What becomes of the entry of a name.
#[derive(Clone, Copy, Debug, PartialEq, Eq)]
pub enum Edit {
    /// It stays as it is.
    Keep,
    /// It gets these attributes.
    Put(Attr),
    /// It goes.
    Take,
}

impl Edit {
    /// What a call on a name that got this final reply makes of the entry that stood there.
    pub fn of(call: &Call, said: Final, before: Option<Attr>) -> Edit
        ensures { result ≡ edit_of call.now (Reply.Said said) before }
    {
        match call {
            Call::Create { .. } => match said {
                Final::Created => Edit::Put(Attr::new_file()),
                _ => Edit::Keep,
            },
            Call::Mkdir { .. } => match said {
                Final::CreatedDir(number) => Edit::Put(Attr::new_directory(number)),
                _ => Edit::Keep,
            },
            Call::Link { .. } => match said {
                Final::CreatedDir(number) => Edit::Put(Attr::new_directory(number)),
                _ => Edit::Keep,
            },
            Call::Remove { .. } => match said {
                Final::Removed => Edit::Take,
                _ => Edit::Keep,
            },
            Call::Unlink { .. } => match said {
                Final::Removed => Edit::Take,
                _ => Edit::Keep,
            },
            Call::Setattr {
                mode,
                size,
                stamp,
                ..
            } => match said {
                Final::Set => match before {
                    None => Edit::Keep,
                    Some(attr) => Edit::Put(attr.reset(*mode, *size, *stamp)),
                },
                _ => Edit::Keep,
            },
            _ => Edit::Keep,
        }
    }

    /// The entry that is there after the edit.
    pub fn entry(self, before: Option<Attr>) -> Option<Attr>
        ensures { result ≡ edited_entry self before }
    {
        match self {
            Edit::Keep => before,
            Edit::Put(attr) => Some(attr),
            Edit::Take => None,
        }
    }
}
