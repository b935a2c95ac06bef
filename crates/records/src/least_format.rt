ghost use Rattle.std.specs.Prelude.{◌≡◌};
ghost use Rattle.records.specs.LeastFormats.{least_format, least_format_of_call, least_format_of_final};
ghost use Rattle.records.specs.LeastFormats.{some_stamped_of};

use crate::record::Record;
use mds_base::{Call, Final, Row};

impl Record {
    /// The least format of a log whose spellings have the record (`docs/FORMATS.md`, "Formats of a log"): 1 is the
    /// first, 2 brought owners and times of modification, 4 the removal of directories.
    pub fn least_format(&self) -> u8
        ensures { result ≡ least_format self.now }
    {
        match self {
            Record::Served { call, said, .. } => {
                let call = format_of_call(call);
                let said = format_of_final(said);
                if call <= said { said } else { call }
            }
            Record::Install { rows, .. } => { if some_stamped(rows.rows()) { 2 } else { 1 } }
            Record::Head { .. } => 1,
            Record::Opened => 1,
            Record::Begin { .. } => 1,
            Record::End { .. } => 1,
        }
    }
}

fn format_of_call(call: &Call) -> u8
    ensures { result ≡ least_format_of_call call.now }
{
    match call {
        Call::Setattr { stamp: Some(_), .. } => 2,
        Call::Seal { .. } => 4,
        Call::Unseal { .. } => 4,
        Call::Kill { .. } => 4,
        Call::Unlink { .. } => 4,
        _ => 1,
    }
}

fn format_of_final(said: &Final) -> u8
    ensures { result ≡ least_format_of_final said.now }
{
    match said {
        Final::Sealed { .. } => 4,
        Final::NotEmpty => 4,
        Final::Late => 4,
        Final::Opened => 4,
        Final::Killed => 4,
        _ => 1,
    }
}

/// Whether some row has an owner or a time of modification that is not 0.
pub(crate) fn some_stamped(rows: &[Row]) -> bool
    ensures { result ≡ some_stamped_of rows.now }
{
    rows.iter().any(|row| row.attr.is_stamped())
}
