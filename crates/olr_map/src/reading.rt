//! Why one file of a map isn't read to its end.

ghost use Rattle.std.specs.Prelude.{ℕ};
ghost use Rattle.olr_records.specs.Reading as of_source;
ghost use Rattle.olr_map.specs.declared.fault.MapFault.TheVariants.{ReadFailed};
ghost use Rattle.olr_map.specs.inner.Reading.{IsReadFault};

use crate::fault::MapFault;
use olr_records::{File, ReadFault};

/// The fault of a file that isn't read to its end.
pub(crate) fn read_fault(why: ReadFault, file: File) -> MapFault
    ensures { (old new : ℕ) → of_source.IsReadFault old new why
        → IsReadFault (ReadFailed file) old new result }
{
    match why {
        ReadFault::Failed => MapFault::ReadFailed(file),
        ReadFault::NoMemory => MapFault::NoMemory,
    }
}
