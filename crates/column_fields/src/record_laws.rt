//! The laws of the metadata record. `spelling_is_unique` does nothing: its clauses are the law.
ghost use Rattle.std.specs.Prelude.{◌≡◌, IfOk, IsOkUnless};
ghost use Rattle.column_fields.specs.EndsType.{IsEndsTypeNumber};
ghost use Rattle.column_fields.specs.RecordLaws.{SpellingIsUnique, MeaningIsUnique, WrittenFormMeansItsRecord, WrittenFormIsUnique};

use crate::metadata::RunEndMetadata;
use column_base::{VortexError, VortexResult};
use std::alloc::Allocator;

/// Proves that bytes spell at most one list of fields, and so mean at most one record, and that the written form of a
/// record means that record, and is the only one.
/// For readers and writers of files: two readers that keep to the encoding find the same record.
pub fn spelling_is_unique()
    ensures fields { SpellingIsUnique }
    ensures meaning { MeaningIsUnique }
    ensures written { WrittenFormMeansItsRecord }
    ensures one_form { WrittenFormIsUnique }
{}

/// Writes a record and reads what was written: it is that record. Refused only for memory.
pub fn write_then_read<A: Allocator>(
    metadata: &RunEndMetadata,
    alloc: A,
) -> VortexResult<RunEndMetadata>
    requires { IsEndsTypeNumber metadata.now.ends_ptype }
    ensures only { IsOkUnless result VortexError.OutOfMemory }
    ensures same { IfOk result (λ read. read ≡ metadata.now) }
{
    let bytes = metadata.encode_to_vec(alloc)?;
    RunEndMetadata::decode(&bytes)
}
