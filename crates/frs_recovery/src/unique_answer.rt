//! What holds of the files of all stores.
ghost use Rattle.std.specs.Prelude.{◌≡◌, ◌⊎◌, IsTrue, All};
ghost use Rattle.std.specs.FinMap.Entries.{is_sorted};
ghost use Rattle.std.specs.Ordering.{nat_cmp};
ghost use Rattle.frs_types.specs.Records.{Log};
ghost use Rattle.frs_segment.specs.Segments.{FileList, Spells};
ghost use Rattle.frs_recovery.specs.declared.fault.RecoverFault.{RecoverFault};
ghost use Rattle.frs_recovery.specs.FirstFault.{IsStored, IsWrongFirst};

use frs_segment::{one_segment, refusals, segment_or_refused};

/// The files of a store spell a log, or one thing is wrong with them first, and never two of these.
pub fn one_answer()
    ensures some { (image : FileList) → IsTrue (is_sorted nat_cmp image) → All IsStored image
        → ((log : Log) × Spells image log) ⊎ ((fault : RecoverFault) × IsWrongFirst image fault) }
    ensures apart { (image : FileList) (log : Log) (fault : RecoverFault)
        → Spells image log → IsWrongFirst image fault → ⊥ }
    ensures one { (image : FileList) (fault other : RecoverFault)
        → IsWrongFirst image fault → IsWrongFirst image other → fault ≡ other }
{
    one_segment();
    segment_or_refused();
    refusals();
}
