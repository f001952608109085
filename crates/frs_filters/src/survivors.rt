//! The order of what survives, and of the begins that stay open.
ghost use Rattle.std.specs.Prelude.{◌≡◌, ℕ, ◌+◌, ◌<◌, ◌≤◌, List, length, map, All};
ghost use Rattle.std.specs.List.{IsDistinct};
ghost use Rattle.std.specs.List.Sorted.{IsStrictlyIncreasing};
ghost use Rattle.frs_types.specs.declared.record.Record.{Record};
ghost use Rattle.frs_types.specs.declared.record.Entry.{Entry};
ghost use Rattle.frs_types.specs.Maps.{same_place};
ghost use Rattle.frs_types.specs.Records.{numbered_records_from};
ghost use Rattle.frs_types.specs.Survivors.{committed_records, survivors_of, open_begins};

/// Of records whose LSNs follow each other from `first` on, no two survivors have one place, and the survivors' LSNs
/// rise and are among those of the records. The LSNs of open begins rise too, and are among those of the records.
pub fn survivors_in_order()
    ensures places { (first : ℕ) (rs : List Record)
        → IsDistinct same_place (map (λ (e : Entry). (e.id, e.key))
        (survivors_of (committed_records (numbered_records_from first rs)))) }
    ensures rising { (first : ℕ) (rs : List Record)
        → IsStrictlyIncreasing (map (λ (e : Entry). e.lsn)
        (survivors_of (committed_records (numbered_records_from first rs)))) }
    ensures within { (first : ℕ) (rs : List Record)
        → All (λ n. (first ≤ n) × (n < first + length rs)) (map (λ (e : Entry). e.lsn)
        (survivors_of (committed_records (numbered_records_from first rs)))) }
    ensures begins { (first : ℕ) (rs : List Record)
        → IsStrictlyIncreasing (open_begins (numbered_records_from first rs)) }
    ensures begins_within { (first : ℕ) (rs : List Record)
        → All (λ n. (first ≤ n) × (n < first + length rs))
        (open_begins (numbered_records_from first rs)) }
{}
