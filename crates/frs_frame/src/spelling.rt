//! What holds of the spellings of all records.
ghost use Rattle.std.specs.Prelude.{◌≡◌, List, ℕ, [], ◌++◌, ◌≤◌, length, IsTrue};
ghost use Rattle.frs_types.specs.declared.record.Record.{Record};
ghost use Rattle.frs_types.specs.Records.{Fits, well_formed, is_allowed};
ghost use Rattle.frs_frame.specs.Spelling.{spelling};

use crate::encoding::{RECORD_HEAD, RECORD_LIMIT};

/// No bytes are two records: from the front of bytes at most one record can be read, and what is behind it is then
/// settled too. So records have different spellings, and no spelling is a proper front of another.
pub fn one_spelling()
    ensures one_record { (r q : Record) (rest other : List ℕ) → Fits r → Fits q
        → spelling r ++ rest ≡ spelling q ++ other → (r ≡ q) × (rest ≡ other) }
    ensures no_front { (r q : Record) (rest : List ℕ) → Fits r → Fits q
        → spelling r ++ rest ≡ spelling q → (r ≡ q) × (rest ≡ []) }
    ensures injective { (r q : Record) → Fits r → Fits q → spelling r ≡ spelling q → r ≡ q }
{}

/// A record that may stand at an LSN is one that `decode` gives.
pub fn allowed_is_well_formed()
    ensures { (n : ℕ) (r : Record) → IsTrue (is_allowed n r) → IsTrue (well_formed r) }
{}

/// A record has at least the bytes of its head, and at most `RECORD_LIMIT`.
pub fn spelling_len()
    ensures least { (r : Record) → RECORD_HEAD ≤ length (spelling r) }
    ensures most { (r : Record) → Fits r → length (spelling r) ≤ RECORD_LIMIT }
{}
