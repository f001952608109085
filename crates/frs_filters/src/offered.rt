//! What the filters have noted of the whole list of records that they were offered.
ghost use Rattle.std.specs.Prelude.{◌≡◌, ℕ, List, []};
ghost use Rattle.std.specs.Ordering.{nat_cmp};
ghost use Rattle.frs_types.specs.Records.{Numbered};
ghost use Rattle.frs_filters.specs.Filters.{is_noted, is_map_noted};
ghost use Rattle.frs_filters.specs.Offered.{notes_after, commits_in, names_in, deletes_in};

use crate::delete::DeleteFilter;
use crate::filter::Filter;
use crate::skip::SkipFilter;
use crate::transaction::TransactionFilter;

/// A filter that had noted nothing was offered the records `later`, listed oldest first, from the last to the first.
/// Then the transactions that were noted are those of the commit records among them, the LSNs are those that they name,
/// and the maps are those that they delete, whether or not a record was given on.
pub fn notes_of_offered()
    ensures commits { (later : List Numbered) (tx : ℕ)
        → is_noted nat_cmp (notes_after ⟦<TransactionFilter as Filter>⟧.noted [] later) tx
        ≡ commits_in later tx }
    ensures names { (later : List Numbered) (n : ℕ)
        → is_noted nat_cmp (notes_after ⟦<SkipFilter as Filter>⟧.noted [] later) n
        ≡ names_in later n }
    ensures deletes { (later : List Numbered) (id : List ℕ)
        → is_map_noted (notes_after ⟦<DeleteFilter as Filter>⟧.noted [] later) id
        ≡ deletes_in later id }
{}
