//! The kinds of records, and the byte that each begins with.
ghost use Rattle.std.specs.Prelude.{◌≡◌};
ghost use Rattle.frs_frame.specs.Kinds.{code, kind_of, kind_of_byte, permits_tx, permits_named};

use frs_types::Action;

/// The kind of a record, which its first byte tells.
#[derive(Clone, Copy, Debug, PartialEq, Eq)]
pub enum Kind {
    Put,
    Remove,
    Delete,
    Begin,
    Commit,
    Compaction,
    Mark,
    Abandon,
}

impl Kind {
    /// The kind of a record that says this.
    pub fn of(action: &Action) -> Kind
        ensures { result ≡ kind_of action.now }
    {
        match action {
            Action::Put { .. } => Kind::Put,
            Action::Remove { .. } => Kind::Remove,
            Action::Delete { .. } => Kind::Delete,
            Action::Begin => Kind::Begin,
            Action::Commit => Kind::Commit,
            Action::Compaction { .. } => Kind::Compaction,
            Action::Mark => Kind::Mark,
            Action::Abandon => Kind::Abandon,
        }
    }

    /// The byte that stands for the kind.
    pub fn code(self) -> u8
        ensures { result ≡ code self }
    {
        match self {
            Kind::Put => 1,
            Kind::Remove => 2,
            Kind::Delete => 3,
            Kind::Begin => 4,
            Kind::Commit => 5,
            Kind::Compaction => 6,
            Kind::Mark => 7,
            Kind::Abandon => 8,
        }
    }

    /// The kind that the byte stands for, if it stands for one.
    pub fn of_byte(byte: u8) -> Option<Kind>
        ensures { result ≡ kind_of_byte byte }
    {
        match byte {
            1 => Some(Kind::Put),
            2 => Some(Kind::Remove),
            3 => Some(Kind::Delete),
            4 => Some(Kind::Begin),
            5 => Some(Kind::Commit),
            6 => Some(Kind::Compaction),
            7 => Some(Kind::Mark),
            8 => Some(Kind::Abandon),
            _ => None,
        }
    }

    /// Whether a record of the kind may carry the transaction `tx`.
    pub fn permits_tx(self, tx: u64) -> bool
        ensures { result ≡ permits_tx self tx }
    {
        match self {
            Kind::Put | Kind::Remove | Kind::Delete => true,
            Kind::Compaction | Kind::Mark => tx == 0,
            Kind::Begin | Kind::Commit | Kind::Abandon => tx != 0,
        }
    }

    /// Whether a record of the kind may name the LSN `named`, where 0 is none.
    pub fn permits_named(self, named: u64) -> bool
        ensures { result ≡ permits_named self named }
    {
        match self {
            Kind::Put | Kind::Remove => true,
            Kind::Compaction => named != 0,
            Kind::Delete | Kind::Begin | Kind::Commit | Kind::Mark | Kind::Abandon => named == 0,
        }
    }
}
