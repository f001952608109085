//! Where a client of the book stands: how far its script is, and its transaction.
ghost use Rattle.std.specs.Prelude.{◌≡◌, None};
ghost use Rattle.frs_book.specs.Inside.{is_sync_tx};
ghost use Rattle.frs_book.specs.Ledgers.{begin_lsn, has_begun, new_client};

use crate::changes::Changes;
use frs_history::Ack;

/// The transaction of a client.
#[derive(Drop)]
pub enum TxState {
    /// There is none.
    Outside,
    /// It is active.
    Active {
        /// The LSN of its begin, which is its name.
        begin: u64,
        /// Its commit is to be acknowledged.
        sync: bool,
        /// What it has changed so far.
        changes: Changes,
    },
    /// It was abandoned, and its commit is still to come.
    Abandoned,
}

/// Where a client stands.
#[derive(Drop)]
pub struct ClientState {
    /// So many of its commands were answered.
    pub done: usize,
    /// Its transaction.
    pub tx: TxState,
    /// The acknowledgement for which its last event other than a wait asks, if it asks for one.
    pub due: Option<Ack>,
}

impl ClientState {
    /// A client whose script is at its begin.
    pub fn new() -> ClientState
        ensures { result ≡ new_client }
    {
        ClientState {
            done: 0,
            tx: TxState::Outside,
            due: None,
        }
    }

    /// The LSN of the begin of its active transaction, or 0.
    pub fn begin(&self) -> u64
        ensures { result ≡ begin_lsn self.now.tx }
    {
        match &self.tx {
            TxState::Active { begin, .. } => *begin,
            TxState::Outside | TxState::Abandoned => 0,
        }
    }

    /// Whether its transaction is active, and its commit is to be acknowledged.
    pub fn is_sync(&self) -> bool
        ensures { result ≡ is_sync_tx self.now.tx }
    {
        match &self.tx {
            TxState::Active { sync, .. } => *sync,
            TxState::Outside | TxState::Abandoned => false,
        }
    }

    /// Whether its transaction is active.
    pub fn is_active(&self) -> bool
        ensures { result ≡ has_begun self.now.tx }
    {
        match &self.tx {
            TxState::Active { .. } => true,
            TxState::Outside | TxState::Abandoned => false,
        }
    }
}
