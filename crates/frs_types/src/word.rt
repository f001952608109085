//! Words: the id of a map, a key and a value. Contracts see each as the list of its bytes.
ghost use Rattle.std.specs.Prelude.{◌≡◌, ◌≤◌, Some, None, MatchResult, IfOk, length};
ghost use Rattle.frs_types.specs.Refusals.{word_fault_text};
ghost use Rattle.frs_types.specs.Words.{word_fault};
ghost use Rattle.frs_types.specs.declared.word.WordFault.{WordFault};
ghost use Rattle.frs_types.specs.declared.word.WordFault.TheVariants.{Memory};

use crate::limits::{ID_LIMIT, KEY_LIMIT, VALUE_LIMIT};
use crate::memory::NoMemory;
use std::alloc::{AllocError, Global};
use std::fmt;
use std::marker::Model;

/// Why bytes are no word.
#[derive(Clone, Copy, Debug, PartialEq, Eq)]
pub enum WordFault {
    /// There are more bytes than the word may have. `len` is their number.
    TooLong {
        /// The number of bytes that were given.
        len: u64,
    },
    /// An id and a key have at least one byte.
    Empty,
    /// There was no memory for the word.
    Memory,
}

impl fmt::Display for WordFault {
    ghost output = { λ fault. Some (word_fault_text fault) };

    fn fmt<W: fmt::Write>(&self, f: &mut fmt::Formatter<W>) -> fmt::Result {
        match self {
            WordFault::TooLong { len } => write!(f, "a word of {len} bytes is too long"),
            WordFault::Empty => write!(f, "the word is empty"),
            WordFault::Memory => write!(f, "out of memory"),
        }
    }
}

impl std::error::Error for WordFault {}

impl From<AllocError> for WordFault {
    ghost from_gives = { λ _ e. e ≡ Memory };

    fn from(_: AllocError) -> Self {
        WordFault::Memory
    }
}

/// The id of a map: 1 to 64 bytes.
#[derive(Debug, Drop)]
pub struct MapId {
    word: Vec<u8>,
}

/// A key of a map: 1 to 255 bytes.
#[derive(Debug, Drop)]
pub struct Key {
    word: Vec<u8>,
}

/// A value: 0 to 65,535 bytes.
#[derive(Debug, Drop)]
pub struct Value {
    word: Vec<u8>,
}

impl Model for MapId {
    ghost use Rattle.std.specs.Prelude.{List, ℕ, ◌≤◌, length};
    ghost use Rattle.frs_types.specs.declared.limits.TheConstants.{ID_LIMIT};

    ghost Value = { List ℕ };

    ghost view = { λ a. a.word.items };

    ghost invariant = { λ a. (1 ≤ length a.word.items) × (length a.word.items ≤ ID_LIMIT) };
}

impl Model for Key {
    ghost use Rattle.std.specs.Prelude.{List, ℕ, ◌≤◌, length};
    ghost use Rattle.frs_types.specs.declared.limits.TheConstants.{KEY_LIMIT};

    ghost Value = { List ℕ };

    ghost view = { λ a. a.word.items };

    ghost invariant = { λ a. (1 ≤ length a.word.items) × (length a.word.items ≤ KEY_LIMIT) };
}

impl Model for Value {
    ghost use Rattle.std.specs.Prelude.{List, ℕ, ◌≤◌, length};
    ghost use Rattle.frs_types.specs.declared.limits.TheConstants.{VALUE_LIMIT};

    ghost Value = { List ℕ };

    ghost view = { λ a. a.word.items };

    ghost invariant = { λ a. length a.word.items ≤ VALUE_LIMIT };
}

impl MapId {
    /// The id of these bytes. `TooLong` where there are more than 64, `Empty` where there are none, and `Memory` where
    /// there was none for it.
    pub fn new(alloc: Global, bytes: &[u8]) -> Result<MapId, WordFault>
        ensures refused { (fault : WordFault) → word_fault 1 ID_LIMIT bytes.now ≡ Some fault
            → result ≡ Err fault }
        ensures made { word_fault 1 ID_LIMIT bytes.now ≡ None
            → MatchResult result (λ id. id ≡ bytes.now) (λ fault. fault ≡ WordFault.Memory) }
    {
        let word = word_of(alloc, bytes, 1, ID_LIMIT)?;
        Ok(MapId { word })
    }

    /// Its bytes.
    pub fn bytes(&self) -> &[u8]
        ensures bytes { result.now ≡ self.now }
        ensures some { 1 ≤ length self.now }
        ensures most { length self.now ≤ ID_LIMIT }
    {
        self.word.as_slice()
    }

    /// An equal id.
    pub fn copy(&self, alloc: Global) -> Result<MapId, NoMemory>
        ensures { IfOk result (λ copy. copy ≡ self.now) }
    {
        let word = copy_of(alloc, self.word.as_slice())?;
        Ok(MapId { word })
    }
}

impl Key {
    /// The key of these bytes. `TooLong` where there are more than 255, `Empty` where there are none, and `Memory`
    /// where there was none for it.
    pub fn new(alloc: Global, bytes: &[u8]) -> Result<Key, WordFault>
        ensures refused { (fault : WordFault) → word_fault 1 KEY_LIMIT bytes.now ≡ Some fault
            → result ≡ Err fault }
        ensures made { word_fault 1 KEY_LIMIT bytes.now ≡ None
            → MatchResult result (λ key. key ≡ bytes.now) (λ fault. fault ≡ WordFault.Memory) }
    {
        let word = word_of(alloc, bytes, 1, KEY_LIMIT)?;
        Ok(Key { word })
    }

    /// Its bytes.
    pub fn bytes(&self) -> &[u8]
        ensures bytes { result.now ≡ self.now }
        ensures some { 1 ≤ length self.now }
        ensures most { length self.now ≤ KEY_LIMIT }
    {
        self.word.as_slice()
    }

    /// An equal key.
    pub fn copy(&self, alloc: Global) -> Result<Key, NoMemory>
        ensures { IfOk result (λ copy. copy ≡ self.now) }
    {
        let word = copy_of(alloc, self.word.as_slice())?;
        Ok(Key { word })
    }
}

impl Value {
    /// The value of these bytes, which may be none. `TooLong` where there are more than 65,535, and `Memory` where
    /// there was none for it.
    pub fn new(alloc: Global, bytes: &[u8]) -> Result<Value, WordFault>
        ensures refused { (fault : WordFault) → word_fault 0 VALUE_LIMIT bytes.now ≡ Some fault
            → result ≡ Err fault }
        ensures made { word_fault 0 VALUE_LIMIT bytes.now ≡ None
            → MatchResult result (λ value. value ≡ bytes.now) (λ fault. fault ≡ WordFault.Memory) }
    {
        let word = word_of(alloc, bytes, 0, VALUE_LIMIT)?;
        Ok(Value { word })
    }

    /// Its bytes.
    pub fn bytes(&self) -> &[u8]
        ensures bytes { result.now ≡ self.now }
        ensures most { length self.now ≤ VALUE_LIMIT }
    {
        self.word.as_slice()
    }

    /// An equal value.
    pub fn copy(&self, alloc: Global) -> Result<Value, NoMemory>
        ensures { IfOk result (λ copy. copy ≡ self.now) }
    {
        let word = copy_of(alloc, self.word.as_slice())?;
        Ok(Value { word })
    }
}

// The bytes as a vector of their own, where there are enough and not too many.
fn word_of(alloc: Global, bytes: &[u8], least: usize, most: usize) -> Result<Vec<u8>, WordFault>
    ensures refused { (fault : WordFault) → word_fault least most bytes.now ≡ Some fault
        → result ≡ Err fault }
    ensures made { word_fault least most bytes.now ≡ None
        → MatchResult result (λ word. word.items ≡ bytes.now) (λ fault. fault ≡ WordFault.Memory) }
    ensures long { IfOk result (λ word. least ≤ length word.items) }
    ensures short { IfOk result (λ word. length word.items ≤ most) }
{
    if bytes.len() > most {
        return Err(WordFault::TooLong {
            len: bytes.len() as u64,
        });
    }
    if bytes.len() < least {
        return Err(WordFault::Empty);
    }
    Ok(bytes.to_vec(alloc)?)
}

// The same bytes as a vector of their own.
fn copy_of(alloc: Global, word: &[u8]) -> Result<Vec<u8>, NoMemory>
    ensures { IfOk result (λ copy. copy.items ≡ word.now) }
{
    Ok(word.to_vec(alloc)?)
}
