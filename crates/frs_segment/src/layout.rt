//! Where the chunks of a segment file stand, and what a store's files are, as one who has read them knows it.
use frs_types::Sequence;

/// Where a chunk stands in a segment file.
#[derive(Clone, Copy, Debug, PartialEq, Eq)]
pub struct ChunkPlace {
    /// The offset of its gate in the file, in bytes.
    pub offset: u64,
    /// The LSN of its first record.
    pub first: u64,
    /// How many records it has.
    pub count: u32,
    /// How many bytes its records take.
    pub body: u32,
}

/// A segment file that was read to its end.
#[derive(Debug, Drop)]
pub struct Segment {
    /// The file's number.
    pub number: u64,
    /// The LSN of its first record, or the one that this record would have.
    pub first: u64,
    /// The LSN after its last record.
    pub end: u64,
    /// The place after its first closed chunk gate, in bytes. What the file holds from there on isn't looked at.
    pub length: u64,
    /// Where its chunks stand, by rising offset.
    pub chunks: Sequence<ChunkPlace>,
}

/// What was found in a store's files.
#[derive(Debug, Drop)]
pub struct Found {
    /// The segments that were looked at, by rising number.
    pub segments: Sequence<Segment>,
    /// The half-made files among them and above them.
    pub half: Sequence<u64>,
    /// The files below them.
    pub older: Sequence<u64>,
    /// The greatest number of all files, or 0 where there is none.
    pub greatest: u64,
    /// The LSN that the next record gets.
    pub next: u64,
    /// The lowest LSN that the newest record names, or 1 where there is no record.
    pub named: u64,
}
