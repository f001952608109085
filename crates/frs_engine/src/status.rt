//! The statuses with which a run or a job ends.
ghost use Rattle.std.specs.Prelude.{◌≡◌};
ghost use Rattle.frs_engine.specs.Statuses.{code_of, status_after};

use frs_disk::Fault;

/// How a run or a job ended.
#[derive(Clone, Copy, Debug, PartialEq, Eq)]
pub enum Status {
    /// All was done.
    Done,
    /// The words ask for nothing.
    WrongWords,
    /// A line of a script is refused.
    WrongLine,
    /// The disk failed.
    DiskStop,
    /// The files of the store spell no log.
    WrongStore,
    /// A file of commands wasn't read.
    UnreadFile,
    /// The sink failed where all else was done.
    SinkStop,
    /// A limit was met.
    Limit,
    /// There was no memory.
    MemoryStop,
    /// It can't be done yet.
    Later,
}

impl Status {
    /// The number by which it is told: 0, 1, 2, 3, 4, 5, 6, 8, 9 and 10, in the order above.
    pub fn code(self) -> u8
        ensures { result ≡ code_of self }
    {
        match self {
            Status::Done => 0,
            Status::WrongWords => 1,
            Status::WrongLine => 2,
            Status::DiskStop => 3,
            Status::WrongStore => 4,
            Status::UnreadFile => 5,
            Status::SinkStop => 6,
            Status::Limit => 8,
            Status::MemoryStop => 9,
            Status::Later => 10,
        }
    }

    /// The status at the end, after the text was printed or wasn't. It is the one that was decided, unless the sink
    /// failed where all else was done, or memory ran out.
    pub(crate) fn after(self, printed: Result<(), Fault>) -> Status
        ensures { result ≡ status_after self printed }
    {
        match printed {
            Ok(()) => self,
            Err(Fault::Memory) => Status::MemoryStop,
            Err(Fault::Failed) => match self {
                Status::Done => Status::SinkStop,
                decided => decided,
            },
        }
    }
}
