//! What holds of the files of all segments, and of what the files of a store say.
ghost use Rattle.std.specs.Prelude.{◌≡◌, ◌⊎◌, ◌<◌, not, List, All, IsTrue};
ghost use Rattle.frs_types.specs.Records.{Log};
ghost use Rattle.frs_disk.specs.Disk.{IsNumber};
ghost use Rattle.frs_segment.specs.declared.fault.ScanFault.{ScanFault};
ghost use Rattle.frs_segment.specs.declared.fault.ScanFault.TheVariants.{HalfMade, Disk, Memory};
ghost use Rattle.frs_segment.specs.Segments.{File, FileList, WholeSegment, IsSegment, is_open_file, SpellsBy, Spells};
ghost use Rattle.frs_segment.specs.declared.layout.Segment.{Segment};
ghost use Rattle.frs_segment.specs.Scanning.{places_of_segment, IsRefused};
ghost use Rattle.frs_segment.specs.Heads.{HasHeads, HasHeaderBytes, IsInLine, IsRefusedByHeads, StandIn, AreChunks, segment_with};
ghost use Rattle.frs_types.specs.declared.record.Record.{Record};

/// A file is at most one segment. If it is none, one thing is wrong with it first.
pub fn one_segment()
    ensures segment { (file : File) (s t : WholeSegment)
        → IsSegment file s → IsSegment file t → s ≡ t }
    ensures refused { (file : File) (s : WholeSegment) (fault : ScanFault)
        → IsSegment file s → IsRefused file fault → ⊥ }
    ensures fault { (file : File) (fault other : ScanFault)
        → IsRefused file fault → IsRefused file other → fault ≡ other }
{}

/// A file of bytes whose number may be a segment's is a segment, or one thing is wrong with it first.
pub fn segment_or_refused()
    ensures { (file : File) → IsNumber file.0 → All (λ b. b < 256) file.1
        → ((s : WholeSegment) × IsSegment file s) ⊎ ((fault : ScanFault) × IsRefused file fault) }
{}

/// A file is refused as half-made exactly where it isn't open. The disk and memory are never what is wrong with a file.
pub fn refusals()
    ensures half_made { (file : File) → IsRefused file HalfMade → IsTrue (not (is_open_file file)) }
    ensures shut { (file : File) → IsTrue (not (is_open_file file)) → IsRefused file HalfMade }
    ensures disk { (file : File) → IsRefused file Disk → ⊥ }
    ensures memory { (file : File) → IsRefused file Memory → ⊥ }
{}

/// The files of a store spell at most one log, and by at most one list of segments.
pub fn one_log()
    ensures segments { (image : FileList) (a b : List WholeSegment) (log other : Log)
        → SpellsBy image a log → SpellsBy image b other → a ≡ b }
    ensures log { (image : FileList) (log other : Log)
        → Spells image log → Spells image other → log ≡ other }
{}

/// The heads of a segment's chunks, and what is told by heads alone: a segment has them; a file that has them, with
/// chunks behind them, is a segment; and where a head is refused, the file is none.
pub fn segment_heads()
    ensures kept { (file : File) (s : WholeSegment)
        → IsSegment file s → HasHeads file (places_of_segment s) }
    ensures whole { (file : File) (found : Segment) (chunks : List (List Record))
        → IsNumber file.0 → HasHeaderBytes file → IsInLine found → HasHeads file found
        → StandIn file.1 found.chunks chunks → IsSegment file (segment_with found chunks)
        × (found ≡ places_of_segment (segment_with found chunks)) }
    ensures meant { (found : Segment) (chunks : List (List Record))
        → IsNumber found.number → IsInLine found → AreChunks found.chunks chunks
        → (file : File) × IsSegment file (segment_with found chunks)
        × (found ≡ places_of_segment (segment_with found chunks)) }
    ensures one { (file : File) (a b : Segment) → HasHeads file a → HasHeads file b → a ≡ b }
    ensures refused { (file : File) (fault : ScanFault) (s : WholeSegment)
        → IsRefusedByHeads file fault → IsSegment file s → ⊥ }
    ensures half_made { (file : File)
        → IsRefusedByHeads file HalfMade → IsRefused file HalfMade }
    ensures made { (file : File) (found : Segment)
        → HasHeads file found → IsRefused file HalfMade → ⊥ }
    ensures other { (file : File) (fault : ScanFault) → (fault ≡ HalfMade → ⊥)
        → IsRefusedByHeads file fault → IsRefused file HalfMade → ⊥ }
{}
