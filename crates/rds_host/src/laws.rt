//! Laws of the slots and lines of hosts. Their bodies are empty; each clause is a theorem.
ghost use Rattle.std.specs.Prelude.{List};
ghost use Rattle.rds_fmap.specs.Readers.{ReaderView, WriterView};
ghost use Rattle.rds_socket.specs.Holding.{Holding};
ghost use Rattle.rds_line.specs.Line.{LineView};
ghost use Rattle.rds_host.specs.Keeping.{LinesKeep, SlotsKeep};
ghost use Rattle.rds_host.specs.Lines.{AreTurned, pair_of};
ghost use Rattle.rds_host.specs.Passes.{AreAllPasses};
ghost use Rattle.rds_host.specs.Ties.{AreOfHost};

use rds_link::End;

/// Slots and lines that are of one host still are once each of them was kept, and the putters of their queues are still all there are.
pub fn host_keeps<E: End>()
    ensures host { (slots ended : List (Holding ReaderView)) (lines after : List (LineView E WriterView)) →
        AreOfHost slots lines → SlotsKeep slots ended → LinesKeep lines after → AreOfHost ended after }
    ensures passes { (slots ended : List (Holding ReaderView)) (lines after : List (LineView E WriterView)) →
        AreAllPasses slots lines → SlotsKeep slots ended → LinesKeep lines after → AreAllPasses ended after }
{}

/// Lines that only turned were kept.
pub fn turned_keeps<E: End>()
    ensures { (old new : List (LineView E WriterView)) → AreTurned E.means pair_of old new → LinesKeep old new }
{}

/// Slots are kept where nothing is done, and where they were kept twice.
pub fn slots_keep()
    ensures same { (slots : List (Holding ReaderView)) → SlotsKeep slots slots }
    ensures through { (old middle new : List (Holding ReaderView)) → SlotsKeep old middle → SlotsKeep middle new → SlotsKeep old new }
{}

/// Lines are kept where nothing is done, and where they were kept twice.
pub fn lines_keep<E: End>()
    ensures same { (lines : List (LineView E WriterView)) → LinesKeep lines lines }
    ensures through { (old middle new : List (LineView E WriterView)) → LinesKeep old middle → LinesKeep middle new → LinesKeep old new }
{}
