//! Laws of the slots and the lines of a host of a run. Each clause is a theorem.
ghost use Rattle.std.specs.Prelude.{List};
ghost use Rattle.rds_fmap.specs.Readers.{ReaderView, WriterView};
ghost use Rattle.rds_socket.specs.Holding.{Holding};
ghost use Rattle.rds_line.specs.Line.{LineView};
ghost use Rattle.rds_host.specs.Keeping.{LinesKeep};
ghost use Rattle.rds_host.specs.Passes.{AreAllPasses};
ghost use Rattle.rds_host.specs.Ties.{AreOfHost};
ghost use Rattle.rds_run_callers.specs.Ends.{AreEndsOf};
ghost use Rattle.rds_run_callers.specs.Places.{Place, PlacesKeep, vacant_places};
ghost use Rattle.rds_run_settling.specs.Tied.{AreSlotsTold, AreTied, holdings};

use rds_host::laws::host_keeps;
use rds_link::End;

/// The slots and the lines of a host are tied when they are made, and stay so while both are kept.
pub fn tied_keeps<E: End>()
    ensures made { (slots : List (Holding ReaderView)) (lines : List (LineView E WriterView)) → AreOfHost slots lines → AreAllPasses slots lines →
        AreTied (vacant_places slots) lines }
    ensures places { (places new : List Place) (lines : List (LineView E WriterView)) → AreTied places lines → PlacesKeep places new →
        AreTied new lines }
    ensures lines { (places : List Place) (lines after : List (LineView E WriterView)) → AreTied places lines → LinesKeep lines after →
        AreTied places after }
{
    host_keeps::<E>();
}

/// Slots that have ended are of their host still, and were told of as much as before.
pub fn tied_ends<E: End>()
    ensures host { (places : List Place) (closed : List (Holding ReaderView)) (lines : List (LineView E WriterView)) → AreTied places lines →
        AreEndsOf places closed → AreOfHost closed lines }
    ensures passes { (places : List Place) (closed : List (Holding ReaderView)) (lines : List (LineView E WriterView)) → AreTied places lines →
        AreEndsOf places closed → AreAllPasses closed lines }
    ensures told { (places : List Place) (closed : List (Holding ReaderView)) (lines : List (LineView E WriterView)) →
        AreSlotsTold (holdings places) lines → AreEndsOf places closed → AreSlotsTold closed lines }
{
    host_keeps::<E>();
}
