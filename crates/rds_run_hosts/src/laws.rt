//! What the lines of a run keep of the streams that were prepared for them.
ghost use Rattle.std.specs.Prelude.{ℕ, List};
ghost use Rattle.rds_fmap.specs.Readers.{WriterView};
ghost use Rattle.rds_line.specs.Line.{LineView};
ghost use Rattle.rds_run_rounds.specs.Connection.{AreSameConnections};
ghost use Rattle.rds_run_rounds.specs.Grid.{EachRow};
ghost use Rattle.rds_run_rounds.specs.Quiet.{LinesGoOn};
ghost use Rattle.rds_script.specs.declared.script.Placed.{Placed};
ghost use Rattle.rds_run_hosts.specs.Preparing.{HaveCounted};

use rds_link::End;

/// The lines of a run have the streams that were prepared for them while each keeps its connection, and while they go on.
pub fn counted_keeps<E: End>()
    ensures same { (commands : List Placed) (before after : ℕ) (old new : List (List (LineView E WriterView))) →
        HaveCounted commands before after old →
        EachRow AreSameConnections old new → HaveCounted commands before after new }
    ensures goes { (commands : List Placed) (before after : ℕ) (old new : List (List (LineView E WriterView))) →
        HaveCounted commands before after old →
        EachRow LinesGoOn old new → HaveCounted commands before after new }
{}
