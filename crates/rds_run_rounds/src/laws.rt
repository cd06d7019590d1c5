//! What the lines of a run keep, and when two of them are drained, for those who turn them.
ghost use Rattle.std.specs.Prelude.{◌≡◌, ℕ, List, true};
ghost use Rattle.rds_fmap.specs.Readers.{WriterView};
ghost use Rattle.rds_line.specs.Line.{LineView, line_past};
ghost use Rattle.rds_host.specs.Lines.{AreTurned, pair_of};
ghost use Rattle.rds_run_rounds.specs.Connection.{AreHosts, AreSameConnections};
ghost use Rattle.rds_run_rounds.specs.Drained.{AreDrained};
ghost use Rattle.rds_run_rounds.specs.Grid.{EachRow};
ghost use Rattle.rds_run_rounds.specs.Rest.{AreMetLines, HasRested};

use rds_frame::one_split;
use rds_link::End;
use rds_model::laws::drained_of_all;

/// The lines of a run stay its lines while they turn, and while each keeps its connection.
pub fn connected_keeps<E: End>()
    ensures hosts { (limit hosts : ℕ) (old new : List (List (LineView E WriterView))) → AreHosts E.means limit hosts old →
        EachRow (AreTurned E.means pair_of) old new → AreHosts E.means limit hosts new }
    ensures same { (limit hosts : ℕ) (old new : List (List (LineView E WriterView))) → AreHosts E.means limit hosts old →
        EachRow AreSameConnections old new → AreHosts E.means limit hosts new }
{}

/// Two lines are drained over ends that tell their bytes, where they met and each then had an idle turn that left nothing to be
/// written.
pub(crate) fn rested_are_drained<E: End>()
    ensures { (low high low_after high_after : LineView E WriterView) → E.means.tells ≡ true → AreMetLines E.means low high →
        HasRested E.means low low_after → HasRested E.means high high_after → AreDrained (line_past low_after) (line_past high_after) }
{
    one_split();
    drained_of_all();
}
