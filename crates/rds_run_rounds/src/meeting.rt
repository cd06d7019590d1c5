//! The meeting of the two lines of two hosts.
ghost use Rattle.std.specs.Prelude.{ℕ};
ghost use Rattle.rds_line.specs.Line.{line_past};
ghost use Rattle.rds_run_rounds.specs.Connection.{AreConnected};
ghost use Rattle.rds_run_rounds.specs.Rest.{AreMetLines, HasMet};
ghost use Rattle.rds_run_rounds.specs.Sound.{AreSoundJournals};

use rds_fmap::Writer;
use rds_line::{Line, meet};
use rds_link::Wire;
use rds_model::laws::{fifo_of_all, headline_of_all};

/// The two lines of a connection meet: then what their journals have is sound, and each end knows what the other has done.
pub(crate) fn meet_lines<W: Wire>(one: &mut Line<W::End, Writer>, other: &mut Line<W::End, Writer>)
    requires { (limit low high : ℕ) × AreConnected W.End.means limit low high one.old other.old }
    ensures connected { (limit low high : ℕ) → AreConnected W.End.means limit low high one.old other.old →
        AreConnected W.End.means limit low high one.new other.new }
    ensures met { AreMetLines W.End.means one.new other.new }
    ensures one { HasMet one.old one.new }
    ensures other { HasMet other.old other.new }
    ensures sound { AreSoundJournals W.End.means.tells (line_past one.new) (line_past other.new) }
{
    meet::<W, Writer>(one, other);
    one.known();
    other.known();
    fifo_of_all();
    headline_of_all();
}
