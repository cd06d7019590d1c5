ghost use Rattle.std.specs.Prelude.{◌≡◌, ℕ, Err, IfOk, OnErr};
ghost use Rattle.rds_play_pair.specs.declared.error.PairError.TheVariants as errors;
ghost use Rattle.rds_play_pair.specs.Sides.{IsFull};
ghost use Rattle.rds_play_pair.specs.Changes.{Moves};
ghost use Rattle.rds_play_pair.specs.Half.{side_of};
ghost use Rattle.rds_play_pair.specs.Joined.{Flows};

use crate::error::PairError;
use crate::half::Half;
use rds_conn::ConnError;
use rds_model::laws;

/// Gives bytes that are in flight to the end that they go to, at most `bytes`. Answers how many.
pub(crate) fn move_bytes(
    writer: &mut Half,
    reader: &mut Half,
    bytes: usize,
) -> Result<usize, PairError>
    requires forth { Flows (side_of writer.old) (side_of reader.old) }
    requires back { Flows (side_of reader.old) (side_of writer.old) }
    ensures moves { IfOk result (λ used.
        Moves bytes used (side_of writer.old) (side_of writer.new) (side_of reader.old) (side_of reader.new)) }
    ensures err { OnErr result ((side_of writer.new ≡ side_of writer.old) × (side_of reader.new ≡ side_of reader.old)) }
    ensures spent { (entries : ℕ) → result ≡ Err (errors.Spent entries) → IsFull entries (side_of reader.old) }
{
    reader.ready()?;
    let flying = writer.out.rest();
    let count = flying.len().min(bytes);
    match reader.conn.feed(&flying[..count]) {
        Ok(fed) => {
            writer.out.took(fed.used);
            Ok(fed.used)
        }
        Err(ConnError::Malformed(_)) => {
            writer.conn.known();
            reader.conn.known();
            laws::no_bad(writer.conn.journal(), reader.conn.journal());
            unreachable!()
        }
        Err(ConnError::Closed) => Ok(0),
        Err(_) => Err(PairError::Memory),
    }
}
