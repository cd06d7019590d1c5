//! What the totals of a summary come to by the items that are counted. The body is empty; each clause is a theorem.
ghost use Rattle.std.specs.Prelude.{◌≡◌, List};
ghost use Rattle.rds_text.specs.FinalState.{FinalHost};
ghost use Rattle.rds_text.specs.FinalViews.{AreFinalHosts};
ghost use Rattle.rds_report.specs.Items.{items};
ghost use Rattle.rds_report.specs.ItemReport.{AllOfAccepted, tally};
ghost use Rattle.rds_report.specs.ItemTotals.{bytes_of};
ghost use Rattle.rds_report.specs.Summary.{all_counts, received_bytes};

/// Where each item is of a port pair for which a datagram was accepted, the counts of all port pairs together count each item once, and the
/// bytes that were handed out are those of all items.
pub fn totals_of_items()
    ensures counts { (hosts : List FinalHost) → AreFinalHosts hosts → AllOfAccepted (items hosts) → all_counts hosts ≡ tally (items hosts) }
    ensures bytes { (hosts : List FinalHost) → AreFinalHosts hosts → AllOfAccepted (items hosts) → received_bytes hosts ≡ bytes_of (items hosts) }
{}
