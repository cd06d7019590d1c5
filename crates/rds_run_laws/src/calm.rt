//! What a run of a calm script comes to, however its threads take turns. Bodies are empty or call other laws; each clause is a theorem.
ghost use Rattle.std.specs.Prelude.{◌≡◌, ◌≤◌, ℕ, true, List};
ghost use Rattle.rds_text.specs.FinalState.{FinalHost};
ghost use Rattle.rds_text.specs.Report.{Group, counts};
ghost use Rattle.rds_text.specs.declared.host.TheConstants.{MAX_HOSTS};
ghost use Rattle.rds_report.specs.Summary.{all_counts, received_bytes, summary};
ghost use Rattle.rds_script.specs.declared.script.Placed.{Placed};
ghost use Rattle.rds_script_gen.specs.Generator.{generated};
ghost use Rattle.rds_run_threads.specs.Ends.{AreAcknowledged, AreEnds};
ghost use Rattle.rds_run_laws.specs.Calm.{CarryAll, HaveRunCalmly, IsCalm, all_received, generated_summary, sends_of};
ghost use Rattle.rds_run_laws.specs.Sent.{sent_sum};
ghost use Rattle.rds_run_laws.specs.Weights.{by_length, by_one};

use rds_model::laws::pulled_maps;
use rds_report::laws::totals_of_items;

/// A generated script is calm.
pub fn generated_is_calm()
    ensures { (sends seed : ℕ) → sends ≤ 100000 → IsCalm 8 (generated sends seed).commands }
{}

/// In a run of a calm script that ended with nothing left to do no send is refused, and all that is sent arrives: between each two hosts exactly
/// what the script's commands have one send to the other.
pub fn all_arrives()
    ensures { (hosts : ℕ) (commands : List Placed) (ends : List FinalHost) → HaveRunCalmly hosts commands ends → CarryAll commands ends }
{
    pulled_maps();
}

/// Then sockets hand out all of it: the report counts each datagram of the script as accepted and as received, and nothing else, for each port
/// pair and in all, and what was handed out has all of their bytes.
pub fn all_is_received()
    ensures totals { (hosts : ℕ) (commands : List Placed) (ends : List FinalHost) → hosts ≤ MAX_HOSTS → HaveRunCalmly hosts commands ends →
        all_counts ends ≡ all_received (sent_sum by_one commands) }
    ensures pairs { (hosts : ℕ) (commands : List Placed) (ends : List FinalHost) → hosts ≤ MAX_HOSTS → HaveRunCalmly hosts commands ends →
        (g : Group) → counts ends g ≡ all_received (sends_of g commands) }
    ensures bytes { (hosts : ℕ) (commands : List Placed) (ends : List FinalHost) → hosts ≤ MAX_HOSTS → HaveRunCalmly hosts commands ends →
        received_bytes ends ≡ sent_sum by_length commands }
{
    pulled_maps();
    totals_of_items();
}

/// So the summary of a generated script that was run to its end is a function of the words that ask for it.
pub fn summary_of_words()
    ensures { (sends seed : ℕ) (ends : List FinalHost) → sends ≤ 100000 → AreEnds true 8 (generated sends seed).commands ends → AreAcknowledged ends →
        summary ends seed sends ≡ generated_summary seed sends }
{
    generated_is_calm();
    all_is_received();
}
