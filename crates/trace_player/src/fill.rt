// The rows that a step is given, filled by the lines of a stretch of the trace.
ghost use Rattle.std.specs.Prelude.{◌≡◌, true};
ghost use Rattle.contact_range.specs.Checked.{Checked};
ghost use Rattle.contact_range.specs.Recorded.{capacity_of};
ghost use Rattle.step.specs.Step.{given, given_long};
ghost use Rattle.trace_rules.specs.Play.{given_by};
ghost use Rattle.trace_rules.specs.Records.{step_record};
ghost use Rattle.trace_steps.specs.Stretch.{lines_of};

use trace_steps::active::fill_proposals;
use trace_steps::records::fill_rows;
use trace_steps::stretch::Stretch;
use trace_steps::worker::fill_shares;

#[tactic(auto, using(step::specs::AcceptedLaws::given_words))]
pub fn fill_given(
    stretch: Stretch<'_>,
    graph: &[u32],
    settings: &mut [u32],
    colliders: &mut [u32],
    bodies: &mut [u32],
    proposals: &mut [u32],
    shares: &mut [u32],
)
    requires { Checked graph.now × (given_long (given settings.old colliders.old bodies.old proposals.old shares.old) (capacity_of graph.now) ≡ true) }
    ensures { given settings.new colliders.new bodies.new proposals.new shares.new ≡ given_by (step_record (lines_of stretch.entry)) graph.now }
{
    fill_rows(stretch, settings, colliders, bodies);
    fill_proposals(stretch, graph, proposals);
    fill_shares(graph, shares);
}
