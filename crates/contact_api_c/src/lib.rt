// The static library: the public calls as C functions, each with the promise of the call that it makes. docs/BUFFERS.md has every row.
#![tactic(auto)]

ghost use Rattle.contact_api.specs.Calls.{LayOutCalled, AddCalled, LookUpCalled, RemoveCalled, LengthsCalled, LayoutCalled, PruneCalled, StepCalled};
ghost use Rattle.step.specs.Step.{given, rows};
ghost use Rattle.contact_api.specs.TraceCall.{PlayLineCalled};
ghost use Rattle.trace_player.specs.Played.{lent};

use contact_api::{graph_calls, layout_call, prune_call, step_call, trace_call};

#[unsafe(no_mangle)]
pub extern "C" fn sardinerod_lay_out(graph: &mut [u32], capacity: u32) -> u32
    ensures { LayOutCalled graph.old capacity graph.new result }
{
    graph_calls::sardinerod_lay_out(graph, capacity)
}

#[unsafe(no_mangle)]
pub extern "C" fn sardinerod_add(graph: &mut [u32], request: &[u32], answer: &mut [u32]) -> u32
    ensures { AddCalled graph.old request.now answer.old graph.new answer.new result }
{
    graph_calls::sardinerod_add(graph, request, answer)
}

#[unsafe(no_mangle)]
pub extern "C" fn sardinerod_look_up(graph: &[u32], id: u32, answer: &mut [u32]) -> u32
    ensures { LookUpCalled graph.now id answer.old answer.new result }
{
    graph_calls::sardinerod_look_up(graph, id, answer)
}

#[unsafe(no_mangle)]
pub extern "C" fn sardinerod_remove(graph: &mut [u32], id: u32) -> u32
    ensures { RemoveCalled graph.old id graph.new result }
{
    graph_calls::sardinerod_remove(graph, id)
}

#[unsafe(no_mangle)]
pub extern "C" fn sardinerod_lengths(capacity: u32, answer: &mut [u32]) -> u32
    ensures { LengthsCalled capacity answer.old answer.new result }
{
    layout_call::sardinerod_lengths(capacity, answer)
}

#[unsafe(no_mangle)]
pub extern "C" fn sardinerod_layout(answer: &mut [u32]) -> u32
    ensures { LayoutCalled answer.old answer.new result }
{
    layout_call::sardinerod_layout(answer)
}

#[unsafe(no_mangle)]
pub extern "C" fn sardinerod_prune(
    normal: &[u32],
    points: &[u32],
    count: u32,
    answer: &mut [u32],
) -> u32
    ensures { PruneCalled normal.now points.now count answer.old answer.new result }
{
    prune_call::sardinerod_prune(normal, points, count, answer)
}

#[unsafe(no_mangle)]
pub extern "C" fn sardinerod_step(
    settings: &[u32],
    colliders: &[u32],
    bodies: &[u32],
    proposals: &[u32],
    shares: &[u32],
    graph: &mut [u32],
    bits: &mut [u64],
    events: &mut [u32],
    changes: &mut [u32],
    distances: &mut [u32],
    answer: &mut [u32],
) -> u32
    ensures { StepCalled (given settings.now colliders.now bodies.now proposals.now shares.now) graph.old (rows bits.old events.old changes.old distances.old) answer.old graph.new (rows bits.new events.new changes.new distances.new) answer.new result }
{
    step_call::sardinerod_step(
        settings, colliders, bodies, proposals, shares, graph, bits, events, changes, distances,
        answer,
    )
}

#[unsafe(no_mangle)]
pub extern "C" fn sardinerod_play_line(
    trace: &[u8],
    player: &mut [u64],
    graph: &mut [u32],
    settings: &mut [u32],
    colliders: &mut [u32],
    bodies: &mut [u32],
    proposals: &mut [u32],
    shares: &mut [u32],
    bits: &mut [u64],
    events: &mut [u32],
    changes: &mut [u32],
    distances: &mut [u32],
    out: &mut [u8],
    answer: &mut [u64],
) -> u32
    ensures { PlayLineCalled trace.now player.old (lent graph.old (given settings.old colliders.old bodies.old proposals.old shares.old) (rows bits.old events.old changes.old distances.old) out.old) answer.old player.new (lent graph.new (given settings.new colliders.new bodies.new proposals.new shares.new) (rows bits.new events.new changes.new distances.new) out.new) answer.new result }
{
    trace_call::sardinerod_play_line(
        trace, player, graph, settings, colliders, bodies, proposals, shares, bits, events,
        changes, distances, out, answer,
    )
}
