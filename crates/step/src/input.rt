// What a step reads.

// The rows that are lent to read. Those that are written, and the graph, stand apart: in a struct each would want a clause more, that it is still the row lent (as `text::writer::Writer` has).
#[derive(Clone, Copy)]
pub struct StepInput<'a> {
    pub settings: &'a [u32],
    pub colliders: &'a [u32],
    pub bodies: &'a [u32],
    pub proposals: &'a [u32],
    pub shares: &'a [u32],
}
