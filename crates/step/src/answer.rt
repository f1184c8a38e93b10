// What a step answers.

// How many events and changes are written, and how many contacts were recycled.
#[derive(Clone, Copy, PartialEq, Eq, Debug)]
pub struct StepReport {
    pub events: u32,
    pub changes: u32,
    pub recycled: u32,
}
