// The lengths of the rows, and where the records begin in the graph.
use case_draws::numbers::{GRAPH_IDS, GRAPH_LIST};
use layout::change::CHANGE_SIZE;
use layout::contact::CONTACT_SIZE;
use layout::event::EVENT_SIZE;
use layout::limits::MOST_WORKERS;
use layout::proposal::PROPOSAL_SIZE;
use layout::shares::SHARES_ENTRIES;

pub const CAPACITY: u32 = 8;

// The colliders that are drawn, each with a body of its number.
pub const DRAWN: u32 = 6;

pub const RECORDS_PLACE: u32 = GRAPH_LIST + GRAPH_IDS * CAPACITY;

pub const CAPACITY_LENGTH: usize = CAPACITY as usize;

pub const GRAPH_LENGTH: usize = RECORDS_PLACE as usize + CONTACT_SIZE * CAPACITY_LENGTH;

pub const EVENTS_LENGTH: usize = EVENT_SIZE * CAPACITY_LENGTH;

pub const CHANGES_LENGTH: usize = CHANGE_SIZE * CAPACITY_LENGTH;

pub const PROPOSALS_LENGTH: usize = PROPOSAL_SIZE * CAPACITY_LENGTH;

pub const SHARES_LENGTH: usize = SHARES_ENTRIES + CAPACITY_LENGTH;

// A word for each worker.
pub const BITS_LENGTH: usize = MOST_WORKERS;
