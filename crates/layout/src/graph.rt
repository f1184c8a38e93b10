// The graph's head. After it stand the list, the free ids and the records, by the capacity.

pub const GRAPH_CAPACITY: usize = 0;

// Ids given, pairs listed, ids free.
pub const GRAPH_GIVEN: usize = 1;

pub const GRAPH_LISTED: usize = 2;

pub const GRAPH_FREED: usize = 3;

pub const GRAPH_LIST: usize = 4;
