// The nine runs of a step, compared word by word with the first.
use crate::left::Left;
use crate::orders::SHARES;
use crate::places::GRAPH_LENGTH;
use crate::world::World;
use std::fmt;

// The first word that differs from the first run's: the step, the share, the row and the place in it.
#[derive(Clone, Copy)]
pub struct Difference {
    step: u32,
    share: u32,
    row: &'static str,
    place: usize,
}

impl fmt::Display for Difference {
    fn fmt<W: fmt::Write>(&self, f: &mut fmt::Formatter<W>) -> fmt::Result {
        let Difference {
            step,
            share,
            row,
            place,
        } = *self;
        write!(f, "DIFFERENT\tstep\t{step}\tshare\t{share}\t{row}\t{place}")
    }
}

// The step by every share, from the same words: what the first leaves is lent, and the first difference from it is answered.
pub fn run_all(
    world: &World,
    graph: &[u32; GRAPH_LENGTH],
    step: u32,
    key: u32,
    first: &mut Left,
) -> Option<Difference> {
    let mut after = Left::before(graph);
    world.run(graph, 0, key, first);
    for share in 1..SHARES {
        world.run(graph, share, key, &mut after);
        if let Some((row, place)) = first.differs(&after) {
            return Some(Difference {
                step,
                share,
                row,
                place,
            });
        }
    }
    None
}
