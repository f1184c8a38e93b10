// The lists, each in a graph of the length for its capacity.
use crate::calls::List;
use crate::given::LARGEST_LENGTH;
use layout::contact::CONTACT_SIZE;
use layout::graph::GRAPH_LIST;
use std::io;
use std::io::Write;

const LISTS: u32 = 120;

// Beside its record a contact has a place in the list and in the free ids.
const CONTACT_WORDS: usize = 2 + CONTACT_SIZE;

const GRAPH_LENGTH: usize = GRAPH_LIST + CONTACT_WORDS * LARGEST_LENGTH;

pub fn print_lists<W: Write>(out: &mut W) -> io::Result<()> {
    let mut graph = [0; GRAPH_LENGTH];
    for number in 0..LISTS {
        let list = List::new(number);
        let length = GRAPH_LIST + CONTACT_WORDS * list.capacity as usize;
        list.print(out, &mut graph[..length])?;
    }
    Ok(())
}
