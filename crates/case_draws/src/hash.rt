// Hashes of what a graph and its contacts' records record: nothing behind a mark of 0 or past a count.
ghost use Rattle.std.specs.Prelude.{◌≤◌, ◌<◌};
ghost use Rattle.rules.specs.Limits.{pair_manifolds};

use crate::graph::{free_ids, listed, listed_ids, record};
use crate::numbers::{
    CACHED_SIZE, CONTACT_BODY1, CONTACT_BODY2, CONTACT_CACHE, CONTACT_COLLIDER1,
    CONTACT_COLLIDERS_SIZE, CONTACT_FIRST_MANIFOLD, CONTACT_MANIFOLDS, CONTACT_MIDDLE_SIZE,
    CONTACT_PAIR_INDEX, GRAPH_CAPACITY, GRAPH_FREED, GRAPH_GIVEN, MANIFOLD_POINTS, MANIFOLD_SIZE,
    MANIFOLDS, POINT_SIZE, STORED_POINTS,
};
use crate::places::{part, word};
use std::fmt;

pub fn manifold_count(record: &[u32]) -> u32
    ensures { result ≤ pair_manifolds }
{
    word(record, CONTACT_MANIFOLDS).min(MANIFOLDS)
}

// A 32 bit FNV-1a hash of the words so far, each word's four bytes from the lowest.
#[derive(Clone, Copy, Debug, PartialEq, Eq)]
pub struct Hash(u32);

impl Default for Hash {
    fn default() -> Self {
        Hash(2166136261)
    }
}

impl Hash {
    // Of the first words of a row.
    pub fn of_words(row: &[u32], count: u32) -> Self {
        let mut hash = Self::default();
        hash.add_words(part(row, 0, count));
        hash
    }

    pub fn of_record(record: &[u32]) -> Self {
        let mut hash = Self::default();
        hash.add_record(record);
        hash
    }

    pub fn of_graph(graph: &[u32]) -> Self {
        let mut hash = Self::default();
        hash.add_graph(graph);
        hash
    }

    fn add_byte(&mut self, byte: u8) {
        self.0 = (self.0 ^ u32::from(byte)).wrapping_mul(16777619);
    }

    pub fn add_word(&mut self, word: u32) {
        for byte in word.to_le_bytes() {
            self.add_byte(byte);
        }
    }

    pub fn add_words(&mut self, words: &[u32]) {
        for &word in words {
            self.add_word(word);
        }
    }

    // A mark, and where it is 1 as many words behind it.
    fn add_optional(&mut self, record: &[u32], at: u32, count: u32) {
        let mark = word(record, at);
        self.add_word(mark);
        if mark == 1 {
            self.add_words(part(record, at.wrapping_add(1), count));
        }
    }

    // Number of points, normal, friction, restitution, tangent velocity, then the points.
    fn add_manifold(&mut self, record: &[u32], m: u32)
        requires { m < pair_manifolds }
    {
        let at = CONTACT_FIRST_MANIFOLD + m * MANIFOLD_SIZE;
        let points = word(record, at).min(STORED_POINTS);
        self.add_words(part(record, at, MANIFOLD_POINTS + points * POINT_SIZE));
    }

    // Colliders; bodies; place in the list, marks, count change, speculative distance; cache; manifolds.
    pub fn add_record(&mut self, record: &[u32]) {
        self.add_words(part(record, CONTACT_COLLIDER1, CONTACT_COLLIDERS_SIZE));
        self.add_optional(record, CONTACT_BODY1, 1);
        self.add_optional(record, CONTACT_BODY2, 1);
        self.add_words(part(record, CONTACT_PAIR_INDEX, CONTACT_MIDDLE_SIZE));
        self.add_optional(record, CONTACT_CACHE, CACHED_SIZE);
        self.add_word(word(record, CONTACT_MANIFOLDS));
        for m in 0..manifold_count(record) {
            self.add_manifold(record, m);
        }
    }

    // Capacity, ids given, the free ids, the listed ids, each with its record.
    pub fn add_graph(&mut self, graph: &[u32]) {
        self.add_word(word(graph, GRAPH_CAPACITY));
        self.add_word(word(graph, GRAPH_GIVEN));
        self.add_word(word(graph, GRAPH_FREED));
        self.add_words(free_ids(graph));
        self.add_word(listed(graph));
        for &id in listed_ids(graph) {
            self.add_word(id);
            self.add_record(record(graph, id));
        }
    }
}

// Eight hexadecimal digits.
impl fmt::Display for Hash {
    fn fmt<W: fmt::Write>(&self, f: &mut fmt::Formatter<W>) -> fmt::Result {
        write!(f, "{:08X}", self.0)
    }
}
