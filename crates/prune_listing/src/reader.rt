// A whole listing: first every line is read, then the points are stored.
ghost use Rattle.std.specs.Prelude.{◌≡◌, ◌≤◌, length, IsSome};
ghost use Rattle.prune_listing.specs.Listing.{longest};
ghost use Rattle.prune_listing.specs.Answers.{ListingRead, points_in, count_from, stored_from};

use crate::fields::FIELD;
use crate::lines::read_line;
use layout::limits::PROPOSED_POINTS;
use layout::prune::{PRUNE_POINT_SIZE, PRUNE_POINTS_LENGTH};
use words::row::store_words;

// The bytes of the first line, and of each other, with their ends.
const NORMAL_LINE: usize = 2 + FIELD * 3;

const POINT_LINE: usize = 2 + FIELD * PRUNE_POINT_SIZE;

// The most bytes of a text that is read.
pub const LONGEST: usize = 65536;

// The normal's words, and how many points there are.
#[derive(Clone, Copy, PartialEq, Eq, Debug)]
pub struct Header {
    pub normal: [u32; 3],
    pub count: u32,
}

// How many point lines follow the first line, if nothing else does.
#[tactic(auto, using(crate::specs::LoopLaws::count_laws))]
fn count_points(text: &[u8]) -> Option<u32>
    requires { length text.now ≤ longest }
    ensures { result ≡ count_from 0 (points_in text.now) }
{
    let lines = text.len().saturating_sub(NORMAL_LINE).div_ceil(POINT_LINE);
    for k in 0..lines {
        read_line::<PRUNE_POINT_SIZE>(text, NORMAL_LINE + POINT_LINE * k, b'P')?;
    }
    Some(lines as u32)
}

// The points of a text whose lines were all read, as many as there is room for.
fn store_points(text: &[u8], points: &mut [u32; PRUNE_POINTS_LENGTH])
    requires { (length text.now ≤ longest) × IsSome (points_in text.now) }
    ensures { points.new ≡ stored_from points.old 0 (points_in text.now) }
{
    for k in 0..PROPOSED_POINTS {
        let line = NORMAL_LINE + POINT_LINE * k;
        let Some(words) = read_line::<PRUNE_POINT_SIZE>(text, line, b'P') else {
            return;
        };
        store_words(points, PRUNE_POINT_SIZE * k, &words);
    }
}

// Reads a listing. The row takes the first points, four words each, as many as there is room for; it is left alone where the text is unreadable.
#[tactic(auto, using(crate::specs::ListingLaws::points_there))]
pub fn read_listing(text: &[u8], points: &mut [u32; PRUNE_POINTS_LENGTH]) -> Option<Header>
    ensures { ListingRead text.now points.old points.new result }
{
    if text.len() > LONGEST {
        return None;
    }
    let normal = read_line::<3>(text, 0, b'N')?;
    let count = count_points(text)?;
    store_points(text, points);
    Some(Header { normal, count })
}
