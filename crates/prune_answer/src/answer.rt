// A text is read, its points are pruned, and the lines are written.
ghost use Rattle.std.specs.Prelude.{◌≡◌, ◌*◌, ◌≤◌, length, IfOk};
ghost use Rattle.rows.specs.Rows.{each};
ghost use Rattle.contact_types.specs.PruneLaws.{plain_answer};
ghost use Rattle.prune_listing.specs.Listing.{listing};
ghost use Rattle.prune_listing.specs.Lines.{kept_line};
ghost use Rattle.text.specs.Text.{Written};
ghost use Rattle.prune_answer.specs.Answer.{Below, Answered, listing_answer};

use contact_types::prune::prune;
use contact_types::pruning::KeptPoints;
use contact_types::refusal::Refusal;
use layout::limits::STORED_POINTS;
use layout::prune::PRUNE_POINTS_LENGTH;
use math::vec::Vec3;
use prune_listing::reader::read_listing;
use prune_listing::writer::{write_kept, write_refused};
use words::load::load;

// A line of at most six bytes for each point that is kept.
pub const ANSWER_LENGTH: usize = 6 * STORED_POINTS;

// What pruning answers to the points of a text. An unreadable text is refused as a row of another length is.
#[tactic(auto, using(crate::proofs::CallLaws::pruned_answer, crate::proofs::CallLaws::few_kept))]
fn prune_text(text: &[u8]) -> Result<KeptPoints, Refusal>
    ensures answer { plain_answer result ≡ listing_answer (listing text.now) }
    ensures few { IfOk result (λ kept. kept.count ≤ 4) }
{
    let mut points = [0u32; PRUNE_POINTS_LENGTH];
    let header = read_listing(text, &mut points).ok_or(Refusal::WrongLength)?;
    prune(load::<Vec3>(&header.normal, 0), &points, header.count)
}

// A line for each kept number.
#[tactic(auto, using(crate::specs::WriteLaws::lines_none, crate::specs::WriteLaws::next_fits, crate::specs::WriteLaws::lines_all))]
fn write_all_kept(out: &mut [u8], numbers: &[u32]) -> usize
    requires room { 6 * length numbers.now ≤ length out.old }
    requires small { Below 1000 numbers.now }
    ensures { Written out.old 0 (each kept_line numbers.now) out.new result }
{
    let mut at = 0;
    for n in numbers {
        at = write_kept(out, at, *n);
    }
    at
}

// The answer to a text, in the first bytes of out. The result is how many there are.
pub fn answer(text: &[u8], out: &mut [u8; ANSWER_LENGTH]) -> usize
    ensures { Answered text.now out.old out.new result }
{
    match prune_text(text) {
        Ok(kept) => {
            let numbers = [kept.first, kept.second, kept.third, kept.fourth];
            write_all_kept(out, &numbers[..kept.count as usize])
        }
        Err(refusal) => write_refused(out, 0, refusal.number()),
    }
}
