// Pruning.
ghost use Rattle.contact_graph.specs.Promises.{done_answer};
ghost use Rattle.contact_api.specs.Calls.{done_number, PruneCalled};

use crate::done::done_number;
use contact_types::prune::prune;
use contact_types::refusal::Refusal;
use math::vec::Vec3;
use words::load::load;
use words::row::store_words;

pub const PRUNE_NORMAL_LENGTH: usize = 3;

pub const PRUNE_ANSWER_LENGTH: usize = 5;

fn prune_called(
    normal: &[u32],
    points: &[u32],
    count: u32,
    answer: &mut [u32],
) -> Result<(), Refusal>
    ensures { PruneCalled normal.now points.now count answer.old answer.new (done_number (done_answer result)) }
{
    if normal.len() != PRUNE_NORMAL_LENGTH {
        return Err(Refusal::WrongLength);
    }
    if answer.len() != PRUNE_ANSWER_LENGTH {
        return Err(Refusal::WrongLength);
    }
    let n = load::<Vec3>(normal, 0);
    let kept = prune(n, points, count)?;
    let words = [kept.count, kept.first, kept.second, kept.third, kept.fourth];
    store_words(answer, 0, &words);
    Ok(())
}

pub fn sardinerod_prune(normal: &[u32], points: &[u32], count: u32, answer: &mut [u32]) -> u32
    ensures { PruneCalled normal.now points.now count answer.old answer.new result }
{
    done_number(prune_called(normal, points, count, answer))
}
