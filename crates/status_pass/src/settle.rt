// What becomes of the record of a contact that stays: edge and pair marks, and the count change.
ghost use Rattle.std.specs.Prelude.{◌≡◌, length};
ghost use Rattle.layout.specs.Contact.{contact_size};
ghost use Rattle.status_pass.specs.Verdicts.{plain_verdict};
ghost use Rattle.status_pass.specs.Settled.{started_words, stopped_words, settled_words};

use crate::verdict::Verdict;
use layout::contact::{
    CONTACT_COUNT_CHANGE, CONTACT_SIZE, EDGE_TOUCHING, PAIR_STARTED_GENERATING_CONSTRAINTS,
    PAIR_STARTED_TOUCHING, PAIR_STOPPED_TOUCHING,
};
use words::store::store;

// The edge touches, and both started marks are cleared.
fn settle_started(words: &mut [u32; CONTACT_SIZE])
    ensures { words.new ≡ started_words words.old }
{
    store(words, EDGE_TOUCHING, 1);
    store(words, PAIR_STARTED_TOUCHING, 0);
    store(words, PAIR_STARTED_GENERATING_CONSTRAINTS, 0);
}

fn settle_stopped(words: &mut [u32; CONTACT_SIZE])
    ensures { words.new ≡ stopped_words words.old }
{
    store(words, EDGE_TOUCHING, 0);
    store(words, PAIR_STOPPED_TOUCHING, 0);
}

#[tactic(auto, unfolding(crate::specs::Settled::settled_words))]
pub fn settle(words: &mut [u32], v: Verdict)
    requires { length words.old ≡ contact_size }
    ensures { words.new ≡ settled_words (plain_verdict v) words.old }
{
    let Some(own) = words.as_mut_array::<CONTACT_SIZE>() else {
        unreachable!()
    };
    match v {
        Verdict::Starts => settle_started(own),
        Verdict::Stops => settle_stopped(own),
        Verdict::Generates => store(own, PAIR_STARTED_GENERATING_CONSTRAINTS, 0),
        Verdict::Recounts => store(own, CONTACT_COUNT_CHANGE, 0),
        Verdict::Vanishes | Verdict::Persists => {}
    }
}
