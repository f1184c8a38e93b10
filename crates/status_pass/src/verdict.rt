// Which case of the status pass a contact meets: the first that holds.
ghost use Rattle.std.specs.Prelude.{◌≡◌, length};
ghost use Rattle.layout.specs.Contact.{contact_size};
ghost use Rattle.status_pass.specs.Verdicts.{VerdictIs};

use contact_records::state::load_flags;
use layout::contact::{CONTACT_COUNT_CHANGE, CONTACT_FLAGS};
use words::load::load;

#[derive(Clone, Copy, PartialEq, Eq, Debug)]
pub enum Verdict {
    // Disjoint: the contact is removed.
    Vanishes,
    Starts,
    Stops,
    // Touching, and it started to generate constraints.
    Generates,
    // Touching and generating, and its number of manifolds changed.
    Recounts,
    Persists,
}

pub fn verdict_of(words: &[u32]) -> Verdict
    requires { length words.now ≡ contact_size }
    ensures { VerdictIs words.now result }
{
    let f = load_flags(words, CONTACT_FLAGS);
    let change = load::<u32>(words, CONTACT_COUNT_CHANGE);
    if f.disjoint_aabb {
        return Verdict::Vanishes;
    }
    if f.started_touching {
        return Verdict::Starts;
    }
    if f.stopped_touching {
        return Verdict::Stops;
    }
    if f.touching & f.started_generating_constraints {
        return Verdict::Generates;
    }
    if f.touching & (f.generate_constraints & (change != 0)) {
        return Verdict::Recounts;
    }
    Verdict::Persists
}
