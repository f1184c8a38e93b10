// A call's number: 0, or the refusal's.
ghost use Rattle.std.specs.Prelude.{◌≡◌};
ghost use Rattle.contact_graph.specs.Promises.{done_answer};
ghost use Rattle.contact_api.specs.Calls.{done_number};

use contact_types::refusal::Refusal;

pub fn done_number(a: Result<(), Refusal>) -> u32
    ensures { result ≡ done_number (done_answer a) }
{
    match a {
        Ok(()) => 0,
        Err(r) => r.number(),
    }
}
