// The graph's calls. Each answers 0, or a refusal's number, and then no lent word changes.
ghost use Rattle.std.specs.Prelude.{◌≡◌};
ghost use Rattle.contact_records.specs.Written.{optional_words};
ghost use Rattle.contact_graph.specs.LookUp.{edge_value};
ghost use Rattle.contact_graph.specs.Promises.{done_answer};
ghost use Rattle.contact_api.specs.Calls.{done_number, edge_words, LayOutCalled, AddCalled, LookUpCalled, RemoveCalled};

use crate::done::done_number;
use contact_graph::add::add;
use contact_graph::call::{ContactEdge, load_request};
use contact_graph::lay_out::lay_out;
use contact_graph::look_up::look_up;
use contact_graph::remove::remove;
use contact_records::state::optional_words;
use contact_types::contact_id::ContactId;
use contact_types::refusal::Refusal;
use layout::request::REQUEST_LENGTH;
use words::row::{mark_word, store_words};
use words::store::store;

pub const ADD_ANSWER_LENGTH: usize = 1;

pub const LOOK_UP_ANSWER_LENGTH: usize = 10;

#[tactic(auto, using(crate::specs::CallLaws::lay_out_called))]
pub fn sardinerod_lay_out(graph: &mut [u32], capacity: u32) -> u32
    ensures { LayOutCalled graph.old capacity graph.new result }
{
    done_number(lay_out(graph, capacity))
}

fn add_called(graph: &mut [u32], request: &[u32], answer: &mut [u32]) -> Result<(), Refusal>
    ensures { AddCalled graph.old request.now answer.old graph.new answer.new (done_number (done_answer result)) }
{
    if request.len() != REQUEST_LENGTH {
        return Err(Refusal::WrongLength);
    }
    if answer.len() != ADD_ANSWER_LENGTH {
        return Err(Refusal::WrongLength);
    }
    let a = load_request(request);
    let id = add(graph, a)?;
    store(answer, 0, id.0);
    Ok(())
}

pub fn sardinerod_add(graph: &mut [u32], request: &[u32], answer: &mut [u32]) -> u32
    ensures { AddCalled graph.old request.now answer.old graph.new answer.new result }
{
    done_number(add_called(graph, request, answer))
}

#[tactic(auto, using(crate::specs::CallLaws::edge_words_lem))]
fn edge_words(e: ContactEdge) -> [u32; LOOK_UP_ANSWER_LENGTH]
    ensures { result ≡ edge_words (edge_value e) }
{
    let [has_body1, body1] = optional_words(e.body1);
    let [has_body2, body2] = optional_words(e.body2);
    [
        e.id.0,
        e.collider1,
        e.collider2,
        has_body1,
        body1,
        has_body2,
        body2,
        e.pair_index,
        mark_word(e.touching),
        mark_word(e.contact_events),
    ]
}

fn look_up_called(graph: &[u32], id: u32, answer: &mut [u32]) -> Result<(), Refusal>
    ensures { LookUpCalled graph.now id answer.old answer.new (done_number (done_answer result)) }
{
    if answer.len() != LOOK_UP_ANSWER_LENGTH {
        return Err(Refusal::WrongLength);
    }
    let edge = look_up(graph, ContactId(id))?;
    let words = edge_words(edge);
    store_words(answer, 0, &words);
    Ok(())
}

pub fn sardinerod_look_up(graph: &[u32], id: u32, answer: &mut [u32]) -> u32
    ensures { LookUpCalled graph.now id answer.old answer.new result }
{
    done_number(look_up_called(graph, id, answer))
}

#[tactic(auto, using(crate::specs::CallLaws::remove_called))]
pub fn sardinerod_remove(graph: &mut [u32], id: u32) -> u32
    ensures { RemoveCalled graph.old id graph.new result }
{
    done_number(remove(graph, ContactId(id)))
}
