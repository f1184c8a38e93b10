// A line that asks for an addition.
ghost use Rattle.std.specs.Prelude.{◌≡◌, length};
ghost use Rattle.layout.specs.Request.{request_length};
ghost use Rattle.trace_player.specs.Played.{request_words, AdditionMade};

use contact_graph::add::add;
use contact_graph::call::load_request;
use layout::request::{
    REQUEST_BODY1, REQUEST_BODY1_NUMBER, REQUEST_BODY2, REQUEST_BODY2_NUMBER, REQUEST_COLLIDER1,
    REQUEST_COLLIDER2, REQUEST_CONTACT_EVENTS, REQUEST_LENGTH, REQUEST_MODIFY_CONTACTS,
    REQUEST_SPECULATIVE_DISTANCE,
};
use trace_lines::line::LINE_WORDS;
use trace_printing::cells::write_refused;

// The words of an addition's line.
pub fn request_words(words: [u32; LINE_WORDS]) -> [u32; REQUEST_LENGTH]
    ensures { result ≡ request_words words }
{
    [
        words[REQUEST_COLLIDER1],
        words[REQUEST_COLLIDER2],
        words[REQUEST_BODY1],
        words[REQUEST_BODY1_NUMBER],
        words[REQUEST_BODY2],
        words[REQUEST_BODY2_NUMBER],
        words[REQUEST_CONTACT_EVENTS],
        words[REQUEST_MODIFY_CONTACTS],
        words[REQUEST_SPECULATIVE_DISTANCE],
    ]
}

// The result is how many bytes are printed.
pub fn play_addition(graph: &mut [u32], request: &[u32], out: &mut [u8]) -> usize
    requires { length request.now ≡ request_length }
    ensures { AdditionMade request.now graph.old out.old graph.new out.new result }
{
    match add(graph, load_request(request)) {
        Ok(_) => 0,
        Err(r) => write_refused(out, 0, r.number()),
    }
}
