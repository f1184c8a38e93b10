// A stretch of text, and its lines one after another.
ghost use Rattle.std.specs.Prelude.{◌≡◌};
ghost use Rattle.trace_steps.specs.Stretch.{NextIs};

use trace_lines::line::{LINE_WORDS, read_line};
use trace_lines::line_kind::LineKind;

// The lines that begin at `start` or after it and before `stop`.
#[derive(Clone, Copy, PartialEq, Eq, Debug)]
pub struct Stretch<'a> {
    pub text: &'a [u8],
    pub start: usize,
    pub stop: usize,
}

// The lines that are left, and the words of the one before them.
#[derive(Clone, PartialEq, Eq, Debug, Drop)]
pub struct Lines<'a> {
    pub left: Stretch<'a>,
    pub words: [u32; LINE_WORDS],
}

impl<'a> Stretch<'a> {
    pub fn lines(self) -> Lines<'a>
        ensures { result.left ≡ self.entry }
    {
        Lines {
            left: self,
            words: [0; LINE_WORDS],
        }
    }
}

impl Lines<'_> {
    // The kind of the next line; what can't be read ends them.
    #[tactic(auto, using(crate::specs::LoopLaws::line_taken_lem, crate::specs::PlaceLaws::lines_stop, crate::specs::PlaceLaws::lines_unreadable))]
    pub fn next(&mut self) -> Option<LineKind>
        ensures { NextIs self.old self.new result }
    {
        if self.left.start >= self.left.stop {
            return None;
        }
        let line = read_line(self.left.text, self.left.start, &mut self.words)?;
        self.left.start = line.next;
        Some(line.kind)
    }
}
