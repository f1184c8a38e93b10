// The kind of a line, by its letter: docs/TRACES.md, 'Lines'.
ghost use Rattle.trace_lines.specs.Answers.{KindReadAt};

#[derive(Clone, Copy, PartialEq, Eq, Debug)]
pub enum LineKind {
    Addition,
    Settings,
    Collider,
    Body,
    Hook,
    Manifold,
    Point,
    Go,
}

impl LineKind {
    // None where no record has the letter.
    #[tactic(auto, using(crate::specs::ShapeLaws::no_shape))]
    pub fn from_letter(letter: u8) -> Option<LineKind>
        ensures { KindReadAt letter result }
    {
        match letter {
            b'A' => Some(LineKind::Addition),
            b'T' => Some(LineKind::Settings),
            b'C' => Some(LineKind::Collider),
            b'B' => Some(LineKind::Body),
            b'H' => Some(LineKind::Hook),
            b'M' => Some(LineKind::Manifold),
            b'P' => Some(LineKind::Point),
            b'G' => Some(LineKind::Go),
            _ => None,
        }
    }
}
