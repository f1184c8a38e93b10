// Where a trace is played, and what the line there asks for.
ghost use Rattle.std.specs.Prelude.{◌≡◌};
ghost use Rattle.trace_lines.specs.Items.{letter_of};
ghost use Rattle.trace_player.specs.Player.{player_at, FollowedBy, AskedAt};

use trace_lines::line::{LINE_WORDS, read_line};
use trace_lines::line_kind::LineKind;

// The place of the next line; where the lines since the last go begin; whether the line above is a manifold or a point; whether settings
// stand among those lines; whether all their numbers are in range, those of additions apart.
#[derive(Clone, Copy, PartialEq, Eq, Debug)]
pub struct Player {
    pub place: usize,
    pub stretch: usize,
    pub after_point: bool,
    pub settings: bool,
    pub fits: bool,
}

// A line's kind, and the player after it.
#[derive(Clone, Copy, PartialEq, Eq, Debug)]
pub struct AskedLine {
    pub kind: LineKind,
    pub player: Player,
}

// What the next line may be.
#[derive(Clone, Copy, PartialEq, Eq, Debug)]
pub struct Next {
    pub after_point: bool,
    pub settings: bool,
}

impl Player {
    // At a place where nothing has been read since the last go; a trace begins at 0.
    pub fn at(place: usize) -> Player
        ensures { result ≡ player_at place }
    {
        Player {
            place,
            stretch: place,
            after_point: false,
            settings: false,
            fits: true,
        }
    }

    #[tactic(auto, unfolding(trace_rules::specs::Reading::follow))]
    fn follow(self, kind: LineKind) -> Option<Next>
        ensures { FollowedBy self.after_point self.settings (letter_of kind) result }
    {
        let settings = self.settings;
        match kind {
            LineKind::Point => self.after_point.then_some(Next {
                after_point: true,
                settings,
            }),
            LineKind::Go => settings.then_some(Next {
                after_point: false,
                settings: false,
            }),
            LineKind::Settings => Some(Next {
                after_point: false,
                settings: true,
            }),
            LineKind::Manifold => Some(Next {
                after_point: true,
                settings,
            }),
            _ => Some(Next {
                after_point: false,
                settings,
            }),
        }
    }
}

pub fn next_line(trace: &[u8], player: Player, words: &mut [u32; LINE_WORDS]) -> Option<AskedLine>
    ensures { AskedAt trace.now player words.old words.new result }
{
    let line = read_line(trace, player.place, words)?;
    let next = player.follow(line.kind)?;
    let kind = line.kind;
    if kind == LineKind::Go {
        return Some(AskedLine {
            kind,
            player: Player::at(line.next),
        });
    }
    Some(AskedLine {
        kind,
        player: Player {
            place: line.next,
            stretch: player.stretch,
            after_point: next.after_point,
            settings: next.settings,
            fits: player.fits & ((kind == LineKind::Addition) | line.fits),
        },
    })
}
