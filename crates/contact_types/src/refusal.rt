// Why a call is refused. specs/Refusals.antt gives each its number and its message.
ghost use Rattle.std.specs.Prelude.{◌≡◌, Some};
ghost use Rattle.contact_types.specs.Refusals.{number_of, message_of};

use std::error::Error;
use std::fmt;

#[derive(Clone, Copy, PartialEq, Eq, Hash, Debug)]
pub enum Refusal {
    WrongLength = 1,
    OutOfRange = 2,
    SameCollider = 3,
    PairExists = 4,
    GraphFull = 5,
    ProposalTooLarge = 6,
    InvalidShares = 7,
    TooFewPoints = 8,
    NoContact = 9,
}

impl Refusal {
    pub fn number(self) -> u32
        ensures { result ≡ number_of self }
    {
        self as u32
    }
}

// Its message.
impl fmt::Display for Refusal {
    ghost output = { λ r. Some (message_of r) };

    fn fmt<W: fmt::Write>(&self, f: &mut fmt::Formatter<W>) -> fmt::Result {
        f.write_str(match self {
            Refusal::WrongLength => "wrong capacity or buffer length",
            Refusal::OutOfRange => "number out of range",
            Refusal::SameCollider => "both sides are one collider",
            Refusal::PairExists => "the pair stands already",
            Refusal::GraphFull => "the graph is full",
            Refusal::ProposalTooLarge => "too many manifolds or points proposed",
            Refusal::InvalidShares => "the shares do not list each active pair once",
            Refusal::TooFewPoints => "fewer than 5 points to prune",
            Refusal::NoContact => "no contact has this id",
        })
    }
}

impl Error for Refusal {}
