// What a call gave, or the number of its refusal.
use contact_types::contact_id::ContactId;
use contact_types::refusal::Refusal;
use std::fmt::Display;
use std::io::Write;
use std::{fmt, io};

#[derive(Clone, Copy)]
struct Id(ContactId);

impl Display for Id {
    fn fmt<W: fmt::Write>(&self, f: &mut fmt::Formatter<W>) -> fmt::Result {
        write!(f, "id\t{}", self.0.0)
    }
}

pub fn print_answer<W: Write, T: Display + Drop>(
    out: &mut W,
    answer: Result<T, Refusal>,
) -> io::Result<()> {
    match answer {
        Ok(given) => write!(out, "\t{given}"),
        Err(refusal) => write!(out, "\trefused\t{}", refusal.number()),
    }
}

pub fn print_done<W: Write>(out: &mut W, answer: Result<(), Refusal>) -> io::Result<()> {
    print_answer(out, answer.map(|()| "done"))
}

pub fn print_added<W: Write>(out: &mut W, answer: Result<ContactId, Refusal>) -> io::Result<()> {
    print_answer(out, answer.map(|id| Id(id)))
}
