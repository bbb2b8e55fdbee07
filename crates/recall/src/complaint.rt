// What is said on standard error, after the program's name.
use std::fmt;
use wing_node::refusal::Refusal;

// A refusal that is about no line has the line 0.
#[derive(Clone, Copy)]
pub enum Complaint {
    Unread,
    Unwritten,
    Refused { why: Refusal, line: usize },
}

// What a refusal means of a listing.
fn cause(why: Refusal) -> &'static str {
    match why {
        Refusal::StringNotUtf8 { good: _ } => "string not UTF-8",
        Refusal::NoPlace => "more than 1,024 records",
        Refusal::TableUnsound => "places outside 1 to 1,024",
        Refusal::StringLong => "string over 256 bytes",
        Refusal::NumberOver => "text over 65,536 bytes",
        Refusal::LineWrong => "header or line out of form",
        Refusal::IdNotAbove => "id not above the one before",
        _ => "refused",
    }
}

fn refused<W: fmt::Write>(f: &mut fmt::Formatter<W>, why: Refusal, line: usize) -> fmt::Result {
    let number = why.number();
    let cause = cause(why);
    if line > 0 {
        write!(f, ": line {line}")?;
    }
    write!(f, ": {number}")?;
    if let Some(good) = why.good() {
        write!(f, " good {good}")?;
    }
    write!(f, ", {cause}")
}

impl fmt::Display for Complaint {
    fn fmt<W: fmt::Write>(&self, f: &mut fmt::Formatter<W>) -> fmt::Result {
        match *self {
            Complaint::Unread => write!(f, ": standard input was not read to its end"),
            Complaint::Unwritten => write!(f, ": the bytes were not written to their end"),
            Complaint::Refused { why, line } => refused(f, why, line),
        }
    }
}
