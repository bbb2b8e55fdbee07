// What is said on standard error, after the program's name.
use std::alloc::{AllocError, AllocFailed};
use std::fmt;
use wing_node::refusal::Refusal;

// Packets are counted from 1.
#[derive(Clone, Copy)]
pub enum Complaint {
    Arguments,
    Width(Refusal),
    Unread,
    TooLong,
    Inside { packet: usize },
    Refused { packet: usize, why: Refusal },
    Memory,
    Unwritten,
}

impl From<AllocError> for Complaint {
    fn from(_e: AllocError) -> Complaint {
        Complaint::Memory
    }
}

impl<T: Drop> From<AllocFailed<T>> for Complaint {
    fn from(_e: AllocFailed<T>) -> Complaint {
        Complaint::Memory
    }
}

// What a number means of a width or of a packet.
fn cause(why: Refusal) -> &'static str {
    match why {
        Refusal::PacketSize => "length outside 4 to 8,192",
        Refusal::WidthWrong => "width not a number from 1 to 256",
        _ => "refused",
    }
}

impl fmt::Display for Complaint {
    fn fmt<W: fmt::Write>(&self, f: &mut fmt::Formatter<W>) -> fmt::Result {
        match *self {
            Complaint::Arguments => write!(f, "the width is the only argument"),
            Complaint::Width(why) => {
                let number = why.number();
                let cause = cause(why);
                write!(f, "{number}, {cause}")
            }
            Complaint::Unread => write!(f, "standard input was not read to its end"),
            Complaint::TooLong => write!(f, "the input is longer than 1,048,576 bytes"),
            Complaint::Inside { packet } => write!(f, "packet {packet}: the input ends inside it"),
            Complaint::Refused { packet, why } => {
                let number = why.number();
                let cause = cause(why);
                write!(f, "packet {packet}: {number}, {cause}")
            }
            Complaint::Memory => write!(f, "there was not enough memory"),
            Complaint::Unwritten => write!(f, "the figures were not written to their end"),
        }
    }
}
