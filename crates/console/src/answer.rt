// What is answered to a line.
use crate::command::SetName;
use calls::states::Status;
use faults::Fault;
use faults::numbers::Layer;
use rules::model::Judged;
use std::fmt;

#[derive(Drop)]
pub enum Answer {
    Set(SetName),
    Program(usize),
    Admit(Judged),
    Open(Status),
    Run { made: u16, status: Status },
    Show { place: usize, words: Vec<u32> },
    Take(Status),
    Image(Vec<u32>),
    Load(usize),
    // A call was refused.
    Refused(Fault),
    // A run was refused after so many steps.
    RunRefused { fault: Fault, made: u16 },
    // The command is not allowed now.
    State,
    // The line cannot be read.
    Bad,
    // What was lent did not come back all zero.
    Dirty,
}

impl fmt::Display for SetName {
    fn fmt<W: fmt::Write>(&self, f: &mut fmt::Formatter<W>) -> fmt::Result {
        f.write_str(match self {
            SetName::Counts => "counts",
            SetName::Interlocks => "interlocks",
        })
    }
}

// Words as they stand in answers, each after a space.
#[derive(Drop)]
struct Words<'a>(&'a [u32]);

impl fmt::Display for Words<'_> {
    fn fmt<W: fmt::Write>(&self, f: &mut fmt::Formatter<W>) -> fmt::Result {
        for word in self.0 {
            write!(f, " {:08X}", *word)?;
        }
        Ok(())
    }
}

// A fault as it stands in answers.
#[derive(Drop)]
struct Refusal(Fault);

impl fmt::Display for Refusal {
    fn fmt<W: fmt::Write>(&self, f: &mut fmt::Formatter<W>) -> fmt::Result {
        let layer = match self.0.layer() {
            Layer::Form => "form",
            Layer::Check => "check",
            Layer::Engine => "engine",
        };
        let number = u8::from(self.0.number());
        let place = self.0.place();
        write!(f, "fault {layer} {number} {place}")
    }
}

impl fmt::Display for Answer {
    fn fmt<W: fmt::Write>(&self, f: &mut fmt::Formatter<W>) -> fmt::Result {
        match self {
            Answer::Set(name) => write!(f, "set {name}"),
            Answer::Program(count) => write!(f, "program {count}"),
            Answer::Admit(Judged { row, yields }) => write!(f, "admit type {row} yield {yields}"),
            Answer::Open(status) => write!(f, "open {status}"),
            Answer::Run { made, status } => write!(f, "run {made} {status}"),
            Answer::Show { place, words } => write!(f, "show {place}{}", Words(words.as_slice())),
            Answer::Take(status) => write!(f, "take {status}"),
            Answer::Image(words) => write!(f, "image{}", Words(words.as_slice())),
            Answer::Load(count) => write!(f, "load {count}"),
            Answer::Refused(fault) => write!(f, "{}", Refusal(*fault)),
            Answer::RunRefused { fault, made } => write!(f, "{} made {made}", Refusal(*fault)),
            Answer::State => f.write_str("state"),
            Answer::Bad => f.write_str("bad"),
            Answer::Dirty => f.write_str("dirty"),
        }
    }
}
