// The states of a run, by name.
ghost use Rattle.std.specs.Prelude.{Some};
ghost use Rattle.calls.specs.States.{status_name};

use std::fmt;

// A run goes on, offers a value, or has ended.
#[derive(Clone, Copy, PartialEq, Eq, Debug)]
pub enum Status {
    Going,
    Offering,
    Ended,
}

impl fmt::Display for Status {
    ghost output = { λ s. Some (status_name s) };

    fn fmt<W: fmt::Write>(&self, f: &mut fmt::Formatter<W>) -> fmt::Result {
        match self {
            Status::Going => f.write_str("going"),
            Status::Offering => f.write_str("offering"),
            Status::Ended => f.write_str("ended"),
        }
    }
}
