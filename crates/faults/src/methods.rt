// Making a fault, asking it and printing it.
ghost use Rattle.std.specs.Prelude.{◌≡◌};
ghost use Rattle.faults.specs.Numbers.{layer_of};
ghost use Rattle.faults.specs.Faults.{fault_of};

use crate::Fault;
use crate::numbers::{FaultNumber, Layer};
use std::error::Error;
use std::fmt;

impl Fault {
    // The fault of a number at a place.
    pub fn new(number: FaultNumber, place: usize) -> Fault
        ensures { result ≡ fault_of number place }
    {
        Fault { number, place }
    }

    // The layer that refused.
    pub fn layer(self) -> Layer
        ensures { result ≡ layer_of self.number }
    {
        let Fault { number, .. } = self;
        number.layer()
    }

    // Why it refused.
    pub fn number(self) -> FaultNumber
        ensures { result ≡ self.number }
    {
        self.number
    }

    // Where: the number of a word.
    pub fn place(self) -> usize
        ensures { result ≡ self.place }
    {
        self.place
    }
}

impl fmt::Display for Fault {
    fn fmt<W: fmt::Write>(&self, f: &mut fmt::Formatter<W>) -> fmt::Result {
        let layer = self.layer();
        let reason = self.number;
        let number = u8::from(reason);
        let place = self.place;
        write!(f, "{layer}: fault {number} at place {place}: {reason}")
    }
}

impl Error for Fault {}
