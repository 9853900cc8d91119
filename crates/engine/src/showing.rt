// Showing: the pending value of an offer, or the value of an end, as a part of the caller's words.
ghost use Rattle.std.specs.Prelude.{◌≡◌, ◌≢◌};
ghost use Rattle.calls.specs.declared.states.Status.{Status};
ghost use Rattle.calls.specs.declared.states.Status.TheVariants.{Going as going, Offering as offering, Ended as ended};
ghost use Rattle.engine.specs.Showing.{ValuePlace, Shows, offering_rests, ended_rests};

use crate::answers::Shown;
use crate::entry::check_entry;
use crate::states::{Ended, Offering};
use calls::states::Status;
use encoding::cursor::Cursor;
use faults::Fault;
use faults::numbers::FaultNumber;
use image::locate::past;

// A state in which there is something to show: an offer or an end.
pub trait Showing {
    ghost status: { Status };

    // The state by name.
    fn status(&self) -> Status
        ensures { result ≡ status };

    ghost resting: { status ≢ going };
}

impl Showing for Offering {
    ghost status = { offering };

    ghost resting = { offering_rests };

    fn status(&self) -> Status {
        Status::Offering
    }
}

impl Showing for Ended {
    ghost status = { ended };

    ghost resting = { ended_rests };

    fn status(&self) -> Status {
        Status::Ended
    }
}

// Where the value stands that is shown in a state: behind the suspension's word and its term in an offer, at word 1 in an end.
fn value_place(image: &[u32], wanted: Status) -> usize
    ensures { ValuePlace image.now wanted result }
{
    match wanted {
        Status::Offering => past(image, 2),
        Status::Going | Status::Ended => 1,
    }
}

// The part that is shown in a state.
pub(crate) fn show_part<'a>(image: &'a [u32], wanted: Status) -> Result<Shown<'a>, Fault>
    ensures { Shows image.now wanted result }
{
    check_entry(image, wanted)?;
    let place = value_place(image, wanted);
    let not_image = Fault::new(FaultNumber::NotImage, 0);
    let mut cursor = Cursor::from(image, place).ok_or(not_image)?;
    let words = cursor.next_term().ok_or(not_image)?;
    Ok(Shown { place, words })
}
