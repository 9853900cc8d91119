// What the calls look at first: lengths, whether the words are an image, and its state.
ghost use Rattle.std.specs.Prelude.{◌≡◌, length};
ghost use Rattle.image.specs.Reading.{reading};
ghost use Rattle.calls.specs.Entry.{on_length, on_spare, of_status, entered, entered_with};
ghost use Rattle.engine.specs.States.{state_of, status_at};
ghost use Rattle.engine.specs.Entry.{passed, LengthsFit};

use crate::states::State;
use calls::states::Status;
use faults::Fault;
use faults::numbers::FaultNumber;
use image::read::read_image;
use image::values::is_value_word;
use words::kinds::Kind;

// The name of the state of the term whose first word this is.
fn status_at(word: u32) -> Status
    ensures { result ≡ status_at word }
{
    if is_value_word(word) {
        Status::Ended
    } else if Kind::Suspension.is_of(word) {
        Status::Offering
    } else {
        Status::Going
    }
}

// The state of the term whose first word this is.
pub(crate) fn state_at(word: u32) -> State
    ensures { result ≡ state_of (status_at word) }
{
    State::of(status_at(word))
}

// Fault 2 where an image may not have so many words.
fn check_length(image: usize) -> Result<(), Fault>
    ensures { result ≡ on_length image (Ok tt) }
{
    if (2..=16384).contains(&image) {
        Ok(())
    } else {
        Err(Fault::new(FaultNumber::ImageLength, 0))
    }
}

// Fault 2 where an image may not have so many words, 3 where the spare has another number of words.
pub(crate) fn check_lengths(image: usize, spare: usize) -> Result<(), Fault>
    ensures value { result ≡ on_length image (on_spare spare image (Ok tt)) }
    ensures bounds { LengthsFit image spare result }
{
    check_length(image)?;
    if spare != image {
        return Err(Fault::new(FaultNumber::SpareLength, 0));
    }
    Ok(())
}

// Fault 16 where the words are not an image, 17 where its term is of another state.
fn check_image(image: &[u32], wanted: Status) -> Result<(), Fault>
    ensures { result ≡ passed (of_status wanted (reading image.now)) }
{
    if !read_image(image) || image.len() < 2 {
        return Err(Fault::new(FaultNumber::NotImage, 0));
    }
    if status_at(image[1]) != wanted {
        return Err(Fault::new(FaultNumber::OtherState, 0));
    }
    Ok(())
}

// What a call without a spare looks at: 2, 16, 17.
pub(crate) fn check_entry(image: &[u32], wanted: Status) -> Result<(), Fault>
    ensures { result ≡ passed (entered wanted image.now) }
{
    check_length(image.len())?;
    check_image(image, wanted)
}

// What a call with a spare looks at: 2, 3, 16, 17.
pub(crate) fn check_entry_with(image: &[u32], spare: usize, wanted: Status) -> Result<(), Fault>
    ensures value { result ≡ passed (entered_with wanted image.now spare) }
    ensures bounds { LengthsFit (length image.now) spare result }
{
    check_lengths(image.len(), spare)?;
    check_image(image, wanted)
}
