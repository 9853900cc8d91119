// The commands of a run that was opened.
use crate::answer::Answer;
use crate::lent::{are_zero, rubbish_words};
use crate::session::{Opened, Session};
use engine::answers::Shown;
use engine::states::State;
use faults::Fault;
use std::alloc::{AllocError, Global};

// The answer, unless the spare did not come back all zero.
fn unless_dirty(answer: Answer, spare: &[u32]) -> Answer {
    if are_zero(spare) {
        answer
    } else {
        Answer::Dirty
    }
}

// The answer of a show, with a copy of what is shown.
fn shown_answer(heap: Global, shown: Result<Shown<'_>, Fault>) -> Result<Answer, AllocError> {
    match shown {
        Ok(shown) => Ok(Answer::Show {
            place: shown.place,
            words: shown.words.to_vec(heap)?,
        }),
        Err(fault) => Ok(Answer::Refused(fault)),
    }
}

impl Session {
    pub fn run(&mut self, steps: u16, spare: u16) -> Result<Answer, AllocError> {
        let mut spare = rubbish_words(self.heap, spare)?;
        match self.opened.take() {
            Some(
                Opened {
                    state: State::Going(going),
                    mut image,
                },
            ) => {
                let ran = self
                    .engine
                    .run(going, steps, image.as_mut_slice(), spare.as_mut_slice());
                let (state, answer) = match ran {
                    Ok(ran) => {
                        let answer = Answer::Run {
                            made: ran.made,
                            status: ran.state.status(),
                        };
                        (ran.state, answer)
                    }
                    Err(refused) => {
                        let answer = Answer::RunRefused {
                            fault: refused.fault,
                            made: refused.made,
                        };
                        (State::Going(refused.state), answer)
                    }
                };
                self.opened = Some(Opened { state, image });
                Ok(unless_dirty(answer, spare.as_slice()))
            }
            other => {
                self.opened = other;
                Ok(Answer::State)
            }
        }
    }

    pub fn take(&mut self, spare: u16) -> Result<Answer, AllocError> {
        let mut spare = rubbish_words(self.heap, spare)?;
        match self.opened.take() {
            Some(
                Opened {
                    state: State::Offering(offering),
                    mut image,
                },
            ) => {
                let taken = self
                    .engine
                    .take(offering, image.as_mut_slice(), spare.as_mut_slice());
                let (state, answer) = match taken {
                    Ok(state) => {
                        let answer = Answer::Take(state.status());
                        (state, answer)
                    }
                    Err(refused) => (
                        State::Offering(refused.state),
                        Answer::Refused(refused.fault),
                    ),
                };
                self.opened = Some(Opened { state, image });
                Ok(unless_dirty(answer, spare.as_slice()))
            }
            other => {
                self.opened = other;
                Ok(Answer::State)
            }
        }
    }

    pub fn show(&self) -> Result<Answer, AllocError> {
        let Some(opened) = &self.opened else {
            return Ok(Answer::State);
        };
        let image = opened.image.as_slice();
        match &opened.state {
            State::Going(_) => Ok(Answer::State),
            State::Offering(offering) => shown_answer(self.heap, self.engine.show(offering, image)),
            State::Ended(ended) => shown_answer(self.heap, self.engine.show(ended, image)),
        }
    }

    pub fn image(&self) -> Result<Answer, AllocError> {
        match &self.opened {
            Some(opened) => Ok(Answer::Image(opened.image.as_slice().to_vec(self.heap)?)),
            None => Ok(Answer::State),
        }
    }

    // Foreign words for the image; the state stays.
    pub fn load(&mut self, words: Vec<u32>) -> Answer {
        let count = words.len();
        let Some(opened) = &mut self.opened else {
            return Answer::State;
        };
        opened.image = words;
        Answer::Load(count)
    }
}
