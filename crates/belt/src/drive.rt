// A drive: an engine over counts, with the memory that it lends to the calls.
ghost use Rattle.std.specs.Prelude.{◌≡◌, length, IfOk, vec_len, OnOk};
ghost use Rattle.quantities.specs.Counts.{counts};
ghost use Rattle.admission.specs.Admission.{admit_answer};
ghost use Rattle.calls.specs.Results.{open_outcome, run_outcome, show_answer, take_outcome};
ghost use Rattle.engine.specs.Answers.{opened, ran, taken};
ghost use Rattle.belt.specs.Decoding.{count_of, counted, usage_of};

use engine::Engine;
use engine::answers::{Ran, RunRefused, TakeRefused};
use engine::showing::Showing;
use engine::states::{Going, Offering, State};
use faults::Fault;
use quantities::counts::Counts;
use rules::model::Judged;
use std::alloc::{AllocError, Global};
use typing::model::{Frame, Scoped};
use words::fields::{base, bindings, payload, used};
use words::kinds::Kind;

// The most steps that a drive makes in one tick.
pub const STEPS_A_TICK: u16 = 10;

#[derive(Drop)]
pub struct Drive {
    engine: Engine<Counts>,
    scopes: [Scoped; 256],
    judgements: [Frame; 256],
    image: Vec<u32>,
    spare: Vec<u32>,
}

// What the head of an image says: how many words are used, and how many bindings there are.
#[derive(Clone, Copy)]
pub struct Usage {
    pub words: u16,
    pub bindings: u16,
}

impl Drive {
    // A drive with an image of so many words.
    pub fn new(heap: Global, words: usize) -> Result<Drive, AllocError>
        ensures { IfOk result (λ d. vec_len d.image ≡ words) }
    {
        Ok(Drive {
            engine: Engine::new(Counts),
            scopes: [Scoped::default(); 256],
            judgements: [Frame::default(); 256],
            image: vec![in heap; 0; words]?,
            spare: vec![in heap; 0; words]?,
        })
    }

    // The rows of a sequence's type and yield type.
    pub fn admit_belt(&mut self, sequence: &[u32]) -> Result<Judged, Fault>
        ensures { result ≡ admit_answer counts sequence.now (length self.old.scopes) (length self.old.judgements) }
    {
        self.engine
            .admit(sequence, &mut self.scopes, &mut self.judgements)
    }

    // Admits a sequence and writes its term into the image.
    pub fn open_belt(&mut self, sequence: &[u32]) -> Result<State, Fault>
        ensures { result ≡ opened (open_outcome counts sequence.now (length self.old.scopes) (length self.old.judgements) self.old.image.items (vec_len self.old.spare)).answer }
    {
        self.engine.open(
            sequence,
            &mut self.scopes,
            &mut self.judgements,
            self.image.as_mut_slice(),
            self.spare.as_mut_slice(),
        )
    }

    // Runs for one tick.
    pub fn tick(&mut self, going: Going) -> Result<Ran, RunRefused>
        ensures { result ≡ ran going (run_outcome counts 10 self.old.image.items (vec_len self.old.spare)).made (run_outcome counts 10 self.old.image.items (vec_len self.old.spare)).answer }
    {
        self.engine.run(
            going,
            STEPS_A_TICK,
            self.image.as_mut_slice(),
            self.spare.as_mut_slice(),
        )
    }

    // The count that is offered, or that the run has ended with; nothing where it is no count.
    pub fn count<S: Showing>(&self, state: &S) -> Result<Option<u32>, Fault>
        ensures { result ≡ counted (show_answer S.status self.now.image.items) }
    {
        let shown = self.engine.show(state, self.image.as_slice())?;
        Ok(count_of(shown.words))
    }

    // Takes what is offered, so that the run goes on.
    pub fn take_offer(&mut self, offering: Offering) -> Result<State, TakeRefused>
        ensures { result ≡ taken offering (take_outcome self.old.image.items (vec_len self.old.spare)).answer }
    {
        self.engine.take(
            offering,
            self.image.as_mut_slice(),
            self.spare.as_mut_slice(),
        )
    }

    // Gives the image so many words, at least those that it has: these stay, and zeros follow them.
    pub fn enlarge(&mut self, words: usize) -> Result<(), AllocError>
        ensures { OnOk result (vec_len self.new.image ≡ words) }
    {
        self.image.resize(words, 0)?;
        self.spare.resize(words, 0)
    }

    // How many words the image has.
    pub fn image_words(&self) -> usize
        ensures { result ≡ vec_len self.now.image }
    {
        self.image.len()
    }

    // What the head of the image says; nothing where there is no image.
    pub fn usage(&self) -> Option<Usage>
        ensures { result ≡ usage_of self.now.image.items }
    {
        usage_of(self.image.as_slice())
    }
}

// The count that words stand for: one atom of base 0.
fn count_of(words: &[u32]) -> Option<u32>
    ensures { result ≡ count_of words.now }
{
    match words {
        [word] if Kind::Atom.is_of(*word) && base(*word) == 0 => Some(payload(*word)),
        _ => None,
    }
}

// What the first of some words says, where it is the head of an image.
fn usage_of(image: &[u32]) -> Option<Usage>
    ensures { result ≡ usage_of image.now }
{
    match image {
        [head, ..] if Kind::ImageHead.is_of(*head) => Some(Usage {
            words: used(*head),
            bindings: bindings(*head),
        }),
        _ => None,
    }
}
