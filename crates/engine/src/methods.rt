// The calls of the engine. None asks anything of its caller: what it cannot take it refuses, by number and place.
ghost use Rattle.std.specs.Prelude.{◌≡◌, ◌≤◌, length, replicate};
ghost use Rattle.typing.specs.Machine.{nobody, fresh};
ghost use Rattle.admission.specs.Admission.{admit_answer};
ghost use Rattle.admission.specs.Laws.{Decides};
ghost use Rattle.calls.specs.Results.{open_outcome, run_outcome, take_outcome, show_answer};
ghost use Rattle.calls.specs.Runs.{RunsBySteps, TakesTheOffer, ShowsTheValue};
ghost use Rattle.calls.specs.Soundness.{OpenSound, OpensExactly};
ghost use Rattle.engine.specs.Answers.{opened, ran, taken, shown};

use crate::Engine;
use crate::answers::{Ran, RunRefused, Shown, TakeRefused};
use crate::opening::open_program;
use crate::running::run_image;
use crate::showing::{Showing, show_part};
use crate::states::{Going, Offering, State};
use crate::taking::take_image;
use admission::admitting::admit;
use faults::Fault;
use quantities::QuantitySet;
use rules::model::Judged;
use typing::model::{Frame, Scoped};

// Kept: each call hands over to one function, which has several ways out; here each theorem is owed on one way alone.
// Kept: slices lent one by one, here and in what is called; a clause on a struct of two names what they hold at the end as `work.exit.0`.
impl<Q: QuantitySet> Engine<Q> {
    // An engine over a set.
    pub fn new(set: Q) -> Self
        ensures { result.set ≡ set }
    {
        Engine { set }
    }

    // The type row and the least yield row of a program, or the first fault: 1, then 4 to 13.
    pub fn admit(
        &self,
        program: &[u32],
        scopes: &mut [Scoped],
        judgements: &mut [Frame],
    ) -> Result<Judged, Fault>
        ensures answer { result ≡ admit_answer Q.meaning program.now (length scopes.old) (length judgements.old) }
        ensures decides { 256 ≤ length scopes.old → 256 ≤ length judgements.old → Decides Q.meaning program.now result }
        ensures scopes { scopes.new ≡ replicate (length scopes.old) nobody }
        ensures judgements { judgements.new ≡ replicate (length judgements.old) (fresh 0 0) }
    {
        admit(&self.set, program, scopes, judgements)
    }

    // Admits a program and writes its term into the image from word 1 on; the state of the run, or the first fault: 1, 2, 3, 4 to 13, 15.
    // Every history of calls that follows an accepted open is sound.
    pub fn open(
        &self,
        program: &[u32],
        scopes: &mut [Scoped],
        judgements: &mut [Frame],
        image: &mut [u32],
        spare: &mut [u32],
    ) -> Result<State, Fault>
        ensures answer { result ≡ opened (open_outcome Q.meaning program.now (length scopes.old) (length judgements.old) image.old (length spare.old)).answer }
        ensures image { image.new ≡ (open_outcome Q.meaning program.now (length scopes.old) (length judgements.old) image.old (length spare.old)).image }
        ensures spare { spare.new ≡ replicate (length spare.old) 0 }
        ensures scopes { scopes.new ≡ replicate (length scopes.old) nobody }
        ensures judgements { judgements.new ≡ replicate (length judgements.old) (fresh 0 0) }
        ensures exact { OpensExactly Q.meaning program.now (length scopes.old) (length judgements.old) image.old (length spare.old) }
        ensures sound { OpenSound Q.meaning program.now (length scopes.old) (length judgements.old) image.old (length spare.old) }
    {
        open_program(&self.set, program, scopes, judgements, image, spare)
    }

    // Steps until n are made, the term is a value or a suspension, or a step is refused; the steps made with the next state, or with the
    // fault and the state back: 2, 3, 16, 17, then 18, 14, 15 for each step.
    pub fn run(
        &self,
        state: Going,
        n: u16,
        image: &mut [u32],
        spare: &mut [u32],
    ) -> Result<Ran, RunRefused>
        ensures answer { result ≡ ran state (run_outcome Q.meaning n image.old (length spare.old)).made (run_outcome Q.meaning n image.old (length spare.old)).answer }
        ensures image { image.new ≡ (run_outcome Q.meaning n image.old (length spare.old)).image }
        ensures spare { spare.new ≡ replicate (length spare.old) 0 }
        ensures steps { RunsBySteps Q.meaning n image.old (length spare.old) }
    {
        run_image(&self.set, state, n, image, spare)
    }

    // The pending value of an offer, or the value of an end, as the part of the image that holds it; or the first fault: 2, 16, 17.
    pub fn show<'a, S: Showing>(&self, state: &S, image: &'a [u32]) -> Result<Shown<'a>, Fault>
        ensures answer { shown result ≡ show_answer S.status image.now }
        ensures part { ShowsTheValue S.status image.now }
    {
        show_part(image, state.status())
    }

    // Makes the suspended term the image's term; the next state, or the fault and the state back: 2, 3, 16, 17.
    pub fn take(
        &self,
        state: Offering,
        image: &mut [u32],
        spare: &mut [u32],
    ) -> Result<State, TakeRefused>
        ensures answer { result ≡ taken state (take_outcome image.old (length spare.old)).answer }
        ensures image { image.new ≡ (take_outcome image.old (length spare.old)).image }
        ensures spare { spare.new ≡ replicate (length spare.old) 0 }
        ensures offer { TakesTheOffer image.old (length spare.old) }
    {
        take_image(state, image, spare)
    }
}
