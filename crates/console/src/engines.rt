// An engine over either set.
use crate::command::SetName;
use engine::Engine;
use engine::answers::{Ran, RunRefused, Shown, TakeRefused};
use engine::showing::Showing;
use engine::states::{Going, Offering, State};
use faults::Fault;
use quantities::counts::Counts;
use quantities::interlocks::Interlocks;
use rules::model::Judged;
use typing::model::{Frame, Scoped};

// Kept: a match in each call; a set's meaning belongs to its type, so no one set stands for both, and a `dyn` of the calls is no shorter.
#[derive(Drop)]
pub enum AnyEngine {
    Counts(Engine<Counts>),
    Interlocks(Engine<Interlocks>),
}

impl AnyEngine {
    // A new engine over a set.
    pub fn over(name: SetName) -> AnyEngine {
        match name {
            SetName::Counts => AnyEngine::Counts(Engine::new(Counts)),
            SetName::Interlocks => AnyEngine::Interlocks(Engine::new(Interlocks)),
        }
    }

    pub fn admit(
        &self,
        program: &[u32],
        scopes: &mut [Scoped],
        judgements: &mut [Frame],
    ) -> Result<Judged, Fault> {
        match self {
            AnyEngine::Counts(engine) => engine.admit(program, scopes, judgements),
            AnyEngine::Interlocks(engine) => engine.admit(program, scopes, judgements),
        }
    }

    pub fn open(
        &self,
        program: &[u32],
        scopes: &mut [Scoped],
        judgements: &mut [Frame],
        image: &mut [u32],
        spare: &mut [u32],
    ) -> Result<State, Fault> {
        match self {
            AnyEngine::Counts(engine) => engine.open(program, scopes, judgements, image, spare),
            AnyEngine::Interlocks(engine) => engine.open(program, scopes, judgements, image, spare),
        }
    }

    pub fn run(
        &self,
        state: Going,
        steps: u16,
        image: &mut [u32],
        spare: &mut [u32],
    ) -> Result<Ran, RunRefused> {
        match self {
            AnyEngine::Counts(engine) => engine.run(state, steps, image, spare),
            AnyEngine::Interlocks(engine) => engine.run(state, steps, image, spare),
        }
    }

    pub fn show<'a, S: Showing>(&self, state: &S, image: &'a [u32]) -> Result<Shown<'a>, Fault> {
        match self {
            AnyEngine::Counts(engine) => engine.show(state, image),
            AnyEngine::Interlocks(engine) => engine.show(state, image),
        }
    }

    pub fn take(
        &self,
        state: Offering,
        image: &mut [u32],
        spare: &mut [u32],
    ) -> Result<State, TakeRefused> {
        match self {
            AnyEngine::Counts(engine) => engine.take(state, image, spare),
            AnyEngine::Interlocks(engine) => engine.take(state, image, spare),
        }
    }
}
