// What the console holds between lines, and what it answers to each.
use crate::answer::Answer;
use crate::command::{Command, Lengths, SetName};
use crate::engines::AnyEngine;
use crate::lent::{are_zero, is_work_zero, rubbish_judgements, rubbish_scopes, rubbish_words};
use crate::reading::read_command;
use engine::states::State;
use std::alloc::{AllocError, Global};

// A run that was opened: its state and its image.
#[derive(Drop)]
pub struct Opened {
    pub state: State,
    pub image: Vec<u32>,
}

#[derive(Drop)]
pub struct Session {
    pub heap: Global,
    pub engine: AnyEngine,
    pub program: Vec<u32>,
    pub opened: Option<Opened>,
}

impl Session {
    // An engine over counts, and an empty program.
    pub fn new(heap: Global) -> Session {
        Session {
            heap,
            engine: AnyEngine::over(SetName::Counts),
            program: Vec::new(heap),
            opened: None,
        }
    }

    // The answer to a line.
    pub fn answer(&mut self, line: &[u8]) -> Result<Answer, AllocError> {
        match read_command(self.heap, line)? {
            Some(command) => self.carry_out(command),
            None => Ok(Answer::Bad),
        }
    }

    fn carry_out(&mut self, command: Command) -> Result<Answer, AllocError> {
        match command {
            Command::Set(name) => Ok(self.choose(name)),
            Command::Program(words) => Ok(self.store(words)),
            Command::Admit { scopes, judgements } => self.admit(scopes, judgements),
            Command::Open(lengths) => self.open(lengths),
            Command::Run { steps, spare } => self.run(steps, spare),
            Command::Show => self.show(),
            Command::Take { spare } => self.take(spare),
            Command::Image => self.image(),
            Command::Load(words) => Ok(self.load(words)),
        }
    }

    // A new engine; a run that was open is forgotten.
    fn choose(&mut self, name: SetName) -> Answer {
        self.engine = AnyEngine::over(name);
        self.opened = None;
        Answer::Set(name)
    }

    fn store(&mut self, words: Vec<u32>) -> Answer {
        let count = words.len();
        self.program = words;
        Answer::Program(count)
    }

    fn admit(&self, scopes: u16, judgements: u16) -> Result<Answer, AllocError> {
        let mut scopes = rubbish_scopes(self.heap, scopes)?;
        let mut judgements = rubbish_judgements(self.heap, judgements)?;
        let admitted = self.engine.admit(
            self.program.as_slice(),
            scopes.as_mut_slice(),
            judgements.as_mut_slice(),
        );
        if !is_work_zero(scopes.as_slice(), judgements.as_slice()) {
            return Ok(Answer::Dirty);
        }
        Ok(admitted.map_or_else(Answer::Refused, Answer::Admit))
    }

    // Opens the program on a new image; where that is refused, a run that was open stays.
    fn open(&mut self, lengths: Lengths) -> Result<Answer, AllocError> {
        let mut scopes = rubbish_scopes(self.heap, lengths.scopes)?;
        let mut judgements = rubbish_judgements(self.heap, lengths.judgements)?;
        let mut image = rubbish_words(self.heap, lengths.image)?;
        let mut spare = rubbish_words(self.heap, lengths.spare)?;
        let opened = self.engine.open(
            self.program.as_slice(),
            scopes.as_mut_slice(),
            judgements.as_mut_slice(),
            image.as_mut_slice(),
            spare.as_mut_slice(),
        );
        if !is_work_zero(scopes.as_slice(), judgements.as_slice()) || !are_zero(spare.as_slice()) {
            return Ok(Answer::Dirty);
        }
        match opened {
            Ok(state) => {
                let answer = Answer::Open(state.status());
                self.opened = Some(Opened { state, image });
                Ok(answer)
            }
            Err(fault) => Ok(Answer::Refused(fault)),
        }
    }
}
