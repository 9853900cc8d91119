// The engine: a program is admitted and opened; the run that it starts is run, shown and taken.
#![tactic(auto)]

pub mod answers;
mod entry;
mod guard;
pub mod methods;
mod opening;
mod running;
pub mod showing;
pub mod states;
mod taking;

use quantities::QuantitySet;

// An engine is made over one quantity set and keeps it. All memory comes with each call.
#[derive(Drop)]
pub struct Engine<Q: QuantitySet> {
    set: Q,
}
