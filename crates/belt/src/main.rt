// A belt sequence from its admission to its last value, as the loop of a drive runs it; then a sequence that is refused, and one that
// outgrows its image.
#![tactic(auto)]

mod drive;
mod halt;
mod looping;
mod sequence;
mod stages;

use halt::Halt;
use stages::{show_admission, show_full_image, show_refused, show_run};
use std::process::ExitCode;

fn main(rt: HostRuntime) -> ExitCode {
    match show_stages(&rt) {
        Ok(()) => ExitCode::SUCCESS,
        Err(halt) => {
            let _ = eprintln!(rt; "belt: {halt}");
            ExitCode::FAILURE
        }
    }
}

fn show_stages(rt: &HostRuntime) -> Result<(), Halt> {
    println!(rt; "== the belt sequence is admitted")?;
    show_admission(rt)?;
    println!(rt; "== the belt sequence runs")?;
    show_run(rt)?;
    println!(rt; "== a sequence that starts the belt at a truth value is refused")?;
    show_refused(rt)?;
    println!(rt; "== the belt sequence outgrows its image")?;
    show_full_image(rt)
}
