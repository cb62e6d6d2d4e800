// The register as a program: frames from standard input, answer lines to standard output.
#![tactic(auto)]

mod input;
mod output;

use input::Session;
use output::Output;
use std::ops::ControlFlow;

// A proved loop has to end, and nothing says that an input does: no run uses up so many turns.
fn main(rt: HostRuntime) {
    let mut reader = rt.stdin();
    let mut output = Output::over(rt.stdout());
    let mut session = Session::new();
    for _ in 0..u64::MAX {
        let Ok(ControlFlow::Continue(())) = session.turn(&mut reader, &mut output) else {
            return;
        };
    }
}
