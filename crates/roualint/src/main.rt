// The bench on the command line. Without an argument it reads commands from standard input, one a line, and answers
// each with one line; with the argument `demo` it plays one exchange of each kind.
#![tactic(auto)]

use std::env::{Env, FillError};
use std::io;

fn main(rt: HostRuntime) -> io::Result<()> {
    let mut word = [0; 16];
    match rt.arg(1, &mut word) {
        Err(FillError::NotPresent) => input::lines(&rt),
        Ok(n) if word[..n] == b"demo"[..] && !is_there(&rt, 2) => input::script(
            &rt,
            texts::demo::SCRIPT.as_bytes(),
        ),
        _ => {
            println!(rt;
                "error: unknown argument; give commands on standard input, or the argument demo"
            )
        }
    }
}

// Is there an argument k, the program's own name being the first?
fn is_there(rt: &impl Env, k: usize) -> bool {
    let mut room = [0; 1];
    !matches!(rt.arg(k, &mut room), Err(FillError::NotPresent))
}
