// Replays a keystroke script on a flat and on a gap store, and shows what came of it.
#![tactic(auto)]

use anyhow::anyhow;
use replays::{exit_code, read_input, replay_script};
use std::env;
use std::process::ExitCode;

const USAGE: &str = "usage: panes [FILE]

Replays the keystrokes of FILE, or of standard input, on a flat and on a gap store.
A line of the script is a place, a count to take and code points:

    PLACE TAKE [HEX..]

with numbers in base ten and code points in base sixteen. '#' begins a comment.";

// What the program was asked to do.
#[derive(Drop)]
enum Task {
    Help,
    // With the script, unless it is standard input.
    Replay(Option<String>),
}

fn read_task(rt: &HostRuntime) -> anyhow::Result<Task> {
    let mut words = env::args(rt)?;
    let _ = words.next();
    let Some(word) = words.next() else {
        return Ok(Task::Replay(None));
    };
    if words.next().is_some() {
        return Err(anyhow!("more than one file was given; see panes --help"));
    }
    if word.as_str() == "--help" {
        return Ok(Task::Help);
    }
    Ok(Task::Replay(Some(word)))
}

fn run(rt: &HostRuntime) -> anyhow::Result<()> {
    match read_task(rt)? {
        Task::Help => println!(rt; "{USAGE}")?,
        Task::Replay(script) => {
            let path = script.as_ref().map(|path| path.as_str());
            let script = read_input(rt, path, &mut rt.stdin())?;
            replay_script(rt, rt.alloc(), script.as_slice())?;
        }
    }
    Ok(())
}

fn main(rt: HostRuntime) -> ExitCode {
    exit_code(&rt, "panes", run(&rt))
}
