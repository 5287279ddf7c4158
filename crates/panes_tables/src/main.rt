// Loads the Unicode data files, replays a keystroke script on a flat and on a gap store, and tells the
// properties of each code point of the text.
#![tactic(auto)]

mod data;

use anyhow::anyhow;
use data::Records;
use replays::{exit_code, read_input, replay_script};
use std::env;
use std::process::ExitCode;
use store::TextStore;

const USAGE: &str = "usage: panes_tables [--data DIR] [FILE]

Loads the Unicode 15.0.0 data files of DIR, which is 'data' unless it is given:
LineBreak.txt, GraphemeBreakProperty.txt, DerivedGeneralCategory.txt,
EastAsianWidth.txt and emoji-data.txt. Then replays the keystrokes of FILE, or of
standard input, on a flat and on a gap store, and tells the properties of each
code point of the text. A line of the script is a place, a count to take and code
points:

    PLACE TAKE [HEX..]

with numbers in base ten and code points in base sixteen. '#' begins a comment.";

// What the program was asked to do.
#[derive(Drop)]
enum Task {
    Help,
    // With the folder of the data files, and the script unless it is standard input.
    Replay(String, Option<String>),
}

// The task with this folder, and the script that may follow on the command line.
fn with_folder(
    folder: String,
    script: Option<String>,
    surplus: Option<String>,
) -> anyhow::Result<Task> {
    if surplus.is_some() {
        return Err(anyhow!("more than one file was given; see panes_tables --help"));
    }
    Ok(Task::Replay(folder, script))
}

fn read_task(rt: &HostRuntime) -> anyhow::Result<Task> {
    let mut words = env::args(rt)?;
    let _ = words.next();
    let folder = String::from_str(rt.alloc(), "data")?;
    let Some(word) = words.next() else {
        return with_folder(folder, None, None);
    };
    if word.as_str() == "--help" {
        return Ok(Task::Help);
    }
    if word.as_str() != "--data" {
        return with_folder(folder, Some(word), words.next());
    }
    let Some(folder) = words.next() else {
        return Err(anyhow!("--data wants a folder; see panes_tables --help"));
    };
    let script = words.next();
    with_folder(folder, script, words.next())
}

fn replay(rt: &HostRuntime, folder: &str, script: &[u8]) -> anyhow::Result<()> {
    let mut records = Records::new(rt.alloc())?;
    let tables = records.load(rt, folder)?;
    tables.tell(rt)?;
    let text = replay_script(rt, rt.alloc(), script)?;
    for place in 0..text.len() {
        tables.tell_code_point(rt, text.at(place))?;
    }
    Ok(())
}

fn run(rt: &HostRuntime) -> anyhow::Result<()> {
    match read_task(rt)? {
        Task::Help => println!(rt; "{USAGE}")?,
        Task::Replay(folder, script) => {
            let path = script.as_ref().map(|path| path.as_str());
            let script = read_input(rt, path, &mut rt.stdin())?;
            replay(rt, folder.as_str(), script.as_slice())?;
        }
    }
    Ok(())
}

fn main(rt: HostRuntime) -> ExitCode {
    exit_code(&rt, "panes_tables", run(&rt))
}
