// The rig: plays a script of calls and prints what each call did.
#![tactic(auto)]

mod blocks;
mod fetching;
mod output;
mod picking;
mod player;
mod stop;
mod tally;
mod words;

use anyhow::anyhow;
use output::Output;
use player::Player;
use std::process::ExitCode;
use std::{env, fs, io};

// The script: the file that the first argument names, else standard input.
fn script_text(rt: &HostRuntime) -> anyhow::Result<String> {
    let Some(path) = env::args(rt)?.nth(1) else {
        return Ok(io::read_to_string(rt.alloc(), rt.stdin())?);
    };
    fs::read_to_string(rt, path.as_str()).map_err(|error| anyhow!("{path}: {error}"))
}

// Plays the script line by line; an error names its line.
fn run(rt: &HostRuntime) -> anyhow::Result<()> {
    let text = script_text(rt)?;
    let mut player = Player::new();
    for (index, text) in text.lines().enumerate() {
        let line = index + 1;
        player
            .play(Output { rt, line }, text)
            .map_err(|stop| anyhow!("line {line}: {stop}"))?;
    }
    Ok(())
}

// An error is told on standard error, and the status is then 1.
fn main(rt: HostRuntime) -> io::Result<ExitCode> {
    match run(&rt) {
        Ok(()) => Ok(ExitCode::SUCCESS),
        Err(error) => {
            eprintln!(rt; "rig: {error}")?;
            Ok(ExitCode::FAILURE)
        }
    }
}
