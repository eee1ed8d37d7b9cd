//! Plays scenes of a router and its cache by the machines of `session_router` and `session_cache`,
//! with a simulated clock, and prints where they differ from the scenes. A line `simulate SEED
//! STEPS` among them joins both machines by a pipe of bytes and takes STEPS random steps: units
//! that come byte by byte, cuts, bursts of new data, restarts, other sessions. It counts as a
//! scene.
//!
//! Scenes are read from standard input, in the form that `tests/transcripts/README.md` describes.
//! The last line says how many were played, and how many differ; the status is 1 if one does.
#![tactic(auto)]

mod buffer;
mod cache_end;
mod data;
mod deed;
mod editions;
mod line;
mod link;
mod past;
mod payloads;
mod player;
mod random;
mod router_end;
mod scene;
mod settings;
mod simulation;

use crate::scene::Scene;
use crate::simulation::Simulation;
use std::io::Read;
use std::process::ExitCode;
use std::test::Fail;

fn main(rt: HostRuntime) -> Result<ExitCode, Fail> {
    let mut input = Vec::new(rt.alloc());
    rt.stdin().read_to_end(&mut input)?;
    let text = String::from_utf8(input)?;
    let (mut played, mut differ) = (0u64, 0u64);
    let mut scene = Scene::new(rt.alloc(), "")?;
    for line in text.lines() {
        if let Some(name) = line.strip_prefix("scene ") {
            differ = differ.saturating_add(finish(&rt, &mut scene)? as u64);
            played = played.saturating_add(1);
            scene = Scene::new(rt.alloc(), name.trim())?;
        } else if let Some(words) = line.strip_prefix("simulate ") {
            differ = differ.saturating_add(simulate(&rt, words)? as u64);
            played = played.saturating_add(1);
        } else {
            scene.line(line)?;
        }
    }
    differ = differ.saturating_add(finish(&rt, &mut scene)? as u64);
    println!(rt; "{played} scenes, of which {differ} differ")?;
    Ok(ExitCode::from((differ > 0) as u8))
}

/// Runs a simulation of a seed and a number of steps, and prints what was wrong. Reports whether
/// something was.
fn simulate(rt: &HostRuntime, words: &str) -> Result<bool, Fail> {
    let (seed, steps) = words.trim().split_once(" ").unwrap_or((words, "0"));
    let mut simulation = Simulation::new(rt.alloc(), seed.parse::<u64>()?);
    let wrong = match simulation.run(steps.parse::<u64>()?) {
        Ok(None) => return Ok(false),
        Ok(Some(wrong)) => wrong,
        Err(fail) => {
            let _ = println!(rt; "simulation of seed {seed} breaks off");
            return Err(fail);
        }
    };
    println!(rt; "simulation of seed {seed}, {wrong}")?;
    Ok(true)
}

/// Ends a scene, and prints where it differs first. Reports whether it does.
fn finish(rt: &HostRuntime, scene: &mut Scene) -> Result<bool, Fail> {
    let Some(other) = scene.end()? else {
        return Ok(false);
    };
    println!(rt; "{other}")?;
    Ok(true)
}
