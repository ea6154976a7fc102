// Stored cases run through the public calls: sheets and circuits with their answers, and histories of calls.
#![tactic(auto)]

mod bench;
mod catalogue;
mod comparing;
mod files;
mod opened;
mod playing;
mod script;
mod sketch;
mod tally;
mod words;

use anyhow::ensure;
use comparing::check_sheets;
use playing::check_histories;
use std::env;

// The folder of the cases: the first argument, or the present folder.
fn folder(rt: &HostRuntime) -> anyhow::Result<String> {
    match env::args(rt)?.nth(1) {
        Some(folder) => Ok(folder),
        None => Ok(String::from_str(rt.alloc(), ".")?),
    }
}

// Says how many of each kind agree, and then what differs.
fn run(rt: &HostRuntime) -> anyhow::Result<()> {
    let folder = folder(rt)?;
    let sheets = check_sheets(rt, &folder, "sheets")?;
    let circuits = check_sheets(rt, &folder, "circuits")?;
    let histories = check_histories(rt, &folder, "histories")?;
    println!(rt; "sheets: {} agree", sheets.cases)?;
    println!(rt; "circuits: {} agree", circuits.cases)?;
    println!(rt;
        "histories: {} agree, {} answers",
        histories.cases, histories.answers
    )?;
    let kinds = [sheets, circuits, histories];
    for difference in kinds.iter().flat_map(|tally| tally.differences.iter()) {
        println!(rt; "{difference}")?;
    }
    ensure!(
        kinds.iter().all(|tally| tally.cases.is_full()),
        "not every case agrees, or a kind has none"
    );
    Ok(())
}

fn main(rt: HostRuntime) -> anyhow::Result<()> {
    run(&rt)
}
