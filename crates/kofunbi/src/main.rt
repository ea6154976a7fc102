// The program: one sheet from standard input, its answer to standard output.
#![tactic(auto)]

use families::pair::Pair;
use gates::plain::Plain;
use grammar::read::MAX_SHEET;
use library::board::board;
use report::desk::Desk;
use std::io::{Read, Write};

// Standard input to its end; a longer input than a sheet can be is read only so far that it is seen to be longer.
fn read_input(rt: &HostRuntime) -> anyhow::Result<Vec<u8>> {
    let most = MAX_SHEET + 1;
    // one place more than is read, or the reading would ask for memory to see that no byte is left
    let mut sheet = Vec::with_capacity(rt.alloc(), most + 1)?;
    rt.stdin().take(most as u64).read_to_end(&mut sheet)?;
    Ok(sheet)
}

fn run(rt: &HostRuntime) -> anyhow::Result<()> {
    let sheet = read_input(rt)?;
    let family = Pair {
        first: Plain,
        second: board(rt.alloc())?,
    };
    let answer = Desk::new(rt.alloc())?.answer(&family, &sheet);
    let mut output = rt.stdout();
    output.write_all(&answer)?;
    output.flush()?;
    Ok(())
}

fn main(rt: HostRuntime) -> anyhow::Result<()> {
    run(&rt)
}
