//! The program `host_rows`: commands on databases in memory, one a line, each answered beneath it.
#![tactic(auto)]

mod bench;
mod calls;
mod chains;
mod files;
mod lines;
mod outcomes;
mod promise;
mod rows;
mod setting;
mod showing;
mod shrinking;
mod stops;
mod tables;
mod tasks;
mod texts;
mod trouble;
mod units;
mod verbs;
mod words;

use std::io;

fn main(rt: HostRuntime) -> io::Result<()> {
    let mut bench = bench::Bench::new(rt.alloc());
    for line in rt.lines(rt.alloc()) {
        let said = rows::said(rt.alloc(), &mut bench, line?.as_bytes())?;
        rt.write_all(&said)?;
    }
    Ok(())
}
