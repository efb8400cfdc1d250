//! The program `byte_rows`: commands on bytes and texts, one a line, each answered beneath it.
#![tactic(auto)]

mod bench;
mod blocks;
mod buffer;
mod commands;
mod faults;
mod headers;
mod keys;
mod maps;
mod numbers;
mod packs;
mod parts;
mod pieces;
mod rows;
mod searches;
mod sink;
mod texts;
mod trouble;
mod units;
mod values;
mod visits;
mod walks;
mod words;

use std::io;

fn main(rt: HostRuntime) -> io::Result<()> {
    let mut bench = bench::Bench::new(rt.alloc());
    for line in rt.lines(rt.alloc()) {
        let said = rows::said(rt.alloc(), &mut bench, line?.as_str())?;
        rt.write_all(&said)?;
    }
    Ok(())
}
