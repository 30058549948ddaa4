//! Reads a file of records from standard input and prints, for a person, a line for each record and the plots of each
//! section that they come to.
#![tactic(auto)]

use listing::Sheet;
use std::io::Read;
use wording::{record_line, section_line};

fn run(rt: &HostRuntime) -> anyhow::Result<()> {
    let mut bytes = Vec::new(rt.alloc());
    rt.stdin().read_to_end(&mut bytes)?;
    let sheet = Sheet::read(rt.alloc(), &bytes)?;
    for (index, read) in sheet.lines.iter().enumerate() {
        let line = record_line(rt.alloc(), index, read)?;
        println!(rt; "{line}")?;
    }
    for count in &sheet.counts {
        let line = section_line(rt.alloc(), *count)?;
        println!(rt; "{line}")?;
    }
    Ok(())
}

fn main(rt: HostRuntime) -> anyhow::Result<()> {
    run(&rt)
}
