#![tactic(auto)]

use domain::Reader;
use listing::list_domain;
use report::{refusal_line, unclosed_line};
use std::io;
use std::io::{BufRead, BufReader};

// Reads a domain from standard input, line by line, and prints its tables with their numbers, or the fault.
fn main(rt: HostRuntime) -> io::Result<()> {
    let heap = rt.alloc();
    let mut reader = Reader::new(heap)?;
    for line in BufReader::new(heap, rt.stdin())?.split(heap, b'\n') {
        let line = line?;
        if let Err(fault) = reader.read_line(line.as_slice()) {
            return rt.print(refusal_line(heap, &fault)?);
        }
        if let Some(domain) = reader.domain() {
            rt.print(list_domain(heap, domain)?)?;
        }
    }
    match reader.domain() {
        Some(_) => Ok(()),
        None => rt.print(unclosed_line(heap, reader.lines())?),
    }
}
