#![tactic(auto)]

use domain::Reader;
use report::{refusal_line, unclosed_line};
use std::io;
use std::io::{BufRead, BufReader};
use std::str::from_utf8;

// Runs a table of small texts, each through a reader of its own. A case begins with its title, a line that starts
// with '#'; the lines below it are domain lines. Prints each title, each refusal, and how the domain stands at the end.
fn main(rt: HostRuntime) -> io::Result<()> {
    let heap = rt.alloc();
    let mut reader = Reader::new(heap)?;
    let mut cases = 0u64;
    for line in BufReader::new(heap, rt.stdin())?.split(heap, b'\n') {
        let line = line?;
        if line.first() == Some(&b'#') {
            if cases > 0 {
                print_standing(&rt, &reader)?;
            }
            cases = cases.saturating_add(1);
            reader = Reader::new(heap)?;
            print_title(&rt, line.as_slice())?;
        } else if let Err(fault) = reader.read_line(line.as_slice()) {
            rt.print(refusal_line(heap, &fault)?)?;
        }
    }
    print_standing(&rt, &reader)?;
    println!(rt; "cases: {cases}")
}

fn print_title(rt: &HostRuntime, title: &[u8]) -> io::Result<()> {
    match from_utf8(title) {
        Ok(text) => println!(rt; "{text}"),
        Err(_) => println!(rt; "# (not text)"),
    }
}

// How many facts, actions, tasks and methods a closed domain has; else that it is not closed.
fn print_standing(rt: &HostRuntime, reader: &Reader) -> io::Result<()> {
    match reader.domain() {
        Some(domain) => {
            let facts = domain.facts().len();
            let actions = domain.actions().len();
            let tasks = domain.tasks().len();
            let methods = domain.methods().len();
            println!(rt;
                "closed: {facts} facts, {actions} actions, {tasks} tasks, {methods} methods"
            )
        }
        None => rt.print(unclosed_line(rt.alloc(), reader.lines())?),
    }
}
