//! Tries the top call over disks, streams and a secure element in memory whose calls fail, two sessions that meet within
//! calls, and the calls of a client. Standard input has the sections to try, and says how one is written; for each of their
//! runs the program prints how that ended, its replies, what it left in the cells, and of each image that a crash may leave
//! what an inspection finds and what a second run tells. Of a client's calls it prints what they leave of its buffers and of
//! its budget.
#![tactic(auto)]

mod cells;
mod client;
mod crashes;
mod fixtures;
mod limits;
mod meeting;
mod ranges;
mod sections;
mod sinks;
mod texts;
mod trials;

use outside_io::{read_text, write_all};
use psa_status::Failed;
use sections::{Section, read_sections};
use std::alloc::AllocError;
use std::process::ExitCode;
use std::sync::Wait;
use std::thread::Threads;
use std::{io, str};
use stream_adapters::{Reading, Writing};
use texts::Text;
use trials::try_section;

/// Why the sections aren't all tried: since this line isn't one of a section, or as words say.
#[derive(Drop)]
enum Refusal {
    Line(String),
    Because(&'static str),
}

impl From<AllocError> for Refusal {
    fn from(_error: AllocError) -> Refusal {
        Refusal::Because("out of memory")
    }
}

impl Refusal {
    // Says it on standard error.
    fn tell(&self, rt: &HostRuntime) -> io::Result<()> {
        match self {
            Refusal::Line(line) => {
                rt.eprintln("this line isn't one of a section:")?;
                rt.eprintln(line.as_str())
            }
            Refusal::Because(words) => rt.eprintln(*words),
        }
    }
}

// The sections of standard input.
fn sections_of(rt: &HostRuntime) -> Result<Vec<Section>, Refusal> {
    let mut source = Reading::new(rt.stdin());
    let Ok(bytes) = read_text(rt.alloc(), &mut source) else {
        return Err(Refusal::Because("the input isn't read, or has more than 4 MiB"));
    };
    let Ok(text) = str::from_utf8(&bytes) else {
        return Err(Refusal::Because("the input isn't text"));
    };
    match read_sections(rt.alloc(), text)? {
        Ok(sections) => Ok(sections),
        Err(line) => Err(Refusal::Line(line)),
    }
}

// Tries all sections, and prints what comes of them.
fn try_all<R: Threads + Wait + Sync>(rt: &HostRuntime, threads: &R) -> Result<(), Refusal> {
    let mut page = Text::new(rt.alloc());
    for section in &sections_of(rt)? {
        try_section(threads, rt.alloc(), section, &mut page)?;
    }
    let mut sink = Writing::new(io::writer(rt));
    match write_all(&mut sink, page.bytes()) {
        Ok(()) => Ok(()),
        Err(Failed) => Err(Refusal::Because("the output isn't written")),
    }
}

fn main(rt: HostRuntime) -> io::Result<ExitCode> {
    match try_all(&rt, &rt) {
        Ok(()) => Ok(ExitCode::SUCCESS),
        Err(refusal) => {
            refusal.tell(&rt)?;
            Ok(ExitCode::FAILURE)
        }
    }
}
