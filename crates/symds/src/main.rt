//! symds, a node engine: the words that it is called with, and what they make it do.
#![tactic(auto)]

mod command;
mod help;
mod messages;
#[cfg(test)]
mod tests;
#[cfg(test)]
mod tests_config;
#[cfg(test)]
mod tests_messages;
#[cfg(test)]
mod tests_words;
mod words;

use command::run;
use messages::{file_of, message_of};
use sds_base::{Bytes, List, Txt};
use sds_outside::{FileSource, MemKeeper, MemLink, MemSource, Source, StdSink, StdSource};
use sds_types::{Status, Unreadable};
use std::alloc::Global;
use std::process::ExitCode;
use std::random::RandomSource;
use std::rt::{Env, Files};
use std::{env, io};
use words::read_words;

/// The words after the program's name, or why there are none: arguments that aren't UTF-8, or out of memory.
fn given_words<R: Env + Alloc<A = Global>>(rt: &R) -> Result<Vec<Txt>, Status> {
    let Ok(args) = env::args(rt) else {
        return Err(Status::Words { place: 0 });
    };
    let mut words = Vec::new(rt.alloc());
    for word in args.skip(1) {
        if words.push(Txt::of(word)).is_err() {
            return Err(Status::NoMemory);
        }
    }
    Ok(words)
}

/// Calls `run` over a configuration, standard input and standard output.
fn run_over<R, S: Source>(rt: &R, words: &[Txt], config: &mut S) -> Status
where
    R: Env + Alloc<A = Global> + Input + Print + RandomSource + Files,
{
    let mut noise = [0u8; 16];
    if rt.fill_bytes(&mut noise).is_err() {
        return Status::ReadFault(Unreadable::Noise);
    }
    let alloc = rt.alloc();
    let mut input = StdSource::new(rt.reader());
    let mut link = MemLink::sound(alloc, List::new(alloc));
    let mut out = StdSink::new(io::writer(rt));
    let Ok(keeper) = MemKeeper::sound(alloc, List::new(alloc)) else {
        return Status::NoMemory;
    };
    let (status, _keeper) = run(
        alloc, words, config, &mut input, keeper, &mut link, noise, &mut out,
    );
    status
}

/// What a process ends with, and the configuration file that it named.
#[derive(Drop)]
struct Ended {
    status: Status,
    file: Txt,
}

/// Reads the words, and runs them over the configuration file of their folder; words that are no order need none.
fn run_here<R>(rt: &R) -> Ended
where
    R: Env + Alloc<A = Global> + Input + Print + RandomSource + Files,
{
    let alloc = rt.alloc();
    let nothing = Txt::of(String::new(alloc));
    let words = match given_words(rt) {
        Ok(words) => words,
        Err(status) => return Ended {
            status,
            file: nothing,
        },
    };
    let file = match read_words(alloc, &words) {
        Ok(order) => file_of(alloc, &order),
        Err(_) => {
            let mut config = MemSource::sound(alloc, Bytes::of(Vec::new(alloc)));
            let status = run_over(rt, &words, &mut config);
            return Ended {
                status,
                file: nothing,
            };
        }
    };
    let Ok(file) = file else {
        return Ended {
            status: Status::NoMemory,
            file: nothing,
        };
    };
    // Where a standard stream is closed, the next opening would stand in its place: a folder can neither be read nor
    // written, so the stream fails as a closed one.
    let _first = FileSource::open(rt, "/");
    let _second = FileSource::open(rt, "/");
    let _third = FileSource::open(rt, "/");
    let mut config = FileSource::open(rt, file.as_str());
    let status = run_over(rt, &words, &mut config);
    Ended { status, file }
}

/// Tells the status on standard error, where it isn't Done: its name, and in words what to do about it.
fn tell<R: Eprint + Alloc<A = Global>>(rt: &R, ended: &Ended) -> io::Result<()> {
    let name = ended.status.name();
    eprintln!(rt; "symds: {name}")?;
    match message_of(rt.alloc(), &ended.status, ended.file.as_str()) {
        Ok(message) => eprintln!(rt; "  {message}"),
        Err(_) => Ok(()),
    }
}

fn main(rt: HostRuntime) -> ExitCode {
    let ended = run_here(&rt);
    let number = ended.status.number();
    if number != 0 {
        let _ = tell(&rt, &ended);
    }
    ExitCode::from(number)
}
