//! A gateway for EPICS process variables over Channel Access.
#![tactic(auto)]

mod addresses;
mod arguments;
mod check_rules;
mod fault;
mod heavy;
mod site;
mod texts;

use arguments::{Body, Program, Replay};
use check_rules::check_rules;
use clap::error::ErrorKind;
use fault::ProgramFault;
use replay::{replay_from, replay_plain_from, status};
use serve::open;
use site::{Site, ended, read_first, read_site};
use std::io::BufWriter;
use std::process::ExitCode;
use std::{env, io};

/// How far the command line leads.
#[derive(Drop)]
enum Begun {
    /// The program has ended, with this status.
    Ended(u8),
    /// A gateway is to be served.
    Serve(Site),
}

fn main(rt: HostRuntime) -> ExitCode {
    let status = match begin(&rt) {
        Ok(Begun::Ended(status)) => status,
        Ok(Begun::Serve(site)) => {
            match open(rt, rt.alloc(), site.addresses, site.files, site.options) {
                Ok(status) => status,
                Err(fault) => told(&rt, ended(fault)),
            }
        }
        Err(fault) => {
            let _ = eprintln!(rt; "pvgate: {fault}");
            match fault.kind() {
                io::ErrorKind::OutOfMemory => status::FAILED,
                // An argument that is no UTF-8.
                io::ErrorKind::InvalidData => status::BAD_INPUT,
                _ => status::STREAM_FAILED,
            }
        }
    };
    ExitCode::from(status)
}

// The status, once a fault is told.
fn told(rt: &HostRuntime, ended: Result<u8, ProgramFault>) -> u8 {
    match ended {
        Ok(status) => status,
        Err(fault) => {
            let _ = eprintln!(rt; "pvgate: {fault}");
            fault.status()
        }
    }
}

fn begin(rt: &HostRuntime) -> io::Result<Begun> {
    let alloc = rt.alloc();
    let words: Vec<String> = env::args(rt)?.collect(alloc)?;
    match arguments::read(alloc, &words) {
        Ok(Program::Replay(arguments)) => Ok(Begun::Ended(replay_script(rt, arguments)?)),
        Ok(Program::CheckRules(arguments)) => {
            Ok(Begun::Ended(told(rt, check_rules(rt, &arguments))))
        }
        Ok(Program::Serve(arguments)) => match read_site(rt, alloc, &arguments) {
            Ok(site) => Ok(Begun::Serve(site)),
            Err(fault) => Ok(Begun::Ended(told(rt, Err(fault)))),
        },
        Err(fault) => {
            fault.print(rt)?;
            Ok(Begun::Ended(match fault.kind() {
                ErrorKind::DisplayHelp | ErrorKind::DisplayVersion => status::GOOD,
                ErrorKind::OutOfMemory => status::FAILED,
                _ => status::BAD_INPUT,
            }))
        }
    }
}

/// Replays the script on standard input.
fn replay_script(rt: &HostRuntime, arguments: Replay<'_>) -> io::Result<u8> {
    let alloc = rt.alloc();
    let first = match read_first(alloc, arguments.first) {
        Ok(first) => first.number(),
        Err(fault) => return Ok(told(rt, Err(fault))),
    };
    let mut out = BufWriter::new(alloc, io::writer(rt))?;
    let ended = match arguments.body {
        Body::Engine => replay_from(alloc, first, rt.reader(), &mut out),
        Body::Plain => replay_plain_from(alloc, first, rt.reader(), &mut out),
    };
    if ended == status::STREAM_FAILED {
        let _ = eprintln!(rt;
            "pvgate: the script can't be read, or what it prints can't be written"
        );
    }
    Ok(ended)
}
