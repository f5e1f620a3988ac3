//! Asks the system for the addresses of hosts, of several at once: it may take long over a name that nobody knows.
use crate::clients::host_at;
use crate::host_names::known::{KnownHosts, copy_all};
use crate::machine::System;
use crate::upstreams::names_host;
use crate::workers::RULES_STACK_SIZE;
use pv_name::{Host, NoMemory};
use std::alloc::{AllocError, Global};
use std::fmt::Write;
use std::mem::replace;
use std::net::{Net, TcpListener, TcpStream, ToSocketAddrs};
use std::sync::{Arc, Condvar, CondvarTimeouts, Mutex, Wait};
use std::thread::{Builder, Threads};
use std::time::Duration;

/// So many names are looked up at once, each by a thread of its own.
const AT_ONCE: usize = 8;

/// How many seconds are waited for all answers together.
const PATIENCE: u64 = 10;

/// Names, and what was answered for them.
#[derive(Drop)]
struct LookUps {
    alloc: Global,
    names: Vec<Host>,
    answers: Mutex<Answers>,
    /// An answer came.
    came: Condvar,
}

/// What was answered, and how far it is.
#[derive(Drop)]
struct Answers {
    // The place of the next name.
    next: usize,
    // For how many there is an answer.
    count: usize,
    found: KnownHosts,
    is_out_of_memory: bool,
}

impl Answers {
    fn add(&mut self, name: &Host, addresses: Result<Vec<Host>, NoMemory>) {
        self.count = self.count.saturating_add(1);
        let added = match addresses {
            Ok(addresses) => self.found.put(name, addresses),
            Err(fault) => Err(fault),
        };
        if added.is_err() {
            self.is_out_of_memory = true;
        }
    }
}

impl LookUps {
    fn new(alloc: Global, names: Vec<Host>) -> LookUps {
        LookUps {
            alloc,
            names,
            answers: Mutex::new(Answers {
                next: 0,
                count: 0,
                found: KnownHosts::new(alloc),
                is_out_of_memory: false,
            }),
            came: Condvar::new(),
        }
    }

    // The next name, which from now on is looked up.
    fn next<R: Wait>(&self, rt: &R) -> Option<&Host> {
        let mut answers = self.answers.lock(rt);
        let name = self.names.get(answers.next)?;
        answers.next = answers.next.saturating_add(1);
        Some(name)
    }

    fn answer<R: Wait>(&self, rt: &R, name: &Host, addresses: Result<Vec<Host>, NoMemory>) {
        {
            self.answers.lock(rt).add(name, addresses);
        }
        self.came.notify_all();
    }

    // All answers, or those that came in time. Then no more names are looked up.
    fn wait<R: System>(&self, rt: &R) -> Result<KnownHosts, NoMemory> {
        let count = self.names.len();
        let answers = self.answers.lock(rt);
        let (mut answers, _) = self.came.wait_timeout_while(
            rt,
            answers,
            Duration::from_secs(PATIENCE),
            |answers| answers.count < count && !answers.is_out_of_memory,
        );
        answers.next = count;
        if answers.is_out_of_memory {
            return Err(AllocError);
        }
        Ok(replace(&mut answers.found, KnownHosts::new(self.alloc)))
    }
}

/// Where the hosts are, as far as the system says so in time: nowhere, where it doesn't find one. Nobody waits for the threads
/// that it keeps waiting for longer.
pub fn look_up_all<R: System + Threads + Net<Listener = TcpListener, Stream = TcpStream> + 'static>(
    rt: R,
    alloc: Global,
    names: &[Host],
) -> Result<KnownHosts, NoMemory> {
    if names.is_empty() {
        return Ok(KnownHosts::new(alloc));
    }
    let copies = copy_all(alloc, names)?;
    let Ok(work) = Arc::new(alloc, LookUps::new(alloc, copies)) else {
        return Err(AllocError);
    };
    if !start(rt, &work, names.len().min(AT_ONCE)) {
        return Err(AllocError);
    }
    let shared: &LookUps = &work;
    shared.wait(&rt)
}

// False where no thread can be made.
fn start<R: System + Threads + Net<Listener = TcpListener, Stream = TcpStream> + 'static>(
    rt: R,
    work: &Arc<LookUps, Global>,
    count: usize,
) -> bool {
    let mut any = false;
    for _ in 0..count {
        let Ok(again) = Arc::try_clone(work) else {
            return any;
        };
        let started = Builder::new()
            .stack_size(RULES_STACK_SIZE)
            .spawn(&rt, move || look_up_some(rt, again));
        any = any || started.is_ok();
    }
    any
}

// Looks one name up after the other, until none is left.
fn look_up_some<R: System + Net>(rt: R, work: Arc<LookUps, Global>) {
    let shared: &LookUps = &work;
    for _ in 0..shared.names.len() {
        let Some(name) = shared.next(&rt) else {
            return;
        };
        shared.answer(&rt, name, look_up(&rt, shared.alloc, name));
    }
}

// The addresses that the system has for the name, as those of clients are written.
fn look_up<R: Net>(rt: &R, alloc: Global, name: &Host) -> Result<Vec<Host>, NoMemory> {
    let mut found = Vec::new(alloc);
    let mut word = String::new(alloc);
    let text = name.text();
    if write!(word, "{text}:1").is_err() {
        return Err(AllocError);
    }
    if !names_host(word.as_str()) {
        return Ok(found);
    }
    let Ok(addresses) = word.as_str().to_socket_addrs(rt) else {
        return Ok(found);
    };
    for address in addresses {
        let host = host_at(alloc, address.ip().to_canonical()).map_err(|_| AllocError)?;
        found.push(host)?;
    }
    Ok(found)
}
