//! Orders on standard input.
use crate::fault::ServeFault;
use crate::hub::{AsHub, Hub};
use crate::logging::{LogBook, Teller};
use crate::machine::{Machine, System};
use crate::rules::{PolicyDesk, RulePaths, When, read_policy, read_texts};
use crate::servers::connect;
use crate::status;
use gateway_core::Event;
use serve_state::{Notice, OperatorOrder, OrderLine, OrderLines, Try};
use std::alloc::Global;
use std::io::ErrorKind;
use std::net::{Net, TcpListener, TcpStream};
use std::sync::Arc;
use std::thread::Threads;

/// So many bytes of standard input are read at once, where they are there.
const PIECE_SIZE: usize = 256;

/// What orders work on: the desk that reads rule files, and their paths.
#[derive(Drop)]
pub struct Orders {
    pub desk: PolicyDesk,
    pub files: RulePaths,
}

/// Performs the orders of standard input until its end, which ends the gateway.
pub fn read_orders<
    R: Machine + System + Threads + Net<Listener = TcpListener, Stream = TcpStream> + 'static,
    H: AsHub + Send + Sync + Drop + 'static,
>(rt: R, hub: Arc<H, Global>, orders: Orders) {
    let Orders { mut desk, files } = orders;
    let ended = perform_lines(rt, &hub, &mut desk, &files);
    hub.end(&rt, ended);
}

// The status that the program ends with.
fn perform_lines<
    R: Machine + System + Threads + Net<Listener = TcpListener, Stream = TcpStream> + 'static,
    H: AsHub + Send + Sync + Drop + 'static,
>(rt: R, hub: &Arc<H, Global>, desk: &mut PolicyDesk, files: &RulePaths) -> u8 {
    let mut lines = OrderLines::new(hub.hub().alloc);
    let mut piece = [0u8; PIECE_SIZE];
    for _ in rt.forever() {
        match rt.read_input(&mut piece[..]) {
            Ok(0) => {
                let last = perform_line(rt, hub, desk, files, lines.end());
                return last.unwrap_or(status::GOOD);
            }
            Ok(count) => {
                let came = piece.get(..count).unwrap_or(&[]);
                if let Some(ended) = perform_piece(rt, hub, desk, files, &mut lines, came) {
                    return ended;
                }
            }
            Err(fault) if fault.kind() == ErrorKind::Interrupted => (),
            Err(_) => return status::STREAM_FAILED,
        }
    }
    unreachable!()
}

// The same, where one of the lines that end in this piece orders that.
fn perform_piece<
    R: Machine + System + Threads + Net<Listener = TcpListener, Stream = TcpStream> + 'static,
    H: AsHub + Send + Sync + Drop + 'static,
>(
    rt: R,
    hub: &Arc<H, Global>,
    desk: &mut PolicyDesk,
    files: &RulePaths,
    lines: &mut OrderLines,
    piece: &[u8],
) -> Option<u8> {
    for byte in piece {
        let Ok(line) = lines.hear(*byte) else {
            return Some(status::FAILED);
        };
        if let Some(ended) = perform_line(rt, hub, desk, files, line) {
            return Some(ended);
        }
    }
    None
}

// The same, where a line ended and orders that.
fn perform_line<
    R: Machine + System + Threads + Net<Listener = TcpListener, Stream = TcpStream> + 'static,
    H: AsHub + Send + Sync + Drop + 'static,
>(
    rt: R,
    hub: &Arc<H, Global>,
    desk: &mut PolicyDesk,
    files: &RulePaths,
    line: Option<OrderLine>,
) -> Option<u8> {
    match line {
        Some(OrderLine::Order(order)) => perform(rt, hub, desk, files, order),
        Some(OrderLine::NoOrder) => {
            hub.hub().tell(&rt, Notice::NoOrder);
            None
        }
        None => None,
    }
}

// The status that the program ends with, where it does.
fn perform<
    R: Machine + System + Threads + Net<Listener = TcpListener, Stream = TcpStream> + 'static,
    H: AsHub + Send + Sync + Drop + 'static,
>(
    rt: R,
    hub: &Arc<H, Global>,
    desk: &mut PolicyDesk,
    files: &RulePaths,
    order: OperatorOrder,
) -> Option<u8> {
    let shared: &H = hub;
    match order {
        OperatorOrder::Ask => hub.hub().ask(&rt),
        OperatorOrder::Sweep => sweep(rt, shared),
        OperatorOrder::Reload => return reload(rt, shared, desk, files),
        OperatorOrder::Connect(number) => connect(rt, hub, number, Try::Ordered),
        OperatorOrder::Quit => return Some(status::GOOD),
    }
    None
}

/// Has it forgotten which names clients looked for.
pub fn sweep<R: System, H: AsHub>(rt: R, hub: &H) {
    let _ = hub.gate().desk(&rt, Event::Sweep);
    hub.hub().seek(&rt, Vec::new(hub.hub().alloc), true);
    hub.hub().tell(&rt, Notice::Swept);
}

/// Has it forget what nobody searched for since the last time, and give up what servers owe since before that.
pub fn age<R: System, H: AsHub>(rt: R, hub: &H) {
    let _ = hub.gate().desk(&rt, Event::Age);
    hub.hub().seek(&rt, Vec::new(hub.hub().alloc), true);
    hub.hub().tell(&rt, Notice::Aged);
}

fn reload<
    R: Machine + System + Threads + Net<Listener = TcpListener, Stream = TcpStream> + 'static,
    H: AsHub,
>(rt: R, hub: &H, desk: &mut PolicyDesk, files: &RulePaths) -> Option<u8> {
    let book: &LogBook = &hub.hub().book;
    let teller = Teller::WhileServing(book);
    let when = When::AtReload {
        refuse_empty: hub.hub().options.refuse_empty,
    };
    let texts = match read_texts(&rt, hub.hub().alloc, files, when, teller) {
        Ok(texts) => texts,
        Err(ServeFault::OutOfMemory) => {
            hub.hub().tell(&rt, Notice::OutOfMemory);
            return None;
        }
        Err(_) => return None,
    };
    let checks_hosts = hub.hub().options.scale.checks_hosts;
    match read_policy(&rt, hub.hub().alloc, desk, &texts, checks_hosts, teller) {
        Ok(policy) => {
            let _ = hub.gate().desk(&rt, Event::Edit(policy));
            hub.hub().seek(&rt, Vec::new(hub.hub().alloc), true);
            count_edit(rt, hub.hub());
            hub.hub().tell(&rt, Notice::Reloaded);
            None
        }
        Err(ServeFault::Output) => Some(status::STREAM_FAILED),
        Err(_) => None,
    }
}

fn count_edit<R: System>(rt: R, hub: &Hub) {
    let mut edits = hub.edits.lock(&rt);
    *edits = edits.saturating_add(1);
}
