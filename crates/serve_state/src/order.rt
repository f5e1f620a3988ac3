//! Lines of standard input.
ghost use Rattle.std.specs.Prelude.{◌≡◌};
ghost use Rattle.serve_state.specs.Orders.{connect_order, order_of};

use decimal_text::read_u32;

/// What a line of standard input orders.
#[derive(Clone, Copy, Debug, PartialEq, Eq)]
pub enum OperatorOrder {
    /// Ask the servers for the names that are wanted.
    Ask,
    /// Forget which names clients looked for.
    Sweep,
    /// Read the rule files again.
    Reload,
    /// Connect to the server of this number again.
    Connect(u32),
    /// End.
    Quit,
}

/// How many bytes `connect ` has.
const CONNECT_SIZE: usize = 8;

/// The order that a line is, without its line feed; `None` where it is none.
pub fn read_order(line: &[u8]) -> Option<OperatorOrder>
    ensures { result ≡ order_of line.now }
{
    if line == b"ask".as_slice() {
        return Some(OperatorOrder::Ask);
    }
    if line == b"sweep".as_slice() {
        return Some(OperatorOrder::Sweep);
    }
    if line == b"reload".as_slice() {
        return Some(OperatorOrder::Reload);
    }
    if line == b"quit".as_slice() {
        return Some(OperatorOrder::Quit);
    }
    read_connect(line)
}

fn read_connect(line: &[u8]) -> Option<OperatorOrder>
    ensures { result ≡ connect_order line.now }
{
    if line.len() < CONNECT_SIZE {
        return None;
    }
    let (word, digits) = line.split_at(CONNECT_SIZE);
    if word == b"connect ".as_slice() {
        Some(OperatorOrder::Connect(read_u32(digits)?))
    } else {
        None
    }
}
