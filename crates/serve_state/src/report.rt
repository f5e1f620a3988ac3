//! What the gateway tells of itself.
ghost use Rattle.std.specs.Prelude.{◌≡◌, ◌++◌, codes, IfOk, string_bytes};
ghost use Rattle.serve_state.specs.ReportText.{report_text};

use crate::in_all::MostInAll;
use crate::limits::Limit;
use gateway_state::{Fullest, Limits, LimitsMet, RowCounts};
use std::alloc::Global;
use std::fmt;
use std::fmt::Write;
use std::net::SocketAddr;

/// A server, and whether the gateway is connected to it.
#[derive(Clone, Copy, Debug, PartialEq, Eq)]
pub struct ServerReport {
    pub number: u32,
    pub address: SocketAddr,
    pub connected: bool,
}

impl fmt::Display for ServerReport {
    ghost use Rattle.std.specs.Prelude.{Some};
    ghost use Rattle.serve_state.specs.ReportText.{server_text};

    ghost output = { λ server. Some (server_text server) };

    #[tactic(auto, unfolding(crate::specs::ReportText::server_text))]
    fn fmt<W: fmt::Write>(&self, f: &mut fmt::Formatter<W>) -> fmt::Result {
        let ServerReport {
            number,
            address,
            connected,
        } = self;
        write!(
            f,
            "{{\"number\":{number},\"address\":\"{address}\",\"connected\":{connected}}}"
        )
    }
}

/// How much of what may wait for all clients together is used.
#[derive(Clone, Copy, Debug, PartialEq, Eq)]
pub struct InAllReport {
    pub most: MostInAll,
    /// How many bytes wait for all clients together.
    pub bytes: u64,
    /// How many clients were cut off since the start because more did.
    pub cut: u64,
}

impl fmt::Display for InAllReport {
    ghost use Rattle.std.specs.Prelude.{Some};
    ghost use Rattle.serve_state.specs.ReportText.{in_all_text};

    ghost output = { λ in_all. Some (in_all_text in_all) };

    fn fmt<W: fmt::Write>(&self, f: &mut fmt::Formatter<W>) -> fmt::Result {
        let used = Use {
            key: "bytes_of_all_clients",
            used: self.bytes,
            most: self.most.bytes(),
            met: self.cut,
        };
        write!(f, "{used}")
    }
}

/// How much is used of something, how much there may be, and how often that was met.
#[derive(Clone, Copy)]
struct Use<'a> {
    key: &'a str,
    used: u64,
    most: u64,
    met: u64,
}

impl<'a> fmt::Display for Use<'a> {
    ghost use Rattle.std.specs.Prelude.{Some};
    ghost use Rattle.serve_state.specs.ReportText.{use_text};

    ghost output = { λ u. Some (use_text u.key.now u.used u.most u.met) };

    #[tactic(auto, unfolding(crate::specs::ReportText::use_text))]
    fn fmt<W: fmt::Write>(&self, f: &mut fmt::Formatter<W>) -> fmt::Result {
        let Use {
            key,
            used,
            most,
            met,
        } = self;
        write!(
            f,
            "\"{key}\":{{\"used\":{used},\"most\":{most},\"met\":{met}}}"
        )
    }
}

/// What the gateway tells of itself: it is printed as JSON, without a line feed.
#[derive(Clone, Copy)]
pub struct Report<'a> {
    pub servers: &'a [ServerReport],
    /// How many servers that were found by search are connected, where servers are searched for.
    pub found: Option<u32>,
    pub rows: RowCounts,
    /// How many edits of the rules were taken.
    pub edits: u64,
    /// How many messages of clients and servers were performed.
    pub received: u64,
    /// How many messages were handed on to be written.
    pub sent: u64,
    /// How many bytes wait for the connection for which most wait.
    pub largest_outbox: u64,
    /// What those have who have most.
    pub fullest: Fullest,
    /// The limits that hold.
    pub limits: Limits,
    /// How often limits were met.
    pub met: LimitsMet,
    /// How many clients were refused since as many as can be were connected.
    pub refused: u64,
    /// What waits for all clients together, where a command line says how much may.
    pub in_all: Option<InAllReport>,
}

impl<'a> Report<'a> {
    /// The text of it, with a line feed.
    ///
    /// # Errors
    ///
    /// Memory was refused.
    pub fn line(&self, alloc: Global) -> Result<String, fmt::Error>
        ensures { IfOk result (λ line. string_bytes line ≡ report_text self.now ++ codes "\n") }
    {
        let mut line = String::new(alloc);
        writeln!(line, "{self}")?;
        Ok(line)
    }
}

impl<'a> fmt::Display for Report<'a> {
    ghost use Rattle.std.specs.Prelude.{Some};
    ghost use Rattle.serve_state.specs.ReportText.{report_text};

    ghost output = { λ report. Some (report_text report) };

    #[tactic(auto, unfolding(crate::specs::ReportText::report_text))]
    fn fmt<W: fmt::Write>(&self, f: &mut fmt::Formatter<W>) -> fmt::Result {
        let clients = ClientLine { report: self };
        let rows = RowTotals { rows: &self.rows };
        let waiting = WaitingTotals { rows: &self.rows };
        let traffic = TrafficLine { report: self };
        let limits = LimitsPart { report: self };
        write!(f, "{{{clients},{rows},{waiting},{traffic},{limits}}}")
    }
}

/// How many clients there are, and the servers.
#[derive(Clone, Copy)]
struct ClientLine<'a, 'b> {
    report: &'b Report<'a>,
}

impl<'a, 'b> fmt::Display for ClientLine<'a, 'b> {
    ghost use Rattle.std.specs.Prelude.{Some};
    ghost use Rattle.serve_state.specs.ReportText.{clients_text};

    ghost output = { λ c. Some (clients_text c.report.now) };

    #[tactic(auto, unfolding(crate::specs::ReportText::clients_text))]
    fn fmt<W: fmt::Write>(&self, f: &mut fmt::Formatter<W>) -> fmt::Result {
        let clients = self.report.rows.sessions;
        let servers = ServerList {
            servers: self.report.servers,
        };
        let found = FoundPart {
            found: self.report.found,
        };
        write!(f, "\"clients\":{clients},\"upstreams\":[{servers}]{found}")
    }
}

/// How many servers that were found by search are connected, behind a comma, where that is told.
#[derive(Clone, Copy)]
struct FoundPart {
    found: Option<u32>,
}

impl fmt::Display for FoundPart {
    ghost use Rattle.std.specs.Prelude.{Some};
    ghost use Rattle.serve_state.specs.ReportText.{found_part};

    ghost output = { λ part. Some (found_part part.found) };

    fn fmt<W: fmt::Write>(&self, f: &mut fmt::Formatter<W>) -> fmt::Result {
        match &self.found {
            Some(found) => write!(f, ",\"upstreams_found\":{found}"),
            None => Ok(()),
        }
    }
}

/// The servers, with commas between them.
#[derive(Clone, Copy)]
struct ServerList<'a> {
    servers: &'a [ServerReport],
}

impl<'a> fmt::Display for ServerList<'a> {
    ghost use Rattle.std.specs.Prelude.{Some};
    ghost use Rattle.serve_state.specs.ReportText.{server_text, with_commas};

    ghost output = { λ list. Some (with_commas server_text list.servers.now) };

    fn fmt<W: fmt::Write>(&self, f: &mut fmt::Formatter<W>) -> fmt::Result {
        match self.servers {
            [] => Ok(()),
            [first, rest @ ..] => {
                let others = OtherServers { servers: rest };
                write!(f, "{first}{others}")
            }
        }
    }
}

/// Servers, each behind a comma.
#[derive(Clone, Copy)]
struct OtherServers<'a> {
    servers: &'a [ServerReport],
}

impl<'a> fmt::Display for OtherServers<'a> {
    ghost use Rattle.std.specs.Prelude.{Some};
    ghost use Rattle.serve_state.specs.ReportText.{behind_commas, server_text};

    ghost output = { λ list. Some (behind_commas server_text list.servers.now) };

    fn fmt<W: fmt::Write>(&self, f: &mut fmt::Formatter<W>) -> fmt::Result {
        for server in self.servers {
            write!(f, ",{server}")?;
        }
        Ok(())
    }
}

/// How much there is of what clients and servers have.
#[derive(Clone, Copy)]
struct RowTotals<'a> {
    rows: &'a RowCounts,
}

impl<'a> fmt::Display for RowTotals<'a> {
    ghost use Rattle.std.specs.Prelude.{Some};
    ghost use Rattle.serve_state.specs.ReportText.{rows_text};

    ghost output = { λ r. Some (rows_text r.rows.now) };

    #[tactic(auto, unfolding(crate::specs::ReportText::rows_text))]
    fn fmt<W: fmt::Write>(&self, f: &mut fmt::Formatter<W>) -> fmt::Result {
        let RowCounts {
            channels,
            links,
            subs,
            ..
        } = self.rows;
        write!(
            f,
            "\"channels\":{channels},\"links\":{links},\"subscriptions\":{subs}"
        )
    }
}

/// How much waits for an answer, or to be found.
#[derive(Clone, Copy)]
struct WaitingTotals<'a> {
    rows: &'a RowCounts,
}

impl<'a> fmt::Display for WaitingTotals<'a> {
    ghost use Rattle.std.specs.Prelude.{Some};
    ghost use Rattle.serve_state.specs.ReportText.{waiting_text};

    ghost output = { λ r. Some (waiting_text r.rows.now) };

    #[tactic(auto, unfolding(crate::specs::ReportText::waiting_text))]
    fn fmt<W: fmt::Write>(&self, f: &mut fmt::Formatter<W>) -> fmt::Result {
        let RowCounts {
            reads,
            writes,
            searches,
            ..
        } = self.rows;
        write!(
            f,
            "\"reads_waiting\":{reads},\"writes_waiting\":{writes},\"names_remembered\":{searches}"
        )
    }
}

/// What was done since the start, and the most bytes that wait.
#[derive(Clone, Copy)]
struct TrafficLine<'a, 'b> {
    report: &'b Report<'a>,
}

impl<'a, 'b> fmt::Display for TrafficLine<'a, 'b> {
    ghost use Rattle.std.specs.Prelude.{Some};
    ghost use Rattle.serve_state.specs.ReportText.{traffic_text};

    ghost output = { λ t. Some (traffic_text t.report.now) };

    #[tactic(auto, unfolding(crate::specs::ReportText::traffic_text))]
    fn fmt<W: fmt::Write>(&self, f: &mut fmt::Formatter<W>) -> fmt::Result {
        let edits = self.report.edits;
        let (received, sent) = (self.report.received, self.report.sent);
        let largest = self.report.largest_outbox;
        write!(
            f,
            "\"edits\":{edits},\"messages_in\":{received},\"messages_out\":{sent},\"largest_outbox_bytes\":{largest}"
        )
    }
}

/// All limits, with commas between them.
#[derive(Clone, Copy)]
struct LimitList<'a, 'b> {
    report: &'b Report<'a>,
}

impl<'a, 'b> fmt::Display for LimitList<'a, 'b> {
    ghost use Rattle.std.specs.Prelude.{Some};
    ghost use Rattle.serve_state.specs.ReportText.{limit_list};

    ghost output = { λ list. Some (limit_list list.report.now) };

    #[tactic(auto, unfolding(crate::specs::ReportText::limit_list))]
    fn fmt<W: fmt::Write>(&self, f: &mut fmt::Formatter<W>) -> fmt::Result {
        let report = self.report;
        let [first, rest @ ..] = Limit::ALL.as_slice() else {
            return Ok(());
        };
        let first = LimitUse {
            report,
            limit: *first,
        };
        let others = OtherLimits {
            report,
            limits: rest,
        };
        write!(f, "{first}{others}")
    }
}

/// Limits, each behind a comma.
#[derive(Clone, Copy)]
struct OtherLimits<'a, 'b> {
    report: &'b Report<'a>,
    limits: &'b [Limit],
}

impl<'a, 'b> fmt::Display for OtherLimits<'a, 'b> {
    ghost use Rattle.std.specs.Prelude.{Some};
    ghost use Rattle.serve_state.specs.ReportText.{behind_commas, limit_text};

    ghost output = { λ list. Some (behind_commas (limit_text list.report.now) list.limits.now) };

    fn fmt<W: fmt::Write>(&self, f: &mut fmt::Formatter<W>) -> fmt::Result {
        for limit in self.limits {
            let used = LimitUse {
                report: self.report,
                limit: *limit,
            };
            write!(f, ",{used}")?;
        }
        Ok(())
    }
}

/// A limit, and how much of it is used.
#[derive(Clone, Copy)]
struct LimitUse<'a, 'b> {
    report: &'b Report<'a>,
    limit: Limit,
}

impl<'a, 'b> fmt::Display for LimitUse<'a, 'b> {
    ghost use Rattle.std.specs.Prelude.{Some};
    ghost use Rattle.serve_state.specs.ReportText.{limit_text};

    ghost output = { λ u. Some (limit_text u.report.now u.limit) };

    fn fmt<W: fmt::Write>(&self, f: &mut fmt::Formatter<W>) -> fmt::Result {
        let report = self.report;
        let used = Use {
            key: self.limit.key(),
            used: self.limit.used(&report.rows, &report.fullest),
            most: self.limit.most(&report.limits),
            met: self.limit.met(&report.met, report.refused),
        };
        write!(f, "{used}")
    }
}

/// All limits, and what waits for all clients together, where that is told.
#[derive(Clone, Copy)]
struct LimitsPart<'a, 'b> {
    report: &'b Report<'a>,
}

impl<'a, 'b> fmt::Display for LimitsPart<'a, 'b> {
    ghost use Rattle.std.specs.Prelude.{Some};
    ghost use Rattle.serve_state.specs.ReportText.{limits_text};

    ghost output = { λ part. Some (limits_text part.report.now) };

    #[tactic(auto, unfolding(crate::specs::ReportText::limits_text))]
    fn fmt<W: fmt::Write>(&self, f: &mut fmt::Formatter<W>) -> fmt::Result {
        let limits = LimitList {
            report: self.report,
        };
        let in_all = InAllPart {
            in_all: self.report.in_all,
        };
        write!(f, "\"limits\":{{{limits}{in_all}}}")
    }
}

/// What waits for all clients together, behind a comma, where that is told.
#[derive(Clone, Copy)]
struct InAllPart {
    in_all: Option<InAllReport>,
}

impl fmt::Display for InAllPart {
    ghost use Rattle.std.specs.Prelude.{Some};
    ghost use Rattle.serve_state.specs.ReportText.{in_all_part};

    ghost output = { λ part. Some (in_all_part part.in_all) };

    fn fmt<W: fmt::Write>(&self, f: &mut fmt::Formatter<W>) -> fmt::Result {
        match &self.in_all {
            Some(in_all) => write!(f, ",{in_all}"),
            None => Ok(()),
        }
    }
}
