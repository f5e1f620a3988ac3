//! The command line.

use crate::texts::{
    ABOUT, CHECK_RULES_ABOUT, CHECK_RULES_AFTER_HELP, CHECK_RULES_LONG_ABOUT, REPLAY_ABOUT,
    REPLAY_AFTER_HELP, REPLAY_LONG_ABOUT, SERVE_ABOUT, SERVE_AFTER_HELP, SERVE_LONG_ABOUT,
};
use clap::{Arg, ArgAction, ArgMatches, Command, Error};
use pvlist::Syntax;
use std::alloc::Global;

/// The version, and the kit that its sources are proved with: the one that `docs/PROOF.md` names.
const VERSION: &str = "0.1.0 (proved with rattle-kit-13f)";

const LOCAL: &str = "localhost";

const MOST_WAITING: &str = "256";

const LOG: &str = "info";

/// The programs that a command line can name.
#[derive(Drop)]
pub enum Program<'a> {
    Replay(Replay<'a>),
    CheckRules(CheckRules<'a>),
    Serve(Serve<'a>),
}

/// The gateway that a script is performed on.
#[derive(Clone, Copy, Debug)]
pub enum Body {
    Engine,
    Plain,
}

/// What `replay` performs a script on: a gateway, and the text of the first number that it gives out.
#[derive(Clone, Copy, Debug)]
pub struct Replay<'a> {
    pub body: Body,
    pub first: Option<&'a str>,
}

/// What `check-rules` is to check: the paths of the files, the name, the host and the user that it is asked of,
/// and the syntax of patterns.
#[derive(Clone, Copy, Debug)]
pub struct CheckRules<'a> {
    pub rules: &'a str,
    pub groups: Option<&'a str>,
    pub access: Option<&'a str>,
    pub name: Option<&'a str>,
    pub host: &'a str,
    pub user: Option<&'a str>,
    pub syntax: Syntax,
}

/// What `serve` is to serve: the texts of its words and options, and its flags.
#[derive(Drop)]
pub struct Serve<'a> {
    /// The address that clients connect to, and those of servers.
    pub listen: &'a str,
    /// Further addresses that clients connect to.
    pub more: Vec<&'a str>,
    pub upstreams: Vec<&'a str>,
    /// Where servers are searched for, over TCP too, and the nets that they may be in.
    pub searches: Vec<&'a str>,
    pub name_servers: Vec<&'a str>,
    pub nets: Vec<&'a str>,
    /// The nets whose searches aren't heard.
    pub ignored: Vec<&'a str>,
    /// Where beacons are sent.
    pub beacons: Vec<&'a str>,
    /// Beacons of servers are heard.
    pub hear_beacons: bool,
    /// For how long a server that was found stays connected to though nobody wants its variables.
    pub idle: Option<&'a str>,
    /// The paths of the rule files, and the syntax of patterns.
    pub rules: Option<&'a str>,
    pub groups: Option<&'a str>,
    pub access: Option<&'a str>,
    pub syntax: Syntax,
    /// A client's host is its address.
    pub check_host: bool,
    /// How many MiB may wait for a client, and for all of them.
    pub most_waiting: &'a str,
    pub most_in_all: Option<&'a str>,
    /// The first number that is given out.
    pub first: Option<&'a str>,
    /// How often lost servers are connected to again, and names are forgotten.
    pub reconnect: Option<&'a str>,
    pub sweep: Option<&'a str>,
    /// What is logged, and at which address the gateway tells of itself.
    pub log: &'a str,
    pub status: Option<&'a str>,
    /// How many clients a host may have, and how many clients, servers and names there may be.
    pub clients_of_host: Option<&'a str>,
    pub clients: Option<&'a str>,
    pub servers: Option<&'a str>,
    pub names: Option<&'a str>,
    /// After how many seconds of silence a peer is asked whether it is there, and an old name is forgotten.
    pub alive: Option<&'a str>,
    pub forget: Option<&'a str>,
    /// Names are asked for more and more seldom, searches are answered late, and all is as a site wants it.
    pub back_off: bool,
    pub late: bool,
    pub site: bool,
}

/// Reads a command line, the program's own name first.
pub fn read<'a>(alloc: Global, words: &'a [String]) -> Result<Program<'a>, Error> {
    let command = Command::new(alloc, "pvgate")
        .version(VERSION)
        .about(ABOUT)
        .arg_required_else_help(true)
        .subcommand_required(true)
        .subcommand(replay_command(alloc)?)?
        .subcommand(check_rules_command(alloc)?)?
        .subcommand(serve_command(alloc)?)?;
    let matches = command.try_get_matches_from(words)?;
    if let Some(found) = matches.subcommand_matches("check-rules") {
        return Ok(Program::CheckRules(check_rules_arguments(found)));
    }
    if let Some(found) = matches.subcommand_matches("serve") {
        return Ok(Program::Serve(serve_arguments(alloc, found)?));
    }
    // The other subcommand was named.
    let found = matches.subcommand_matches("replay");
    let is_plain = found.is_some_and(|found| found.get_flag("plain"));
    Ok(Program::Replay(Replay {
        body: if is_plain { Body::Plain } else { Body::Engine },
        first: found.and_then(|found| found.get_str("first")),
    }))
}

fn replay_command<'a>(alloc: Global) -> Result<Command<'a>, Error> {
    let plain = Arg::new(alloc, "plain")
        .long("plain")
        .help("Performs it on the plain gateway, which is slow, and prints the same")
        .action(ArgAction::SetTrue);
    Ok(
        Command::new(alloc, "replay")
            .about(REPLAY_ABOUT)
            .long_about(REPLAY_LONG_ABOUT)
            .after_help(REPLAY_AFTER_HELP)
            .arg(plain)?
            .arg(first(alloc))?,
    )
}

fn check_rules_command<'a>(alloc: Global) -> Result<Command<'a>, Error> {
    let file = Arg::new(alloc, "file")
        .value_name("FILE")
        .help("The rule file")
        .required(true);
    let groups = option(alloc, "groups", "FILE", "The group file");
    let name = option(alloc, "name", "NAME", "The name that a client asks for");
    let host = option(alloc, "host", "HOST", "The host that it asks from").default_value(LOCAL);
    let user = option(
        alloc,
        "user",
        "NAME",
        "What its user is called, for the access security file",
    )
    .requires_arg("name")?
    .requires_arg("access")?
    .conflicts_with("groups")?;
    Ok(
        Command::new(alloc, "check-rules")
            .about(CHECK_RULES_ABOUT)
            .long_about(CHECK_RULES_LONG_ABOUT)
            .after_help(CHECK_RULES_AFTER_HELP)
            .arg(file)?
            .arg(groups)?
            .arg(access(alloc)?)?
            .arg(name)?
            .arg(host)?
            .arg(user)?
            .arg(plain_groups(alloc))?,
    )
}

fn serve_command<'a>(alloc: Global) -> Result<Command<'a>, Error> {
    let listen = Arg::new(alloc, "listen")
        .value_name("LISTEN")
        .help("The address on which clients find it, as 127.0.0.1:5064")
        .required(true);
    let upstreams = Arg::new(alloc, "upstream")
        .value_name("UPSTREAM")
        .help(
            "The address of a server, as 127.0.0.1:5070 or ioc1.lab:5064; at most 16, or what --servers says",
        )
        .required_unless_present("search")?
        .required_unless_present("name-server")?
        .num_args(1..)
        .action(ArgAction::Append);
    let rules = option(alloc, "rules", "FILE", "The rule file");
    let groups = option(alloc, "groups", "FILE", "The group file");
    let command = Command::new(alloc, "serve")
        .about(SERVE_ABOUT)
        .long_about(SERVE_LONG_ABOUT)
        .after_help(SERVE_AFTER_HELP)
        .arg(listen)?
        .arg(upstreams)?;
    let command = address_options(alloc, command)?
        .arg(rules)?
        .arg(groups)?
        .arg(access(alloc)?)?
        .arg(plain_groups(alloc))?;
    operating_options(alloc, command)
}

// Where servers are searched for, and where clients hear of the gateway.
fn address_options<'a>(alloc: Global, command: Command<'a>) -> Result<Command<'a>, Error> {
    let search =
        "Servers are searched for at this address, which may be a broadcast one; again for more";
    let name_server =
        "Servers are searched for over TCP at this name server too, as 10.0.0.9:5064; again for more, at most 16";
    let from =
        "Found servers are in this net, as 10.0.0.0/8; again for more, and anywhere where it isn't said";
    let search = option(alloc, "search", "ADDR", search).action(ArgAction::Append);
    let name_server = option(alloc, "name-server", "ADDR", name_server).action(ArgAction::Append);
    let from = option(alloc, "from", "NET", from).action(ArgAction::Append);
    let more =
        "Clients find it on this address too, or by searches broadcast to it; again for more";
    let ignore =
        "Searches by UDP from this net aren't heard, as those of another gateway at 10.0.1.9/32; again for more";
    let ignore = option(alloc, "ignore", "NET", ignore).action(ArgAction::Append);
    let more = Arg::new(alloc, "more")
        .long("listen")
        .value_name("ADDR")
        .help(more)
        .action(ArgAction::Append);
    let beacons =
        "Beacons are sent to this IPv4 address, which may be a broadcast one, as 10.0.1.255:5065; again for more";
    let beacons = option(alloc, "beacons", "ADDR", beacons).action(ArgAction::Append);
    let hear_beacons =
        "Names are asked for sooner where a beacon tells of a server that is new; with --search or --name-server";
    let idle =
        "A found server that has had no variable for so long is left; 1 to 86400, and 300 where it isn't said";
    Ok(
        command
            .arg(more)?
            .arg(ignore)?
            .arg(search)?
            .arg(name_server)?
            .arg(from)?
            .arg(beacons)?
            .arg(flag(alloc, "hear-beacons", hear_beacons))?
            .arg(option(alloc, "idle", "SECONDS", idle))?,
    )
}

fn operating_options<'a>(alloc: Global, command: Command<'a>) -> Result<Command<'a>, Error> {
    let most_waiting = "A client for which more MiB wait is cut off; at least 1";
    let most_in_all =
        "Where more MiB wait for all clients, those for which most do are cut off; at least 1";
    let reconnect = "So often servers that aren't connected are tried again; 1 to 86400";
    let sweep = "So often it is forgotten which names clients looked for; 1 to 86400";
    let log = "What is told on standard error: error, warn, info or debug";
    let check_host =
        "The host of a client is the address that it connects from, whatever it says itself";
    let status = "It tells each who connects to this address of itself, in one line of JSON";
    let clients_of_host = "So many clients of one host may be connected at once; 1 to 1024";
    let back_off = "Names that no server has are asked for more and more seldom";
    let site =
        "What a site wants: --back-off, --late, --alive 15, --forget 300, --names 65536, --most-in-all 1024 and more, as is told below";
    let command = scale_options(alloc, command)?;
    Ok(
        command
            .arg(option(alloc, "most-waiting", "MIB", most_waiting).default_value(MOST_WAITING))?
            .arg(option(alloc, "most-in-all", "MIB", most_in_all))?
            .arg(first(alloc))?
            .arg(option(alloc, "reconnect", "SECONDS", reconnect))?
            .arg(option(alloc, "sweep", "SECONDS", sweep))?
            .arg(option(alloc, "log", "LEVEL", log).default_value(LOG))?
            .arg(option(alloc, "status", "ADDRESS", status))?
            .arg(flag(alloc, "check-host", check_host))?
            .arg(option(alloc, "clients-of-host", "N", clients_of_host))?
            .arg(flag(alloc, "back-off", back_off))?
            .arg(flag(alloc, "site", site))?,
    )
}

// How much it takes on, and what it doesn't wait for.
fn scale_options<'a>(alloc: Global, command: Command<'a>) -> Result<Command<'a>, Error> {
    let clients =
        "So many clients may be connected at once; 1 to 4096, and 1024 where it isn't said";
    let servers =
        "There may be so many UPSTREAMs and found servers; 1 to 1024, and 16 where it isn't said, or 1024 with --search or --name-server";
    let names = "So many searched names are remembered, and old ones go for new ones; 1 to 1048576";
    let alive = "An UPSTREAM that says nothing for so long is asked whether it is there; 1 to 3600";
    let forget =
        "So often names are forgotten that nobody looked for since the last time; 1 to 86400";
    let late = "A search for a name that isn't connected yet is answered once it is";
    Ok(
        command
            .arg(option(alloc, "clients", "N", clients))?
            .arg(option(alloc, "servers", "N", servers))?
            .arg(option(alloc, "names", "N", names))?
            .arg(option(alloc, "alive", "SECONDS", alive))?
            .arg(option(alloc, "forget", "SECONDS", forget))?
            .arg(flag(alloc, "late", late))?,
    )
}

fn first<'a>(alloc: Global) -> Arg<'a> {
    let help =
        "The first number of each kind that the gateway gives out; 1 to 4294967294, and 1 where it isn't said";
    option(alloc, "first", "N", help)
}

fn access<'a>(alloc: Global) -> Result<Arg<'a>, Error> {
    let help = "The access security file, which says who may do what, in place of a group file";
    Ok(option(alloc, "access", "FILE", help).conflicts_with("groups")?)
}

fn plain_groups<'a>(alloc: Global) -> Arg<'a> {
    let help = "Patterns write groups as ( ) |, as those for PCRE do, and not as \\( \\) \\|";
    flag(alloc, "plain-groups", help)
}

fn flag<'a>(alloc: Global, id: &'a str, help: &'a str) -> Arg<'a> {
    Arg::new(alloc, id)
        .long(id)
        .help(help)
        .action(ArgAction::SetTrue)
}

fn option<'a>(alloc: Global, id: &'a str, value: &'a str, help: &'a str) -> Arg<'a> {
    Arg::new(alloc, id)
        .long(id)
        .value_name(value)
        .help(help)
        .action(ArgAction::Set)
}

fn check_rules_arguments<'a>(found: &ArgMatches<'a>) -> CheckRules<'a> {
    CheckRules {
        rules: found.get_str("file").unwrap_or(""),
        groups: found.get_str("groups"),
        access: found.get_str("access"),
        name: found.get_str("name"),
        host: found.get_str("host").unwrap_or(LOCAL),
        user: found.get_str("user"),
        syntax: syntax(found),
    }
}

fn syntax(found: &ArgMatches<'_>) -> Syntax {
    if found.get_flag("plain-groups") {
        Syntax::Plain
    } else {
        Syntax::Escaped
    }
}

// The words of an argument that may be given again.
fn words<'a>(alloc: Global, found: &ArgMatches<'a>, id: &str) -> Result<Vec<&'a str>, Error> {
    let mut words = Vec::new(alloc);
    for word in found.get_strs(id).unwrap_or(&[]) {
        words.push(*word)?;
    }
    Ok(words)
}

fn serve_arguments<'a>(alloc: Global, found: &ArgMatches<'a>) -> Result<Serve<'a>, Error> {
    Ok(Serve {
        listen: found.get_str("listen").unwrap_or(""),
        more: words(alloc, found, "more")?,
        upstreams: words(alloc, found, "upstream")?,
        searches: words(alloc, found, "search")?,
        name_servers: words(alloc, found, "name-server")?,
        nets: words(alloc, found, "from")?,
        ignored: words(alloc, found, "ignore")?,
        beacons: words(alloc, found, "beacons")?,
        hear_beacons: found.get_flag("hear-beacons"),
        idle: found.get_str("idle"),
        rules: found.get_str("rules"),
        groups: found.get_str("groups"),
        access: found.get_str("access"),
        syntax: syntax(found),
        check_host: found.get_flag("check-host"),
        most_waiting: found.get_str("most-waiting").unwrap_or(MOST_WAITING),
        most_in_all: found.get_str("most-in-all"),
        first: found.get_str("first"),
        reconnect: found.get_str("reconnect"),
        sweep: found.get_str("sweep"),
        log: found.get_str("log").unwrap_or(LOG),
        status: found.get_str("status"),
        clients_of_host: found.get_str("clients-of-host"),
        clients: found.get_str("clients"),
        servers: found.get_str("servers"),
        names: found.get_str("names"),
        alive: found.get_str("alive"),
        forget: found.get_str("forget"),
        back_off: found.get_flag("back-off"),
        late: found.get_flag("late"),
        site: found.get_flag("site"),
    })
}
