//! Calls on access security files.
//!
//! - `access TEXT`: the file that the text is, whose grants are told from then on; or its fault;
//! - `grant USER HOST GROUP LEVEL`: what the user may do, where `-` is a client that told no user;
//! - `named ADDRESS NAME`: the host at the address has the name from then on, for grants and leads.
use crate::tell::tells;
use crate::words::{Told, two_words};
use access_file::{Access, AccessFault, Grant, HostNames, Level, Right};
use pv_name::{Host, NameFault};
use std::alloc::Global;

pub(crate) fn call(
    alloc: Global,
    access: &mut Option<Access>,
    names: &HostNames,
    verb: &str,
    text: &str,
    told: &mut Told,
) {
    match verb {
        "access" => read(Access::read(alloc, text), access, told),
        _ => match Host::read(alloc, two_words(two_words(text).1).0.as_bytes()) {
            Ok(host) => grant(access, &host, names, text, told),
            Err(fault) => told.line(&fault),
        },
    }
}

fn read(read: Result<Access, AccessFault>, access: &mut Option<Access>, told: &mut Told) {
    match read {
        Ok(file) => {
            *access = Some(file);
            told.line(&"read");
        }
        Err(fault) => told.line(&fault),
    }
}

fn grant(access: &Option<Access>, host: &Host, names: &HostNames, text: &str, told: &mut Told) {
    let (user, behind) = two_words(text);
    let (group, level) = two_words(two_words(behind).1);
    let user = if user == "-" { "" } else { user };
    let level = if level == "0" {
        Level::Zero
    } else {
        Level::One
    };
    match access {
        Some(access) => tell(
            access.grant_known(user.as_bytes(), host, names.of(host), group, level),
            told,
        ),
        None => told.line(&"no file"),
    }
}

pub(crate) fn name_host(alloc: Global, names: &mut HostNames, text: &str, told: &mut Told) {
    match add_name(alloc, names, text) {
        Ok(()) => told.line(&"named"),
        Err(fault) => told.line(&fault),
    }
}

fn add_name(alloc: Global, names: &mut HostNames, text: &str) -> Result<(), NameFault> {
    let (address, name) = two_words(text);
    let address = Host::read(alloc, address.as_bytes())?;
    let name = Host::read(alloc, name.as_bytes())?;
    names.add(address, name).map_err(|_| NameFault::OutOfMemory)
}

fn tell(grant: Grant, told: &mut Told) {
    let right = match grant.right {
        Right::None => "NONE",
        Right::Read => "READ",
        Right::Write => "WRITE",
    };
    told.put(&right);
    told.line(&if grant.recorded { ", recorded" } else { "" });
}

#[test]
fn a_control_room_is_granted(rt: HostRuntime) {
    tells(
        &rt,
        rt.alloc(),
        r#"# A file with lists, a comment, and names in quotes.
| UAG(ops) {anna,ben} HAG(room) { desk1, "DESK2" } # the control room
| ASG(DEFAULT) { RULE(1,READ) RULE(1,WRITE,TRAPWRITE){UAG(ops) HAG(room)} }
| ASG(magnets) { RULE(0,READ) RULE(0,WRITE){UAG(ops)} RULE(1,WRITE,TRAPWRITE){HAG(room)} }
access
> read
grant anna desk1 DEFAULT 1
> WRITE, recorded
grant anna Desk2 DEFAULT 1
> WRITE, recorded
grant Anna desk1 DEFAULT 1
> READ
grant anna office DEFAULT 1
> READ
grant ben desk1 vacuum 0
> WRITE, recorded
grant ben office magnets 0
> WRITE
grant ben office magnets 1
> NONE
grant ben desk1 magnets 0
> WRITE
grant guest DESK1 magnets 1
> WRITE, recorded
grant - 10.0.0.7 DEFAULT 0
> READ"#,
    );
}

#[test]
fn small_files_grant(rt: HostRuntime) {
    tells(
        &rt,
        rt.alloc(),
        r#"# No group of this name, and no DEFAULT.
access ASG(a){RULE(1,WRITE)}
> read
grant anna desk1 b 1
> NONE
grant anna desk1 a 1
> WRITE
# An empty file.
access
> read
grant anna desk1 a 1
> NONE
# Groups without lists and rules.
access UAG(u) HAG(h) ASG(g) ASG(DEFAULT){RULE(1,READ)}
> read
grant anna desk1 g 1
> NONE
# A list of nobody.
access UAG(u){} ASG(DEFAULT){RULE(1,READ){UAG(u)}}
> read
grant anna desk1 a 1
> NONE
# Any of the groups of users.
access UAG(a){x}UAG(b){y}ASG(DEFAULT){RULE(1,WRITE){UAG(a,b)}}
> read
grant y desk1 a 1
> WRITE
# NONE takes nothing away.
access ASG(DEFAULT){RULE(1,READ)RULE(1,NONE)}
> read
grant anna desk1 a 1
> READ
# A comment sign in quotes is in the name.
access UAG("a#b"){"c#d"}ASG(DEFAULT){RULE(1,WRITE,NOTRAPWRITE){UAG("a#b")}}
> read
grant c#d desk1 a 1
> WRITE"#,
    );
}

#[test]
fn faulty_files_are_refused(rt: HostRuntime) {
    tells(
        &rt,
        rt.alloc(),
        r#"# What isn't served.
access ASG(a) {«1*¶»INPA(x)«1*¶»RULE(1,READ)}
> line 2: Calculated
access ASG(a) {«1*¶»RULE(1,READ) {«1*¶»CALC("A=1")}}
> line 3: Calculated
access ASG(a){RULE(1,READ){METHOD("x509")}}
> line 1: Unserved
# Groups that aren't defined above.
access ASG(a){«2*¶»RULE(1,READ){UAG(ops)}}
> line 3: NoUsers
access UAG(ops) ASG(a){RULE(1,READ){HAG(ops)}}
> line 1: NoHosts
access UAG(a)«1*¶»UAG(a)
> line 2: Twice
# Heads of rules.
access ASG(a){RULE(2,READ)}
> line 1: BadLevel
access ASG(a){RULE(1,RPC)}
> line 1: BadRight
access ASG(a){RULE(1,WRITE,TRAP)}
> line 1: BadRight
# Keywords.
access uag(a)
> line 1: UnknownWord
access RULE(1,READ)
> line 1: UnknownWord
# Tokens.
access UAG("a«1*¶»)
> line 1: Unclosed
access ASG(a){«1*¶»RULE(1,READ)«1*¶»
> line 3: Unfinished
access UAG(a){x,}
> line 1: Unexpected
access UAG(a){x@y}
> line 1: BadByte
access UAG(a){"x y"}
> line 1: BadName
access UAG(«127*x»)
> read
access UAG(«128*x»)
> line 1: BadName"#,
    );
}

#[test]
fn bad_input_is_refused(rt: HostRuntime) {
    tells(
        &rt,
        rt.alloc(),
        r#"# Characters beyond ASCII, in a word, in quotes and in a comment.
access UAG(ä)
> line 1: BadByte
access UAG("ä")
> line 1: BadName
access # ä
> read
# NUL.
access «00»
> line 1: BadByte
access UAG(a){"«00»"}
> line 1: BadName
# A megabyte of one sign.
access «1000000*(»
> line 1: Unexpected"#,
    );
}

#[test]
fn files_have_limits(rt: HostRuntime) {
    tells(
        &rt,
        rt.alloc(),
        r#"# Names and rules.
access UAG(a){x«65535*,x»}
> read
access UAG(a){x«65536*,x»}
> line 1: TooMany
access ASG(a){«4096*RULE(1,READ)»}
> read
access ASG(a){«4096*RULE(1,READ)»«1*¶»RULE(1,READ)}
> line 2: TooMany"#,
    );
}
