//! What the help says.

pub const ABOUT: &str = "A gateway for EPICS process variables over Channel Access";

pub const REPLAY_ABOUT: &str = "Performs a script on a gateway, with no network";

pub const REPLAY_LONG_ABOUT: &str = "\
Performs a script on a gateway, with no network.

The script is read from standard input, one command a line. What the gateway sends is printed, one
line a message: the connection, and the bytes of the message as hexadecimal digits.";

pub const REPLAY_AFTER_HELP: &str = "\
Lines of a script (N is a number, D is sN, the connection of a client, or uN, that of a server):
  open sN HOST    a client connects from the host
  open uN         the gateway connects to a server
  client sN HEX   these bytes come from the client (- for none)
  server uN HEX   these bytes come from the server
  lost D          the connection is lost
  found NAME uN   the server has the variable of this name, if the gateway still asks for it
  search HOST HEX these bytes are a datagram of searches from the host; what is sent back is printed:
                  reply HEX, or reply - for nothing
  sweep           the gateway forgets which names clients looked for
  edit R G        the R lines that follow are the rule file from now on, and the G lines after those
                  the group file (0: no such file); a fault in them is printed, and changes nothing:
                  refused line N: CAUSE, or refused groups line N: CAUSE
  edit R G A      the same, and the A lines after those are an access security file, whose fault is
                  printed as refused access line N: CAUSE
  hold D          D's messages are kept back from now on
  flow D          they are no longer kept back
  drain D K       the first K messages that wait for D are printed
  # TEXT          nothing, as an empty line

Lines that change nothing, and what they print:
  asks                     asks NAME NAME .., the names that servers are asked for
  read sN SID TYPE COUNT   what a read on the client's channel SID would be answered now:
                           value COUNT HEX, refused CODE, waits, or no channel
  sub NAME                 sub ID MASK COUNT, the gateway's own subscription to the variable, or sub -
  props NAME               props ID, its subscription to the variable's properties, or props -
  rights sN SID            rights N (1: read, 2: write, 3: both), or rights - for no such channel

Also printed:
  shut D misaligned, shut D toolarge    the bytes that came are no messages, so D is cut off
  end D                                 D is cut off for another reason
  line N: bad                           line N is none of the above, or an edit whose lines are missing
                                        or are no UTF-8, and the replay ends
  failed                                the gateway ran out of memory or numbers, and the replay ends

Exit status: 0 at the end of the script, 2 after a bad line, 3 where a standard stream can't be read
or written, 4 where memory or the gateway's numbers run out.

Examples, a client that connects and is greeted, and a server:
  echo 'open s1 10.0.0.5' | pvgate replay
  echo 'open u1' | pvgate replay
More are in the folder examples.";

pub const CHECK_RULES_ABOUT: &str = "Checks a rule file, and tells what it answers a client";

pub const CHECK_RULES_LONG_ABOUT: &str = "\
Checks a rule file, and a group file or an access security file, and tells what they answer a client,
with no network.

The first faulty line is printed, that of the rule file before that of another. Of good files the number
of rules and their order are printed, and with --name what the name leads to.";

pub const CHECK_RULES_AFTER_HELP: &str = "\
What is printed:
  ok N rows ORDER              the files are good: N rules, under the order ALLOW, DENY or DENY, ALLOW
  admitted REAL GROUP RIGHTS   the name is served as REAL, with the rights of GROUP (- for none):
                               none, read or write; with --access with those that --user has on --host,
                               and ` recorded` behind them where TRAPWRITE stands beside them
  refused                      the name is not served to the host
  line N: CAUSE                line N of the rule file is faulty, and nothing else is printed
  groups line N: CAUSE         line N of the group file is faulty, and nothing else is printed
  access line N: CAUSE         line N of the access security file is, and nothing else is printed

Lines of a rule file (# begins a comment):
  EVALUATION ORDER ALLOW, DENY          a DENY that names no host refuses every name that it matches
  EVALUATION ORDER DENY, ALLOW          such a DENY has no effect on names that another rule allows
  PATTERN ALLOW [GROUP [LEVEL]]         names that the pattern matches are served
  PATTERN ALIAS REAL [GROUP [LEVEL]]    they are served as REAL, where \\1 to \\9 are parts of the name
  PATTERN DENY                          they are refused
  PATTERN DENY FROM HOST ..             they are refused to these hosts
In a pattern \\( and \\) enclose a part of the name, and \\| stands between two choices; ( ) | stand for
themselves. With --plain-groups it is the other way round. The first rule that seems to be meant so is
noted on standard error:
  note: line N: ( ) | stand for themselves here; --plain-groups reads them as groups
and so is the first rule whose pattern is costly: thousands of such would fill the memory:
  note: line N: its pattern takes more than 1 MiB or 5 ms to make ready
A group file has lines GROUP NONE, GROUP READ and GROUP WRITE.

Definitions of an access security file, as EPICS has them (# outside quotes begins a comment):
  UAG(NAME) {USER, USER ..}      a group of users, by the names that clients say
  HAG(NAME) {HOST, HOST ..}      a group of hosts, compared without regard to case; serve --check-host alone looks them up
  ASG(GROUP) {RULE ..}           what is granted with the variables of GROUP
A RULE is RULE(LEVEL, RIGHT) or RULE(LEVEL, RIGHT, TRAPWRITE), and may have {WHO ..} behind it. RIGHT is NONE,
READ or WRITE. LEVEL is 0 or 1: with 0 it speaks only of variables whose LEVEL in the rule file is 0, and those that
have none there have 1. WHO is UAG(NAME, NAME ..) or HAG(NAME, NAME ..) of groups that are defined above: a rule speaks
to who is in one of each kind that it names. Of the rules that speak of both the greatest RIGHT holds. In a group that
isn't defined, and without one, the rules of the group DEFAULT hold; where there is no DEFAULT, nothing is granted.

Causes, of which the first that applies is printed:
  LineTooLong    the line has more than 1024 bytes, its comment counted
  BadOrder       it begins with EVALUATION ORDER, and neither order follows
  NoVerb         its second word is none of ALLOW, ALIAS and DENY; a pattern has no blanks
  TooManyLines   it is rule number 4097, or line number 4097 of the groups
  BadFrom        behind FROM there is no host, or one that is too long or isn't printable ASCII
  BadGroup       a group or level isn't valid, or words follow them; in a group file, the line isn't valid
  BadPattern     the pattern is no expression: an escaped letter or digit, or a bracket left open
  BadReference   an alias has no real name, or one with a \\ that refers to no part of the pattern
In an access security file:
  BadByte        a character outside quotes isn't one that words have
  Unclosed       quotes don't end in their line
  Unexpected     another sign or word must stand here
  Unfinished     the file ends inside a definition
  UnknownWord    a word is no keyword, or none that may stand here; they are in capitals
  Calculated     CALC or INPA to INPU: rules by values aren't served, and aren't passed over either
  Unserved       METHOD, AUTHORITY or PROTOCOL: the same
  BadName        a name isn't 1 to 127 printable ASCII characters without a blank
  BadLevel       a level is neither 0 nor 1
  BadRight       a right isn't NONE, READ or WRITE, or what follows it isn't TRAPWRITE or NOTRAPWRITE
  NoUsers        a rule names a group of users that isn't defined above it
  NoHosts        the same of hosts
  Twice          a group is defined again
  TooMany        it is group number 4097 of a kind, rule number 4097, or name number 65537
What the faulty line said is printed on standard error, bytes that aren't printable ASCII as \\xHH, and
200 characters at most:
  line N: says: TEXT, or groups line N: says: TEXT, or access line N: says: TEXT

Exit status: 0 for good files, 1 for a faulty line, 2 for bad arguments, 3 where a file can't be
read or standard output can't be written, 4 where memory runs out.

Examples:
  pvgate check-rules examples/site.pvlist --groups examples/site.groups --name BEAM:CURRENT
  pvgate check-rules examples/site.pvlist --access examples/site.access --name S01:MAG:Q1 --user anna --host desk1";

pub const SERVE_ABOUT: &str = "Serves clients with the variables of servers, over TCP and UDP";

pub const SERVE_LONG_ABOUT: &str = "\
Serves clients with the variables of servers, over TCP and UDP.

Clients find it at LISTEN. It connects to each UPSTREAM once, at the start; they are numbered from 1.
With --reconnect it connects again to those that can't be reached or are lost. With no rule file every
name is served. Once it listens it prints: listening ADDR";

pub const SERVE_AFTER_HELP: &str = "\
Lines of standard input:
  ask         the servers are asked for the names that clients look for
  sweep       the gateway forgets which names clients looked for; one that is still looked for needs
              two searches before the next sweep
  reload      the rule files are read again; a faulty line is printed, and changes nothing
  connect N   UPSTREAM number N is connected to again, where it is lost
  quit        the gateway ends, as at the end of input

What happens is told on standard error, one line each. With --log error it is want of memory alone, with
warn also what somebody may want to do something about, with info also what is as it should be, and with
debug also what may help to find a cause.

With --reconnect each UPSTREAM that isn't connected is tried again every so many seconds, as by
`connect N`, and names are asked for once it is connected, as by `ask`. That it can't be reached is told
once until then. With --sweep names are forgotten every so many seconds, as by `sweep`. SECONDS is a
whole number from 1 to 86400; neither is done without its option, and no time is kept to the second.

With --listen clients find it on ADDR too: they connect there, and searches are answered from there, each with its
port. A socket on one address hears no broadcasts; so where LISTEN is one, --listen says the broadcast address of
its net, with the same port. For each it prints: listening ADDR

With --ignore searches by UDP from these nets aren't heard. Two gateways that hear each other's searches would otherwise
ask each other for ever for a name that somebody looked for once and nobody has.

An UPSTREAM's host may be named, as ioc1.lab:5064. It is looked up each time that it is connected to, and that of
--search once a minute; with --search or --name-server both have to be known at the start.

With --back-off a name that no server has is asked for when it is first looked for, and then after gaps
that double up to 4.4 minutes, and each UPSTREAM gets at most 4 datagrams in 32 ms. Without it each
search has all names asked for that no server has, at most ten times a second.

With --search servers are found too that answer searches sent to ADDR, beside UPSTREAMs or in their place, and
connected to once one has a name that is missing: 1024 at most where --servers doesn't say another number.
With --from only answers from these nets count, and servers in them. --search turns on --back-off, and --alive 15
unless --alive says otherwise.

With --name-server the name server at ADDR is asked too, over TCP, and what it answers is taken as what answers a
search: so it finds servers without --search, and turns on what that turns on. Its host may be named, and is looked up
each time that it is connected to. One that isn't connected is tried again after 1 s, 2, 4 and so on up to 32; one that
says nothing for so many seconds as --alive says is asked whether it is there, and lost where it says nothing for as long
again. Each outage is told once.

A found server that has had no variable of anybody for so many seconds as --idle says, or 300, is left; it is
found again once one of its names is wanted.

With --hear-beacons the repeater at port 5065 of this host is asked to send beacons on, and where none answers
that port is taken. Where a beacon's server is new or began anew, names that a server had are asked for at once,
and others that are missing within 8.2 s.

With --beacons clients that hear of it at ADDR search sooner: at the start and once an UPSTREAM came back on
which names had been found, but at most once a minute, it sends beacons after gaps that double from 20 ms to 15 s.

With --alive an UPSTREAM that says nothing for so many seconds is asked whether it is there, and is lost
where it says nothing for 5 seconds more. A client is cut off where for four times the seconds nothing
came from it and nothing could be written to it. `connect N` then also connects again to an UPSTREAM that
was asked and said nothing yet. Without it nothing is watched. SECONDS is from 1 to 3600.

With --names so many searched names are remembered, by host and name, and a new one takes the place of an
old one: of the oldest of its host, where that has a sixteenth of them (256 at least), else of the oldest
of all. Without it 4096 are remembered, and then no new one. With --forget those that nobody looked for
since the last time are forgotten every so many seconds; so are reads and names for which an UPSTREAM owes
an answer for so long.

With --late a search for a name that isn't connected yet is answered once it is, within 5 seconds.

With --most-in-all, where more than so many MiB wait for all clients together, as few as will do are cut off,
first those for which most wait. What clients share is counted for each. Without it only --most-waiting
bounds what waits, for each client by itself.

--site is what a site wants together: --back-off, --late, --alive 15, --forget 300, --names 65536,
--servers 1024, --clients-of-host 256, --most-in-all 1024, and that a reload of an empty rule file is
refused. Each that has a value may be said otherwise beside it. It also has 262144 variables upstream at
most in place of 65536, 65536 channels and as many subscriptions of a client in place of 4096 and 8192,
8192 reads and as many writes of it that wait in place of 256, and updates held back while 256 KiB wait for
it. Requests on channels that are gone are passed over, and a subscription that may not read is told so.

With --status each who connects to ADDRESS is told of the gateway in one line of JSON, and is hung up on:
clients, upstreams, rows of each kind, edits of the rules, messages in and out, and the largest outbox.

With --access a client may do what the access security file grants its user on its host; `pvgate check-rules --help`
says what may stand there. User and host are what the client says before its first channel, so that stops mistakes and
not malice. With --check-host a client's host is the address that its connection comes from, as 10.0.0.5, whatever it
says. HAGs, and DENY FROM, then list addresses, or names, which are looked up at the start and at each reload: a client
counts as each host that has its address. A name that isn't found is logged, and keeps the addresses that it had; at the
start it has none, and nobody counts as it. --site doesn't turn this on.

With --clients-of-host one more client of a host that has N is refused at once: it is told on standard
error, and its connection is closed.

Exit status: 0 where it was told to end, 1 for a faulty line of the rule files, 2 for bad arguments, 3
where a file, LISTEN or a standard stream can't be opened, read or written, 4 where memory runs out.

Example:
  pvgate serve 127.0.0.1:5064 127.0.0.1:5070 --rules examples/site.pvlist --groups examples/site.groups";
