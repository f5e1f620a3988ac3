//! Edits of the policy.
use crate::stories::tell::tells;
use std::alloc::Global;
use std::io::Write;
use std::process::Abort;
use std::test::Fail;

// Rights that don't change are not told again.
#[test]
fn tells_of_rights_that_an_edit_takes(rt: HostRuntime) -> Result<(), Fail> {
    tells(
        &rt,
        rt.alloc(),
        b"@served
edit 1 0
.* ALLOW ops 1
rights s1 1
> rights 3
edit 1 1
.* ALLOW ops 1
ops READ
> s1 00160000000000000000000700000001
rights s1 1
> rights 1
edit 1 1
.* ALLOW ops 1
ops READ
edit 0 0
> s1 00160000000000000000000700000003
",
    )
}

// What a name was found to lead to holds as long as the rules do: a server's other rights are told by the
// rules that hold then.
#[test]
fn limits_what_servers_say_later(rt: HostRuntime) -> Result<(), Fail> {
    tells(
        &rt,
        rt.alloc(),
        b"@served
edit 1 1
.* ALLOW ops 1
ops READ
> s1 00160000000000000000000700000001
server u1 00160000000000000000000100000000
> s1 00160000000000000000000700000000
server u1 00160000000000000000000100000003
> s1 00160000000000000000000700000001
edit 0 0
> s1 00160000000000000000000700000003
server u1 00160000000000000000000100000001
> s1 00160000000000000000000700000001
server u1 00160000000000000000000100000003
> s1 00160000000000000000000700000003
",
    )
}

// A name that is denied, and one that leads elsewhere: the client is disconnected, and the link goes.
#[test]
fn takes_channels_away(rt: HostRuntime) -> Result<(), Fail> {
    tells(
        &rt,
        rt.alloc(),
        b"@served
edit 2 0
.* ALLOW
T1 DENY
> s1 001b0000000000000000000700000000
> u1 000c0000000000000000006500000001
rights s1 1
> rights -
asks
> asks
",
    )?;
    tells(
        &rt,
        rt.alloc(),
        b"@served
edit 1 0
T1 ALIAS T2
> s1 001b0000000000000000000700000000
> u1 000c0000000000000000006500000001
asks
> asks T2
",
    )
}

// A:SET leads to A:SP, but for LAB7; X1:SET is refused, and leads to X1:SP once DENY comes before
// ALLOW. A name that leads nowhere is not remembered.
#[test]
fn leads_names_by_the_rules_of_an_edit(rt: HostRuntime) -> Result<(), Fail> {
    tells(
        &rt,
        rt.alloc(),
        b"@connected
edit 3 0
\\(.*\\):SET ALIAS \\1:SP ops
.*:SET DENY FROM lab7
X.* DENY
search LAB7 000600080005000d0000001100000011413a534554000000
> reply -
asks
> asks
search desk1 000600080005000d0000001100000011413a534554000000
> reply -
search desk1 000600080005000d000000120000001258313a5345540000
> reply -
asks
> asks A:SP
edit 4 0
EVALUATION ORDER DENY, ALLOW
\\(.*\\):SET ALIAS \\1:SP ops
.*:SET DENY FROM lab7
X.* DENY
search lab7 000600080005000d000000120000001258313a5345540000
> reply -
asks
> asks A:SP
search desk1 000600080005000d000000120000001258313a5345540000
> reply -
asks
> asks A:SP X1:SP
edit 3 0
\\(.*\\):SET ALIAS \\1:SP ops
.*:SET DENY lab7
X.* DENY
search LAB7 000600080005000d0000001100000011413a534554000000
> reply -
asks
> asks A:SP
",
    )
}

// The host that a client says counts from then on; what was looked for before is kept with the host
// that it came from.
#[test]
fn denies_to_the_host_that_a_client_says(rt: HostRuntime) -> Result<(), Fail> {
    tells(
        &rt,
        rt.alloc(),
        b"open s1 10.0.0.5
> s1 000000000000000d0000000000000000
edit 2 0
.* ALLOW
T1 DENY FROM lab7
client s1 001500080000000000000000000000006c61623700000000
client s1 0012000800000000000000070000000d5431000000000000
> s1 001a0000000000000000000700000000
asks
> asks
open s2 10.0.0.6
> s2 000000000000000d0000000000000000
client s2 0012000800000000000000070000000d5431000000000000
> s2 001a0000000000000000000700000000
client s2 001500080000000000000000000000006c61623700000000
asks
> asks T1
",
    )
}

// The name T1 loses the right to read, and Q, which leads to the same variable, keeps it. Its client
// is updated on; the other is given the latest value once it may read again.
#[test]
fn withholds_updates_until_the_right_is_back(rt: HostRuntime) -> Result<(), Fail> {
    tells(
        &rt,
        rt.alloc(),
        b"@served
edit 2 0
.* ALLOW ops
Q ALIAS T1 eng
open s2 10.0.0.6
> s2 000000000000000d0000000000000000
client s2 0012000800000000000000080000000d5100000000000000
> s2 00160000000000000000000800000003
> s2 00120000000500010000000800000002
client s1 0001001000050001000000010000003100000000000000000000000000010000
> u1 0001001000130000000000650000000100000000000000000000000000050000
client s2 0001001000050001000000020000003200000000000000000000000000010000
server u1 00010010001300010000000100000001000000003b9aca00000000000000002a
> s1 000100080005000100000001000000310000002a00000000
> s2 000100080005000100000001000000320000002a00000000
edit 2 1
.* ALLOW ops
Q ALIAS T1 eng
ops NONE
> s1 00160000000000000000000700000000
server u1 00010010001300010000000100000001000000003b9aca00000000000000002b
> s2 000100080005000100000001000000320000002b00000000
edit 2 0
.* ALLOW ops
Q ALIAS T1 eng
> s1 00160000000000000000000700000003
> s1 000100080005000100000001000000310000002b00000000
",
    )
}

// The right of the only reader goes: its read fails, and nothing is subscribed to any more.
#[test]
fn fails_reads_that_wait_without_the_right(rt: HostRuntime) -> Result<(), Fail> {
    tells(
        &rt,
        rt.alloc(),
        b"@served
client s1 000f0000000500010000000100000021
> u1 0001001000130000000000650000000100000000000000000000000000050000
edit 1 1
.* ALLOW ops
ops NONE
> s1 00160000000000000000000700000000
> s1 000f0000000500010000017000000021
> u1 00020000001300000000006500000001
client s1 000f0000000500010000000100000022
> s1 000f0000000500010000017000000022
sub T1
> sub -
",
    )
}

// An empty rule file admits nothing, and no rule file admits all.
#[test]
fn resolves_remembered_names_anew(rt: HostRuntime) -> Result<(), Fail> {
    tells(
        &rt,
        rt.alloc(),
        b"@wanted
asks
> asks T1
edit 2 0
.* ALLOW
T1 DENY
asks
> asks
edit 0 1
ops NONE
asks
> asks T1
edit 1 0

asks
> asks
edit 0 0
asks
> asks T1
",
    )
}

// A line of a file is no line of the script, whatever it says. A refused edit leaves the policy, and
// the rule file's first fault is told before the group file's.
#[test]
fn refuses_faulty_files(rt: HostRuntime) -> Result<(), Fail> {
    tells(
        &rt,
        rt.alloc(),
        b"@served
edit 3 0
A ALLOW
# x
B GRANT
> refused line 3: NoVerb
edit 4 1
# T1 is denied

T1 DENY
lost s1
lost s1
> refused line 4: NoVerb
edit 1 3
T1 DENY
ops READ

ops MAYBE
> refused groups line 3: BadGroup
edit 1 1
T1 GRANT
ops MAYBE
> refused line 1: NoVerb
edit 0 1
edit 0 0
> refused groups line 1: BadGroup
edit 2 0
> refused line 2: BadOrder
.* ALLOW ops\r
EVALUATION ORDER BOTH\r
rights s1 1
> rights 3
edit 1 1
> s1 00160000000000000000000700000001
.* ALLOW ops\r
ops READ\r
",
    )
}

// A file's last line may end with the script.
#[test]
fn takes_a_last_line_without_its_end(rt: HostRuntime) -> Result<(), Fail> {
    tells(
        &rt,
        rt.alloc(),
        b"edit 0 2
> refused groups line 2: BadGroup
ops READ
ops MAYBE",
    )
}

/// Asserts that a script ends at this bad line, and prints nothing before it.
fn ends_at(rt: &impl Abort, alloc: Global, number: usize, script: &[u8]) -> Result<(), Fail> {
    let mut story = Vec::new(alloc);
    writeln!(story, "! status 2\n> line {number}: bad")?;
    story.extend_from_slice(script)?;
    tells(rt, alloc, &story)
}

// The edit's own line is bad where lines of its files are missing or are no text.
#[test]
fn ends_at_an_edit_whose_files_are_not_there(rt: HostRuntime) -> Result<(), Fail> {
    let scripts: [&[u8]; 14] = [
        b"edit 1 0",
        b"edit 0 1\n",
        b"edit 2 0\n.* ALLOW\n",
        b"edit 1 2\n.* ALLOW\nops READ\n",
        b"edit 18446744073709551615 0\n.* ALLOW\n",
        b"edit 18446744073709551615 18446744073709551615\n.* ALLOW\nlost\n",
        b"edit 1 0\n\xff ALLOW\n",
        b"edit 1 1\n.* ALLOW\n\xc3\nlost\n",
        b"edit 1 1\n\xc3\n\xa4 READ\n",
        b"edit 0 0 1",
        b"edit 1 1 1\n.* ALLOW\nops READ\n",
        b"edit 0 1 18446744073709551615\nops READ\nASG(ops)\n",
        b"edit 0 0 1\n# \xff\n",
        b"edit 1 0 1\n\xc3\n\xa4\n",
    ];
    for script in scripts {
        ends_at(&rt, rt.alloc(), 1, script)?;
    }
    ends_at(&rt, rt.alloc(), 3, b"#\n\nedit 1 0\n")
}

// Lines of files have numbers, as all lines.
#[test]
fn counts_the_lines_of_files(rt: HostRuntime) -> Result<(), Fail> {
    ends_at(
        &rt,
        rt.alloc(),
        5,
        b"edit 1 1\nlost ALLOW\nlost READ\nsweep\nlost\n",
    )?;
    ends_at(
        &rt,
        rt.alloc(),
        4,
        b"edit 0 0\nedit 0 1\nops READ\nops READ\n",
    )?;
    ends_at(
        &rt,
        rt.alloc(),
        6,
        b"edit 1 1 2\nlost ALLOW\nlost READ\nASG(lost)\nASG(s1)\nlost\n",
    )?;
    ends_at(&rt, rt.alloc(), 3, b"edit 0 0 1\nASG(lost)\nlost s\n")?;
    ends_at(&rt, rt.alloc(), 3, b"edit 1 0\n# edit 1 0\nedit 1 0\n")
}
