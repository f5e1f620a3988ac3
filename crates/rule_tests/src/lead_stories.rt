//! Where names lead, and the rights of groups.
use crate::tell::tells;

#[test]
fn names_lead_somewhere_or_nowhere(rt: HostRuntime) {
    tells(
        &rt,
        rt.alloc(),
        r"# The example at the head of the crate.
| \(.*\):SET ALIAS \1:SP ops
read
> 1 rows, ALLOW, DENY
| ops READ
groups-read
lead desk1 A:SET
> A:SP ops
rights ops
> 1 1
# Hosts are denied names.
| \(.*\):SET ALIAS \1:SP ops
| .*:SET DENY FROM lab7
read X.* DENY
> 3 rows, ALLOW, DENY
lead desk1 A:SET, LAB7 A:SET, lab77 A:SET, desk1 X1:SET, lab7 X1:SET, desk1 X1, desk1 T1, desk1 A:SETS
> A:SP ops, refused, A:SP ops, refused, refused, refused, refused, refused
| \(.*\):SET ALIAS \1:SP ops
| .*:SET DENY FROM lab7
| X.* DENY
read EVALUATION ORDER DENY, ALLOW
> 3 rows, DENY, ALLOW
lead desk1 A:SET, LAB7 A:SET, lab77 A:SET, desk1 X1:SET, lab7 X1:SET, desk1 X1, desk1 T1, desk1 A:SETS
> A:SP ops, refused, A:SP ops, X1:SP ops, refused, refused, refused, refused
| \(.*\):SET ALIAS \1:SP ops
| .*:SET DENY lab7
read X.* DENY
> 3 rows, ALLOW, DENY
lead desk1 A:SET, LAB7 A:SET, lab77 A:SET, desk1 X1:SET, lab7 X1:SET, desk1 X1, desk1 T1, desk1 A:SETS
> A:SP ops, refused, A:SP ops, refused, refused, refused, refused, refused
| \(.*\):SET ALIAS \1:SP ops
| .*:SET DENY lab7
| X.* DENY
read EVALUATION ORDER DENY, ALLOW
> 3 rows, DENY, ALLOW
lead desk1 A:SET, LAB7 A:SET, lab77 A:SET, desk1 X1:SET, lab7 X1:SET, desk1 X1, desk1 T1, desk1 A:SETS
> A:SP ops, refused, A:SP ops, X1:SP ops, refused, refused, refused, refused
| \(.*\):SET ALIAS \1:SP ops
| .*:SET DENY other, lab7 third
read X.* DENY
> 3 rows, ALLOW, DENY
lead desk1 A:SET, LAB7 A:SET, lab77 A:SET, desk1 X1:SET, lab7 X1:SET, desk1 X1, desk1 T1, desk1 A:SETS
> A:SP ops, refused, A:SP ops, refused, refused, refused, refused, refused
| \(.*\):SET ALIAS \1:SP ops
| .*:SET DENY other, lab7 third
| X.* DENY
read EVALUATION ORDER DENY, ALLOW
> 3 rows, DENY, ALLOW
lead desk1 A:SET, LAB7 A:SET, lab77 A:SET, desk1 X1:SET, lab7 X1:SET, desk1 X1, desk1 T1, desk1 A:SETS
> A:SP ops, refused, A:SP ops, X1:SP ops, refused, refused, refused, refused
# The last row decides.
lead desk1 T1
> T1 -
read
> 0 rows, ALLOW, DENY
lead desk1 T1
> refused
| .* ALLOW one
read T.* ALLOW two
> 2 rows, ALLOW, DENY
lead desk1 T1, desk1 U1
> T1 two, U1 one
| T1 ALIAS T2
read .* ALLOW
> 2 rows, ALLOW, DENY
lead desk1 T1
> T1 -
| .* ALLOW
read T1 ALIAS T2
> 2 rows, ALLOW, DENY
lead desk1 T1
> T2 -
| T1 ALIAS T2
read T2 DENY
> 2 rows, ALLOW, DENY
lead desk1 T1
> T2 -
read T1 ALLOW
> 1 rows, ALLOW, DENY
lead desk1 T1B, desk1 AT1
> refused, refused
read A\|B ALLOW
> 1 rows, ALLOW, DENY
lead desk1 A, desk1 AB
> A -, refused
",
    );
}

#[test]
fn references_are_replaced(rt: HostRuntime) {
    tells(
        &rt,
        rt.alloc(),
        r"# Ten groups: `\10` is the first and a nought.
read \(A\)\(B\)\(C\)\(D\)\(E\)\(F\)\(G\)\(H\)\(I\)\(J\) ALIAS \9\1\10
> 1 rows, ALLOW, DENY
lead desk1 ABCDEFGHIJ
> IAA0 -
# A group in a group.
read \(a\(b\)c\)d ALIAS \2\1 g
> 1 rows, ALLOW, DENY
lead desk1 abcd
> babc g
# Groups that took no part, one that the text doesn't number, and one in a repetition.
read A\(B\)\|\(C\) ALIAS x\1y\2z
> 1 rows, ALLOW, DENY
lead desk1 C
> xyCz -
read \(?:x\)\(.*\) ALIAS \1-\2
> 1 rows, ALLOW, DENY
lead desk1 xyz
> yz- -
read \(A?\)* ALIAS x\1
> 1 rows, ALLOW, DENY
lead desk1 A
> xA -
# What is no name leads nowhere, whatever the rows before it.
| .* ALLOW
read \(Q\)*.* ALIAS \1
> 2 rows, ALLOW, DENY
lead desk1 T1
> refused
read .* ALIAS 12
> 1 rows, ALLOW, DENY
lead desk1 T1
> 12 -
# 254 bytes are a name, and 256 are none.
read \(.*\) ALIAS \1\1
> 1 rows, ALLOW, DENY
lead desk1 «127*x»
> «254*x» -
lead desk1 «128*x»
> refused
",
    );
}

#[test]
fn groups_have_rights(rt: HostRuntime) {
    tells(
        &rt,
        rt.alloc(),
        r"# Without a line of a group, and without a group, all may be done.
rights ops
> none 3
rights -
> 3
# The last line of a group holds.
| ops NONE
| adm WRITE
| ops READ
| lab WRITE
| lab NONE
groups-read
rights ops
> 1 1
rights adm
> 3 3
rights lab
> 0 0
rights Ops
> none 3
rights -
> 3
",
    );
}

#[test]
fn names_are_led_in_turn(rt: HostRuntime) {
    tells(
        &rt,
        rt.alloc(),
        r"# An alias leads to names of 1 to 255 bytes, whatever was asked of it before.
read \(.*\) ALIAS \1\1x
> 1 rows, ALLOW, DENY
lead desk1 «127*x», desk1 «128*x», desk1 «127*y», desk1 «255*x», desk1 x
> «255*x» -, refused, «254*y»x -, refused, xxx -
read \(A*\)B ALIAS \1 ops
> 1 rows, ALLOW, DENY
lead desk1 B, desk1 AB, desk1 B, desk1 AAB, desk1 A
> refused, A ops, refused, AA ops, refused
# A row that is reached again answers anew.
| A.* ALLOW one
| A\(.\)\(.\) ALIAS \2\1 two
read A.*Z DENY FROM lab7
> 3 rows, ALLOW, DENY
lead lab7 AXZ, lab7 AZX, desk1 AXZ, lab7 AZ, lab7 AXYZ, lab7 AXYY, desk1 AXYZ, desk1 BXZ
> refused, XZ two, ZX two, refused, refused, AXYY one, AXYZ one, refused
# Without rules each name leads to itself.
lead desk1 A, lab7 «255*x», desk1 A
> A -, «255*x» -, A -
",
    );
}
