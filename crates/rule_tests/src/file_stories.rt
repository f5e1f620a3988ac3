//! Rule files and group files, good and faulty.
use crate::tell::tells;

#[test]
fn good_rule_files_are_read(rt: HostRuntime) {
    tells(
        &rt,
        rt.alloc(),
        r"# The example at the head of the crate, with its faulty line.
| T.* ALLOW
| S\(.\) ALIAS T\1 ops
read S9 DENY FROM lab7
> 3 rows, ALLOW, DENY
rows
> ^(?:T.*)$ allow -
> ^(?:S(.))$ alias T\1 ops
> ^(?:S9)$ deny lab7
groups-read ops READ
rights ops
> 1 1
read T1 PERMIT
> line 1: NoVerb
# A file with all that there is.
| # who may see what«0d»
| EVALUATION ORDER DENY, ALLOW
|
| .* allow«0d»
| T\(.\)x ALIAS S\1 ops 1
| evaluation order ,ALLOW DENY,
| S1 Deny FROM lab7,LAB8 # two
| S2 DENY ,
read S3 DENY«09»from, from
> 5 rows, ALLOW, DENY
shown
> closed, 5 rows, ALLOW, DENY, 0 edits
rows
> ^(?:.*)$ allow -
> ^(?:T(.)x)$ alias S\1 ops
> ^(?:S1)$ deny lab7 LAB8
> ^(?:S2)$ deny
> ^(?:S3)$ deny from
# Good lines.
read
> 0 rows, ALLOW, DENY
|
read
> 0 rows, ALLOW, DENY
| «0d»
| «20»«09»
read
> 0 rows, ALLOW, DENY
read # [
> 0 rows, ALLOW, DENY
read A ALLOW
> 1 rows, ALLOW, DENY
| A ALLOW
read
> 1 rows, ALLOW, DENY
| A ALLOW«0d»
read
> 1 rows, ALLOW, DENY
read A allow #«0d»
> 1 rows, ALLOW, DENY
read A«09»ALLOW g 0
> 1 rows, ALLOW, DENY
read A AlloW g 1
> 1 rows, ALLOW, DENY
read A ALIAS B
> 1 rows, ALLOW, DENY
read A ALIAS B g
> 1 rows, ALLOW, DENY
read A ALIAS B g 1
> 1 rows, ALLOW, DENY
read \(.\)\(.\) ALIAS \2\1\2
> 1 rows, ALLOW, DENY
read \(?:a\) ALIAS x\1
> 1 rows, ALLOW, DENY
read X DENY
> 1 rows, ALLOW, DENY
read X DENY ,
> 1 rows, ALLOW, DENY
read X DENY ,FROM lab7
> 1 rows, ALLOW, DENY
read X DENY a,,b c
> 1 rows, ALLOW, DENY
read X DENY FROM from
> 1 rows, ALLOW, DENY
read EVALUATION ORDER ALLOW, DENY
> 0 rows, ALLOW, DENY
read evaluation order ,deny,,allow,
> 0 rows, DENY, ALLOW
read [é«01»] ALLOW
> 1 rows, ALLOW, DENY
read a\<b ALLOW
> 1 rows, ALLOW, DENY
# Words stand between blanks, before a comment.
read «20» A.* ALLOW«09»g
> 1 rows, ALLOW, DENY
rows
> ^(?:A.*)$ allow g
read A«09» «09»ALLOW«20»
> 1 rows, ALLOW, DENY
rows
> ^(?:A)$ allow -
read A ALLOW#g
> 1 rows, ALLOW, DENY
rows
> ^(?:A)$ allow -
read A ALLOW # g
> 1 rows, ALLOW, DENY
rows
> ^(?:A)$ allow -
read [é]«09»ALIAS B#g
> 1 rows, ALLOW, DENY
rows
> ^(?:[é])$ alias B -
read «20»«09»«20»
> 0 rows, ALLOW, DENY
read # A ALLOW
> 0 rows, ALLOW, DENY
",
    );
}

#[test]
fn the_first_faulty_line_is_told(rt: HostRuntime) {
    tells(
        &rt,
        rt.alloc(),
        r"read EVALUATION ORDER
> line 1: BadOrder
read EVALUATION ORDER ALLOW
> line 1: BadOrder
read EVALUATION ORDER ALLOW ALLOW
> line 1: BadOrder
read EVALUATION ORDER DENY ALLOW DENY
> line 1: BadOrder
read EVALUATION ORDER, ALLOW DENY
> line 1: NoVerb
read EVALUATION,ORDER ALLOW,DENY
> line 1: NoVerb
read EVALUATION
> line 1: NoVerb
read [A
> line 1: NoVerb
read [a#b] ALLOW
> line 1: NoVerb
read X DENY,lab7
> line 1: NoVerb
read A ALLOW«0d»
> line 1: NoVerb
| A ALLOW«0d»
|
| B
read C
> line 3: NoVerb
read [A DENY FROM
> line 1: BadFrom
read X DENY FROM ,
> line 1: BadFrom
read X DENY lab7 é
> line 1: BadFrom
read X DENY é
> line 1: BadFrom
read X DENY lab7«0d»
> line 1: BadFrom
read [A ALLOW é
> line 1: BadGroup
read A ALLOW g 2
> line 1: BadGroup
read A ALLOW g 0 more
> line 1: BadGroup
read A ALIAS é g 00
> line 1: BadGroup
read [A ALIAS
> line 1: BadPattern
read \w ALLOW
> line 1: BadPattern
read A\ ALLOW
> line 1: BadPattern
read é DENY
> line 1: BadPattern
read \(A ALLOW
> line 1: BadPattern
read *A ALLOW
> line 1: BadPattern
read [b-a] ALLOW
> line 1: BadPattern
read A ALIAS
> line 1: BadReference
read A ALIAS [é«20»
> line 1: BadReference
read A ALIAS B\
> line 1: BadReference
read \(A\) ALIAS B\0
> line 1: BadReference
read \(A\) ALIAS B\2
> line 1: BadReference
read [\(] ALIAS B\1
> line 1: BadReference
read \\(A ALIAS B\1
> line 1: BadReference
",
    );
}

#[test]
fn rule_files_have_limits(rt: HostRuntime) {
    tells(
        &rt,
        rt.alloc(),
        r"# A line has at most 1024 bytes.
| A ALLOW «1015*#»x«0d»
read
> 1 rows, ALLOW, DENY
| A ALLOW «1015*#»xx«0d»
read
> line 1: LineTooLong
read A ALLOW «1015*#»x«0d»
> line 1: LineTooLong
| #«1022*#»x«0d»
read
> 0 rows, ALLOW, DENY
| #«1022*#»xx«0d»
read
> line 1: LineTooLong
read #«1022*#»x«0d»
> line 1: LineTooLong
# Patterns nest at most 248 deep.
read «248*\(»a«248*\)» DENY
> 1 rows, ALLOW, DENY
read «249*\(»a«249*\)» DENY
> line 1: BadPattern
# A file has at most 4096 rows.
|
| «4096*A DENY¶»EVALUATION ORDER DENY,ALLOW
read #
> 4096 rows, DENY, ALLOW
|
read «4096*A DENY¶»[ DENY FROM
> line 4098: TooManyLines
",
    );
}

#[test]
fn group_files_are_read(rt: HostRuntime) {
    tells(
        &rt,
        rt.alloc(),
        r"# Without a file no group has a line.
rights a
> none 3
# The last line of a group holds.
| a WRITE # all«0d»
|
| #
| b read
| a None
| c WRITE
groups-read
rights a
> 0 0
rights b
> 1 1
rights c
> 3 3
rights d
> none 3
rights A
> none 3
# Rights are bits.
bits
> 0 1 3
# Every bad line is told.
groups-read a
> line 1: BadGroup
| a READ
groups-read a MAYBE
> line 2: BadGroup
groups-read a READ more
> line 1: BadGroup
groups-read é READ
> line 1: BadGroup
groups-read a,READ
> line 1: BadGroup
groups-read a READ«0d»
> line 1: BadGroup
|
| «0d»
groups-read a READ,
> line 3: BadGroup
# A file has at most 4096 lines, of 1024 bytes each.
groups-read «4096*a READ¶#¶»
groups-read «4096*a READ¶#¶»é
> line 8193: TooManyLines
groups-read «4096*a READ¶#¶»é«1023*#»
> line 8193: LineTooLong
",
    );
}
