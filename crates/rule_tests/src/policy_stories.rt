//! Policies from the texts of files, and what the check writes of them.
use crate::tell::tells;

#[test]
fn texts_become_a_policy(rt: HostRuntime) {
    tells(
        &rt,
        rt.alloc(),
        r"# The example at the head of the crate.
| X.* DENY
| .* ALLOW ops
rules
| ops READ
groups
edit
lead desk1 X1, desk1 T1
> refused, T1 ops
rights ops
> 1 1
no-texts
| B GRANT
rules
edit
> line 1: NoVerb
shown
> closed, 2 rows, ALLOW, DENY, 1 edits
# Faults are told, those of the rule file first, and count as no edits.
| A ALLOW
| # x
| B GRANT
rules
edit
> line 3: NoVerb
rules B GRANT
groups ops MAYBE
edit
> line 1: NoVerb
rules A ALLOW
|
groups ops MAYBE
edit
> groups line 2: BadGroup
no-texts
| ops READ
groups ops
edit
> groups line 2: BadGroup
rules [A ALLOW
groups ops READ
edit
> line 1: BadPattern
no-texts
rules A ALIAS B\1
edit
> line 1: BadReference
shown
> open, 0 rows, ALLOW, DENY, 0 edits
# No text leaves all open.
shown
> open, 0 rows, ALLOW, DENY, 0 edits
rights ops
> none 3
rules .* ALLOW ops
groups ops NONE
edit
shown
> closed, 1 rows, ALLOW, DENY, 1 edits
rights ops
> 0 0
no-texts
rules
edit
shown
> closed, 0 rows, ALLOW, DENY, 2 edits
rights ops
> none 3
no-texts
groups ops READ
edit
shown
> open, 0 rows, ALLOW, DENY, 3 edits
rights ops
> 1 1
no-texts
edit
shown
> open, 0 rows, ALLOW, DENY, 4 edits
rights ops
> none 3
",
    );
}

#[test]
fn names_are_answered(rt: HostRuntime) {
    tells(
        &rt,
        rt.alloc(),
        r"# The example at the head of the crate.
| \(.*\):SET ALIAS \1:SP ops
| .*:SET DENY FROM lab7
| X.* DENY
rules
| ops READ
groups
check desk1 A:SET
> ok 3 rows ALLOW, DENY
> admitted A:SP ops read
> status 0
# Names are answered.
| \(.*\):SET ALIAS \1:SP ops
| .*:SET DENY FROM lab7
| X.* DENY
rules
check desk1 A:SET
> ok 3 rows ALLOW, DENY
> admitted A:SP ops write
> status 0
check LAB7 A:SET
> ok 3 rows ALLOW, DENY
> refused
> status 0
check desk1 X1:SET
> ok 3 rows ALLOW, DENY
> refused
> status 0
groups ops READ
check desk1 A:SET
> ok 3 rows ALLOW, DENY
> admitted A:SP ops read
> status 0
check desk1 X1:SET
> ok 3 rows ALLOW, DENY
> refused
> status 0
groups ops NONE
check desk1 A:SET
> ok 3 rows ALLOW, DENY
> admitted A:SP ops none
> status 0
groups Ops NONE
check desk1 A:SET
> ok 3 rows ALLOW, DENY
> admitted A:SP ops write
> status 0
no-texts
| evaluation order deny,allow
rules T1 ALLOW # no group
check h T1
> ok 1 rows DENY, ALLOW
> admitted T1 - write
> status 0
# Good files are ok.
| \(.*\):SET ALIAS \1:SP ops
| .*:SET DENY FROM lab7
| X.* DENY
rules
check
> ok 3 rows ALLOW, DENY
> status 0
groups ops READ
check
> ok 3 rows ALLOW, DENY
> status 0
no-texts
rules
check
> ok 0 rows ALLOW, DENY
> status 0
check h T1
> ok 0 rows ALLOW, DENY
> refused
> status 0
| «0d»
| # A GRANT
rules
groups
check
> ok 0 rows ALLOW, DENY
> status 0
",
    );
}

#[test]
fn faults_are_told(rt: HostRuntime) {
    tells(
        &rt,
        rt.alloc(),
        r"# The first faulty line is told, whether something is asked or not.
no-texts
rules [A ALLOW
check
> line 1: BadPattern
> status 1
check h A
> line 1: BadPattern
> status 1
no-texts
| A ALLOW
| # x
| B GRANT
| [A ALLOW
rules
check
> line 3: NoVerb
> status 1
check h A
> line 3: NoVerb
> status 1
no-texts
rules EVALUATION ORDER DENY
check
> line 1: BadOrder
> status 1
check h A
> line 1: BadOrder
> status 1
no-texts
rules A DENY FROM
check
> line 1: BadFrom
> status 1
check h A
> line 1: BadFrom
> status 1
no-texts
rules A ALLOW ops 2
check
> line 1: BadGroup
> status 1
check h A
> line 1: BadGroup
> status 1
no-texts
rules A ALIAS B\1
check
> line 1: BadReference
> status 1
check h A
> line 1: BadReference
> status 1
no-texts
rules A ALLOW
groups ops MAYBE
check
> groups line 1: BadGroup
> status 1
check h A
> groups line 1: BadGroup
> status 1
no-texts
rules A ALLOW
|
| # x
| ops READ
groups ops
check
> groups line 4: BadGroup
> status 1
check h A
> groups line 4: BadGroup
> status 1
# The rule file comes first.
no-texts
|
rules B GRANT
groups ops MAYBE
check
> line 2: NoVerb
> status 1
check h A
> line 2: NoVerb
> status 1
# Long lines are refused.
rules «1024*#»
check
> ok 0 rows ALLOW, DENY
> status 0
rules «1025*#»
check
> line 1: LineTooLong
> status 1
rules
groups «1025*#»
check
> groups line 1: LineTooLong
> status 1
# A writer that fails is told, wherever it fails, also as it is flushed.
| \(.*\):SET ALIAS \1:SP ops
| .*:SET DENY FROM lab7
| X.* DENY
rules
rooms 0 47 desk1 A:SET
> «47*3»0
rules
groups ops
rooms 0 25
> «25*3»1
",
    );
}
