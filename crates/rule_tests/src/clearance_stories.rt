//! Policies that say who may do what.
use crate::tell::tells;

#[test]
fn users_and_hosts_have_rights(rt: HostRuntime) {
    tells(
        &rt,
        rt.alloc(),
        r#"# Without an access security file levels count for nothing, and groups have the rights of their lines.
| .* ALLOW
| \(.*\):SET ALIAS \1:SP magnets 0
rules
groups magnets READ
check office A:SET anna
> ok 2 rows ALLOW, DENY
> admitted A:SP magnets read
> status 0
# With one it decides, whatever the group file says. A row without a group is in DEFAULT, at the level 1.
| .* ALLOW
| \(.*\):SET ALIAS \1:SP magnets 0
| \(.*\):RB ALIAS \1 magnets
| .*:LOG ALLOW vacuum
rules
groups magnets NONE
| UAG(ops) {anna,ben} HAG(room) { desk1, "DESK2" } # the control room
| ASG(DEFAULT) { RULE(1,READ) RULE(1,WRITE,TRAPWRITE){UAG(ops) HAG(room)} }
| ASG(magnets) { RULE(0,READ) RULE(0,WRITE){UAG(ops)} RULE(1,WRITE,TRAPWRITE){HAG(room)} }
access-file
check office A:SET anna
> ok 4 rows ALLOW, DENY
> admitted A:SP magnets write
> status 0
check office A:SET carl
> ok 4 rows ALLOW, DENY
> admitted A:SP magnets read
> status 0
check office A:RB anna
> ok 4 rows ALLOW, DENY
> admitted A magnets none
> status 0
check Desk2 A:RB
> ok 4 rows ALLOW, DENY
> admitted A magnets write recorded
> status 0
check desk1 A:LOG anna
> ok 4 rows ALLOW, DENY
> admitted A:LOG vacuum write recorded
> status 0
check desk1 A Anna
> ok 4 rows ALLOW, DENY
> admitted A - read
> status 0
check desk1 A anna
> ok 4 rows ALLOW, DENY
> admitted A - write recorded
> status 0
check desk1 A
> ok 4 rows ALLOW, DENY
> admitted A - read
> status 0
edit
shown
> closed, 4 rows, ALLOW, DENY, 1 edits
"#,
    );
}

#[test]
fn an_access_file_alone_admits_all_names(rt: HostRuntime) {
    tells(
        &rt,
        rt.alloc(),
        r#"# Without a rule file each name leads to itself, without a group.
access-file ASG(DEFAULT) { RULE(1,READ) }
edit
shown
> open, 0 rows, ALLOW, DENY, 1 edits
# A file without DEFAULT gives nothing.
rules .* ALLOW
access-file ASG(a) { RULE(1,WRITE) }
check desk1 A anna
> ok 1 rows ALLOW, DENY
> admitted A - none
> status 0
access-file
check desk1 A anna
> ok 1 rows ALLOW, DENY
> admitted A - none
> status 0
"#,
    );
}

#[test]
fn faults_are_told_in_the_order_of_files(rt: HostRuntime) {
    tells(
        &rt,
        rt.alloc(),
        r#"# The first fault is told, of the rule file, then of the group file, then of the access security file.
| A ALLOW
| B GRANT
rules
groups ops MAYBE
| ASG(a) {
| INPA(x)
| RULE(1,READ) {CALC("A=1")}}
access-file
edit
> line 2: NoVerb
said
> line 2: says: B GRANT
check desk1 A
> line 2: NoVerb
> status 1
rules A ALLOW
edit
> groups line 1: BadGroup
said
> groups line 1: says: ops MAYBE
groups ops READ
edit
> access line 2: Calculated
said
> access line 2: says: INPA(x)
check desk1 A anna
> access line 2: Calculated
> status 1
shown
> open, 0 rows, ALLOW, DENY, 0 edits
access-file UAG(ops) {anna}
edit
said
> -
shown
> closed, 1 rows, ALLOW, DENY, 1 edits
rooms 0 4 desk1 A
> 33333
"#,
    );
}
