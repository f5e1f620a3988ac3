//! The rule file, the group file and the access security file of a site. They are those of the folder `examples`.
use crate::tell::tells;

#[test]
fn a_site_is_answered(rt: HostRuntime) {
    tells(
        &rt,
        rt.alloc(),
        r"| # Which process variables the gateway serves, to whom and by which names.
| #
| # To see what a client is answered that asks from the host desk1:
| #   pvgate check-rules site.pvlist --groups site.groups --name S01:MAG:Q1:SET --host desk1
| #
| # A rule is a line: a pattern, which must match the whole name, then ALLOW, ALIAS or DENY. In a
| # pattern .* is any text, [12] one of the characters, \( and \) enclose a part, and \| stands
| # between two choices. What may be done with the variables of a group is said in site.groups.
|
| # A name that a DENY rule without hosts matches is refused, whatever else matches it. With the
| # order DENY, ALLOW such a rule would have no effect on names that another rule allows.
| EVALUATION ORDER ALLOW, DENY
|
| # Of the ALLOW and ALIAS rules that match a name the last one decides. So this one, which matches
| # every name, stands first.
| .*                        ALLOW everyone
|
| # The control room sets magnets and opens valves.
| S0[12]:MAG:.*             ALLOW operators
| S0[12]:VAC:.*:OPEN        ALLOW vacuum
|
| # Pictures are served, but may be neither read nor written through this gateway. The logbook has
| # no line in site.groups, so its variables may be read and written.
| .*:CAM:.*                 ALLOW cameras
| LOG:.*                    ALLOW logbook
|
| # Displays of the year before last use these names. \1 is what the first \( \) took.
| \(.*\):SET                ALIAS \1:SP operators
| \(S0[12]\):\(H\|V\)POS    ALIAS \1:BPM:\2:POS everyone 1
| BEAM:CURRENT              ALIAS S01:DCCT:CURRENT everyone
|
| # Nobody outside sees the interlocks.
| .*:ILK:.*                 DENY
|
| # The hosts of the teaching laboratory may not move what the beam depends on.
| S01:MAG:.*                DENY FROM lab7, lab8
| .*:SET                    DENY FROM lab7 lab8 guest
rules
| # What may be done with the variables of a group of site.pvlist: NONE, READ or WRITE, where who
| # writes may read too. Of two lines for a group the last holds.
| everyone   READ
| cameras    NONE
| operators  WRITE
| vacuum     WRITE
groups
check desk1 S01:DCCT:CURRENT
> ok 11 rows ALLOW, DENY
> admitted S01:DCCT:CURRENT everyone read
> status 0
check desk1 BEAM:CURRENT
> ok 11 rows ALLOW, DENY
> admitted S01:DCCT:CURRENT everyone read
> status 0
check desk1 S01:MAG:Q1
> ok 11 rows ALLOW, DENY
> admitted S01:MAG:Q1 operators write
> status 0
check LAB7 S01:MAG:Q1
> ok 11 rows ALLOW, DENY
> refused
> status 0
check lab7 S02:MAG:Q1
> ok 11 rows ALLOW, DENY
> admitted S02:MAG:Q1 operators write
> status 0
check desk1 S02:MAG:Q1:SET
> ok 11 rows ALLOW, DENY
> admitted S02:MAG:Q1:SP operators write
> status 0
check guest S02:MAG:Q1:SET
> ok 11 rows ALLOW, DENY
> refused
> status 0
check desk1 S02:HPOS
> ok 11 rows ALLOW, DENY
> admitted S02:BPM:H:POS everyone read
> status 0
check desk1 S03:HPOS
> ok 11 rows ALLOW, DENY
> admitted S03:HPOS everyone read
> status 0
check desk1 S01:VAC:V3:OPEN
> ok 11 rows ALLOW, DENY
> admitted S01:VAC:V3:OPEN vacuum write
> status 0
check desk1 S01:CAM:3
> ok 11 rows ALLOW, DENY
> admitted S01:CAM:3 cameras none
> status 0
check desk1 LOG:LAST
> ok 11 rows ALLOW, DENY
> admitted LOG:LAST logbook write
> status 0
check desk1 S01:ILK:DOOR
> ok 11 rows ALLOW, DENY
> refused
> status 0
| # Who may do what with the variables of a group of site.pvlist, in the place of site.groups.
| #
| # To see what a client is answered whose user is anna, on the host desk1:
| #   pvgate check-rules site.pvlist --access site.access --name S01:MAG:Q1:SET --user anna --host desk1
| #
| # A user and a host are what a client says, so this stops mistakes and not malice.
|
| UAG(ops) {anna, ben}
| UAG(vacuum) {vera}
| HAG(control_room) {desk1, desk2}
|
| # What holds for variables without a group, and for groups that are not defined below: everyone.
| ASG(DEFAULT) {
|     RULE(1, READ)
| }
|
| # The operators set magnets, from the control room only. By TRAPWRITE it is to be recorded.
| ASG(operators) {
|     RULE(1, READ)
|     RULE(1, WRITE, TRAPWRITE) {
|         UAG(ops)
|         HAG(control_room)
|     }
| }
|
| # Valves are opened by them, too, and from anywhere by who looks after the vacuum.
| ASG(vacuum) {
|     RULE(1, READ)
|     RULE(1, WRITE, TRAPWRITE) {UAG(ops) HAG(control_room)}
|     RULE(1, WRITE) {UAG(vacuum)}
| }
|
| # Everybody writes into the logbook, and nobody sees pictures.
| ASG(logbook) {RULE(1, WRITE)}
| ASG(cameras)
access-file
check desk1 S01:DCCT:CURRENT anna
> ok 11 rows ALLOW, DENY
> admitted S01:DCCT:CURRENT everyone read
> status 0
check desk1 S01:MAG:Q1 anna
> ok 11 rows ALLOW, DENY
> admitted S01:MAG:Q1 operators write recorded
> status 0
check DESK2 S01:MAG:Q1 ben
> ok 11 rows ALLOW, DENY
> admitted S01:MAG:Q1 operators write recorded
> status 0
check desk1 S01:MAG:Q1 Anna
> ok 11 rows ALLOW, DENY
> admitted S01:MAG:Q1 operators read
> status 0
check desk7 S01:MAG:Q1 anna
> ok 11 rows ALLOW, DENY
> admitted S01:MAG:Q1 operators read
> status 0
check desk1 S01:MAG:Q1
> ok 11 rows ALLOW, DENY
> admitted S01:MAG:Q1 operators read
> status 0
check lab7 S01:MAG:Q1 anna
> ok 11 rows ALLOW, DENY
> refused
> status 0
check desk1 S02:MAG:Q1:SET ben
> ok 11 rows ALLOW, DENY
> admitted S02:MAG:Q1:SP operators write recorded
> status 0
check desk7 S01:VAC:V3:OPEN vera
> ok 11 rows ALLOW, DENY
> admitted S01:VAC:V3:OPEN vacuum write
> status 0
check desk2 S01:VAC:V3:OPEN anna
> ok 11 rows ALLOW, DENY
> admitted S01:VAC:V3:OPEN vacuum write recorded
> status 0
check desk7 S01:CAM:3 vera
> ok 11 rows ALLOW, DENY
> admitted S01:CAM:3 cameras none
> status 0
check desk7 LOG:LAST
> ok 11 rows ALLOW, DENY
> admitted LOG:LAST logbook write
> status 0
check desk1 S01:ILK:DOOR anna
> ok 11 rows ALLOW, DENY
> refused
> status 0
",
    );
}
