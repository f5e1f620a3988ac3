//! What stands where it may not in access security files, what is defined twice or too often, and who is granted what.
use crate::tell::tells;

#[test]
fn what_stands_where_it_may_not_is_refused(rt: HostRuntime) {
    tells(
        &rt,
        rt.alloc(),
        r#"# Outside definitions.
access "UAG"(a)
> line 1: Unexpected
access }
> line 1: Unexpected
access UAG(a)"x"
> line 1: Unexpected
access UAG(a))
> line 1: Unexpected
access UAG(a) x
> line 1: UnknownWord
access UAG(a){x}{y}
> line 1: Unexpected
# Behind keywords and in heads.
access UAG
> line 1: Unfinished
access UAG a
> line 1: Unexpected
access UAG "a"
> line 1: Unexpected
access UAG{a}
> line 1: Unexpected
access UAG(
> line 1: Unfinished
access UAG()
> line 1: Unexpected
access UAG(a
> line 1: Unfinished
access UAG(a b)
> line 1: Unexpected
access UAG(a,b)
> line 1: Unexpected
access UAG("a
> line 1: Unclosed
# In lists.
access UAG(a){
> line 1: Unfinished
access UAG(a){,}
> line 1: Unexpected
access UAG(a){x
> line 1: Unfinished
access UAG(a){x y}
> line 1: Unexpected
access UAG(a){x)
> line 1: Unexpected
access UAG(a){x,
> line 1: Unfinished
access UAG(a){x,,y}
> line 1: Unexpected"#,
    );
}

#[test]
fn what_stands_in_rules_where_it_may_not_is_refused(rt: HostRuntime) {
    tells(
        &rt,
        rt.alloc(),
        r#"# Among rules.
access ASG(a){
> line 1: Unfinished
access ASG(a){"RULE"(1,READ)}
> line 1: Unexpected
access ASG(a){{
> line 1: Unexpected
access ASG(a){UAG(b)}
> line 1: UnknownWord
access ASG(a){RULE(1,READ)"x"}
> line 1: Unexpected
access ASG(a){RULE(1,READ),RULE(1,WRITE)}
> line 1: Unexpected
# In the head of a rule.
access ASG(a){RULE
> line 1: Unfinished
access ASG(a){RULE 1,READ}
> line 1: Unexpected
access ASG(a){RULE(
> line 1: Unfinished
access ASG(a){RULE("1",READ)}
> line 1: Unexpected
access ASG(a){RULE(,READ)}
> line 1: Unexpected
access ASG(a){RULE(1)}
> line 1: Unexpected
access ASG(a){RULE(1,"READ")}
> line 1: Unexpected
access ASG(a){RULE(1,)}
> line 1: Unexpected
access ASG(a){RULE(1,READ}
> line 1: Unexpected
access ASG(a){RULE(1,READ,)}
> line 1: Unexpected
access ASG(a){RULE(1,READ,TRAPWRITE,0)}
> line 1: Unexpected
# Among those that a rule speaks of.
access ASG(a){RULE(1,READ){
> line 1: Unfinished
access ASG(a){RULE(1,READ){"UAG"}}
> line 1: Unexpected
access ASG(a){RULE(1,READ){{
> line 1: Unexpected
access ASG(a){RULE(1,READ){ASG(a)}}
> line 1: UnknownWord
access UAG(b)ASG(a){RULE(1,READ){UAG{b}}}
> line 1: Unexpected
access UAG(b)ASG(a){RULE(1,READ){UAG()}}
> line 1: Unexpected
access UAG(b)ASG(a){RULE(1,READ){UAG(
> line 1: Unfinished
access UAG(b)ASG(a){RULE(1,READ){UAG(b}}
> line 1: Unexpected
access UAG(b)HAG(c)ASG(a){RULE(1,READ){UAG(b),HAG(c)}}
> line 1: Unexpected
# What isn't served, and what is none of that.
access ASG(a){RULE(1,READ){AUTHORITY("x")}}
> line 1: Unserved
access ASG(a){RULE(1,READ){PROTOCOL("TLS")}}
> line 1: Unserved
access ASG(a){INPU(x)}
> line 1: Calculated
access ASG(a){INPV(x)}
> line 1: UnknownWord
access ASG(a){INP(x)}
> line 1: UnknownWord
access ASG(a){INPAB(x)}
> line 1: UnknownWord"#,
    );
}

#[test]
fn groups_are_defined_once_and_have_limits(rt: HostRuntime) {
    tells(
        &rt,
        rt.alloc(),
        r#"# Of each kind a name is defined once.
access UAG(a) HAG(a) ASG(a)
> read
access HAG(a)«1*¶»HAG(a)
> line 2: Twice
access ASG(a){RULE(1,READ)}«1*¶»ASG("a")
> line 2: Twice
# And there are at most 4096 of each kind.
access «4096*UAG(a№)»«4096*HAG(a№)»«4096*ASG(a№)»
> read
access «4096*UAG(a№)»«1*¶»UAG(b)
> line 2: TooMany
access «4096*HAG(a№)»«1*¶»HAG(b)
> line 2: TooMany
access «4096*ASG(a№)»«1*¶»ASG(b)
> line 2: TooMany
access «4096*UAG(a№)»UAG(a4096)
> line 1: Twice
# The names that rules speak of are counted with those of lists.
access UAG(a){x«65534*,x»}ASG(b){RULE(1,READ){UAG(a)}}
> read
access UAG(a){x«65534*,x»}«1*¶»ASG(b){RULE(1,READ){UAG(a,a)}}
> line 2: TooMany"#,
    );
}

#[test]
fn rules_speak_to_some(rt: HostRuntime) {
    tells(
        &rt,
        rt.alloc(),
        r#"# A rule that speaks of users and of hosts speaks to those that are both.
| UAG(a){anna} UAG(b){ben,bob} HAG(desks){desk1,desk2} HAG(labs){lab7} HAG(none)
| ASG(DEFAULT){ RULE(1,READ){HAG(labs,desks)} RULE(0,WRITE){UAG(a,b)HAG(desks)} }
| ASG(empty){}
| ASG(twice){ RULE(1,WRITE){UAG(a)UAG(b)} RULE(1,READ){} }
access ASG(nobody){ RULE(1,WRITE){HAG(none)} }
> read
grant bob DESK2 DEFAULT 0
> WRITE
grant bob desk2 DEFAULT 1
> READ
grant bob lab7 other 0
> READ
grant carl desk1 DEFAULT 0
> READ
grant bob home DEFAULT 0
> NONE
grant anna desk1 empty 0
> NONE
grant anna desk1 twice 1
> WRITE
grant ben home twice 0
> WRITE
grant carl home twice 1
> READ
grant anna desk1 nobody 0
> NONE
# Of rules that give the same the first says what is recorded.
| ASG(a){RULE(1,READ)RULE(1,READ,TRAPWRITE)}
access ASG(b){RULE(1,READ,TRAPWRITE)RULE(1,READ)}
> read
grant anna desk1 a 1
> READ
grant anna desk1 b 1
> READ, recorded
# A file that is faulty leaves the one before it.
access ASG(a){RULE(1,
> line 1: Unfinished
access ASG(a){RULE(1,WRITE)}
> read
access ASG(a)ASG(a)
> line 1: Twice
grant anna desk1 a 1
> WRITE"#,
    );
}

#[test]
fn hosts_count_as_their_names(rt: HostRuntime) {
    tells(
        &rt,
        rt.alloc(),
        r#"# A rule that lists a name of a host speaks to it, as one that lists the host; a rule for others doesn't.
| HAG(desks){desk1,desk2} HAG(labs){lab7} HAG(rooms){10.0.0.9}
access ASG(a){ RULE(1,READ){HAG(labs)} RULE(1,WRITE,TRAPWRITE){HAG(rooms,desks)} }
> read
grant anna 10.0.0.5 a 1
> NONE
named 10.0.0.5 Lab7
> named
named FE80::1 desk2
> named
named 10.0.0.5 DESK1
> named
named 10.0.0.9 lab7
> named
grant anna 10.0.0.5 a 1
> WRITE, recorded
grant anna fe80::1 a 1
> WRITE, recorded
grant anna 10.0.0.9 a 1
> WRITE, recorded
grant anna 10.0.0.55 a 1
> NONE
grant anna lab7 a 1
> READ
# The same of hosts to which names are denied.
| T.* DENY FROM lab7, 10.0.0.6
read .* ALLOW
> 2 rows, ALLOW, DENY
lead 10.0.0.5 T1, lab7 T1
> T1 -, refused
named 10.0.0.5 lab7
> named
named 10.0.0.5 desk1
> named
named 10.0.0.6 desk1
> named
lead 10.0.0.5 T1, lab7 T1, 10.0.0.5 A, 10.0.0.6 T1, desk1 T1
> refused, refused, A -, refused, T1 -
# What is no host has no name, and no host has what is none.
named
> empty
named 10.0.0.5
> empty"#,
    );
}
