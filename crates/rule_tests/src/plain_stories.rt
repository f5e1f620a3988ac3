//! Patterns of the plain syntax, and files and policies with them.
use crate::tell::tells;

#[test]
fn plain_patterns_are_translated(rt: HostRuntime) {
    tells(
        &rt,
        rt.alloc(),
        r"# What differs from the escaped syntax.
plain
translate A(.)|[(]x
> ^(?:A(.)|[(]x)$
translate A\(1\)
> ^(?:A\(1\))$
translate (a|b){2}
> ^(?:(a|b)\{2\})$
translate \(a\|b\)
> ^(?:\(a\|b\))$
translate \\(a\\)
> ^(?:\\(a\\))$
translate (?:a)
> ^(?:(?:a))$
# What doesn't.
plain
translate
> ^(?:)$
translate A\.|[]x-z]{
> ^(?:A\.|[\]x-z]\{)$
translate .*+?^$
> ^(?:.*+?^$)$
translate \.\*\+\?\^\$\\
> ^(?:\.\*\+\?\^\$\\)$
translate \[\]\{\}
> ^(?:\[\]\{\})$
translate \<\>\-\/\_\!\~
> ^(?:<>-/_!~)$
translate a]b
> ^(?:a\]b)$
translate -:_&~!
> ^(?:-:_&~!)$
translate [^a-cx]y
> ^(?:[^a-cx]y)$
translate [^]a]
> ^(?:[^\]a])$
translate [\-a]
> ^(?:[\\-a])$
translate [a-c-e]
> ^(?:[a-c\-e])$
translate [^^&~.(|)]
> ^(?:[^\^\&\~.(|)])$
translate [a-é-b é]
> ^(?:[a-é\-b é])$
# Bad patterns are refused.
plain
translate \w
> bad pattern
translate \1
> bad pattern
translate (a\
> bad pattern
translate \«20»
> bad pattern
translate \é
> bad pattern
translate (a b)
> bad pattern
translate (é)
> bad pattern
translate «09»
> bad pattern
translate [(
> bad pattern
translate []
> bad pattern
translate [^]
> bad pattern
",
    );
}

#[test]
fn groups_are_counted_in_the_syntax_of_the_file(rt: HostRuntime) {
    tells(
        &rt,
        rt.alloc(),
        r"# A group that is written without a backslash is one in the plain syntax alone.
read (.*):SET ALIAS \1:SP ops
> line 1: BadReference
plain
read (.*):SET ALIAS \1:SP ops
> 1 rows, ALLOW, DENY
rows
> ^(?:(.*):SET)$ alias \1:SP ops
lead desk1 A:SET
> A:SP ops
# And one that is written with it in the other.
read \(.*\):SET ALIAS \1:SP ops
> 1 rows, ALLOW, DENY
plain
read \(.*\):SET ALIAS \1:SP ops
> line 1: BadReference
# Behind an escaped backslash it counts, and in a bracket it doesn't.
plain
read \\(A) ALIAS \1
> 1 rows, ALLOW, DENY
lead desk1 \A
> A -
read [(]A ALIAS \1
> line 1: BadReference
read [](]A ALIAS \1
> line 1: BadReference
read [^(](A) ALIAS \1
> 1 rows, ALLOW, DENY
read (a)(b) ALIAS \2\1
> 1 rows, ALLOW, DENY
lead desk1 ab
> ba -
read (a)(b) ALIAS \3
> line 1: BadReference
read (?:a) ALIAS x\1
> 1 rows, ALLOW, DENY
# Groups that don't match are refused.
plain
read (A ALLOW
> line 1: BadPattern
read A) ALLOW
> line 1: BadPattern
read \(A ALLOW
> 1 rows, ALLOW, DENY
lead desk1 (A
> (A -
# Choices go from one end of the pattern to the other, and names are matched whole.
plain
read A|BC ALLOW
> 1 rows, ALLOW, DENY
lead desk1 A, desk1 BC, desk1 AC, desk1 A|BC
> A -, BC -, refused, refused
read A|BC DENY
> 1 rows, ALLOW, DENY
# In the escaped syntax the same signs are letters of names.
read A|BC ALLOW
> 1 rows, ALLOW, DENY
lead desk1 A, desk1 BC, desk1 AC, desk1 A|BC
> refused, refused, refused, A|BC -
",
    );
}

#[test]
fn a_policy_is_read_in_the_syntax_of_the_desk(rt: HostRuntime) {
    tells(
        &rt,
        rt.alloc(),
        r"# A DENY with a choice refuses in the plain syntax alone.
| .* ALLOW
rules (A|B):ILK DENY
edit
lead desk1 A:ILK, desk1 (A|B):ILK
> A:ILK -, refused
plain
edit
shown
> closed, 2 rows, ALLOW, DENY, 1 edits
lead desk1 A:ILK, desk1 B:ILK, desk1 (A|B):ILK
> refused, refused, (A|B):ILK -
rules (A DENY
edit
> line 1: BadPattern
shown
> closed, 2 rows, ALLOW, DENY, 1 edits
no-texts
groups ops MAYBE
edit
> groups line 1: BadGroup
no-texts
edit
shown
> open, 0 rows, ALLOW, DENY, 2 edits
# The check reads in the syntax that it is given.
rules (.*):SET ALIAS \1:SP ops
check desk1 A:SET
> line 1: BadReference
> status 1
plain
check desk1 A:SET
> ok 1 rows ALLOW, DENY
> admitted A:SP ops write
> status 0
check desk1 A
> ok 1 rows ALLOW, DENY
> refused
> status 0
check
> ok 1 rows ALLOW, DENY
> status 0
rooms 0 5 desk1 A:SET
> 333333
groups ops MAYBE
check desk1 A:SET
> groups line 1: BadGroup
> status 1
",
    );
}

#[test]
fn rows_with_bare_signs_are_found(rt: HostRuntime) {
    tells(
        &rt,
        rt.alloc(),
        r"# The first row that has one is told, by the number of its line.
bare
> -
bare (A) ALLOW
> 1
bare A) ALLOW
> 1
bare A|B DENY
> 1
| # (
|
| EVALUATION ORDER ALLOW, DENY
| \(A\|B\) ALLOW
bare (.*):SET ALIAS \1:SP ops
> 5
| (A) ALLOW«0d»
bare A|B ALLOW
> 1
# Not those in brackets, after backslashes, in other words or in lines that are no rows.
| [(|)] ALLOW
| [](] ALLOW
| [^](] ALLOW
| \(a\|b\) ALIAS (x)
| A DENY FROM (h)
| A ALLOW # (
| #(A) ALLOW
| (A)
| (A) PERMIT
| \[\( ALLOW
bare [a(
> -
# A sign counts behind a bracket that is closed, and behind an escaped backslash.
bare [(]( ALLOW
> 1
bare []](x DENY
> 1
bare [^]](x DENY
> 1
bare \\(A DENY
> 1
bare \[( deny
> 1
# And in a row that is faulty.
bare (A ALLOW ops 2
> 1
bare é|é ALIAS
> 1
bare [(ALLOW
> -
bare \
> -
bare \ ALLOW
> -
bare [ ALLOW
> -
",
    );
}
