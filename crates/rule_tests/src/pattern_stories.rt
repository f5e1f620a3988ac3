//! Patterns of rule files, as regular expressions.
use crate::tell::tells;

#[test]
fn patterns_are_translated(rt: HostRuntime) {
    tells(
        &rt,
        rt.alloc(),
        r"translate
> ^(?:)$
translate A\(.\)\|[]x-z]{
> ^(?:A(.)|[\]x-z]\{)$
translate (a|b){2}
> ^(?:\(a\|b\)\{2\})$
translate \(a\|b\)
> ^(?:(a|b))$
translate .*+?^$
> ^(?:.*+?^$)$
translate \.\*\+\?\^\$\\
> ^(?:\.\*\+\?\^\$\\)$
translate \[\]\{\}
> ^(?:\[\]\{\})$
translate \<\>\-\/\_\!\~
> ^(?:<>-/_!~)$
translate a]b
> ^(?:a\]b)$
translate -:_&~!
> ^(?:-:_&~!)$
translate [a-c]
> ^(?:[a-c])$
translate [^a-cx]y
> ^(?:[^a-cx]y)$
translate [^]a]
> ^(?:[^\]a])$
translate [[-a]
> ^(?:[\[-a])$
translate [\-a]
> ^(?:[\\-a])$
translate [--1]
> ^(?:[\--1])$
translate [a-]b]
> ^(?:[a\-]b\])$
translate [a-c-e]
> ^(?:[a-c\-e])$
translate []-a]
> ^(?:[\]-a])$
translate [^^&~.(]
> ^(?:[^\^\&\~.(])$
translate [a-é-b é]
> ^(?:[a-é\-b é])$
translate [^^]
> ^(?:[^\^])$
# Bad patterns are refused.
translate \w
> bad pattern
translate \1
> bad pattern
translate a\
> bad pattern
translate \
> bad pattern
translate \«20»
> bad pattern
translate \é
> bad pattern
translate a b
> bad pattern
translate é
> bad pattern
translate «09»
> bad pattern
translate «7f»
> bad pattern
translate [
> bad pattern
translate []
> bad pattern
translate [^
> bad pattern
translate [^]
> bad pattern
translate [a
> bad pattern
translate [a\
> bad pattern
translate a[b-
> bad pattern
",
    );
}

#[test]
fn names_are_passed_over_by_their_bytes(rt: HostRuntime) {
    tells(
        &rt,
        rt.alloc(),
        r"# How a name begins and ends, and what stands in it.
| X1 ALLOW
| SR:.* ALLOW
| .*:SET ALLOW
| SR:.*:SET ALLOW
| .*0001\(A\|B\).* ALLOW
| \(A\|B\):[0-9]* ALLOW
| [A-Z]+1 ALLOW
read .* ALLOW
> 8 rows, ALLOW, DENY
tried X1
> 1 7 8 of 8
tried X12
> 8 of 8
tried AX1
> 7 8 of 8
tried SR:A
> 2 8 of 8
tried SR:A:SET
> 2 3 4 8 of 8
tried SR
> 8 of 8
tried A:SET
> 3 8 of 8
tried B:17
> 6 8 of 8
tried XX0001BY
> 5 8 of 8
tried XX0002BY
> 8 of 8
# Where there are many ways to begin, or one that takes nothing, no start is known.
| [A-Z]X.* ALLOW
| [a-z].[0-9] ALLOW
read \(S\|T\|\)1 ALLOW
> 3 rows, ALLOW, DENY
tried 1
> 2 3 of 3
tried b.b
> of 3
tried BXB
> 1 of 3
# No row passes over what it matches.
| A[^B]C ALLOW
| \(AB\)*C ALLOW
| AB?C ALLOW
read A.*C\|X ALLOW
> 4 rows, ALLOW, DENY
tried AAC
> 1 4 of 4
tried C
> 2 of 4
tried ABC
> 1 2 3 4 of 4
tried X
> 4 of 4
",
    );
}

#[test]
fn few_texts_are_compared(rt: HostRuntime) {
    tells(
        &rt,
        rt.alloc(),
        r"# Up to 16 texts to begin with are compared, and no more.
| \(aa\|bb\|cc\|dd\|ee\|ff\|gg\|hh\|ii\|jj\|kk\|ll\|mm\|nn\|oo\|pp\):.* ALLOW
read \(aa\|bb\|cc\|dd\|ee\|ff\|gg\|hh\|ii\|jj\|kk\|ll\|mm\|nn\|oo\|pp\|qq\):.* ALLOW
> 2 rows, ALLOW, DENY
tried pp:1
> 1 2 of 2
tried qq:1
> 2 of 2
tried z:1
> 2 of 2
# So many to end with.
| .*:\(aa\|bb\|cc\|dd\|ee\|ff\|gg\|hh\|ii\|jj\|kk\|ll\|mm\|nn\|oo\|pp\) ALLOW
read .*:\(aa\|bb\|cc\|dd\|ee\|ff\|gg\|hh\|ii\|jj\|kk\|ll\|mm\|nn\|oo\|pp\|qq\) ALLOW
> 2 rows, ALLOW, DENY
tried 1:pp
> 1 2 of 2
tried 1:z
> 2 of 2
lead desk1 1:pp, desk1 1:qq, desk1 1:z, desk1 1
> 1:pp -, 1:qq -, refused, refused
",
    );
}
