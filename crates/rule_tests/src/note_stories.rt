//! What is told beside a fault: what the faulty line said, and that a file may be meant in the other syntax.
use crate::tell::tells;

#[test]
fn a_faulty_line_is_told_with_what_it_says(rt: HostRuntime) {
    tells(
        &rt,
        rt.alloc(),
        r"# The first faulty line, that of the rule file before that of the group file.
| A ALLOW
| # x
| B GRANT
rules C GRANT
| ops READ
groups ops MAYBE
said
> line 3: says: B GRANT
rules A ALLOW
said
> groups line 2: says: ops MAYBE
groups ops READ
said
> -
no-texts
said
> -
# Not the end of the line, of which a last one has none.
| A ALLOW«0d»
| B GRANT«0d»
rules A ALLOW
said
> line 2: says: B GRANT
rules B GRANT«0d»
said
> line 1: says: B GRANT\x0d
# Blanks and comments stand as they are written.
rules «20» A  ALLOW ops 2 # x«20»
said
> line 1: says:   A  ALLOW ops 2 # x«20»
# What is no printable ASCII is told by two hexadecimal digits, and a backslash as it is.
rules «09»~A«01» é«7f» \x41
said
> line 1: says: \x09~A\x01 \xc3\xa9\x7f \x41
rules «00»«01»«02»«03»«04»«05»«06»«07»«08»«0b»«0c»«0e»«0f»«10»«1f»
said
> line 1: says: \x00\x01\x02\x03\x04\x05\x06\x07\x08\x0b\x0c\x0e\x0f\x10\x1f
# It is the syntax of the desk that makes a line faulty.
rules (.*):SET ALIAS \1:SP ops
said
> line 1: says: (.*):SET ALIAS \1:SP ops
plain
rules (.*):SET ALIAS \1:SP ops
said
> -
rules \(.*\):SET ALIAS \1:SP ops
said
> line 1: says: \(.*\):SET ALIAS \1:SP ops
",
    );
}

#[test]
fn no_more_of_a_line_is_told_than_200_characters(rt: HostRuntime) {
    tells(
        &rt,
        rt.alloc(),
        r"rules «200*A»
said
> line 1: says: «200*A»
rules «201*A»
said
> line 1: says: «200*A»
| A ALLOW
rules «1025*#»
said
> line 2: says: «200*#»
# What stands for a byte may be cut, and of what stands behind 200 bytes nothing is told.
rules «196*A»é
said
> line 1: says: «196*A»\xc3
rules «197*A»é
said
> line 1: says: «197*A»\xc
rules «198*A»é
said
> line 1: says: «198*A»\x
rules «199*A»é
said
> line 1: says: «199*A»\
rules «60*é»
said
> line 1: says: «25*\xc3\xa9»
groups «201*A»
rules
said
> groups line 1: says: «200*A»
",
    );
}

#[test]
fn a_file_of_the_other_syntax_is_noted(rt: HostRuntime) {
    tells(
        &rt,
        rt.alloc(),
        r"# The first row that has a bare sign in its pattern.
note
> -
rules
note
> -
| A ALLOW
| # (x)
| .*:SET ALIAS (x)
| (A|B) DENY
rules (C) DENY
note
> note: line 4: ( ) | stand for themselves here; --plain-groups reads them as groups
rules \(A\|B\) ALLOW
note
> -
# Where the file is faulty, too.
| A GRANT
rules (.*):SET ALIAS \1:SP ops
note
> note: line 2: ( ) | stand for themselves here; --plain-groups reads them as groups
# In the plain syntax nothing is noted.
plain
rules \(A\|B\) ALLOW
note
> -
rules (A|B) ALLOW
note
> -
",
    );
}
