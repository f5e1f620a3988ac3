//! What is a name, a host and a group.
use crate::tell::tells;

#[test]
fn names_are_read(rt: HostRuntime) {
    tells(
        &rt,
        rt.alloc(),
        r"# The example at the head of the crate.
name LAB7:T1
> LAB7:T1 LAB7:T1
> LAB7:T1 LAB7:T1
> LAB7:T1 LAB7:T1
> true true
name LAB7 T1
> bad byte at 4
> bad byte at 4
> bad byte at 4
> false false
# A name has at most 255 bytes, a host and a group at most 127.
name
> empty
> empty
> empty
> false false
name x
> x x
> x x
> x x
> true true
name «127*x»
> «127*x» «127*x»
> «127*x» «127*x»
> «127*x» «127*x»
> true true
name «128*x»
> «128*x» «128*x»
> too long
> too long
> true false
name «255*x»
> «255*x» «255*x»
> too long
> too long
> true false
name «256*x»
> too long
> too long
> too long
> false false
# The first bad byte is told.
name !~
> !~ !~
> !~ !~
> !~ !~
> true true
name A B
> bad byte at 1
> bad byte at 1
> bad byte at 1
> false false
name «20»A«7f»
> bad byte at 0
> bad byte at 0
> bad byte at 0
> false false
name A«7f»«20»
> bad byte at 1
> bad byte at 1
> bad byte at 1
> false false
name AB«c8»
> bad byte at 2
> bad byte at 2
> bad byte at 2
> false false
name T1«00»
> bad byte at 2
> bad byte at 2
> bad byte at 2
> false false
# Hosts are the same in any case.
same LAB7 lab7
> true true
same LAB7 lab8
> false false
listed Lab7 LAB7
> true of 1
listed Lab7 lab8
> false of 1
# Memory may be refused.
refusals
> out of memory
> out of memory
> out of memory
> out of memory
",
    );
}
