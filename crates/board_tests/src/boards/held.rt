//! Stories of a client that writes faster than its server reads.
use crate::boards::tell::tells;
use std::test::Fail;

/// A client writes to a server whose writer takes nothing, until it is held: more than half of what its outbox holds
/// waits then, and the client's ring is full.
const HELD: &str = "\
open u1
> Ok(())
attach u1
> rings
open s1
> Ok(())
attach s1
> rings
say u1 000000000000000d0000000000000000
> true
say s1 0012000800000000000000070000000d5431000000000000
> true
settle
found T1 u1
> Ok(())
say u1 00160000000000000000000100000003
> true
say u1 00120000000500010000000100000065
> true
settle
say s1 0012000800000000000000070000000d5431000000000000
> true
settle
flood s1 20000 000400080005000100000001000000000000000700000000
> 8704
queued u1
> Ok(8196)
batch
> Ok(0)
ends u1
> Ok(false)
";

/// What is on its way counts as waiting; another client is served meanwhile.
#[test]
fn a_client_that_is_held_holds_nobody_else(rt: HostRuntime) -> Result<(), Fail> {
    let alloc = rt.alloc();
    let story = format!(in alloc;
        "{HELD}\
waiting u1
> Ok(202840)
open s2
> Ok(())
attach s2
> rings
offer s2 1
> 1
batch
> Ok(3)
next s2
> Some(0)
next s2
> Some(23)
queued u1
> Ok(8196)
"
    )?;
    tells(&rt, alloc, story.as_str())
}

/// Once its server reads, so that half or less waits, what it said is performed.
#[test]
fn a_client_that_was_held_goes_on(rt: HostRuntime) -> Result<(), Fail> {
    let alloc = rt.alloc();
    let story = format!(in alloc;
        "{HELD}\
take u1 256
> 256
batch
> Ok(64)
queued u1
> Ok(8132)
batch
> Ok(224)
queued u1
> Ok(7972)
settle
queued u1
> Ok(8196)
offer s1 257
> 256
"
    )?;
    tells(&rt, alloc, story.as_str())
}

/// The end of a client that is held is heard once it was noted that it comes.
#[test]
fn the_end_of_a_held_client_is_heard(rt: HostRuntime) -> Result<(), Fail> {
    let alloc = rt.alloc();
    let story = format!(in alloc;
        "{HELD}\
gone s1
> false
settle
stands s1
> Ok(true)
ending s1
settle
queued u1
> Ok(8452)
gone s1
> true
settle
stands s1
> Ok(false)
stands u1
> Ok(true)
"
    )?;
    tells(&rt, alloc, story.as_str())
}
