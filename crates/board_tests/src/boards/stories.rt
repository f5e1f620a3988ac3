//! Stories of boards.
use crate::boards::tell::tells;
use std::test::Fail;

#[test]
fn items_and_messages_go_through(rt: HostRuntime) -> Result<(), Fail> {
    tells(
        &rt,
        rt.alloc(),
        "\
open s1
> Ok(())
attach s1
> rings
next s1
> none
pump s1
> Ok(false)
send s1
> Ok(1)
next s1
> Some(0)
next s1
> none
offer s1 2
> 2
pump s1
> Ok(true)
round
> Ok(3)
next s1
> Some(23)
next s1
> Some(23)
next s1
> none
round
> Ok(0)
",
    )
}

#[test]
fn a_full_ring_gives_the_item_back(rt: HostRuntime) -> Result<(), Fail> {
    tells(
        &rt,
        rt.alloc(),
        "\
open s1
> Ok(())
attach s1
> rings
offer s1 257
> 256
offer s1 1
> 0
pump s1
> Ok(true)
offer s1 2
> 1
",
    )
}

#[test]
fn sixty_four_messages_are_sent_at_once(rt: HostRuntime) -> Result<(), Fail> {
    tells(
        &rt,
        rt.alloc(),
        "\
open s1
> Ok(())
attach s1
> rings
offer s1 100
> 100
pumps s1 101
> 100
send s1
> Ok(64)
send s1
> Ok(37)
send s1
> Ok(0)
",
    )
}

#[test]
fn who_is_not_attached_is_not_served(rt: HostRuntime) -> Result<(), Fail> {
    tells(
        &rt,
        rt.alloc(),
        "\
pump s1
> Ok(false)
send s1
> Ok(0)
retire s1
> none
round
> Ok(0)
drain s1
> Err(NotHere)
attach s1
> rings
attach s1
> Attached
attach u1
> rings
stands s1
> Ok(false)
retire s1
> ends
retire s1
> none
attach s1
> rings
",
    )
}

#[test]
fn clients_and_servers_of_one_number_are_apart(rt: HostRuntime) -> Result<(), Fail> {
    tells(
        &rt,
        rt.alloc(),
        "\
open u1
> Ok(())
attach u1
> rings
open s1
> Ok(())
attach s1
> rings
round
> Ok(4)
next s1
> Some(0)
next s1
> none
next u1
> Some(0)
next u1
> Some(20)
next u1
> Some(21)
gone s1
> true
pump s1
> Ok(true)
stands s1
> Ok(false)
stands u1
> Ok(true)
ends u1
> Ok(false)
",
    )
}

/// A batch goes on with an item that came after the board had last looked into the ring.
#[test]
fn a_batch_sees_what_came_meanwhile(rt: HostRuntime) -> Result<(), Fail> {
    tells(
        &rt,
        rt.alloc(),
        "\
open s1
> Ok(())
attach s1
> rings
batch
> Ok(1)
offer s1 2
> 2
pump s1
> Ok(true)
offer s1 1
> 1
batch
> Ok(5)
batch
> Ok(0)
",
    )
}
