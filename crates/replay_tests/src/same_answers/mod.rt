//! Lists of events that are drawn, and told to both gateways: both have to print the same.
//!
//! A list is a script of some 250 lines, drawn from a seed (`author`). It begins with lines that bring
//! clients, servers and channels, and goes on with 200 events, each a row of a table (`events`) with
//! drawn words in its places. So that events meet what is there, a row may name what the gateway printed
//! before: the numbers of such a line, as of the one that told a client its channel, are then the
//! event's. For that the engine performs what there is of a list again and again while it is drawn.
//! Then the plain gateway performs the whole list, and what the two printed is compared (`lists`). A
//! list of which it differs is shown with its seed. Lines of some kinds are counted too, so that lists
//! that come to nothing don't pass.
//!
//! One list of four is drawn from the table of limits, ages and probes too: so both are compared while
//! little may stand, and while old searches go.
//!
//! An event is added as a row of a table of `events`, whose head says what may stand in it; a table is
//! drawn as often as `author::TABLES` has its letter. A row more changes what is drawn from each seed.
//! Tests that run before they are proved (`rt try`) are slow, and need `lists::LISTS` smaller.

mod author;
mod events;
mod lists;
