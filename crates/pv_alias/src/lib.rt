//! What the name that a client asks for leads to, under the rules of a rule file.
//!
//! ```text
//! let rules = Rules::read(alloc, "\\(.*\\):SET ALIAS \\1:SP ops\n")?;
//! let groups = Groups::read(alloc, "ops READ\n")?;
//! if let Some(lead) = resolve(alloc, &rules, &host, &name)? { // A:SET leads to A:SP, in ops
//!     rights = group_rights(&groups, lead.group.as_ref());     // 1: to read
//! }
//! ```
//!
//! `resolve` promises the lead that the whole list of rows gives (`resolution`): a DENY row that
//! matches may refuse the name to the host, and else the last ALLOW or ALIAS row that matches
//! decides; `None` is a refusal. It compiles no pattern, and its only error is want of memory.
//! A `Resolver` answers the same for many names under the same rules. It keeps what `resolve` makes anew
//! for each name, the matchers of the rows that names were tried on.
//! `resolve_known`, of both, is told the names that the host has: a DENY row that lists any of them refuses.
//! `group_rights` promises the rights of the group's last line (`specs/Rights.antt`), and takes no
//! memory.
#![tactic(auto)]

mod lead;
mod real_name;
mod resolver;
mod resolving;
mod rights;
mod tried;

pub use lead::Lead;
pub use resolver::Resolver;
pub use resolving::{resolve, resolve_known};
pub use rights::group_rights;

/// The error of a call that fails only where memory runs out.
pub type NoMemory = std::alloc::AllocError;
