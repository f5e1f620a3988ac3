//! The desk at which the policy of a gateway is edited: a rule file and a group file are read, and
//! make a policy.
//!
//! ```text
//! let mut desk = Desk::new(alloc);
//! let policy = desk.edit(Some("X.* DENY\n.* ALLOW ops\n"), Some("ops READ\n"))?;
//! resolve(alloc, &policy.rules, &host, &name)?     // X1 is refused, and T1 is T1, in ops
//! group_rights(&policy.groups, lead.group.as_ref()) // 1: to read
//! desk.edit(Some("B GRANT\n"), None)               // Err(DeskFault::Rules(1, RuleCause::NoVerb))
//! desk.edits()                                     // 1: one edit was accepted
//! ```
//!
//! `Desk::edit` promises the policy that both texts say (`IsPolicyOf`), or their first fault, the
//! rule file's before the group file's (`IsDeskFault`), and that a refused edit leaves the desk as
//! it was. The policy itself is the caller's: the desk keeps no text and no policy. A desk of the plain
//! syntax (`Desk::with_syntax`) reads patterns whose groups are written without a backslash.
//!
//! Rule files and group files, checked before a gateway is given them.
//!
//! [`check`] reads the text of a rule file, and perhaps that of a group file, and writes whether
//! they are good. It can also be asked what a name leads to for a host. It returns the status that
//! a program ends with, one of those in [`status`]:
//!
//! ```rust
//! let rules = "\\(.*\\):SET ALIAS \\1:SP ops\n.*:SET DENY FROM lab7\nX.* DENY\n";
//! let asked = Asked {
//!     name: Name::read(alloc, b"A:SET")?,
//!     host: Host::read(alloc, b"desk1")?,
//! };
//! let mut out = Vec::new(alloc);
//! let status = check(alloc, rules, Some("ops READ\n"), Some(&asked), &mut out, Syntax::Escaped);
//! ```
//!
//! Here the status is `status::GOOD`, and `out` has the lines `ok 3 rows ALLOW, DENY` and
//! `admitted A:SP ops read`. Of files with faults it has the first faulty line alone, that of the
//! rule file before that of the group file, as `line 2: NoVerb` or `groups line 1: BadGroup`, and
//! the status is `status::REFUSED`. In the escaped syntax [`Note::of`] finds the first row that seems
//! to be meant in the plain syntax; [`Said::of`] tells what the first faulty line said.
//!
//! `rule_desk` says what good files are, `pv_alias` where names lead, and `specs/Output.antt` how
//! it is written.
#![tactic(auto)]

ghost use Rattle.std.specs.Prelude.{◌≡◌, Some, option_copied};
ghost use Rattle.std.specs.Io.KnownBytes.{Keeps};
ghost use Rattle.rule_desk.specs.Check.{IsStatus, IsGood, IsGoodOf, IsRefused, status_after};
ghost use Rattle.rule_desk.specs.Texts.{without_access};

mod answer;
mod desk;
mod fault;
mod note;
mod output;
mod policy;
mod said;
pub mod status;
mod texts;

pub use answer::Question;
use answer::answer_if_asked;
pub use desk::Desk;
pub use fault::DeskFault;
pub use note::Note;
use output::{print_fault, print_good};
pub use policy::{BoxedAccess, Policy};
use pvlist::Syntax;
pub use said::Said;
use std::alloc::Global;
use std::io;
use std::io::Write;
pub use texts::PolicyTexts;

/// Checks the texts of a rule file, whose patterns are of the syntax, and of a group file, the rule
/// file first, and writes their first faulty line; or that they are good, and then what they answer
/// where a name is asked for. Returns the status that the program ends with. What was written is
/// flushed then. Where memory is refused nothing is written.
pub fn check<'t, W: Write>(
    alloc: Global,
    rules: &'t str,
    groups: Option<&'t str>,
    asked: Option<&Question>,
    writer: &mut W,
    syntax: Syntax,
) -> u8
    ensures among { IsStatus result }
    ensures good { result ≡ 0 → IsGood syntax (without_access (Some rules.now) (option_copied groups.entry)) (option_copied asked.entry) (W.contents writer.old) (W.contents writer.new) }
    ensures refused { result ≡ 1 → IsRefused syntax (without_access (Some rules.now) (option_copied groups.entry)) (W.contents writer.old) (W.contents writer.new) }
    ensures memory { result ≡ 4 → Keeps (W.contents writer.old) (W.contents writer.new) }
{
    let texts = PolicyTexts {
        rules: Some(rules),
        groups,
        access: None,
    };
    check_texts(alloc, &texts, asked, writer, syntax)
}

/// The same of the texts of all files, each of which may be missing.
pub fn check_texts<W: Write>(
    alloc: Global,
    texts: &PolicyTexts<'_>,
    asked: Option<&Question>,
    writer: &mut W,
    syntax: Syntax,
) -> u8
    ensures among { IsStatus result }
    ensures good { result ≡ 0 → IsGood syntax texts.now (option_copied asked.entry) (W.contents writer.old) (W.contents writer.new) }
    ensures refused { result ≡ 1 → IsRefused syntax texts.now (W.contents writer.old) (W.contents writer.new) }
    ensures memory { result ≡ 4 → Keeps (W.contents writer.old) (W.contents writer.new) }
{
    let mut desk = Desk::with_syntax(alloc, syntax);
    match desk.read(texts) {
        Ok(policy) => answer_by(alloc, &policy, asked, writer),
        Err(DeskFault::OutOfMemory) => status::FAILED,
        Err(fault) => ended(print_fault(writer, fault), status::REFUSED),
    }
}

/// Writes that the files are good which say this policy, and what it answers.
fn answer_by<W: Write>(
    alloc: Global,
    policy: &Policy,
    asked: Option<&Question>,
    writer: &mut W,
) -> u8
    ensures among { IsStatus result }
    ensures good { result ≡ 0 → IsGoodOf policy.now (option_copied asked.entry) (W.contents writer.old) (W.contents writer.new) }
    ensures refused { ¬ (result ≡ 1) }
    ensures memory { result ≡ 4 → Keeps (W.contents writer.old) (W.contents writer.new) }
{
    match answer_if_asked(alloc, policy, asked) {
        Ok(answer) => ended(print_good(writer, &policy.rules, &answer), status::GOOD),
        Err(_) => status::FAILED,
    }
}

/// The status where this was to be the one, once all was written.
fn ended(written: io::Result<()>, status: u8) -> u8
    ensures { result ≡ status_after written status }
{
    match written {
        Ok(()) => status,
        Err(_) => status::STREAM_FAILED,
    }
}
