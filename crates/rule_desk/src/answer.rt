//! What is answered of a name.
ghost use Rattle.std.specs.Prelude.{◌≡◌, IfOk, option_copied, option_map};
ghost use Rattle.rule_desk.specs.Answer.{answer_of};

use crate::Policy;
use pv_alias::{Lead, NoMemory, resolve_known};
use pv_name::{Host, Name};
use std::alloc::Global;

/// What is asked of a policy: where the name leads that a client on the host asks for, whose user is called so.
#[derive(Debug, Drop)]
pub struct Question {
    pub name: Name,
    pub host: Host,
    /// Any bytes, and none where the client says nothing of its user.
    pub user: Vec<u8>,
}

/// What a policy answers of a name.
#[derive(Debug, Drop)]
pub(crate) enum Answer {
    /// Where the name leads, and the rights on it: bit 0 to read, bit 1 to write.
    Admitted(Lead, u32),
    Refused,
}

/// What the policy answers, where something is asked.
pub(crate) fn answer_if_asked(
    alloc: Global,
    policy: &Policy,
    asked: Option<&Question>,
) -> Result<Option<Answer>, NoMemory>
    ensures { IfOk result (λ answer. answer ≡ option_map (answer_of policy.now) (option_copied asked.entry)) }
{
    match asked {
        Some(asked) => Ok(Some(answer_to(alloc, policy, asked)?)),
        None => Ok(None),
    }
}

fn answer_to(alloc: Global, policy: &Policy, asked: &Question) -> Result<Answer, NoMemory>
    ensures { IfOk result (λ answer. answer ≡ answer_of policy.now asked.now) }
{
    let names = policy.names.of(&asked.host);
    let lead = resolve_known(alloc, &policy.rules, &asked.host, names, &asked.name)?;
    match policy.led(lead, asked.user.as_slice(), &asked.host) {
        Some(lead) => {
            let rights = policy.rights(&lead);
            Ok(Answer::Admitted(lead, rights))
        }
        None => Ok(Answer::Refused),
    }
}
