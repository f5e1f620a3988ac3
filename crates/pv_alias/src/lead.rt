//! Where a name leads.
ghost use Rattle.std.specs.Prelude.{◌≡◌, Some, None, IfOk};
ghost use Rattle.pvlist.specs.RuleLine.{no_group};
ghost use Rattle.pv_alias.specs.Resolution.{lead_to};

use crate::NoMemory;
use access_file::{Grant, Level};
use pv_name::{Group, Name};
use pvlist::Security;

/// Where the name leads that a client asks for.
#[derive(Debug, Drop)]
pub struct Lead {
    /// The name of the process variable that is served.
    pub real: Name,
    /// The group whose rights hold, where the row that decided has one.
    pub group: Option<Group>,
    /// The access security level of the variable.
    pub level: Level,
    /// What who asks for it may do, where an access security file says that: rules say nothing of it.
    pub grant: Option<Grant>,
}

impl Lead {
    /// To the name itself, without a group.
    pub(crate) fn to_open(name: &Name) -> Result<Lead, NoMemory>
        ensures { IfOk result (λ lead. lead ≡ lead_to name.now no_group) }
    {
        Ok(Lead {
            real: name.copy()?,
            group: None,
            level: Level::One,
            grant: None,
        })
    }

    /// To the name itself.
    pub(crate) fn to_itself(name: &Name, security: &Security) -> Result<Lead, NoMemory>
        ensures { IfOk result (λ lead. lead ≡ lead_to name.now security.now) }
    {
        Lead::to_real(name.copy()?, security)
    }

    /// To another name.
    pub(crate) fn to_real(real: Name, security: &Security) -> Result<Lead, NoMemory>
        ensures { IfOk result (λ lead. lead ≡ lead_to real security.now) }
    {
        let group = match &security.group {
            Some(group) => Some(group.copy()?),
            None => None,
        };
        Ok(Lead {
            real,
            group,
            level: security.level,
            grant: None,
        })
    }

    /// The same again. The error is that memory was refused.
    pub fn copy(&self) -> Result<Lead, NoMemory>
        ensures { IfOk result (λ copy. copy ≡ self.now) }
    {
        let group = match &self.group {
            Some(group) => Some(group.copy()?),
            None => None,
        };
        Ok(Lead {
            real: self.real.copy()?,
            group,
            level: self.level,
            grant: self.grant,
        })
    }
}
