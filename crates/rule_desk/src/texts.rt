//! The texts that a policy is read from.

use std::marker::Model;

/// The texts of the files that a policy is read from, each of which may be missing: of a rule file, of a
/// group file, and of an access security file, which decides in the place of the group file.
#[derive(Debug, Drop)]
pub struct PolicyTexts<'a> {
    pub rules: Option<&'a str>,
    pub groups: Option<&'a str>,
    pub access: Option<&'a str>,
}

impl<'a> Model for PolicyTexts<'a> {
    ghost use Rattle.std.specs.Prelude.{option_copied};
    ghost use Rattle.rule_desk.specs.Texts.{Texts};

    ghost Value = { Texts };

    ghost view = { λ t. record {
      rules = option_copied t.rules;
      groups = option_copied t.groups;
      access = option_copied t.access;
    } };
}
