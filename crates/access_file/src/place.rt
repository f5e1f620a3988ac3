//! Where in a file a token stands.

/// Users or hosts.
#[derive(Clone, Copy)]
pub(crate) enum Party {
    Users,
    Hosts,
}

/// What is defined.
#[derive(Clone, Copy)]
pub(crate) enum Kind {
    /// A group of users or hosts.
    List(Party),
    /// A security group.
    Rules,
}

/// What must stand next, and where.
#[derive(Clone, Copy)]
pub(crate) enum Expected {
    Keyword(Scope),
    Name(Naming),
    Setting(Setting),
    Sign(Behind),
}

/// Where a keyword stands.
#[derive(Clone, Copy)]
pub(crate) enum Scope {
    /// Outside all definitions, where the text may end too.
    Top,
    /// The same, behind the head of a definition, which may go on by `{`.
    Headed(Kind),
    /// RULE in a security group, or its `}`.
    Rules,
    /// The same, behind the head of a rule, which may go on by `{`.
    Ruled,
    /// UAG or HAG in a rule, or its `}`.
    Parties,
}

/// What is named.
#[derive(Clone, Copy)]
pub(crate) enum Naming {
    /// A group that is defined.
    Group(Kind),
    /// The first of a list, which may be empty.
    First(Party),
    /// A further one.
    Member(Party),
    /// A group that a rule speaks of.
    Spoken(Party),
}

/// A word of a rule's head.
#[derive(Clone, Copy)]
pub(crate) enum Setting {
    Level,
    Right,
    Recording,
}

/// Behind what a sign stands.
#[derive(Clone, Copy)]
pub(crate) enum Behind {
    Keyword(Kind),
    Group(Kind),
    Member(Party),
    Rule,
    Level,
    Right,
    Recording,
    Speaking(Party),
    Spoken(Party),
}
