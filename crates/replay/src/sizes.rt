//! How long the files of a line are.
ghost use Rattle.std.specs.Prelude.{◌≡◌};
ghost use Rattle.replay.specs.Script.{sizes_of};

use replay_text::Line;

/// How many lines the files of a line have.
#[derive(Clone, Copy)]
pub struct Sizes {
    pub rules: usize,
    pub groups: usize,
    pub access: usize,
}

/// How many lines the files of a line have: those of an edit follow it.
pub fn own_files(line: &Line) -> Sizes
    ensures { result ≡ sizes_of line.now }
{
    match line {
        Line::Edit {
            rules,
            groups,
            access,
        } => Sizes {
            rules: *rules,
            groups: *groups,
            access: *access,
        },
        _ => Sizes {
            rules: 0,
            groups: 0,
            access: 0,
        },
    }
}
