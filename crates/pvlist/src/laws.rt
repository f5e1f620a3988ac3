//! Laws of rule files and group files. Each is a call that does nothing, and its contract is the law.
ghost use Rattle.std.specs.Prelude.{◌≡◌};
ghost use Rattle.pvlist.specs.declared.line.TheConstants.{LINE_LIMIT, ROW_LIMIT};

/// The limits of files: how many bytes a line has at most, and how many rows a rule file, which is
/// also how many lines that aren't blank a group file has.
pub fn numbers_are_these()
    ensures line { LINE_LIMIT ≡ 1024 }
    ensures rows { ROW_LIMIT ≡ 4096 }
{}
