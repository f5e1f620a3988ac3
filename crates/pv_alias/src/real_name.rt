//! The real name that an alias gives a name.
ghost use Rattle.std.specs.Prelude.{◌≡◌, ◌≤◌, ◌∷◌, ◌++◌, length, IfOk};
ghost use Rattle.pv_alias.specs.RealName.{captured, replaced, as_name, real_name};
ghost use Rattle.regex.specs.Strings.{matcher_pattern, regex_pattern};
ghost use Rattle.regex.specs.declared.string.regex.Regex.{Regex};

use crate::NoMemory;
use pv_name::{Name, NameFault};
use pvlist::RealText;
use regex::{Captures, Matcher};
use std::alloc::{AllocError, Global};

/// What the real text makes of a name that the matcher's pattern matches; `None` where that is no name.
pub(crate) fn real_name(
    alloc: Global,
    matcher: &mut Matcher<'_>,
    real: &RealText,
    name: &Name,
) -> Result<Option<Name>, NoMemory>
    ensures found { (regex : Regex) → matcher_pattern matcher.old ≡ regex_pattern regex →
        IfOk result (λ found. found ≡ real_name name.now regex real.now) }
    ensures same { matcher_pattern matcher.new ≡ matcher_pattern matcher.old }
{
    let Some(groups) = matcher.captures(name.text()) else {
        return Ok(None);
    };
    let bytes = replaced(alloc, &groups, real.text().as_bytes())?;
    as_name(alloc, &bytes)
}

/// The bytes as a name; `None` where they are none.
fn as_name(alloc: Global, bytes: &[u8]) -> Result<Option<Name>, NoMemory>
    ensures { IfOk result (λ found. found ≡ as_name bytes.now) }
{
    match Name::read(alloc, bytes) {
        Ok(name) => Ok(Some(name)),
        Err(NameFault::OutOfMemory) => Err(AllocError),
        Err(_) => Ok(None),
    }
}

/// The text with what the groups took in the place of the references to them.
fn replaced(alloc: Global, groups: &Captures<'_, '_>, text: &[u8]) -> Result<Vec<u8>, NoMemory>
    ensures { IfOk result (λ bytes. bytes.items ≡ replaced (captured groups.now) text.now) }
{
    let mut bytes = Vec::new(alloc);
    let mut rest = text;
    while let [first, behind @ ..] = rest {
        rest = put_piece(&mut bytes, groups, *first, behind)?;
    }
    Ok(bytes)
}

/// Writes the byte, or the reference that it begins, and gives what is left of the text.
fn put_piece<'a>(
    bytes: &mut Vec<u8>,
    groups: &Captures<'_, '_>,
    first: u8,
    rest: &'a [u8],
) -> Result<&'a [u8], NoMemory>
    ensures ok { IfOk result (λ left. bytes.old.items ++ replaced (captured groups.now) (first
        ∷ rest.now) ≡ bytes.new.items ++ replaced (captured groups.now) left.now) }
    ensures shorter { IfOk result (λ left. length left.now ≤ length rest.now) }
{
    match rest {
        [digit @ b'1'..=b'9', left @ ..] if first == b'\\' => {
            bytes.extend_from_slice(captured(groups, usize::from(*digit - b'0')))?;
            Ok(left)
        }
        _ => {
            bytes.push(first)?;
            Ok(rest)
        }
    }
}

/// What the group took of the name; nothing where it took no part or isn't there.
fn captured<'h>(groups: &Captures<'_, 'h>, group: usize) -> &'h [u8]
    ensures { result.now ≡ captured groups.now group }
{
    match groups.get(group) {
        Some(part) => part.as_str().as_bytes(),
        None => &[],
    }
}
