//! Keywords of rule files.
ghost use Rattle.std.specs.Prelude.{◌≡◌};
ghost use Rattle.pvlist.specs.Keywords.{is_keyword, is_order_line, keyword_of, order_of, order_of_two, right_of};

use crate::groups::GroupRight;
use crate::rules::Order;
use crate::words::RuleWords;

/// What a row does with a name, by its second word.
#[derive(Clone, Copy, Debug, PartialEq, Eq)]
pub(crate) enum Keyword {
    Allow,
    Alias,
    Deny,
}

impl Keyword {
    pub(crate) fn read(word: &str) -> Option<Keyword>
        ensures { result ≡ keyword_of word.now }
    {
        if is_keyword(word, "ALLOW") {
            return Some(Keyword::Allow);
        }
        if is_keyword(word, "ALIAS") {
            return Some(Keyword::Alias);
        }
        if is_keyword(word, "DENY") {
            return Some(Keyword::Deny);
        }
        None
    }
}

/// Whether the word is the keyword, in upper case or lower case letters.
pub(crate) fn is_keyword(word: &str, keyword: &str) -> bool
    ensures { result ≡ is_keyword word.now keyword.now }
{
    word.eq_ignore_ascii_case(keyword)
}

/// Whether the words begin an order line.
pub(crate) fn is_order_line(first: &str, second: &str) -> bool
    ensures { result ≡ is_order_line first.now second.now }
{
    is_keyword(first, "EVALUATION") && is_keyword(second, "ORDER")
}

/// The order that the rest of an order line gives.
pub(crate) fn read_order(mut words: RuleWords) -> Option<Order>
    ensures { result ≡ order_of words.entry }
{
    let first = words.next()?;
    let second = words.next()?;
    match words.next() {
        Some(_) => None,
        None => order_of_two(first, second),
    }
}

fn order_of_two(first: &str, second: &str) -> Option<Order>
    ensures { result ≡ order_of_two first.now second.now }
{
    if is_keyword(first, "ALLOW") && is_keyword(second, "DENY") {
        return Some(Order::AllowDeny);
    }
    if is_keyword(first, "DENY") && is_keyword(second, "ALLOW") {
        return Some(Order::DenyAllow);
    }
    None
}

/// The right that a line of a group file gives, by its second word.
pub(crate) fn read_right(word: &str) -> Option<GroupRight>
    ensures { result ≡ right_of word.now }
{
    if is_keyword(word, "NONE") {
        return Some(GroupRight::None);
    }
    if is_keyword(word, "READ") {
        return Some(GroupRight::Read);
    }
    if is_keyword(word, "WRITE") {
        return Some(GroupRight::Write);
    }
    None
}
