//! What is written.
ghost use Rattle.std.specs.Prelude.{◌≡◌, ◌++◌, OnOk};
ghost use Rattle.std.specs.Io.KnownBytes.{Appends};
ghost use Rattle.rule_desk.specs.Output.{ok_line, group_text, rights_text, recorded_text, admitted_line, answer_line, good_lines, fault_line};

use crate::DeskFault;
use crate::answer::Answer;
use access_file::Grant;
use pv_alias::Lead;
use pv_name::Group;
use pvlist::Rules;
use std::io;
use std::io::Write;

/// Writes that files are good, and what is answered where something was asked.
pub(crate) fn print_good<W: Write>(
    out: &mut W,
    rules: &Rules,
    answer: &Option<Answer>,
) -> io::Result<()>
    ensures ok { OnOk result (Appends (W.contents out.old) (W.contents out.new) (good_lines rules.now answer.now)) }
{
    write_ok(out, rules)?;
    write_answer(out, answer)?;
    out.flush()
}

/// Writes the first fault of files.
pub(crate) fn print_fault<W: Write>(out: &mut W, fault: DeskFault) -> io::Result<()>
    ensures ok { OnOk result (Appends (W.contents out.old) (W.contents out.new) (fault_line fault)) }
{
    writeln!(out, "{fault}")?;
    out.flush()
}

fn write_ok<W: Write>(out: &mut W, rules: &Rules) -> io::Result<()>
    ensures ok { OnOk result (Appends (W.contents out.old) (W.contents out.new) (ok_line rules.now)) }
{
    let rows = rules.rows().len();
    let order = rules.order();
    writeln!(out, "ok {rows} rows {order}")
}

fn write_answer<W: Write>(out: &mut W, answer: &Option<Answer>) -> io::Result<()>
    ensures ok { OnOk result (Appends (W.contents out.old) (W.contents out.new) (answer_line answer.now)) }
{
    match answer {
        Some(Answer::Admitted(lead, rights)) => write_admitted(out, lead, *rights),
        Some(Answer::Refused) => out.write_all(b"refused\n"),
        None => Ok(()),
    }
}

fn write_admitted<W: Write>(out: &mut W, lead: &Lead, rights: u32) -> io::Result<()>
    ensures ok { OnOk result (Appends (W.contents out.old) (W.contents out.new) (admitted_line lead.now rights)) }
{
    let real = lead.real.text();
    let group = group_text(&lead.group);
    let rights = rights_text(rights);
    let recorded = recorded_text(lead.grant);
    writeln!(out, "admitted {real} {group} {rights}{recorded}")
}

fn group_text(group: &Option<Group>) -> &str
    ensures { result.now ≡ group_text group.now }
{
    match group {
        Some(group) => group.text(),
        None => "-",
    }
}

fn recorded_text(grant: Option<Grant>) -> &'static str
    ensures { result.now ≡ recorded_text grant }
{
    match grant {
        Some(grant) if grant.recorded => " recorded",
        _ => "",
    }
}

fn rights_text(rights: u32) -> &'static str
    ensures { result.now ≡ rights_text rights }
{
    match rights {
        0 => "none",
        1 => "read",
        _ => "write",
    }
}
