//! The lines of a report.
ghost use Rattle.std.specs.Prelude.{◌≡◌, ◌++◌, IfOk, OnOk};
ghost use Rattle.std.specs.List.{flat_map};
ghost use Rattle.access_report.specs.Reports.{report_of};
ghost use Rattle.podctl_commands.specs.Lines as spec;

use access_report::{Line, report};
use audit_trail::append_basis;
use pod_base::{Agent, Mem, Mode};
use pod_rows::PodState;
use std::alloc::Global;

/// The word of a mode in a line that `podctl report` prints.
fn mode_word(mode: Mode) -> &'static [u8]
    ensures { result.now ≡ spec.mode_word mode }
{
    match mode {
        Mode::Read => b"read",
        Mode::Write => b"write",
        Mode::Append => b"append",
        Mode::Control => b"control",
    }
}

/// Appends one of the lines that `podctl report` prints: the path, the mode and the basis, one
/// space between, and LF.
fn append_line(alloc: Global, text: &mut Vec<u8>, line: &Line) -> Mem<()>
    ensures { OnOk result (text.new.items ≡ text.old.items ++ spec.report_line line.now) }
{
    text.extend_from_slice(line.path.as_str().as_bytes())?;
    text.push(b' ')?;
    text.extend_from_slice(mode_word(line.mode))?;
    text.push(b' ')?;
    append_basis(alloc, text, &line.basis)?;
    text.push(b'\n')?;
    Ok(())
}

/// Appends the lines that `podctl report` prints, in their order.
fn append_lines(alloc: Global, text: &mut Vec<u8>, lines: &[Line]) -> Mem<()>
    ensures { OnOk result (text.new.items
        ≡ text.old.items ++ flat_map spec.report_line lines.now) }
{
    for line in lines {
        append_line(alloc, text, line)?;
    }
    Ok(())
}

/// The lines that `podctl report` prints of what an agent may do in a pod.
pub(crate) fn report_text<S: PodState>(alloc: Global, state: &S, agent: &Agent) -> Mem<Vec<u8>>
    ensures { IfOk result (λ text. text.items
        ≡ spec.report_lines (report_of (S.pod state.now) agent.now)) }
{
    let lines = report(alloc, state, agent)?;
    let mut text = Vec::new(alloc);
    append_lines(alloc, &mut text, lines.as_slice())?;
    Ok(text)
}
