//! The lines that name faults of texts.

ghost use Rattle.std.specs.Prelude.{◌≡◌, IfOk};
ghost use Rattle.endings.specs.ProgramTexts.{fault_text, mps_fault_text, opb_fault_text};
ghost use Rattle.endings.specs.SolutionTexts.{solution_fault_text};

use crate::forms::ProgramFault;
use mps_profile::MpsFaultKind;
use opb_text::OpbFaultKind;
use point_text::SolFaultKind;
use std::alloc::{AllocError, Global};
use text_lines::Fault;

/// The line that names a fault of a program's text.
pub fn fault_line(alloc: Global, fault: ProgramFault) -> Result<Vec<u8>, AllocError>
    ensures { IfOk result (λ text. text.items ≡ fault_text fault) }
{
    match fault {
        ProgramFault::Mps(fault) => mps_fault_line(alloc, fault),
        ProgramFault::Opb(fault) => opb_fault_line(alloc, fault),
    }
}

/// The line that names a fault of an MPS text.
fn mps_fault_line(alloc: Global, fault: Fault<MpsFaultKind>) -> Result<Vec<u8>, AllocError>
    ensures { IfOk result (λ text. text.items ≡ mps_fault_text fault) }
{
    let number = fault.kind.number();
    let line = fault.line;
    let text = format!(in alloc; "error M{number} line {line}\n")?;
    Vec::from_slice(alloc, text.as_bytes())
}

/// The line that names a fault of an OPB text.
fn opb_fault_line(alloc: Global, fault: Fault<OpbFaultKind>) -> Result<Vec<u8>, AllocError>
    ensures { IfOk result (λ text. text.items ≡ opb_fault_text fault) }
{
    let number = fault.kind.number();
    let line = fault.line;
    let text = format!(in alloc; "error O{number} line {line}\n")?;
    Vec::from_slice(alloc, text.as_bytes())
}

/// The line that names a fault of a solution's text.
pub fn solution_fault_line(alloc: Global, fault: Fault<SolFaultKind>) -> Result<Vec<u8>, AllocError>
    ensures { IfOk result (λ text. text.items ≡ solution_fault_text fault) }
{
    let number = fault.kind.number();
    let line = fault.line;
    let text = format!(in alloc; "error S{number} line {line}\n")?;
    Vec::from_slice(alloc, text.as_bytes())
}
