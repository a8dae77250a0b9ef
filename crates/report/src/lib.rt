#![tactic(auto)]

ghost use Rattle.std.specs.Prelude.{◌≡◌, IfOk, string_bytes};
ghost use Rattle.report.specs.Report.{refusal, unclosed};

use reading::Fault;
use std::alloc::{AllocError, Global};

// The line that reports a refusal.
pub fn refusal_line(heap: Global, fault: &Fault) -> Result<String, AllocError>
    ensures { IfOk result (λ s. string_bytes s ≡ refusal fault.now) }
{
    format!(in heap; "{fault}\n")
}

// The line that reports a text without a closing line, with the number 11 and the layer 4, which the format fixes.
pub fn unclosed_line(heap: Global, lines: usize) -> Result<String, AllocError>
    ensures { IfOk result (λ s. string_bytes s ≡ unclosed lines) }
{
    format!(in heap; "R\t11\t4\t{lines}\t0\n")
}
