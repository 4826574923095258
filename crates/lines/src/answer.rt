// The bytes of an answer.
ghost use Rattle.lines.specs.Answers.{Refusal, refusal_text, report_text};
ghost use Rattle.std.specs.Prelude.{◌≡◌, IfOk, string_bytes};

use fault::TextFault;
use scale::verdict::Verdict;
use std::alloc::{AllocError, Global};

// The line for a refusal's number: `! ` and the number.
pub fn refusal_number(heap: Global, number: u8) -> Result<String, AllocError>
    ensures { IfOk result (λ text. string_bytes text ≡ refusal_text number) }
{
    format!(in heap; "! {number}\n")
}

// The line for a refusal: `! ` and its number.
pub fn refusal(heap: Global, fault: TextFault) -> Result<String, AllocError>
    ensures { Refusal fault result }
{
    let number = fault.number().ok_or(AllocError)?;
    refusal_number(heap, number)
}

// The line for a report: how many letters, verdict, floor and ceiling.
pub fn report(
    heap: Global,
    count: usize,
    values: (Verdict, Verdict, Verdict),
) -> Result<String, AllocError>
    ensures { IfOk result (λ text. string_bytes text ≡ report_text count values) }
{
    let (verdict, floor, ceiling) = values;
    // a verdict is printed as its number, its discriminant
    format!(in heap;
        "{count} {} {} {}\n",
        verdict as u8, floor as u8, ceiling as u8
    )
}
