//! The lines of refusals and of checks.

ghost use Rattle.std.specs.Prelude.{◌≡◌, IfOk};
ghost use Rattle.beagle_top.specs.Texts as spec;

use proof_check::Checked;
use std::alloc::{AllocError, Global};
use tff_reader::Refused;

/// The line for words that are refused.
pub const USAGE_LINE: &str = "% usage\n";

/// The line for more bytes than are read.
pub const TOO_LONG: &str = "% refused: TooLong\n";

/// The line for input that the program does not answer.
pub const NOT_BUILT: &str = "% refused: NotBuilt\n";

// The line of a derivation that is verified.
const VERIFIED: &str = "% verified derivation\n";

// The bytes of a text.
fn bytes_of(alloc: Global, text: &str) -> Result<Vec<u8>, AllocError>
    ensures { IfOk result (λ bytes. bytes.items ≡ text.now) }
{
    Vec::from_slice(alloc, text.as_bytes())
}

/// The line for input that the program does not answer.
pub fn not_built(alloc: Global) -> Result<Vec<u8>, AllocError>
    ensures { IfOk result (λ text. text.items ≡ spec.not_built) }
{
    bytes_of(alloc, NOT_BUILT)
}

/// The line of a fault of reading.
pub fn refused(alloc: Global, fault: &Refused) -> Result<Vec<u8>, AllocError>
    ensures { IfOk result (λ text. text.items ≡ spec.refused fault.now) }
{
    let line = format!(in alloc; "{fault}\n")?;
    bytes_of(alloc, line.as_str())
}

/// The line of a problem with more clauses than are taken.
pub fn too_many(alloc: Global, count: u64) -> Result<Vec<u8>, AllocError>
    ensures { IfOk result (λ text. text.items ≡ spec.too_many count) }
{
    let line = format!(in alloc; "% refused: TooManyClauses {count}\n")?;
    bytes_of(alloc, line.as_str())
}

/// The line of a derivation that is verified.
pub fn verified(alloc: Global) -> Result<Vec<u8>, AllocError>
    ensures { IfOk result (λ text. text.items ≡ spec.verified) }
{
    bytes_of(alloc, VERIFIED)
}

/// The line of a derivation with a step at fault.
pub fn refused_proof(alloc: Global, step: u32) -> Result<Vec<u8>, AllocError>
    ensures { IfOk result (λ text. text.items ≡ spec.refused_proof step) }
{
    let line = format!(in alloc; "% refused proof: step {step}\n")?;
    bytes_of(alloc, line.as_str())
}

/// The line of a text with a bad byte.
pub fn bad_text(alloc: Global, at: u64) -> Result<Vec<u8>, AllocError>
    ensures { IfOk result (λ text. text.items ≡ spec.bad_text at) }
{
    let line = format!(in alloc; "% bad text at {at}\n")?;
    bytes_of(alloc, line.as_str())
}

/// The line of what a check finds.
pub fn found(alloc: Global, checked: &Checked) -> Result<Vec<u8>, AllocError>
    ensures { IfOk result (λ text. text.items ≡ spec.found checked.now) }
{
    match checked {
        Checked::Faulty(fault) => refused(alloc, fault),
        Checked::TooMany(count) => too_many(alloc, *count),
        Checked::SaturatedList => not_built(alloc),
        Checked::BadText(at) => bad_text(alloc, *at),
        Checked::RefusedStep(step) => refused_proof(alloc, *step),
        Checked::Verified => verified(alloc),
    }
}
