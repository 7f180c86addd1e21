//! Background clauses that a certificate refutes.

ghost use Rattle.std.specs.Prelude.{◌≡◌, IfOk, IsTrue};
ghost use Rattle.term_base.specs.Lits.{lits};
ghost use Rattle.bg_view.specs.Background as background;
ghost use Rattle.proof_steps.specs.Closing as spec;
ghost use Rattle.proof_steps.specs.Standing.{close_stands, is_empty_clause};

use crate::premises::premises;
use crate::steps::Step;
use bg_view::{ViewError, are_background, view};
use cert_tree::{Cert, check_unsat};
use std::alloc::{AllocError, Global};
use term_base::{Clause, Symbol};

/// Whether a clause is empty.
pub(crate) fn is_empty_clause(c: &Clause) -> bool
    ensures { result ≡ is_empty_clause (lits c.now) }
{
    c.literals.is_empty()
}

/// Whether a certificate stands for the pool of background clauses.
fn view_stands(
    alloc: Global,
    signature: &[Symbol],
    clauses: &[Clause],
    cert: &Cert,
) -> Result<bool, AllocError>
    requires { IsTrue (background.are_background signature.now clauses.now) }
    ensures { IfOk result (λ yes. yes ≡ spec.view_stands clauses.now cert.now) }
{
    match view(alloc, signature, clauses) {
        Ok(viewed) => check_unsat(alloc, &viewed.pool, cert),
        Err(ViewError::Wide(_)) => Ok(false),
        Err(ViewError::Memory) => Err(AllocError),
    }
}

/// Whether the clauses are background clauses that a certificate refutes.
fn refutes(
    alloc: Global,
    signature: &[Symbol],
    cert: &Cert,
    clauses: &[Clause],
) -> Result<bool, AllocError>
    ensures { IfOk result (λ yes. yes ≡ spec.refutes signature.now cert.now clauses.now) }
{
    if !are_background(signature, clauses) {
        return Ok(false);
    }
    view_stands(alloc, signature, clauses, cert)
}

/// Whether a clause is empty and a certificate refutes the clauses of these steps.
pub(crate) fn close_stands(
    alloc: Global,
    signature: &[Symbol],
    before: &[Step],
    of: &[u32],
    cert: &Cert,
    c: &Clause,
) -> Result<bool, AllocError>
    ensures { IfOk result (λ yes. yes
        ≡ close_stands signature.now before.now of.now cert.now (lits c.now)) }
{
    if !is_empty_clause(c) {
        return Ok(false);
    }
    match premises(alloc, before, of)? {
        Some(clauses) => refutes(alloc, signature, cert, clauses.as_slice()),
        None => Ok(false),
    }
}
