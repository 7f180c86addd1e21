//! Sums, facts and pools as text: `2*u0 + -1*u3 + 5`, `SUM <= 0`, `SUM = 0`, `M divides SUM`, `M avoids SUM` (M doesn't divide
//! it), facts of a clause with ` or ` between each two, and pools as `PARAMETERS : CLAUSE , CLAUSE`.

ghost use Rattle.std.specs.Prelude.{IsTrue, IfOk};
ghost use Rattle.lin_base.specs.Fact.{is_fact, is_lin, is_pool};

use lin_base::{Fact, Lin, Pool, is_fact, is_lin, is_pool};
use row_lines::{bad, number, whole};
use sqlite_items::Items;
use std::alloc::Global;
use text_pieces::{Bad, Unread, signed};

/// A whole number.
pub fn integer(text: &str) -> Result<i128, Unread> {
    let (z, rest) = signed(text.as_bytes(), 0)?;
    whole(z, rest)
}

// a term `K*uX` goes to the list, and a number is the constant
fn put_part(part: &str, coefs: &mut Items<(u32, i128)>, constant: &mut i128) -> Result<(), Unread> {
    match part.split_once("*u") {
        Some((factor, unknown)) => coefs.push((number(unknown)?, integer(factor)?))?,
        None => *constant = integer(part)?,
    }
    Ok(())
}

/// A sum, well formed or not.
pub fn any_sum(alloc: Global, text: &str) -> Result<Lin, Unread> {
    let mut coefs = Items::new(alloc);
    let mut constant = 0;
    for part in text.split(" + ") {
        put_part(part, &mut coefs, &mut constant)?;
    }
    Ok(Lin { coefs, constant })
}

/// A well-formed sum.
pub fn sum(alloc: Global, text: &str) -> Result<Lin, Unread>
    ensures { IfOk result (λ t. IsTrue (is_lin t)) }
{
    let t = any_sum(alloc, text)?;
    if is_lin(&t) {
        Ok(t)
    } else {
        Err(Unread::Bad(Bad { left: 0 }))
    }
}

/// A fact, well formed or not.
pub fn any_fact(alloc: Global, text: &str) -> Result<Fact, Unread> {
    if let Some((modulus, of)) = text.split_once(" divides ") {
        let m = integer(modulus)?;
        return Ok(Fact::Divides(m, any_sum(alloc, of)?));
    }
    if let Some((modulus, of)) = text.split_once(" avoids ") {
        let m = integer(modulus)?;
        return Ok(Fact::NotDivides(m, any_sum(alloc, of)?));
    }
    if let Some(of) = text.strip_suffix(" <= 0") {
        return Ok(Fact::AtMostZero(any_sum(alloc, of)?));
    }
    match text.strip_suffix(" = 0") {
        Some(of) => Ok(Fact::Zero(any_sum(alloc, of)?)),
        None => bad(),
    }
}

/// A well-formed fact.
pub fn fact(alloc: Global, text: &str) -> Result<Fact, Unread>
    ensures { IfOk result (λ f. IsTrue (is_fact f)) }
{
    let made = any_fact(alloc, text)?;
    if is_fact(&made) {
        Ok(made)
    } else {
        Err(Unread::Bad(Bad { left: 0 }))
    }
}

// `false` is the clause without a fact
fn facts(alloc: Global, text: &str) -> Result<Items<Fact>, Unread> {
    let mut clause = Items::new(alloc);
    if text != "false" {
        for part in text.split(" or ") {
            clause.push(any_fact(alloc, part)?)?;
        }
    }
    Ok(clause)
}

// nothing is the list without a clause
fn clauses(alloc: Global, text: &str) -> Result<Items<Items<Fact>>, Unread> {
    let mut all = Items::new(alloc);
    if !text.is_empty() {
        for part in text.split(" , ") {
            all.push(facts(alloc, part)?)?;
        }
    }
    Ok(all)
}

fn any_pool(alloc: Global, text: &str) -> Result<Pool, Unread> {
    match text.split_once(" :") {
        Some((params, rest)) => {
            let params = number(params)?;
            let clauses = clauses(alloc, rest.strip_prefix(" ").unwrap_or(rest))?;
            Ok(Pool { params, clauses })
        }
        None => bad(),
    }
}

/// A well-formed pool.
pub fn pool(alloc: Global, text: &str) -> Result<Pool, Unread>
    ensures { IfOk result (λ p. IsTrue (is_pool p)) }
{
    let made = any_pool(alloc, text)?;
    if is_pool(&made) {
        Ok(made)
    } else {
        Err(Unread::Bad(Bad { left: 0 }))
    }
}
