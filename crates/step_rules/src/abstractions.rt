//! Whether a clause is an abstraction of another one.

ghost use Rattle.std.specs.Prelude.{◌≡◌, map};
ghost use Rattle.std.specs.List.{list_all};
ghost use Rattle.term_base.specs.Trees.{var, tree, trees, occurs, any_occurs, same_tree, same_trees};
ghost use Rattle.term_base.specs.Substitution.{put_in, put_all};
ghost use Rattle.term_base.specs.Lits.{lit, lits, lit_occurs, clause_occurs, put_lit, put_clause};
ghost use Rattle.term_base.specs.Purity as purity_of;
ghost use Rattle.step_rules.specs.Literals.{same_lit, same_lits};
ghost use Rattle.step_rules.specs.Abstraction as spec;

use term_base::{Clause, Kind, Literal, Purity, Sort, Symbol, Term, Variable, purity};

/// Whether a variable is in a term.
fn occurs(v: Variable, t: &Term) -> bool
    ensures { result ≡ occurs v (tree t.now) }
{
    match t {
        Term::Var(w) => *w == v,
        Term::Num(_) | Term::True => false,
        Term::Sum(a, b) => occurs(v, a.get()) || occurs(v, b.get()),
        Term::Scale(_, a) => occurs(v, a.get()),
        Term::App(_, args) => {
            for arg in args.as_slice() {
                if occurs(v, arg) {
                    return true;
                }
            }
            false
        }
    }
}

fn occurs_in_literal(v: Variable, l: &Literal) -> bool
    ensures { result ≡ lit_occurs v (lit l.now) }
{
    match l {
        Literal::Equal(s, t) | Literal::Differ(s, t) | Literal::AtMost(s, t) => {
            occurs(v, s) || occurs(v, t)
        }
    }
}

fn occurs_in(v: Variable, literals: &[Literal]) -> bool
    ensures { result ≡ clause_occurs v (map lit literals.now) }
{
    for literal in literals {
        if occurs_in_literal(v, literal) {
            return true;
        }
    }
    false
}

/// Whether the variable fits a term of this purity.
fn stands_for(v: Variable, p: Purity) -> bool
    ensures { result ≡ spec.stands_for v p }
{
    match p {
        Purity::Pure => v.kind == Kind::Abstraction,
        Purity::Impure => v.kind != Kind::Abstraction && v.sort == Sort::Int,
        Purity::Foreground => false,
    }
}

/// The left side of a literal.
fn left(l: &Literal) -> &Term
    ensures { tree result.now ≡ (lit l.now).left }
{
    match l {
        Literal::Equal(s, _) | Literal::Differ(s, _) | Literal::AtMost(s, _) => s,
    }
}

/// The right side of a literal.
fn right(l: &Literal) -> &Term
    ensures { tree result.now ≡ (lit l.now).right }
{
    match l {
        Literal::Equal(_, t) | Literal::Differ(_, t) | Literal::AtMost(_, t) => t,
    }
}

fn is_apart(definitions: &[Literal], v: Variable) -> bool
    ensures { result ≡ spec.is_apart (map lit definitions.now) v }
{
    for definition in definitions {
        if occurs(v, right(definition)) {
            return false;
        }
    }
    true
}

fn is_new_for(
    signature: &[Symbol],
    c: &[Literal],
    definitions: &[Literal],
    v: Variable,
    t: &Term,
) -> bool
    ensures { result ≡ spec.is_new_for signature.now (map lit c.now) (map lit definitions.now) v
        (tree t.now) }
{
    stands_for(v, purity(signature, t)) && !occurs_in(v, c) && is_apart(definitions, v)
}

/// Whether a literal is `x != t` of a new variable that fits the term.
fn is_definition(signature: &[Symbol], c: &[Literal], definitions: &[Literal], d: &Literal) -> bool
    ensures { result ≡ spec.is_definition signature.now (map lit c.now) (map lit definitions.now)
        (lit d.now) }
{
    match d {
        Literal::Differ(s, t) => match s {
            Term::Var(v) => is_new_for(signature, c, definitions, *v, t),
            _ => false,
        },
        Literal::Equal(_, _) => false,
        Literal::AtMost(_, _) => false,
    }
}

fn are_definitions(
    signature: &[Symbol],
    c: &[Literal],
    definitions: &[Literal],
    some: &[Literal],
) -> bool
    ensures { result ≡ list_all
        (spec.is_definition signature.now (map lit c.now) (map lit definitions.now))
        (map lit some.now) }
{
    for d in some {
        if !is_definition(signature, c, definitions, d) {
            return false;
        }
    }
    true
}

fn differs_from_all(d: &Literal, others: &[Literal]) -> bool
    ensures { result ≡ spec.differs_from_all (lit d.now) (map lit others.now) }
{
    for other in others {
        if left(d) == left(other) {
            return false;
        }
    }
    true
}

/// Whether no two variables are one.
fn are_distinct(definitions: &[Literal]) -> bool
    ensures { result ≡ spec.are_distinct (map lit definitions.now) }
{
    for (i, d) in definitions.iter().enumerate() {
        if !differs_from_all(d, &definitions[i + 1..]) {
            return false;
        }
    }
    true
}

/// Whether a literal has the variable as its left side.
fn is_name(d: &Literal, v: Variable) -> bool
    ensures { result ≡ same_tree (lit d.now).left (var v) }
{
    match left(d) {
        Term::Var(w) => *w == v,
        _ => false,
    }
}

/// Whether a literal has the term as its right side.
fn is_replaced(d: &Literal, u: &Term) -> bool
    ensures { result ≡ same_tree (lit d.now).right (tree u.now) }
{
    *right(d) == *u
}

fn is_variable(v: Variable, u: &Term) -> bool
    ensures { result ≡ same_tree (var v) (tree u.now) }
{
    match u {
        Term::Var(w) => v == *w,
        _ => false,
    }
}

/// Whether a variable goes back to this term.
fn is_term_of(definitions: &[Literal], v: Variable, u: &Term) -> bool
    ensures { result ≡ same_tree (spec.put_back (map lit definitions.now) v) (tree u.now) }
{
    for d in definitions {
        if is_name(d, v) {
            return is_replaced(d, u);
        }
    }
    is_variable(v, u)
}

/// Whether a term with each variable's term put back is another term.
#[cycle(is_put_back)]
fn is_put_back(definitions: &[Literal], t: &Term, u: &Term) -> bool
    ensures { result ≡ same_tree (put_in (spec.put_back (map lit definitions.now)) (tree t.now))
        (tree u.now) }
{
    match t {
        Term::Var(v) => is_term_of(definitions, *v, u),
        Term::Num(m) => match u {
            Term::Num(n) => *m == *n,
            _ => false,
        },
        Term::True => match u {
            Term::True => true,
            _ => false,
        },
        Term::Sum(a, b) => match u {
            Term::Sum(c, d) => is_put_back(definitions, a.get(), c.get())
                && is_put_back(definitions, b.get(), d.get()),
            _ => false,
        },
        Term::Scale(j, a) => match u {
            Term::Scale(k, b) => *j == *k && is_put_back(definitions, a.get(), b.get()),
            _ => false,
        },
        Term::App(f, xs) => match u {
            Term::App(g, ys) => *f == *g && are_put_back(definitions, xs.as_slice(), ys.as_slice()),
            _ => false,
        },
    }
}

#[cycle(is_put_back)]
fn are_put_back(definitions: &[Literal], xs: &[Term], ys: &[Term]) -> bool
    ensures { result ≡ same_trees
        (put_all (spec.put_back (map lit definitions.now)) (trees (map tree xs.now)))
        (trees (map tree ys.now)) }
{
    let mut rest = ys;
    for x in xs {
        match rest {
            [] => return false,
            [y, others @ ..] => {
                if !is_put_back(definitions, x, y) {
                    return false;
                }
                rest = others;
            }
        }
    }
    rest.is_empty()
}

fn is_literal_put_back(definitions: &[Literal], l: &Literal, m: &Literal) -> bool
    ensures { result ≡ same_lit (put_lit (spec.put_back (map lit definitions.now)) (lit l.now))
        (lit m.now) }
{
    match (l, m) {
        (Literal::Equal(a, b), Literal::Equal(c, d))
        | (Literal::Differ(a, b), Literal::Differ(c, d))
        | (Literal::AtMost(a, b), Literal::AtMost(c, d)) => {
            is_put_back(definitions, a, c) && is_put_back(definitions, b, d)
        }
        _ => false,
    }
}

fn is_body(definitions: &[Literal], body: &[Literal], c: &[Literal]) -> bool
    ensures { result ≡ same_lits
        (put_clause (spec.put_back (map lit definitions.now)) (map lit body.now))
        (map lit c.now) }
{
    let mut rest = c;
    for l in body {
        match rest {
            [] => return false,
            [m, others @ ..] => {
                if !is_literal_put_back(definitions, l, m) {
                    return false;
                }
                rest = others;
            }
        }
    }
    rest.is_empty()
}

fn goes_back(definitions: &[Literal], d: &Literal) -> bool
    ensures { result ≡ spec.goes_back (map lit definitions.now) (lit d.now) }
{
    is_put_back(definitions, left(d), right(d)) && is_put_back(definitions, right(d), right(d))
}

fn go_back(definitions: &[Literal], some: &[Literal]) -> bool
    ensures { result ≡ list_all (spec.goes_back (map lit definitions.now)) (map lit some.now) }
{
    for d in some {
        if !goes_back(definitions, d) {
            return false;
        }
    }
    true
}

fn abstracts(signature: &[Symbol], c: &[Literal], body: &[Literal], definitions: &[Literal]) -> bool
    ensures { result ≡ spec.abstracts signature.now (map lit c.now) (map lit body.now)
        (map lit definitions.now) }
{
    if !are_definitions(signature, c, definitions, definitions) || !are_distinct(definitions) {
        return false;
    }
    is_body(definitions, body, c) && go_back(definitions, definitions)
}

#[tactic(auto, using(crate::proofs::Shorter::abstraction_parts))]
/// Whether `d` is `c` with some terms replaced by new variables, followed by one literal `x != t` for each: an
/// abstraction variable for a Pure term, an ordinary variable of sort Int for an Impure one. A variable may
/// stand for no term of `c`.
pub fn is_abstraction(signature: &[Symbol], c: &Clause, d: &Clause) -> bool
    ensures { result ≡ spec.is_abstraction signature.now (lits c.now) (lits d.now) }
{
    let body = c.literals.as_slice();
    let all = d.literals.as_slice();
    if all.len() < body.len() {
        return false;
    }
    abstracts(signature, body, &all[..body.len()], &all[body.len()..])
}
