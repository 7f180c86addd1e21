//! Terms as keys of a hash table.

ghost use Rattle.std.specs.Prelude.{◌≡◌, fold};
ghost use Rattle.weak_abstraction.specs.Keys as spec;

use std::hash::{Hash, Hasher};
use term_base::Term;

/// A term that is looked up by hashing.
#[derive(Clone, Copy)]
pub(crate) struct Key<'a> {
    pub(crate) term: &'a Term,
}

impl<'a> PartialEq for Key<'a> {
    ghost use Rattle.std.specs.Cmp.{partial_equiv_from_equiv};
    ghost use Rattle.weak_abstraction.specs.Keys.{same_key, same_key_equiv};

    ghost eq = { same_key };

    ghost laws = { partial_equiv_from_equiv same_key_equiv };

    fn eq(&self, other: &Key<'a>) -> bool {
        *self.term == *other.term
    }
}

impl<'a> Eq for Key<'a> {
    ghost use Rattle.weak_abstraction.specs.Keys.{same_key_equiv};

    ghost laws = { same_key_equiv };
}

impl<'a> Hash for Key<'a> {
    ghost use Rattle.weak_abstraction.specs.Keys.{fed_by, same_keys_feed_alike};

    ghost hash_input = { fed_by };

    ghost respects_eq = { same_keys_feed_alike };

    fn hash<H: Hasher>(&self, state: &mut H) {
        feed(self.term, state);
    }
}

/// Feeds a term to a hasher: what stands at its top, and then its arguments from left to right.
fn feed<H: Hasher>(t: &Term, state: &mut H)
    ensures { state.new ≡ fold H.write state.old (spec.fed t.now) }
{
    match t {
        Term::Var(v) => {
            state.write_u8(0);
            state.write_u32(v.id);
        }
        Term::Num(n) => {
            state.write_u8(1);
            state.write_i128(*n);
        }
        Term::True => state.write_u8(2),
        Term::Sum(a, b) => {
            state.write_u8(3);
            feed(a.get(), state);
            feed(b.get(), state);
        }
        Term::Scale(k, a) => {
            state.write_u8(4);
            state.write_i128(*k);
            feed(a.get(), state);
        }
        Term::App(f, args) => {
            state.write_u8(5);
            state.write_u32(*f);
            for arg in args.as_slice() {
                feed(arg, state);
            }
        }
    }
}
