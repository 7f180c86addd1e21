//! Looking up binders by their numbers: by halving among those whose numbers ascend, one by one in the others.

ghost use Rattle.std.specs.Prelude.{◌≡◌, ◌<◌, ◌-◌, true, length};
ghost use Rattle.normal_form.specs.Lookup.{Ascends, IsBehind, IsUpTo, number_at};

use term_base::Term;

/// The number of the binder at a place.
fn number(terms: &[(u32, Term)], place: usize) -> u32
    requires { place < length terms.now }
    ensures { result ≡ number_at place terms.now }
{
    terms[place].0
}

/// Whether the number of a binder is above that of the binder before it.
fn is_above_last(terms: &[(u32, Term)], place: usize) -> bool
    requires { place < length terms.now }
    ensures { result ≡ true → 0 < place → number_at (place - 1) terms.now < number_at place terms.now }
{
    if place == 0 {
        return true;
    }
    number(terms, place - 1) < number(terms, place)
}

/// How many binders from the outermost on have ascending numbers, where so many are known to have them.
pub(crate) fn ascending_from(terms: &[(u32, Term)], known: usize) -> usize
    requires { Ascends known terms.now }
    ensures { Ascends result terms.now }
{
    let mut ascending = known;
    while ascending < terms.len() {
        if !is_above_last(terms, ascending) {
            return ascending;
        }
        ascending += 1;
    }
    ascending
}

/// How many of the first binders, whose numbers ascend, have numbers up to this one.
fn up_to(terms: &[(u32, Term)], ascending: usize, id: u32) -> usize
    requires { Ascends ascending terms.now }
    ensures { IsUpTo id ascending terms.now result }
{
    let mut low = 0;
    let mut high = ascending;
    while low < high {
        let middle = low + (high - low) / 2;
        if number(terms, middle) <= id {
            low = middle + 1;
        } else {
            high = middle;
        }
    }
    low
}

/// The place behind the innermost binder with this number, or 0 where there is none. The numbers of the first
/// `ascending` binders ascend.
pub(crate) fn place_behind(terms: &[(u32, Term)], ascending: usize, id: u32) -> usize
    requires { Ascends ascending terms.now }
    ensures { IsBehind id terms.now result }
{
    let mut behind = terms.len();
    while behind > ascending {
        if number(terms, behind - 1) == id {
            return behind;
        }
        behind -= 1;
    }
    let place = up_to(terms, ascending, id);
    if place > 0 && number(terms, place - 1) == id {
        return place;
    }
    0
}
