//! Classifies tokens by their texts.
ghost use Rattle.std.specs.Prelude.{◌≡◌, nat_eq};
ghost use Rattle.std.specs.Cmp.Lexicographic.{pointwise};
ghost use Rattle.tff_grammar.specs.Words.{is_language, is_premise, keyword_of, operation_of, dollar_piece, mark_of, link_of, sign_piece};

use crate::pieces::{
    BasicSort, Junction, Keyword, Link, Operation, Piece, Quantifier, Relation, Sign, Span,
};

/// The text is this word.
fn is(text: &[u8], word: &[u8]) -> bool
    ensures { result ≡ pointwise nat_eq text.now word.now }
{
    text == word
}

/// Another language of the TPTP.
fn is_language(text: &[u8]) -> bool
    ensures { result ≡ is_language text.now }
{
    if is(text, b"thf") {
        return true;
    }
    if is(text, b"tcf") {
        return true;
    }
    if is(text, b"fof") {
        return true;
    }
    if is(text, b"cnf") {
        return true;
    }
    is(text, b"tpi")
}

/// A role of premises.
fn is_premise(text: &[u8]) -> bool
    ensures { result ≡ is_premise text.now }
{
    if is(text, b"axiom") {
        return true;
    }
    if is(text, b"hypothesis") {
        return true;
    }
    if is(text, b"definition") {
        return true;
    }
    if is(text, b"assumption") {
        return true;
    }
    if is(text, b"lemma") {
        return true;
    }
    if is(text, b"theorem") {
        return true;
    }
    if is(text, b"corollary") {
        return true;
    }
    is(text, b"negated_conjecture")
}

/// What a lower word is beside a name.
pub(crate) fn keyword(text: &[u8]) -> Keyword
    ensures { result ≡ keyword_of text.now }
{
    if is(text, b"tff") {
        return Keyword::Tff;
    }
    if is(text, b"include") {
        return Keyword::Include;
    }
    if is(text, b"type") {
        return Keyword::Declaration;
    }
    if is(text, b"conjecture") {
        return Keyword::Conjecture;
    }
    if is_language(text) {
        return Keyword::Language;
    }
    if is_premise(text) {
        Keyword::Premise
    } else {
        Keyword::Other
    }
}

/// The arithmetic word that a dollar word is.
fn operation(text: &[u8]) -> Option<Operation>
    ensures { result ≡ operation_of text.now }
{
    if is(text, b"$sum") {
        return Some(Operation::Sum);
    }
    if is(text, b"$difference") {
        return Some(Operation::Difference);
    }
    if is(text, b"$uminus") {
        return Some(Operation::Uminus);
    }
    if is(text, b"$product") {
        return Some(Operation::Product);
    }
    if is(text, b"$less") {
        return Some(Operation::Less);
    }
    if is(text, b"$lesseq") {
        return Some(Operation::LessEq);
    }
    if is(text, b"$greater") {
        return Some(Operation::Greater);
    }
    if is(text, b"$greatereq") {
        Some(Operation::GreaterEq)
    } else {
        None
    }
}

/// A dollar word as the grammar sees it.
pub(crate) fn dollar(text: &[u8], span: Span) -> Piece
    ensures { result ≡ dollar_piece text.now span }
{
    if is(text, b"$tType") {
        return Piece::OfTypes;
    }
    if is(text, b"$i") {
        return Piece::Basic(BasicSort::Individual);
    }
    if is(text, b"$int") {
        return Piece::Basic(BasicSort::Int);
    }
    if is(text, b"$o") {
        return Piece::Truth;
    }
    if is(text, b"$true") {
        return Piece::Constant(true);
    }
    if is(text, b"$false") {
        return Piece::Constant(false);
    }
    match operation(text) {
        Some(operation) => Piece::Operation(operation, span),
        None => Piece::Unsupported,
    }
}

/// The sign of its own that a text is.
fn mark(text: &[u8]) -> Option<Sign>
    ensures { result ≡ mark_of text.now }
{
    if is(text, b"(") {
        return Some(Sign::OpenRound);
    }
    if is(text, b")") {
        return Some(Sign::CloseRound);
    }
    if is(text, b"[") {
        return Some(Sign::OpenSquare);
    }
    if is(text, b"]") {
        return Some(Sign::CloseSquare);
    }
    if is(text, b",") {
        return Some(Sign::Comma);
    }
    if is(text, b".") {
        return Some(Sign::Dot);
    }
    if is(text, b":") {
        return Some(Sign::Colon);
    }
    if is(text, b"~") {
        return Some(Sign::Not);
    }
    if is(text, b"*") {
        return Some(Sign::Star);
    }
    if is(text, b">") {
        Some(Sign::Arrow)
    } else {
        None
    }
}

/// The sign between two formulas that a text is.
fn link(text: &[u8]) -> Option<Link>
    ensures { result ≡ link_of text.now }
{
    if is(text, b"=>") {
        return Some(Link::Implies);
    }
    if is(text, b"<=") {
        return Some(Link::Implied);
    }
    if is(text, b"<=>") {
        return Some(Link::Iff);
    }
    if is(text, b"<~>") {
        return Some(Link::Xor);
    }
    if is(text, b"~&") {
        return Some(Link::Nand);
    }
    if is(text, b"~|") {
        Some(Link::Nor)
    } else {
        None
    }
}

/// A sign as the grammar sees it.
pub(crate) fn sign(text: &[u8]) -> Piece
    ensures { result ≡ sign_piece text.now }
{
    if let Some(mark) = mark(text) {
        return Piece::Sign(mark);
    }
    if let Some(link) = link(text) {
        return Piece::Link(link);
    }
    if is(text, b"&") {
        return Piece::Junction(Junction::And);
    }
    if is(text, b"|") {
        return Piece::Junction(Junction::Or);
    }
    if is(text, b"!") {
        return Piece::Quantifier(Quantifier::ForAll);
    }
    if is(text, b"?") {
        return Piece::Quantifier(Quantifier::Exists);
    }
    if is(text, b"=") {
        return Piece::Relation(Relation::Equal);
    }
    if is(text, b"!=") {
        Piece::Relation(Relation::Differ)
    } else {
        Piece::Unsupported
    }
}
