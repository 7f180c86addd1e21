//! Signs.
ghost use Rattle.std.specs.Prelude.{◌≡◌, ◌||◌, [], ◌∷◌, nat_eq, if◌then◌else◌};
ghost use Rattle.std.specs.List.{starts_with};
ghost use Rattle.tff_lexer.specs.Forms.{begins_with, is_sign, is_one_of};
ghost use Rattle.tff_lexer.specs.Prefixes.{IsLongestPrefix};

/// Whether the byte is a sign that no longer sign begins with.
fn is_one_byte_sign(b: u8) -> bool
    ensures { result ≡ is_one_of "()[],.:&|?*>" b }
{
    matches!(
        b,
        b'(' | b')' | b'[' | b']' | b',' | b'.' | b':' | b'&' | b'|' | b'?' | b'*' | b'>'
    )
}

/// 2 where one of these bytes follows, else 1.
fn one_or_two(rest: &[u8], second: u8, other: u8) -> usize
    ensures { result ≡ (if starts_with nat_eq rest.now (second ∷ [])
        || starts_with nat_eq rest.now (other ∷ []) then 2 else 1) }
{
    match rest.first() {
        Some(b) => {
            if *b == second {
                return 2;
            }
            if *b == other { 2 } else { 1 }
        }
        None => 1,
    }
}

/// The length of the sign that `<` begins, by what follows, or 0.
fn less_sign_length(rest: &[u8]) -> usize
    ensures { result ≡ (if begins_with "=>" rest.now || begins_with "~>" rest.now then 3
        else if begins_with "=" rest.now then 2 else 0) }
{
    if rest.starts_with(b"=>") {
        return 3;
    }
    if rest.starts_with(b"~>") {
        return 3;
    }
    if rest.starts_with(b"=") { 2 } else { 0 }
}

/// The length of the longest prefix that is a sign, or 0.
pub(crate) fn sign_length(text: &[u8]) -> usize
    ensures { IsLongestPrefix is_sign text.now result }
{
    let Some((first, rest)) = text.split_first() else {
        return 0;
    };
    match first {
        b'<' => less_sign_length(rest),
        b'=' => one_or_two(rest, b'>', b'>'),
        b'~' => one_or_two(rest, b'&', b'|'),
        b'!' => one_or_two(rest, b'=', b'>'),
        b if is_one_byte_sign(*b) => 1,
        _ => 0,
    }
}
