//! White space and comments.
ghost use Rattle.std.specs.Prelude.{◌≡◌, ◌≤◌, length};
ghost use Rattle.std.specs.Option.{option_copied};
ghost use Rattle.tff_lexer.specs.Blanks.{after_comment_line, after_comment_block, after_blank, skip};

/// What follows the end of a comment that `%` begins.
fn after_comment_line(text: &[u8]) -> &[u8]
    ensures { result.now ≡ after_comment_line text.now }
{
    let mut rest = text;
    while let Some((first, more)) = rest.split_first() {
        rest = more;
        if *first == b'\n' {
            return rest;
        }
    }
    rest
}

/// What follows the first `*/`, where there is one.
fn after_comment_block(text: &[u8]) -> Option<&[u8]>
    ensures { option_copied result ≡ after_comment_block text.now }
{
    let mut rest = text;
    while let Some((_, more)) = rest.split_first() {
        if rest.starts_with(b"*/") {
            return Some(&more[1..]);
        }
        rest = more;
    }
    None
}

/// What follows the white-space byte or the comment that begins here, if one does.
fn after_blank(text: &[u8]) -> Option<&[u8]>
    ensures { option_copied result ≡ after_blank text.now }
{
    let (first, rest) = text.split_first()?;
    match first {
        b'\t' | b'\n' | b'\r' | b' ' => Some(rest),
        b'%' => Some(after_comment_line(rest)),
        b'/' if rest.starts_with(b"*") => after_comment_block(&rest[1..]),
        _ => None,
    }
}

/// What follows all white-space bytes and comments that begin here.
pub(crate) fn skip_blanks(text: &[u8]) -> &[u8]
    ensures rest { result.now ≡ skip text.now }
    ensures within { length result.now ≤ length text.now }
{
    let mut rest = text;
    while let Some(more) = after_blank(rest) {
        rest = more;
    }
    rest
}
