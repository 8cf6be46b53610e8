// The `cdreg` of a transfer's register, by the tokens of a text.

ghost use Rattle.std.specs.Prelude.{◌≡◌, None, option_map};
ghost use Rattle.camac_explain_case.specs.Case.{has_register, is_name, last_set, name_in, register_at, register_behind, sets};

use camac_tokens::{Keyword, Token, TokenKind, are_same};

/// The register of the transfer that begins where so many bytes are left.
pub fn register_at(tokens: &[Token], left: usize) -> Option<&[u8]>
    ensures { option_map (λ n. n.now) result ≡ register_at left tokens.now }
{
    let mut rest = tokens;
    while let [token, after @ ..] = rest {
        if token.spot.left == left {
            return register_behind(&token.kind, after);
        }
        rest = after;
    }
    None
}

fn register_behind<'a>(kind: &TokenKind, after: &'a [Token]) -> Option<&'a [u8]>
    ensures { option_map (λ n. n.now) result ≡ register_behind kind.now after.now }
{
    match after {
        [_, register, ..] if has_register(kind) => name_in(&register.kind),
        _ => None,
    }
}

fn has_register(kind: &TokenKind) -> bool
    ensures { result ≡ has_register kind.now }
{
    use Keyword::{Cfmad, Cfsa, Cfubc, Cfubr, Cssa};
    match kind {
        TokenKind::Keyword(Cfsa | Cssa | Cfubc | Cfubr | Cfmad) => true,
        _ => false,
    }
}

fn name_in(kind: &TokenKind) -> Option<&[u8]>
    ensures { option_map (λ n. n.now) result ≡ name_in kind.now }
{
    match kind {
        TokenKind::Name(name) => Some(name.as_bytes()),
        _ => None,
    }
}

/// The line of the last `cdreg` of a register before the place where so many bytes are left.
pub fn last_set(tokens: &[Token], left: usize, register: &[u8]) -> Option<u32>
    ensures { result ≡ last_set left register.now None tokens.now }
{
    let mut rest = tokens;
    let mut line = None;
    while let [token, after @ ..] = rest {
        if left < token.spot.left && sets(register, &token.kind, after) {
            line = Some(token.spot.line);
        }
        rest = after;
    }
    line
}

fn sets(register: &[u8], kind: &TokenKind, after: &[Token]) -> bool
    ensures { result ≡ sets register.now kind.now after.now }
{
    match (kind, after) {
        (TokenKind::Keyword(Keyword::Cdreg), [next, ..]) => is_name(register, &next.kind),
        _ => false,
    }
}

fn is_name(register: &[u8], kind: &TokenKind) -> bool
    ensures { result ≡ is_name register.now kind.now }
{
    match kind {
        TokenKind::Name(name) => are_same(name.as_bytes(), register),
        _ => false,
    }
}
