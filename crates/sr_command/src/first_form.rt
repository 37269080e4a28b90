//! The texts that are compiled: `define i32 @main() { ret i32 N }`.

ghost use Rattle.std.specs.Prelude.{◌≡◌, ◌≢◌, ◌⊎◌, ◌++◌, ◌<◌, ◌^◌, ◌∷◌, ◌↔◌, [], List, ℕ, ℤ, IsTrue, IfSome, IfNone, MatchOption, unsigned_abs, codes};
ghost use Rattle.sr_command.specs.FirstForm.{Returns, ReturnsLiteral, Writes, IsEnd, exit_status};

use itoa::Buffer;

/// Tells whether the literal is the number in decimal, with at most nine digits.
fn is_written(number: i32, literal: &[u8]) -> bool
    ensures { IsTrue result ↔ Writes literal.now number }
{
    let mut buffer = Buffer::new();
    number.unsigned_abs() < 1_000_000_000 && buffer.format(number).as_bytes() == literal
}

/// Returns the number that is written in decimal: an optional `-`, and at most nine digits with no zero
/// before them.
fn number_of(literal: &[u8]) -> Option<i32>
    ensures { MatchOption result ((number : ℤ) → Writes literal.now number →
        ⊥) (Writes literal.now) }
{
    match std::str::from_utf8(literal) {
        Err(_) => None,
        Ok(text) => match text.parse::<i32>() {
            Ok(number) if is_written(number, literal) => Some(number),
            _ => None,
        },
    }
}

/// Returns what stands between `define i32 @main() { ret i32 ` and the end of the text.
fn body_of(text: &[u8]) -> Option<&[u8]>
    ensures { MatchOption result ((body : List ℕ) →
        text.now ≢ codes "define i32 @main() { ret i32 " ++ body)
        (λ body. text.now ≡ codes "define i32 @main() { ret i32 " ++ body.now) }
{
    text.strip_prefix(b"define i32 @main() { ret i32 ")
}

/// Returns the body before its ` }`, after which one line feed may stand.
fn before_end(body: &[u8]) -> Option<&[u8]>
    ensures { MatchOption result ((literal rest : List ℕ) → IsEnd rest →
        body.now ≢ literal ++ rest) (λ literal. (rest : List ℕ) × IsEnd rest
        × (body.now ≡ literal.now ++ rest)) }
{
    body.strip_suffix(b" }").or(body.strip_suffix(b" }\n"))
}

/// Returns the number that `main` returns in this text; `None` where the text is not of the form.
pub fn returned_number(text: &[u8]) -> Option<i32>
    ensures found { IfSome result (Returns text.now) }
    ensures none { IfNone result ((number : ℤ) → Returns text.now number → ⊥) }
{
    match body_of(text) {
        None => None,
        Some(body) => match before_end(body) {
            None => None,
            Some(literal) => number_of(literal),
        },
    }
}

/// Returns what the system sees of the number that `main` returns.
pub fn exit_status(number: i32) -> u8
    ensures { result ≡ exit_status number }
{
    number.rem_euclid(256) as u8
}
