//! What each rule of quieting drops.

ghost use Rattle.std.specs.Prelude.{◌+◌, ◌≡◌, ◌≤◌, ◌<◌, length, IfSome};
ghost use Rattle.std.specs.List.{prefix_len};
ghost use Rattle.ir_lex.specs.Meaning.{name_of};
ghost use Rattle.ir_lex.specs.Names.{is_note_name};
ghost use Rattle.ir_lex.specs.Quiet.{is_meta, is_hash, is_int, is_global, is_punctuation, is_byte, continues, rest_of_line, begins_header, header_line, names_note, note_line, and_comma, meta_pair, closing_len, group_len, amount_len, alignment, hash_token, word_and_group, comdat_phrase, group_phrase, quiet_word, phrase_len};

use crate::lengths::begins_with;
use crate::meaning::{begins_as, name_spelling, spelling, word_of};
use crate::token::{Kind, Token};
use ir_words::{
    is_align, is_caller, is_comdat, is_group_word, is_header, is_quiet_word, keyword_of,
};

/// The rules of quieting, in the order in which they are applied.
#[derive(Clone, Copy)]
pub enum Rule {
    /// Lines that name a file, a machine, attributes, metadata or debug records.
    HeaderLines,
    /// Lines that declare or call a note to the optimizer.
    NoteLines,
    /// Two metas in a row, and a comma directly before them.
    MetaPairs,
    /// `align` with an integer or a group, and a comma directly before it.
    Alignments,
    /// Each hash.
    Hashes,
    /// Attributes that a group may follow, with the group; a comma directly before `comdat`.
    Groups,
    /// Attributes and flags that stand alone.
    QuietWords,
}

fn is_meta(kind: Kind) -> bool
    ensures { result ≡ is_meta kind }
{
    matches!(kind, Kind::Meta)
}

fn is_hash(kind: Kind) -> bool
    ensures { result ≡ is_hash kind }
{
    matches!(kind, Kind::Hash)
}

fn is_int(kind: Kind) -> bool
    ensures { result ≡ is_int kind }
{
    matches!(kind, Kind::Int)
}

fn is_global(kind: Kind) -> bool
    ensures { result ≡ is_global kind }
{
    matches!(kind, Kind::Global)
}

fn is_punctuation(kind: Kind) -> bool
    ensures { result ≡ is_punctuation kind }
{
    matches!(kind, Kind::Punct)
}

/// Tells whether the token is this byte of punctuation.
fn is_byte(text: &[u8], b: u8, token: &Token) -> bool
    ensures { result ≡ is_byte text.now b token.now }
{
    is_punctuation(token.kind) && begins_with(spelling(text, token), b)
}

/// Returns how many tokens there are up to the end of the line.
fn count_on_line(toks: &[Token]) -> usize
    ensures count { result ≡ prefix_len continues toks.now }
    ensures within { result ≤ length toks.now }
{
    toks.iter().take_while(|token| !token.first).count()
}

/// Returns the tokens up to the end of the line.
fn rest_of_line(toks: &[Token]) -> &[Token]
    ensures line { result.now ≡ rest_of_line toks.now }
    ensures within { length result.now ≤ length toks.now }
{
    &toks[..count_on_line(toks)]
}

/// Tells whether a line is dropped that begins with this token.
fn begins_header(text: &[u8], token: &Token) -> bool
    ensures { result ≡ begins_header text.now token.now }
{
    match token.kind {
        Kind::Word => {
            let word = spelling(text, token);
            is_header(keyword_of(word)) || begins_with(word, b'$')
        }
        Kind::Meta => true,
        Kind::Hash => spelling(text, token).starts_with(b"#dbg_"),
        _ => false,
    }
}

/// Measures a line whose first token is a word of headers, a word that begins with `$`, a meta, or a
/// hash that begins with `#dbg_`, at the head of the list, in tokens.
fn header_line(text: &[u8], toks: &[Token]) -> Option<usize>
    ensures value { result ≡ header_line text.now toks.now }
    ensures some { IfSome result (λ n. 0 < n) }
    ensures within { IfSome result (λ n. n ≤ length toks.now) }
{
    match toks {
        [first, rest @ ..] if first.first && begins_header(text, first) => {
            Some(rest_of_line(rest).len() + 1)
        }
        _ => None,
    }
}

/// Tells whether a name is that of a function that only tells the optimizer something.
fn is_note_name(text: &[u8], token: &Token) -> bool
    ensures { result ≡ is_note_name (name_of text.now token.now) }
{
    let name = name_spelling(text, token);
    begins_as(true, name, b"llvm.assume")
        || begins_as(false, name, b"llvm.dbg.")
        || begins_as(false, name, b"llvm.lifetime.")
}

/// Tells whether the first global of a line is a note to the optimizer.
fn names_note(text: &[u8], line: &[Token]) -> bool
    ensures { result ≡ names_note text.now line.now }
{
    for token in line {
        if is_global(token.kind) {
            return is_note_name(text, token);
        }
    }
    false
}

/// Measures a line whose first token is `declare` or a word of calls, and whose first global is a note
/// to the optimizer, at the head of the list, in tokens.
fn note_line(text: &[u8], toks: &[Token]) -> Option<usize>
    ensures value { result ≡ note_line text.now toks.now }
    ensures some { IfSome result (λ n. 0 < n) }
    ensures within { IfSome result (λ n. n ≤ length toks.now) }
{
    let [first, rest @ ..] = toks else {
        return None;
    };
    if !first.first || !is_caller(word_of(text, first)) {
        return None;
    }
    let line = rest_of_line(rest);
    if names_note(text, line) {
        Some(line.len() + 1)
    } else {
        None
    }
}

/// Measures two metas in a row at the head of the list, in tokens.
fn meta_pair(toks: &[Token]) -> Option<usize>
    ensures value { result ≡ meta_pair toks.now }
    ensures some { IfSome result (λ n. 0 < n) }
    ensures within { IfSome result (λ n. n ≤ length toks.now) }
{
    match toks {
        [first, second, ..] if is_meta(first.kind) && is_meta(second.kind) => Some(2),
        _ => None,
    }
}

/// Measures two metas in a row, and a comma directly before them, at the head of the list, in tokens.
fn meta_phrase(text: &[u8], toks: &[Token]) -> Option<usize>
    ensures value { result ≡ and_comma text.now meta_pair toks.now }
    ensures some { IfSome result (λ n. 0 < n) }
    ensures within { IfSome result (λ n. n ≤ length toks.now) }
{
    match toks {
        [first, rest @ ..] if is_byte(text, b',', first) => meta_pair(rest).map(|count| count + 1),
        _ => meta_pair(toks),
    }
}

/// Returns how many tokens there are up to the parenthesis that closes the group, or to the end.
fn closing(text: &[u8], toks: &[Token]) -> usize
    ensures count { result ≡ closing_len text.now 0 toks.now }
    ensures within { result ≤ length toks.now }
{
    let mut depth = 0usize;
    for (i, token) in toks.iter().enumerate() {
        if is_byte(text, b'(', token) {
            depth += 1;
        } else if is_byte(text, b')', token) {
            if depth == 0 {
                return i + 1;
            }
            depth -= 1;
        }
    }
    toks.len()
}

/// Measures a group: from `(` to its `)`, or to the end, at the head of the list, in tokens.
fn group(text: &[u8], toks: &[Token]) -> Option<usize>
    ensures value { result ≡ group_len text.now toks.now }
    ensures some { IfSome result (λ n. 0 < n) }
    ensures within { IfSome result (λ n. n ≤ length toks.now) }
{
    match toks {
        [first, rest @ ..] if is_byte(text, b'(', first) => Some(closing(text, rest) + 1),
        _ => None,
    }
}

/// Measures an integer, or a group, at the head of the list, in tokens.
fn amount(text: &[u8], toks: &[Token]) -> Option<usize>
    ensures value { result ≡ amount_len text.now toks.now }
    ensures some { IfSome result (λ n. 0 < n) }
    ensures within { IfSome result (λ n. n ≤ length toks.now) }
{
    match toks {
        [first, ..] if is_int(first.kind) => Some(1),
        _ => group(text, toks),
    }
}

/// Measures `align` with an integer or a group at the head of the list, in tokens.
fn alignment(text: &[u8], toks: &[Token]) -> Option<usize>
    ensures value { result ≡ alignment text.now toks.now }
    ensures some { IfSome result (λ n. 0 < n) }
    ensures within { IfSome result (λ n. n ≤ length toks.now) }
{
    match toks {
        [first, rest @ ..] if is_align(word_of(text, first)) => {
            amount(text, rest).map(|count| count + 1)
        }
        _ => None,
    }
}

/// Measures `align` with an integer or a group, and a comma directly before it, at the head of the list,
/// in tokens.
fn alignment_phrase(text: &[u8], toks: &[Token]) -> Option<usize>
    ensures value { result ≡ and_comma text.now (alignment text.now) toks.now }
    ensures some { IfSome result (λ n. 0 < n) }
    ensures within { IfSome result (λ n. n ≤ length toks.now) }
{
    match toks {
        [first, rest @ ..] if is_byte(text, b',', first) => {
            alignment(text, rest).map(|count| count + 1)
        }
        _ => alignment(text, toks),
    }
}

/// Measures a hash at the head of the list, in tokens.
fn hash_token(toks: &[Token]) -> Option<usize>
    ensures value { result ≡ hash_token toks.now }
    ensures some { IfSome result (λ n. 0 < n) }
    ensures within { IfSome result (λ n. n ≤ length toks.now) }
{
    match toks {
        [first, ..] if is_hash(first.kind) => Some(1),
        _ => None,
    }
}

/// Returns how many tokens a word and the group have that directly follows it, if one does.
fn word_and_group(text: &[u8], rest: &[Token]) -> Option<usize>
    ensures value { result ≡ word_and_group text.now rest.now }
    ensures some { IfSome result (λ n. 0 < n) }
    ensures within { IfSome result (λ n. n ≤ length rest.now + 1) }
{
    Some(group(text, rest).unwrap_or(0) + 1)
}

/// Measures `comdat`, with a group that directly follows it, at the head of the list, in tokens.
fn comdat_phrase(text: &[u8], toks: &[Token]) -> Option<usize>
    ensures value { result ≡ comdat_phrase text.now toks.now }
    ensures some { IfSome result (λ n. 0 < n) }
    ensures within { IfSome result (λ n. n ≤ length toks.now) }
{
    match toks {
        [first, rest @ ..] if is_comdat(word_of(text, first)) => word_and_group(text, rest),
        _ => None,
    }
}

/// Measures a group word with a group that directly follows it, and a comma directly before `comdat`, at
/// the head of the list, in tokens.
fn group_phrase(text: &[u8], toks: &[Token]) -> Option<usize>
    ensures value { result ≡ group_phrase text.now toks.now }
    ensures some { IfSome result (λ n. 0 < n) }
    ensures within { IfSome result (λ n. n ≤ length toks.now) }
{
    match toks {
        [first, rest @ ..] if is_byte(text, b',', first) => {
            comdat_phrase(text, rest).map(|count| count + 1)
        }
        [first, rest @ ..] if is_group_word(word_of(text, first)) => word_and_group(text, rest),
        _ => None,
    }
}

/// Measures a quiet word at the head of the list, in tokens.
fn quiet_word(text: &[u8], toks: &[Token]) -> Option<usize>
    ensures value { result ≡ quiet_word text.now toks.now }
    ensures some { IfSome result (λ n. 0 < n) }
    ensures within { IfSome result (λ n. n ≤ length toks.now) }
{
    match toks {
        [first, ..] if is_quiet_word(word_of(text, first)) => Some(1),
        _ => None,
    }
}

/// Returns how many tokens there are of what the rule drops, where the list begins with it.
#[tactic(auto, unfolding(crate::specs::Quiet::phrase_len))]
pub fn phrase(text: &[u8], rule: Rule, toks: &[Token]) -> Option<usize>
    ensures value { result ≡ phrase_len text.now rule toks.now }
    ensures some { IfSome result (λ n. 0 < n) }
    ensures within { IfSome result (λ n. n ≤ length toks.now) }
{
    match rule {
        Rule::HeaderLines => header_line(text, toks),
        Rule::NoteLines => note_line(text, toks),
        Rule::MetaPairs => meta_phrase(text, toks),
        Rule::Alignments => alignment_phrase(text, toks),
        Rule::Hashes => hash_token(toks),
        Rule::Groups => group_phrase(text, toks),
        Rule::QuietWords => quiet_word(text, toks),
    }
}
