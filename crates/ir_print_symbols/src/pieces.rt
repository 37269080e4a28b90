//! Appending the printed form of one symbol.

ghost use Rattle.std.specs.Prelude.{◌≡◌, ◌++◌, ◌<◌, ◌/◌, ◌%◌, true, OnOk};
ghost use Rattle.std.specs.List.{list_all};
ghost use Rattle.std.specs.Fmt.{digit_glyph};
ghost use Rattle.ir_lex.specs.Bytes.{is_name_byte};
ghost use Rattle.ir_lex.specs.Symbols.{Symbol, KeywordSymbol, LocalSymbol, GlobalSymbol, LabelSymbol, NumberSymbol, TextSymbol, MarkSymbol};
ghost use Rattle.ir_print_symbols.specs.Printed.{keyword_width, stands_for_itself, escaped_byte, escaped, quoted, is_plain_name, printed_name, text_of_symbol};

use ir_lex::{Keyword, is_name_byte};
use ir_words::keyword_head;
use itoa::Buffer;
use std::alloc::AllocError;

/// Tells whether the byte stands for itself in quotes: from 0x20 to 0x7e, but neither `"` nor `\`.
#[tactic(auto, unfolding(crate::specs::Printed::stands_for_itself))]
fn stands_for_itself(byte: u8) -> bool
    ensures { result ≡ stands_for_itself byte }
{
    byte > 31 && byte < 127 && byte != b'"' && byte != b'\\'
}

/// Returns the upper-case hexadecimal digit of a number below 16.
fn hex_digit(number: u8) -> u8
    requires { number < 16 }
    ensures { result ≡ digit_glyph true number }
{
    if number < 10 {
        b'0' + number
    } else {
        55 + number
    }
}

/// Appends a byte as it is written in quotes.
fn push_escaped_byte(to: &mut Vec<u8>, byte: u8) -> Result<(), AllocError>
    ensures { OnOk result (to.new.items ≡ to.old.items ++ escaped_byte byte) }
{
    if stands_for_itself(byte) {
        to.push(byte)?;
    } else {
        let digits = [b'\\', hex_digit(byte / 16), hex_digit(byte % 16)];
        to.extend_from_slice(&digits)?;
    }
    Ok(())
}

/// Appends bytes as they are written in quotes.
fn push_escaped(to: &mut Vec<u8>, bytes: &[u8]) -> Result<(), AllocError>
    ensures { OnOk result (to.new.items ≡ to.old.items ++ escaped bytes.now) }
{
    for byte in bytes {
        push_escaped_byte(to, *byte)?;
    }
    Ok(())
}

/// Appends bytes in quotes.
fn push_quoted(to: &mut Vec<u8>, bytes: &[u8]) -> Result<(), AllocError>
    ensures { OnOk result (to.new.items ≡ to.old.items ++ quoted bytes.now) }
{
    to.push(b'"')?;
    push_escaped(to, bytes)?;
    to.push(b'"')?;
    Ok(())
}

/// Tells whether each byte is one of names.
fn are_name_bytes(bytes: &[u8]) -> bool
    ensures { result ≡ list_all is_name_byte bytes.now }
{
    bytes.iter().all(|byte| is_name_byte(*byte))
}

/// Tells whether a name is bytes of names alone, at least one.
fn is_plain_name(name: &[u8]) -> bool
    ensures { result ≡ is_plain_name name.now }
{
    match name {
        [first, rest @ ..] => is_name_byte(*first) && are_name_bytes(rest),
        [] => false,
    }
}

/// Appends a name: as it is where it is plain, and in quotes where it is not.
fn push_name(to: &mut Vec<u8>, name: &[u8]) -> Result<(), AllocError>
    ensures { OnOk result (to.new.items ≡ to.old.items ++ printed_name name.now) }
{
    if is_plain_name(name) {
        to.extend_from_slice(name)?;
    } else {
        push_quoted(to, name)?;
    }
    Ok(())
}

/// Appends a local: its name after `%`.
pub fn push_local(to: &mut Vec<u8>, name: &[u8]) -> Result<(), AllocError>
    ensures { OnOk result (to.new.items ≡ to.old.items ++ text_of_symbol (LocalSymbol name.now)) }
{
    to.push(b'%')?;
    push_name(to, name)?;
    Ok(())
}

/// Appends a global: its name after `@`.
pub fn push_global(to: &mut Vec<u8>, name: &[u8]) -> Result<(), AllocError>
    ensures { OnOk result (to.new.items ≡ to.old.items ++ text_of_symbol (GlobalSymbol name.now)) }
{
    to.push(b'@')?;
    push_name(to, name)?;
    Ok(())
}

/// Appends a label: its name and `:`.
pub fn push_label(to: &mut Vec<u8>, name: &[u8]) -> Result<(), AllocError>
    ensures { OnOk result (to.new.items ≡ to.old.items ++ text_of_symbol (LabelSymbol name.now)) }
{
    push_name(to, name)?;
    to.push(b':')?;
    Ok(())
}

/// Appends the bytes of a constant: in quotes, after `c`.
pub fn push_text(to: &mut Vec<u8>, bytes: &[u8]) -> Result<(), AllocError>
    ensures { OnOk result (to.new.items ≡ to.old.items ++ text_of_symbol (TextSymbol bytes.now)) }
{
    to.push(b'c')?;
    push_quoted(to, bytes)?;
    Ok(())
}

/// Appends an integer in decimal.
pub fn push_number(to: &mut Vec<u8>, number: i128) -> Result<(), AllocError>
    ensures { OnOk result (to.new.items ≡ to.old.items ++ text_of_symbol (NumberSymbol number)) }
{
    let mut buffer = Buffer::new();
    to.extend_from_slice(buffer.format(number).as_bytes())?;
    Ok(())
}

/// Appends a mark.
pub fn push_mark(to: &mut Vec<u8>, mark: u8) -> Result<(), AllocError>
    ensures { OnOk result (to.new.items ≡ to.old.items ++ text_of_symbol (MarkSymbol mark)) }
{
    to.push(mark)?;
    Ok(())
}

/// Appends the width of an integer type.
fn push_width(to: &mut Vec<u8>, keyword: Keyword) -> Result<(), AllocError>
    ensures { OnOk result (to.new.items ≡ to.old.items ++ keyword_width keyword) }
{
    if let Keyword::Integer(width) = keyword {
        let mut buffer = Buffer::new();
        to.extend_from_slice(buffer.format(width).as_bytes())?;
    }
    Ok(())
}

/// Appends the word of a keyword; nothing where no one word stands for it.
pub fn push_keyword(to: &mut Vec<u8>, keyword: Keyword) -> Result<(), AllocError>
    ensures { OnOk result (to.new.items ≡ to.old.items ++ text_of_symbol (KeywordSymbol keyword)) }
{
    to.extend_from_slice(keyword_head(keyword))?;
    push_width(to, keyword)?;
    Ok(())
}
