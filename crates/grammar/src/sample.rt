//! A reader of a small grammar, in the form that readers of larger ones have:
//!
//! ```text
//! item  = [ "-" ] Number
//! entry = "(" [ item { "," item } ] ")" | item
//! ```
ghost use Rattle.std.specs.Prelude.{◌≡◌, ◌+◌, ◌≤◌, [], ◌∷◌, length, drop, MatchOption};
ghost use Rattle.grammar.specs.Reader.{run_one, run_maybe, run_items, run_listed, heads};
ghost use Rattle.grammar.specs.Code.{Gives, Steps, Tries, Answers};
ghost use Rattle.grammar.specs.Sample.{minus, open_mark, close_mark, comma, number, run_item, run_entry, entry, entry_view};

use super::Stop;
use std::alloc::Global;

/// A symbol of the sample grammar.
#[derive(Clone, Copy, Debug, PartialEq, Eq)]
pub enum Symbol {
    /// `-`
    Minus,
    /// A number.
    Number(u8),
    /// `(`
    Open,
    /// `)`
    Close,
    /// `,`
    Comma,
}

/// A number with its sign.
#[derive(Clone, Copy, Debug, PartialEq, Eq)]
pub struct Item {
    /// Whether `-` stands before it.
    pub negative: bool,
    /// The number without its sign.
    pub number: u8,
}

/// What the sample grammar spells.
#[derive(Debug, Drop)]
pub enum Entry {
    /// An item alone.
    Single(Item),
    /// The items between brackets, in order.
    Group(Vec<Item>),
}

/// Reads the symbol numbered `at`.
fn symbol_at(symbols: &[Symbol], at: usize) -> Option<Symbol>
    requires { at ≤ length symbols.now }
    ensures { MatchOption result (drop at symbols.now ≡ [])
        (λ s. (drop at symbols.now ≡ s ∷ drop (at + 1) symbols.now) × (at + 1 ≤ length symbols.now)) }
{
    symbols.get(at).copied()
}

/// Returns the number of the symbol after a `-` at `at`.
fn after_minus(symbols: &[Symbol], at: usize) -> Option<usize>
    requires { at ≤ length symbols.now }
    ensures { Tries minus symbols.now result (drop at symbols.now) }
{
    match symbol_at(symbols, at) {
        Some(Symbol::Minus) => Some(at + 1),
        _ => None,
    }
}

/// Returns the number of the symbol after a `(` at `at`.
fn after_open(symbols: &[Symbol], at: usize) -> Option<usize>
    requires { at ≤ length symbols.now }
    ensures { Tries open_mark symbols.now result (drop at symbols.now) }
{
    match symbol_at(symbols, at) {
        Some(Symbol::Open) => Some(at + 1),
        _ => None,
    }
}

/// Returns the number of the symbol after a `)` at `at`.
fn after_close(symbols: &[Symbol], at: usize) -> Option<usize>
    requires { at ≤ length symbols.now }
    ensures { Tries close_mark symbols.now result (drop at symbols.now) }
{
    match symbol_at(symbols, at) {
        Some(Symbol::Close) => Some(at + 1),
        _ => None,
    }
}

/// Returns the number of the symbol after a `,`, which has to be at `at`.
fn comma_at(symbols: &[Symbol], at: usize) -> Result<usize, Stop>
    requires { at ≤ length symbols.now }
    ensures { Steps symbols.now result (run_one comma (drop at symbols.now)) }
{
    match symbol_at(symbols, at) {
        Some(Symbol::Comma) => Ok(at + 1),
        _ => Err(Stop::WrongSymbol(at)),
    }
}

/// Reads the number at token `at`.
fn number_at(symbols: &[Symbol], at: usize) -> Result<(u8, usize), Stop>
    requires { at ≤ length symbols.now }
    ensures { Gives (λ n. n) symbols.now result (run_one number (drop at symbols.now)) }
{
    match symbol_at(symbols, at) {
        Some(Symbol::Number(number)) => Ok((number, at + 1)),
        _ => Err(Stop::WrongSymbol(at)),
    }
}

/// Reads the item at token `at`.
fn item_at(symbols: &[Symbol], at: usize) -> Result<(Item, usize), Stop>
    requires { at ≤ length symbols.now }
    ensures { Gives (λ i. i) symbols.now result (run_item (drop at symbols.now)) }
{
    match after_minus(symbols, at) {
        Some(next) => {
            let (number, end) = number_at(symbols, next)?;
            Ok((
                Item {
                    negative: true,
                    number,
                },
                end,
            ))
        }
        None => {
            let (number, end) = number_at(symbols, at)?;
            Ok((
                Item {
                    negative: false,
                    number,
                },
                end,
            ))
        }
    }
}

/// Reads the items starting at token `at`, up to a `)`. At most `budget` items are read.
fn items_at(
    alloc: Global,
    symbols: &[Symbol],
    at: usize,
    budget: usize,
) -> Result<(Vec<Item>, usize), Stop>
    requires { at ≤ length symbols.now }
    ensures { Gives (λ v. v.items) symbols.now result
        (run_items budget comma close_mark run_item (drop at symbols.now)) }
{
    let mut items = Vec::new(alloc);
    let mut next = at;
    for _ in 0..budget {
        let (item, after_item) = item_at(symbols, next)?;
        items.push(item)?;
        match after_close(symbols, after_item) {
            Some(end) => return Ok((items, end)),
            None => next = comma_at(symbols, after_item)?,
        }
    }
    Err(Stop::WrongSymbol(next))
}

/// Reads the items starting at token `at`, if any, up to a `)`.
fn list_at(
    alloc: Global,
    symbols: &[Symbol],
    at: usize,
    budget: usize,
) -> Result<(Vec<Item>, usize), Stop>
    requires { at ≤ length symbols.now }
    ensures { Gives (λ v. v.items) symbols.now result
        (run_listed budget comma close_mark run_item (drop at symbols.now)) }
{
    match after_close(symbols, at) {
        Some(end) => Ok((Vec::new(alloc), end)),
        None => items_at(alloc, symbols, at, budget),
    }
}

/// Reads the entry at token `at`.
fn entry_at(
    alloc: Global,
    symbols: &[Symbol],
    at: usize,
    budget: usize,
) -> Result<(Entry, usize), Stop>
    requires { at ≤ length symbols.now }
    ensures { Gives entry_view symbols.now result (run_entry budget (drop at symbols.now)) }
{
    match after_open(symbols, at) {
        Some(next) => {
            let (items, end) = list_at(alloc, symbols, next, budget)?;
            Ok((Entry::Group(items), end))
        }
        None => {
            let (item, end) = item_at(symbols, at)?;
            Ok((Entry::Single(item), end))
        }
    }
}

/// Reads the entry that begins at the symbol numbered `from`, and gives it with the number of the
/// next symbol.
///
/// # Errors
///
/// `WrongSymbol` with the first symbol that no entry has there, or with the number of symbols where
/// an entry could still follow; `OutOfMemory`.
pub fn read_entry(alloc: Global, symbols: &[Symbol], from: usize) -> Result<(Entry, usize), Stop>
    requires { from ≤ length symbols.now }
    ensures { Answers entry entry_view symbols.now from result }
{
    entry_at(alloc, symbols, from, symbols.len())
}
