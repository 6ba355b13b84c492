//! What may stand at a position below terms, as a range of numbers.

ghost use Rattle.std.specs.Prelude.{◌≡◌, ◌%◌, ◌^◌, map};
ghost use Rattle.spec_fingerprints.specs.Fingerprints.{number_of, root_among};
ghost use Rattle.term_tree.specs.Bank.{symbol_of, tree_at, AreKnown};
ghost use Rattle.fact_fingerprint.specs.Ranges.{IsRangeOf};

use term_tree::{Bank, Id, Node, Sym};

/// The numbers that what stands at a position may have, from the least to the greatest.
#[derive(Clone, Copy)]
pub struct Range {
    pub least: u16,
    pub most: u16,
}

/// The range where anything may stand.
const ANYTHING: Range = Range {
    least: 0,
    most: u16::MAX,
};

/// The range where nothing stands: a number that no symbol has.
const NOTHING: Range = Range { least: 0, most: 0 };

/// The low bits of a number.
fn low_bits(number: u64) -> u16
    ensures { result ≡ number % 2 ^ 16 }
{
    (number % 65536) as u16
}

/// The number of a symbol, of its kind and the low bits of its own number.
fn number_of(symbol: Sym) -> u16
    ensures { result ≡ number_of (symbol_of symbol) }
{
    match symbol {
        Sym::Ctor(number) => low_bits(8 * u64::from(number) + 1),
        Sym::Data(number) => low_bits(8 * u64::from(number) + 2),
        Sym::Tuple(parts) => low_bits(8 * u64::from(parts) + 3),
        Sym::Free(name) => low_bits(8 * u64::from(name) + 4),
        Sym::Point(point) => low_bits(8 * u64::from(point) + 5),
        Sym::Attacker => 6,
    }
}

/// The range where a symbol stands: its number alone.
fn range_of_symbol(symbol: Sym) -> Range
    ensures least { result.least ≡ number_of (symbol_of symbol) }
    ensures most { result.most ≡ number_of (symbol_of symbol) }
{
    let number = number_of(symbol);
    Range {
        least: number,
        most: number,
    }
}

/// What may stand at the end of a way among terms. Takes no memory.
pub(crate) fn range_among<B: Bank>(bank: &B, terms: &[Id], way: &[usize]) -> Range
    requires { AreKnown (B.trees bank.now) terms.now }
    ensures { IsRangeOf
        (root_among way.now (map (tree_at (B.trees bank.now)) terms.now)) result }
{
    match way.split_first() {
        None => NOTHING,
        Some((first, rest)) => {
            if terms.len() <= *first {
                return NOTHING;
            }
            match bank.node(terms[*first]) {
                Node::Var(_) => ANYTHING,
                Node::App(symbol, arguments) => {
                    if rest.is_empty() {
                        return range_of_symbol(symbol);
                    }
                    range_among(bank, arguments, rest)
                }
            }
        }
    }
}
