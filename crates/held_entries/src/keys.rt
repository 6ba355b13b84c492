//! Classes of entries by their table and by what stands in a column.

ghost use Rattle.std.specs.Prelude.{◌≡◌, ◌<◌};
ghost use Rattle.spec_trees.specs.Tree.{trees};
ghost use Rattle.pi_tree.specs.Values.{value_of};
ghost use Rattle.held_entries.specs.Keys.{mixed, value_key, row_key, table_class, class_at};

use pi_tree::{Value, Values};

/// How many classes there are, a prime.
const CLASSES: u64 = 65_521;

/// What a key is multiplied by before a number goes into it.
const FACTOR: u64 = 40_503;

/// The key with one more number in it.
fn mixed(key: u64, number: u64) -> u64
    requires { key < 65521 }
    ensures mixed { result ≡ mixed key number }
    ensures small { result < 65521 }
{
    (key * FACTOR + number % CLASSES) % CLASSES
}

/// The key of a value: equal values have equal keys.
#[cycle(value_key)]
pub fn value_key(value: &Value) -> u64
    ensures key { result ≡ value_key (value_of value.now) }
    ensures small { result < 65521 }
{
    match value {
        Value::Free(number) => mixed(1, u64::from(*number)),
        Value::Made(point, number) => mixed(mixed(2, u64::from(*point)), *number),
        Value::Fresh(number) => mixed(3, *number),
        Value::App(constructor, arguments) => {
            row_key(mixed(4, u64::from(*constructor)), arguments)
        }
        Value::Tuple(parts) => row_key(5, parts),
    }
}

/// The key with those of the values in it.
#[cycle(value_key)]
fn row_key(first: u64, values: &Values) -> u64
    requires { first < 65521 }
    ensures key { result ≡ row_key first (trees values.now) }
    ensures small { result < 65521 }
{
    let mut key = first;
    for value in &values.items {
        key = mixed(key, value_key(value));
    }
    key
}

/// The class of the entries of a table.
#[tactic(auto, unfolding(crate::specs::Keys::table_class))]
pub fn table_class(table: u32) -> usize
    ensures { result ≡ table_class table }
{
    mixed(6, u64::from(table)) as usize
}

/// The class of the entries of a table that have the value in the column.
#[tactic(auto, unfolding(crate::specs::Keys::class_at))]
pub fn class_at(table: u32, column: usize, value: &Value) -> usize
    ensures { result ≡ class_at table column (value_of value.now) }
{
    let key = mixed(value_key(value), u64::from(table));
    mixed(key, column as u64) as usize
}
