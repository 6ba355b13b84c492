//! From where a walk through a node may begin.

ghost use Rattle.std.specs.Prelude.{◌≡◌};
ghost use Rattle.spec_node_starts.specs.Starts as walks;
ghost use Rattle.node_lines.specs.Seen.{row_of};

/// A walk through a row of numbers: how many nodes have to be complete before it, and how many are behind it.
#[derive(Clone, Copy)]
struct Row {
    least: usize,
    last: usize,
}

/// The start of the node of that number; 0 where there is none.
#[tactic(auto, using(crate::proofs::Starts::start))]
pub fn start_at(starts: &[u32], number: usize) -> usize
    ensures { result ≡ walks.start_at starts.now number }
{
    if number == 0 || number > starts.len() {
        return 0;
    }
    starts[number - 1] as usize
}

/// The walk through one more.
fn through(starts: &[u32], row: Row, number: usize) -> Row
    ensures { row_of result ≡ walks.through starts.now (row_of row) number }
{
    if number <= row.last {
        return row;
    }
    let start = start_at(starts, number);
    if start <= row.last {
        Row {
            least: row.least,
            last: number,
        }
    } else {
        Row {
            least: start,
            last: number,
        }
    }
}

/// The walk through the numbers, where nothing is complete.
#[tactic(auto, using(crate::proofs::Starts::rows))]
fn through_row(starts: &[u32], numbers: &[u32]) -> Row
    ensures { row_of result ≡
        walks.through_row starts.now record { least = 0; last = 0 } numbers.now }
{
    let mut row = Row { least: 0, last: 0 };
    for number in numbers {
        row = through(starts, row, *number as usize);
    }
    row
}

/// The start of a node behind so many, by the numbers behind its head.
pub fn start_of(starts: &[u32], nodes: usize, numbers: &[u32]) -> usize
    ensures { result ≡ walks.start_of starts.now nodes numbers.now }
{
    let row = through_row(starts, numbers);
    if row.last == nodes { row.least } else { nodes }
}
