// Check 3: the row that spells the names of a header.
ghost use Rattle.std.specs.Prelude.{◌≡◌, ◌≤◌, ◌<◌, length};
ghost use Rattle.interpreter.specs.Header.{numbered};
ghost use Rattle.interpreter.specs.TableParts.{node_count, node_at};
ghost use Rattle.interpreter.specs.RowsParts.{shown_key, key_matches, class_in, word_in, node_of, left_out, Walked, form_bit, row_of_keys, found, Marked};

use crate::name::{CODES, SUFFIX_PLACE};
use crate::table::{MARKS, NUMBERED, OPTIONAL, ROWS, Table};

// What a name's number has at least where its suffix is no number.
const NO_NUMBER: u64 = 4 * SUFFIX_PLACE;

// Leaves a numeric suffix out of a name's number, where the word takes one.
fn shown(key: u64, word: usize) -> u64
    requires { word < node_count }
    ensures { result ≡ shown_key (numbered (node_at word)) key }
{
    if (word < NUMBERED) & (key < NO_NUMBER) {
        return key % SUFFIX_PLACE;
    }
    key
}

// Tells whether a name's number is that of a word's short or long form.
fn spells(table: &Table, key: u64, word: usize) -> bool
    requires { word < node_count }
    ensures { result ≡ key_matches (node_at word) key }
{
    let compared = shown(key, word);
    (compared == table.key_cell(word, 0)) | (compared == table.key_cell(word, 1))
}

// Goes past a node that no name spells, if it is optional; otherwise the row is missed.
fn leave_out(node: u8, at: usize) -> Option<usize>
    ensures { result ≡ left_out node at }
{
    if node < OPTIONAL {
        return None;
    }
    Some(at)
}

// Takes a row's node at a name, or leaves it out if it is optional, and gives the place of the name that comes next; none where
// the row is missed.
fn take_node(table: &Table, names: &[u64], at: usize, node: u8) -> Option<usize>
    requires { (at ≤ length names.now) × (word_in node < node_count) }
    ensures { Walked (node_of node) names.now at result }
{
    if names.len() <= at {
        return leave_out(node, at);
    }
    if spells(table, names[at], (node % OPTIONAL) as usize) {
        return Some(at + 1);
    }
    leave_out(node, at)
}

// Gives a header's form as the bit that its row has for it in the table (`row_cell`).
fn form_bit(star: bool, asked: bool) -> u8
    ensures { result ≡ form_bit star asked }
{
    match (star, asked) {
        (false, false) => 1,
        (false, true) => 2,
        (true, false) => 4,
        (true, true) => 8,
    }
}

// Makes the names' first letters a mark, which hardly any rows share.
fn mark(names: &[u64], star: bool) -> usize
    ensures { Marked star names.now result }
{
    let mut letters = usize::from(star);
    for key in names {
        letters = (letters * 24 + (key % CODES) as usize) % MARKS;
    }
    letters
}

// Finds the first row that spells the names in the form asked for. No row before the one where it starts does. At the first node
// that is missed the inner loop is left and the next row is tried.
pub(crate) fn find(table: &Table, names: &[u64], star: bool, asked: bool) -> Option<usize>
    ensures { result ≡ found (row_of_keys star names.now asked) }
{
    let bit = form_bit(star, asked);
    'rows: for row in table.start_row(mark(names, star))..ROWS {
        if table.row_cell(row, 0) & bit == 0 {
            continue 'rows;
        }
        let n = table.row_cell(row, 1) as usize;
        let mut at: usize = 0;
        for passed in 0..n {
            let Some(place) = take_node(table, names, at, table.row_cell(row, passed + 2)) else {
                continue 'rows;
            };
            at = place;
        }
        if names.len() <= at {
            return Some(row);
        }
    }
    None
}

// Tells which suffix a header has, the first of its names' that is one: 0 for none, 1, 2, 3 for other digits. A number, as the
// names hold it: an enum would need a reading beside `class_of`, which tells what is no number from other digits, and no row
// takes either.
pub(crate) fn suffix(names: &[u64]) -> u64
    ensures { result ≡ class_in names.now }
{
    for key in names {
        let class = key / SUFFIX_PLACE;
        if class != 0 {
            return class;
        }
    }
    0
}
