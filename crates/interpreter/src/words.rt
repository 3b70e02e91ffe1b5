// The words of the parameters: how a text spells one, which of them a setting takes, and how one is answered.
ghost use Rattle.std.specs.Prelude.{◌≡◌, ◌<◌};
ghost use Rattle.registers.specs.Answer.{Laid};
ghost use Rattle.registers.specs.Settings.{count, kind_of};
ghost use Rattle.registers.specs.Words.{short_form, long_form, matches};
ghost use Rattle.interpreter.specs.Parameter.{words_of};
ghost use Rattle.interpreter.specs.WordsParts.{word_count, word_at, agreed, form_length, TakenOf};

use crate::table::Table;
use registers::settings::Settings;
use registers::{answer, text};

// Words that stand together in the table: where they begin, and how many there are. No Range, as std's is not copied.
#[derive(Clone, Copy)]
pub(crate) struct Words {
    pub(crate) first: usize,
    pub(crate) count: usize,
}

// The words that settings take (table.rt lists the words): switches, what is monitored, the ranges, the modes of a limit, and the
// bounds of a number.
const SWITCH: Words = Words { first: 6, count: 2 };

const MONITORED: Words = Words { first: 0, count: 3 };

const RANGES: Words = Words { first: 3, count: 2 };

const MODES: Words = Words { first: 5, count: 2 };

const BOUNDS: Words = Words { first: 8, count: 2 };

// Each setting's words, by the setting's row (table.rt lists the rows).
const OF_SETTINGS: [Words; Settings::COUNT] = [
    SWITCH, SWITCH, SWITCH, MONITORED, BOUNDS, RANGES, BOUNDS, BOUNDS, MODES, MODES, BOUNDS,
    BOUNDS, BOUNDS, BOUNDS, BOUNDS, SWITCH, SWITCH, SWITCH, SWITCH, SWITCH, BOUNDS, RANGES, BOUNDS,
    BOUNDS, MODES, MODES, BOUNDS, BOUNDS, BOUNDS, BOUNDS,
];

// Tells whether a word's short or its long form has so many letters.
fn has_length(table: &Table, word: usize, n: usize) -> bool
    requires { word < word_count }
    ensures { result ≡ form_length word n }
{
    let short = table.word_cell(word, 0) as usize;
    let long = table.word_cell(word, 1) as usize;
    (n == short) | (n == long)
}

// Counts how many first bytes of a text are a word's letters, in any letter case.
fn agreed_letters(table: &Table, text: &[u8], word: usize) -> usize
    requires { word < word_count }
    ensures { result ≡ agreed text.now (long_form (word_at word)) }
{
    let long = table.word_cell(word, 1) as usize;
    for (n, b) in text.iter().enumerate() {
        if long <= n {
            return n;
        }
        if text::in_capitals(*b) != table.word_cell(word, n + 2) {
            return n;
        }
    }
    text.len()
}

// Tells whether a text spells a word, in its short or its long form. The short form is a start of the long one, so one walk over
// the letters decides both: all bytes of the text were letters of the word, and one of the two forms has that many.
pub(crate) fn is_word(table: &Table, name: &[u8], word: usize) -> bool
    requires { word < word_count }
    ensures { result ≡ matches (word_at word) name.now }
{
    let n = agreed_letters(table, name, word);
    (n == name.len()) & has_length(table, word, n)
}

// Tells which words a setting takes.
pub(crate) fn of_setting(row: usize) -> Words
    requires { row < count }
    ensures { TakenOf (words_of (kind_of row)) result }
{
    OF_SETTINGS[row]
}

// Gives a word's short form, an empty one where there is no such word.
fn short_form(word: usize) -> &'static [u8]
    ensures { result.now ≡ short_form (word_at word) }
{
    match word {
        0 => b"CURR",
        1 => b"SCUR",
        2 => b"VOLT",
        3 => b"R12V",
        4 => b"R24V",
        5 => b"CONT",
        6 => b"OFF",
        7 => b"ON",
        8 => b"MIN",
        9 => b"MAX",
        _ => b"",
    }
}

// Writes a word in its short form, and nothing where there is no such word.
pub(crate) fn write_short(word: usize, tail: &mut [u8]) -> usize
    ensures { Laid (short_form (word_at word)) tail.old result tail.new }
{
    answer::write_text(short_form(word), tail)
}
