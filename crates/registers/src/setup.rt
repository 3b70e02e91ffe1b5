// Saved setups (02, #108): a block of the lent store holds every setting of both channels, and its own check.
ghost use Rattle.std.specs.Prelude.{◌≡◌, true, ℕ, ◌+◌, ◌*◌, ◌≤◌, ◌<◌, length, take, drop};
ghost use Rattle.registers.specs.Label.{most_text};
ghost use Rattle.registers.specs.Settings.{count};
ghost use Rattle.registers.specs.Setup.{block_size, checked_size, weighted, low_first, checks, shifted, unshifted, block_of, value_in, read_in, settings_in, said_in, recallable, takes, says};

use crate::label::TEXT;
use crate::settings::Settings;

// The bytes of a block, and those that its check is over.
pub const BLOCK: usize = 512;

const CHECKED: usize = 508;

// What the first two bytes are in a block of both channels, and where its text stands, behind the values.
const MARK: u8 = 255;

const MARKED: usize = 2;

const TEXT_AT: usize = 62;

// A block that *RCL does not take, and the settings that it is read as all the same.
#[derive(Clone, Copy)]
pub struct Unfit {
    pub said: Settings,
}

// Sums the bytes of a text, each times its place, counted from 1.
fn weigh(text: &[u8]) -> u32
    requires { length text.now ≤ checked_size }
    ensures { result ≡ weighted 1 text.now }
{
    let mut sum: u32 = 0;
    for (i, byte) in text.iter().enumerate() {
        sum += (i as u32 + 1) * u32::from(*byte);
    }
    sum
}

// Tells whether a block's check holds.
fn holds(block: &[u8]) -> bool
    ensures { result ≡ checks block.now }
{
    if block.len() != BLOCK {
        return false;
    }
    let Some((contents, sum)) = block.split_last_chunk::<4>() else {
        return false;
    };
    weigh(contents) == u32::from_le_bytes(*sum)
}

// Gives a value as a block holds it, 256 more; what is below -256 is held as 0.
fn shift(value: i32) -> u32
    ensures { result ≡ shifted value }
{
    u32::try_from(i64::from(value) + 256).unwrap_or(0)
}

// Gives the value that a block holds so.
fn unshift(n: u16) -> i32
    ensures { result ≡ unshifted n }
{
    i32::from(n) - 256
}

// Reads the value of a row from its two bytes.
fn value_in(block: &[u8], row: usize) -> i32
    requires { row * 2 + 1 < length block.now }
    ensures { result ≡ value_in block.now row }
{
    let at = row * 2;
    unshift(u16::from_le_bytes([block[at], block[at + 1]]))
}

// Reads so many values and the text behind them; the slots after them are as *RST leaves them.
fn read(body: &[u8], rows: usize) -> Settings
    requires { (rows ≤ count) × (rows * 2 + most_text ≤ length body.now) }
    ensures { result ≡ read_in rows body.now }
{
    let mut settings = Settings::reset();
    for row in 0..rows {
        settings.values[row] = value_in(body, row);
    }
    let at = rows * 2;
    settings.text.copy_from_slice(&body[at..at + TEXT]);
    settings
}

// Reads a block of both channels by its mark, and any other as one that was saved when there was one channel.
fn settings_in(block: &[u8]) -> Settings
    requires { length block.now ≡ block_size }
    ensures { result ≡ settings_in block.now }
{
    if block.starts_with(&[MARK; MARKED]) {
        return read(&block[MARKED..BLOCK], Settings::COUNT);
    }
    read(block, Settings::ROWS)
}

// Reads every setting of a block whose check holds and whose settings are within their limits. A block whose check fails is
// read as what *RST leaves.
pub fn recall(block: &[u8]) -> Result<Settings, Unfit>
    ensures good_value { takes result ≡ recallable block.now }
    ensures settings_value { says result ≡ said_in block.now }
{
    if !holds(block) {
        let said = Settings::reset();
        return Err(Unfit { said });
    }
    let said = settings_in(block);
    if said.possible() {
        Ok(said)
    } else {
        Err(Unfit { said })
    }
}

// Makes the block that *SAV writes.
pub fn block_of(settings: Settings) -> [u8; BLOCK]
    ensures { result ≡ block_of settings }
{
    let mut block = [0u8; BLOCK];
    block[0] = MARK;
    block[1] = MARK;
    for (row, value) in settings.values.iter().enumerate() {
        let [low, high, _, _] = shift(*value).to_le_bytes();
        let at = row * 2 + MARKED;
        block[at] = low;
        block[at + 1] = high;
    }
    block[TEXT_AT..TEXT_AT + TEXT].copy_from_slice(&settings.text);
    let sum = weigh(&block[..CHECKED]);
    block[CHECKED..].copy_from_slice(&sum.to_le_bytes());
    block
}
