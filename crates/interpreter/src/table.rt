// The table that the header search and the parameter reader look into: made once where a chunk of bytes is served, and lent
// down. It is tied to 01's rows and words by its invariant.
ghost use Rattle.std.specs.Prelude.{◌≡◌, ◌<◌};
ghost use Rattle.interpreter.specs.NameParts.{code_of};
ghost use Rattle.interpreter.specs.WordsParts.{word_count, word_size, word_cell};
ghost use Rattle.interpreter.specs.DeedParts.{row_count};
ghost use Rattle.interpreter.specs.TableParts.{command_table, row_size, node_count, mark_count, start_of};
ghost use Rattle.interpreter.specs.RowsParts.{row_cell, key_cell};

// How many words the parameters have, how many rows there are, and how many words the rows' nodes have.
pub(crate) const WORDS: usize = 10;

pub(crate) const ROWS: usize = 47;

const NODES: usize = 48;

// How many of the nodes' words, the first, take a channel's number.
pub(crate) const NUMBERED: usize = 4;

// How many bytes a word of a parameter has in the table, a row, and the two numbers of a node's word.
const WORD_SIZE: usize = 16;

const ROW_SIZE: usize = 8;

const KEYS_SIZE: usize = 16;

// How many bytes there are, each of which has a code, and how many marks of first letters.
const BYTES: usize = 256;

pub(crate) const MARKS: usize = 256;

// What a node's byte has more where the node may be left out.
pub(crate) const OPTIONAL: u8 = 128;

// Where the rows begin, after the parameters' words; then the numbers of the nodes' words, the codes of all bytes, and the
// rows where a search starts.
const FIRST_ROW: usize = WORDS * WORD_SIZE;

const FIRST_KEY: usize = FIRST_ROW + ROWS * ROW_SIZE;

const FIRST_CODE: usize = FIRST_KEY + NODES * KEYS_SIZE;

const FIRST_START: usize = FIRST_CODE + BYTES;

const SIZE: usize = FIRST_START + MARKS;

// What stands in the table, by its numbers, as tests/print-table prints it.
//
// Words of parameters:
//      0 CURRent       1 SCURrent      2 VOLTage       3 R12V          4 R24V          5 CONTinuous    6 OFF
//      7 ON            8 MINimum       9 MAXimum
//
// Rows, with ? where one is only asked, and "no query" where it is only ordered:
//  0  OUTPut[:STATe]
//  1  OUTPut:PON
//  2  OUTPut:RELay
//  3  OUTPut:MONitor:MODE
//  4  [SOURce:]VOLTage[:LEVel][:IMMediate][:AMPLitude]
//  5  [SOURce:]VOLTage:RANGe
//  6  [SOURce:]FREQuency
//  7  [SOURce:]CURRent:LIMit:RMS[:AMPLitude]
//  8  [SOURce:]CURRent:LIMit:RMS:MODE
//  9  [SOURce:]CURRent:LIMit:PEAK:MODE
// 10  [SOURce:]CURRent:LIMit:RMS:TIME
// 11  [SOURce:]CURRent:LIMit:PEAK:TIME
// 12  [SOURce:]CURRent:LIMit:PEAK:HIGH
// 13  [SOURce:]CURRent:LIMit:PEAK:LOW
// 14  DISPlay:BRIGhtness
// 15  SYSTem:KLOCk
// 16  SYSTem:EXAM
// 17  *IDN?
// 18  *TST?
// 19  *OPC?
// 20  *WAI, no query
// 21  *OPC, no query
// 22  *RST, no query
// 23  *CLS, no query
// 24  *ESE
// 25  *SRE
// 26  *ESR?
// 27  *STB?
// 28  SYSTem:ERRor?
// 29  *SAV, no query
// 30  *RCL, no query
// 31  DISPlay:TEXT
// 32  STATus:OPERation:CONDition?
// 33  STATus:OPERation[:EVENt]?
// 34  STATus:OPERation:ENABle
// 35  STATus:OPERation:NTRansition
// 36  STATus:OPERation:PTRansition
// 37  STATus:LOCK:CONDition?
// 38  STATus:LOCK[:EVENt]?
// 39  STATus:LOCK:ENABle
// 40  STATus:LOCK:NTRansition
// 41  STATus:LOCK:PTRansition
// 42  STATus:WARNing:CONDition?
// 43  STATus:WARNing[:EVENt]?
// 44  STATus:WARNing:ENABle
// 45  STATus:WARNing:NTRansition
// 46  STATus:WARNing:PTRansition
//
// Words of the rows' nodes, by the bytes that stand for them in a row:
//       \0 OUTPut        \x01 VOLTage       \x02 FREQuency     \x03 CURRent       \x04 STATe         \x05 PON
//     \x06 RELay         \x07 MONitor       \x08 MODE          \x09 SOURce        \x0a LEVel         \x0b IMMediate
//     \x0c AMPLitude     \x0d RANGe         \x0e LIMit         \x0f RMS           \x10 PEAK          \x11 TIME
//     \x12 HIGH          \x13 LOW           \x14 DISPlay       \x15 BRIGhtness    \x16 SYSTem        \x17 KLOCk
//     \x18 IDN           \x19 TST           \x1a OPC           \x1b WAI           \x1c RST           \x1d CLS
//     \x1e ESE           \x1f SRE           \x20 ESR           \x21 STB           \x22 STATus        \x23 OPERation
//     \x24 CONDition     \x25 EVENt         \x26 ENABle        \x27 NTRansition   \x28 PTRansition   \x29 ERRor
//     \x2a EXAM          \x2b LOCK          \x2c WARNing       \x2d SAV           \x2e RCL           \x2f TEXT
//
// So \x03\x03\x89\x01\x0d\0\0\0, row 5, has the forms 1 + 2, set and asked, and 3 nodes. They are \x89, SOURce (\x09) with 128
// more, so that it may be left out; \x01, VOLTage; \x0d, RANGe: the header is [SOURce:]VOLTage:RANGe.

// 16 bytes to a word of a parameter: the lengths of its short and its long form, then its letters. 8 bytes to a row: its forms
// as bits, the number of its nodes, and each node's word, with 128 more where the node may be left out. 16 bytes to a word of a
// node: its short and its long form as numbers, low byte first. Then the code that each byte has in a name, and for each mark of
// first letters the first row that can have it.
//
// Bytes stay packed: `command_table` computes all of them from 01's rows, and tests/print-table prints them by it.
#[derive(Drop)]
pub(crate) struct Table {
    bytes: [u8; SIZE],
    ghost has_01s_rows: { bytes ≡ command_table },
}

impl Table {
    // Reads a byte of a parameter's word: the lengths of its two forms, then its letters. Words, rows and nodes are bare numbers below
    // their counts, here and where they are looked up: types for them would be taken apart at each cell.
    pub(crate) fn word_cell(&self, word: usize, i: usize) -> u8
        requires { (word < word_count) × (i < word_size) }
        ensures { result ≡ word_cell word i }
    {
        self.bytes[word * WORD_SIZE + i]
    }

    // Reads a byte of a row: its forms, how many nodes it has, then the nodes.
    pub(crate) fn row_cell(&self, row: usize, i: usize) -> u8
        requires { (row < row_count) × (i < row_size) }
        ensures { result ≡ row_cell row i }
    {
        self.bytes[FIRST_ROW + row * ROW_SIZE + i]
    }

    // Reads the number of a node's word: i is 0 for its short form, 1 for its long one.
    pub(crate) fn key_cell(&self, word: usize, i: usize) -> u64
        requires { (word < node_count) × (i < 2) }
        ensures { result ≡ key_cell word i }
    {
        let at = FIRST_KEY + word * KEYS_SIZE + i * 8;
        let b = &self.bytes[at..at + 8];
        u64::from_le_bytes([b[0], b[1], b[2], b[3], b[4], b[5], b[6], b[7]])
    }

    // Gives a byte of a name as a number of five bits, the same for a letter in either case; 0 for a digit, and for a byte that
    // no name has.
    pub(crate) fn code(&self, b: u8) -> u64
        ensures { result ≡ code_of b }
    {
        self.bytes[FIRST_CODE + b as usize] as u64
    }

    // Looks up the first row that can have names with a mark, the second lookup of 02 (#113): it is ROWS where none can, a number
    // in the packed table, from which the search has no row to try.
    pub(crate) fn start_row(&self, mark: usize) -> usize
        requires { mark < mark_count }
        ensures { result ≡ start_of mark }
    {
        self.bytes[FIRST_START + mark] as usize
    }

    pub(crate) fn commands() -> Table {
        Table {
            bytes: *b"\
            \x04\x07CURRENT\0\0\0\0\0\0\0\
            \x04\x08SCURRENT\0\0\0\0\0\0\
            \x04\x07VOLTAGE\0\0\0\0\0\0\0\
            \x04\x04R12V\0\0\0\0\0\0\0\0\0\0\
            \x04\x04R24V\0\0\0\0\0\0\0\0\0\0\
            \x04\x0aCONTINUOUS\0\0\0\0\
            \x03\x03OFF\0\0\0\0\0\0\0\0\0\0\0\
            \x02\x02ON\0\0\0\0\0\0\0\0\0\0\0\0\
            \x03\x07MINIMUM\0\0\0\0\0\0\0\
            \x03\x07MAXIMUM\0\0\0\0\0\0\0\
            \x03\x02\0\x84\0\0\0\0\
            \x03\x02\0\x05\0\0\0\0\
            \x03\x02\0\x06\0\0\0\0\
            \x03\x03\0\x07\x08\0\0\0\
            \x03\x05\x89\x01\x8a\x8b\x8c\0\
            \x03\x03\x89\x01\x0d\0\0\0\
            \x03\x02\x89\x02\0\0\0\0\
            \x03\x05\x89\x03\x0e\x0f\x8c\0\
            \x03\x05\x89\x03\x0e\x0f\x08\0\
            \x03\x05\x89\x03\x0e\x10\x08\0\
            \x03\x05\x89\x03\x0e\x0f\x11\0\
            \x03\x05\x89\x03\x0e\x10\x11\0\
            \x03\x05\x89\x03\x0e\x10\x12\0\
            \x03\x05\x89\x03\x0e\x10\x13\0\
            \x03\x02\x14\x15\0\0\0\0\
            \x03\x02\x16\x17\0\0\0\0\
            \x03\x02\x16\x2a\0\0\0\0\
            \x08\x01\x18\0\0\0\0\0\
            \x08\x01\x19\0\0\0\0\0\
            \x08\x01\x1a\0\0\0\0\0\
            \x04\x01\x1b\0\0\0\0\0\
            \x04\x01\x1a\0\0\0\0\0\
            \x04\x01\x1c\0\0\0\0\0\
            \x04\x01\x1d\0\0\0\0\0\
            \x0c\x01\x1e\0\0\0\0\0\
            \x0c\x01\x1f\0\0\0\0\0\
            \x08\x01\x20\0\0\0\0\0\
            \x08\x01\x21\0\0\0\0\0\
            \x02\x02\x16\x29\0\0\0\0\
            \x04\x01\x2d\0\0\0\0\0\
            \x04\x01\x2e\0\0\0\0\0\
            \x03\x02\x14\x2f\0\0\0\0\
            \x02\x03\x22\x23\x24\0\0\0\
            \x02\x03\x22\x23\xa5\0\0\0\
            \x03\x03\x22\x23\x26\0\0\0\
            \x03\x03\x22\x23\x27\0\0\0\
            \x03\x03\x22\x23\x28\0\0\0\
            \x02\x03\x22\x2b\x24\0\0\0\
            \x02\x03\x22\x2b\xa5\0\0\0\
            \x03\x03\x22\x2b\x26\0\0\0\
            \x03\x03\x22\x2b\x27\0\0\0\
            \x03\x03\x22\x2b\x28\0\0\0\
            \x02\x03\x22\x2c\x24\0\0\0\
            \x02\x03\x22\x2c\xa5\0\0\0\
            \x03\x03\x22\x2c\x26\0\0\0\
            \x03\x03\x22\x2c\x27\0\0\0\
            \x03\x03\x22\x2c\x28\0\0\0\
            \x0f\xd2\x0a\0\0\0\0\0\x8f\x56\x48\x2b\0\0\0\0\
            \x96\xb2\x07\0\0\0\0\0\xb6\x9c\x40\xd9\x03\0\0\0\
            \x26\x16\x09\0\0\0\0\0\x26\x0f\x57\x6a\x2c\x12\0\0\
            \x43\xca\x0a\0\0\0\0\0\x83\xba\x22\x65\x05\0\0\0\
            \x93\x06\x0a\0\0\0\0\0\xb3\xd0\x40\x01\0\0\0\0\
            \xd0\x3d\0\0\0\0\0\0\xd0\x3d\0\0\0\0\0\0\
            \x92\x15\0\0\0\0\0\0\x32\x07\x56\0\0\0\0\0\
            \xcd\x3d\0\0\0\0\0\0\x4d\x3e\x9a\xdc\x03\0\0\0\
            \xad\x90\x07\0\0\0\0\0\xad\x90\x07\0\0\0\0\0\
            \x53\xd6\x07\0\0\0\0\0\xb3\x0c\x59\x1f\0\0\0\0\
            \xcc\x16\0\0\0\0\0\0\x8c\x15\x5b\0\0\0\0\0\
            \xa9\x35\0\0\0\0\0\0\xa9\xd0\x90\x48\x69\x0d\0\0\
            \x81\xc1\x06\0\0\0\0\0\xa1\x90\x4a\x13\x83\x0d\0\0\
            \xf2\xb8\0\0\0\0\0\0\xb2\x1c\x17\0\0\0\0\0\
            \xac\x25\0\0\0\0\0\0\x8c\xa6\x96\0\0\0\0\0\
            \x72\x36\0\0\0\0\0\0\x72\x36\0\0\0\0\0\0\
            \x70\x85\x02\0\0\0\0\0\x70\x85\x02\0\0\0\0\0\
            \xb4\xb4\x04\0\0\0\0\0\xb4\xb4\x04\0\0\0\0\0\
            \x08\x9d\x04\0\0\0\0\0\x08\x9d\x04\0\0\0\0\0\
            \xec\x3e\0\0\0\0\0\0\xec\x3e\0\0\0\0\0\0\
            \x04\xce\x04\0\0\0\0\0\x24\x07\x06\x67\x02\0\0\0\
            \xe2\x24\x09\0\0\0\0\0\x62\xce\xe2\x28\x3a\x49\x02\0\
            \x93\xce\x0c\0\0\0\0\0\xb3\x15\x3a\x33\0\0\0\0\
            \x6b\x3c\x06\0\0\0\0\0\x6b\x8d\xc7\0\0\0\0\0\
            \xc9\x11\0\0\0\0\0\0\xc9\x11\0\0\0\0\0\0\
            \x94\x4e\0\0\0\0\0\0\x94\x4e\0\0\0\0\0\0\
            \x6f\x40\0\0\0\0\0\0\x6f\x40\0\0\0\0\0\0\
            \x37\x05\0\0\0\0\0\0\x37\x05\0\0\0\0\0\0\
            \x92\x4e\0\0\0\0\0\0\x92\x4e\0\0\0\0\0\0\
            \x63\x32\0\0\0\0\0\0\x63\x32\0\0\0\0\0\0\
            \xa5\x4c\0\0\0\0\0\0\xa5\x4c\0\0\0\0\0\0\
            \xb3\x48\0\0\0\0\0\0\xb3\x48\0\0\0\0\0\0\
            \x45\x4e\0\0\0\0\0\0\x45\x4e\0\0\0\0\0\0\
            \x53\x50\0\0\0\0\0\0\x53\x50\0\0\0\0\0\0\
            \x93\x06\x0a\0\0\0\0\0\x73\x56\x1a\x28\0\0\0\0\
            \x4f\x16\x08\0\0\0\0\0\xcf\xbd\x44\x83\x2c\x10\0\0\
            \x83\xb8\x07\0\0\0\0\0\xc3\xbd\x44\x13\x71\x0f\0\0\
            \xc5\x15\x0b\0\0\0\0\0\x85\xba\x62\x01\0\0\0\0\
            \x45\x04\x07\0\0\0\0\0\xa5\x30\x11\x1c\0\0\0\0\
            \x4e\x52\0\0\0\0\0\0\xce\xbd\x44\xd3\x74\x41\x52\0\
            \x50\x52\0\0\0\0\0\0\xd0\xbd\x44\xd3\x74\x41\x52\0\
            \x45\x4a\0\0\0\0\0\0\x45\x3e\x29\x01\0\0\0\0\
            \xa5\x05\x0c\0\0\0\0\0\xa5\x05\x0c\0\0\0\0\0\
            \x6c\x8d\x07\0\0\0\0\0\x6c\x8d\x07\0\0\0\0\0\
            \xd7\xc9\0\0\0\0\0\0\xf7\xb8\xe4\x64\0\0\0\0\
            \xd3\x06\0\0\0\0\0\0\xd3\x06\0\0\0\0\0\0\
            \x92\x0d\0\0\0\0\0\0\x92\x0d\0\0\0\0\0\0\
            \x94\xe2\x02\0\0\0\0\0\x94\xe2\x02\0\0\0\0\0\
            \0\0\0\0\0\0\0\0\0\0\0\0\0\0\0\0\
            \0\0\0\0\0\0\0\0\0\0\0\0\0\0\0\0\
            \0\0\0\0\0\0\0\0\0\0\0\0\0\0\0\0\
            \0\0\0\0\0\0\0\0\0\0\0\0\0\0\0\0\
            \0\x01\x02\x03\x04\x05\x06\x07\x08\x09\x0a\x0b\x0c\x0d\x0e\x0f\
            \x10\x11\x12\x13\x14\x15\x16\x17\x18\x19\x1a\0\0\0\0\x1f\
            \0\x01\x02\x03\x04\x05\x06\x07\x08\x09\x0a\x0b\x0c\x0d\x0e\x0f\
            \x10\x11\x12\x13\x14\x15\x16\x17\x18\x19\x1a\0\0\0\0\0\
            \0\0\0\0\0\0\0\0\0\0\0\0\0\0\0\0\
            \0\0\0\0\0\0\0\0\0\0\0\0\0\0\0\0\
            \0\0\0\0\0\0\0\0\0\0\0\0\0\0\0\0\
            \0\0\0\0\0\0\0\0\0\0\0\0\0\0\0\0\
            \0\0\0\0\0\0\0\0\0\0\0\0\0\0\0\0\
            \0\0\0\0\0\0\0\0\0\0\0\0\0\0\0\0\
            \0\0\0\0\0\0\0\0\0\0\0\0\0\0\0\0\
            \0\0\0\0\0\0\0\0\0\0\0\0\0\0\0\0\
            \x2f\x2f\x2f\x2f\x2f\x03\x06\x2f\x2f\x2f\x2f\x2f\x2f\x2f\x2f\0\
            \x2f\x04\x2f\x2f\x2f\x2f\x04\x2f\x2f\x04\x2f\x17\x04\x18\x2f\x2f\
            \x2f\x11\x05\x2f\x2f\x2f\x2f\x13\x2f\x2f\x16\x19\x12\x21\x2f\x14\
            \x2f\x2f\x2f\x2f\x2f\x2f\x23\x2f\x24\x2f\x2f\x2f\x2f\x2f\x2f\x2f\
            \x2f\x2f\x2f\x2f\x2f\x2f\x2f\x2f\x2f\x2f\x2f\x2f\x2f\x2f\x2f\x2f\
            \x2f\x2f\x2f\x2f\x2f\x2f\x2f\x2f\x2f\x04\x2f\x2f\x2f\x2f\x2f\x2f\
            \x2f\x2f\x0e\x2f\x2f\x2f\x2f\x2f\x2f\x2f\x2f\x2f\x2f\x2f\x2f\x2f\
            \x2f\x2f\x2f\x2f\x1f\x2f\x2f\x2f\x01\x2f\x02\0\x2f\x2f\x2f\x2f\
            \x2f\x2f\x2f\x2f\x2f\x2f\x2f\x2f\x0c\x2f\x2f\x2f\x0d\x09\x2f\x2f\
            \x2f\x2f\x2f\x2f\x0b\x2f\x2f\x2f\x2f\x2f\x2f\x2f\x2f\x2f\x2f\x2f\
            \x2f\x04\x2f\x2f\x2f\x2f\x2f\x2f\x2f\x04\x2f\x2f\x2f\x2f\x2f\x2f\
            \x2f\x07\x2f\x2f\x2f\x2f\x2f\x2f\x2f\x2f\x2f\x2f\x2f\x08\x2f\x2f\
            \x2f\x2f\x2f\x2f\x0a\x2f\x2f\x2f\x2f\x2f\x2f\x2f\x2f\x10\x06\x2f\
            \x2f\x04\x2f\x0f\x26\x2f\x2f\x21\x2f\x04\x2f\x2f\x04\x2f\x04\x2b\
            \x2f\x2f\x05\x25\x2f\x26\x2f\x2f\x2f\x2f\x2f\x2a\x2f\x2b\x28\x2f\
            \x29\x2f\x07\x2f\x2f\x2f\x2d\x2f\x2e\x2f\x2f\x2f\x2f\x2f\x2f\x2f",
        }
    }
}
