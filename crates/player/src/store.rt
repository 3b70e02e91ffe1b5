// Changes the store by hand, which otherwise only *SAV does, and shows which blocks are good. A change
// whose numbers can't be read does nothing.
use crate::report::Report;
use crate::script::{number, parted};
use interpreter::state::STORE;
use registers::setup;
use registers::setup::BLOCK;

// Gives the block at the place that a text spells.
fn block<'a>(store: &'a mut [u8; STORE], place: &[u8]) -> Option<&'a mut [u8; BLOCK]> {
    let (blocks, _) = store.as_chunks_mut::<BLOCK>();
    blocks.get_mut(number::<usize>(place)?)
}

// Adds a value to a byte of a block, modulo 256: the text is the block's place, the byte's offset in
// it, and what is added.
pub(crate) fn add(store: &mut [u8; STORE], text: &[u8]) -> Option<()> {
    let (place, text) = parted(text)?;
    let (offset, value) = parted(text)?;
    let byte = block(store, place)?.get_mut(number::<usize>(offset)?)?;
    *byte = byte.wrapping_add(number(value)?);
    Some(())
}

// Makes a block zeros: the text is its place.
pub(crate) fn zero(store: &mut [u8; STORE], text: &[u8]) -> Option<()> {
    *block(store, text)? = [0; BLOCK];
    Some(())
}

// Copies a block onto another place, also onto its own: the text is the two places.
pub(crate) fn copy(store: &mut [u8; STORE], text: &[u8]) -> Option<()> {
    let (from, to) = parted(text)?;
    let copied = *block(store, from)?;
    *block(store, to)? = copied;
    Some(())
}

// Writes a blank and a digit for each block: 1 where *RCL would find it good, else 0.
pub(crate) fn show(store: &[u8; STORE], report: &mut Report) {
    report.put(' ');
    for block in store.chunks_exact(BLOCK) {
        report.put(u8::from(setup::recall(block).is_ok()));
    }
}
