// Plays the lines of a script on the box and its store.
use crate::event::Event;
use crate::report::Report;
use crate::script::parted;
use crate::{field, script, show, store};
use interpreter::state::{STORE, State};

// The longest store that an event is lent.
const LONGEST: usize = 8192;

// The box, the saved setups beside it, and the length of the store that the next event is lent.
#[derive(Drop)]
pub(crate) struct Bench {
    state: State,
    store: [u8; STORE],
    lent: usize,
}

impl Bench {
    // Makes the box at power-up, with a store of zeros.
    pub(crate) fn new() -> Bench {
        Bench {
            state: State::power_up(),
            store: [0; STORE],
            lent: STORE,
        }
    }

    // Plays a line, and writes its report without the newline. A line that can't be read changes nothing
    // but the report, which then means nothing. A blank parts the letter from what follows.
    pub(crate) fn play(&mut self, line: &[u8], report: &mut Report) -> Option<()> {
        let [letter, rest @ ..] = line else {
            return None;
        };
        report.put(char::from(*letter));
        match rest {
            [] => self.play_letter(*letter, report),
            [b' ', text @ ..] => self.play_text(*letter, text, report),
            _ => None,
        }
    }

    // Plays a line of one letter; `p` alone is an empty piece. A power-up is lent no store, so the next
    // event still is. Here and in `Event::read` the script's letters end: what follows knows events alone.
    fn play_letter(&mut self, letter: u8, report: &mut Report) -> Option<()> {
        match letter {
            b'u' => self.state = State::power_up(),
            b's' => show::state(&self.state, report),
            b'r' => store::show(&self.store, report),
            b'p' => self.happen(Event::Piece(&[]), report)?,
            b'l' => self.happen(Event::Look, report)?,
            _ => return None,
        }
        Some(())
    }

    // Plays a letter that a text follows.
    fn play_text(&mut self, letter: u8, text: &[u8], report: &mut Report) -> Option<()> {
        match letter {
            b'x' => self.overwrite(text),
            b'S' => self.mark(text),
            b'b' => store::add(&mut self.store, text),
            b'z' => store::zero(&mut self.store, text),
            b'm' => store::copy(&mut self.store, text),
            _ => self.happen(Event::read(letter, text)?, report),
        }
    }

    // Plays an overwriting: a blank parts the field's name from its value.
    fn overwrite(&mut self, text: &[u8]) -> Option<()> {
        let (name, value) = parted(text)?;
        field::overwrite(&mut self.state, name, value)
    }

    // Plays a mark: the next event is lent a store of the length that a text spells.
    fn mark(&mut self, text: &[u8]) -> Option<()> {
        let length = script::number(text)?;
        if length > LONGEST {
            return None;
        }
        self.lent = length;
        Some(())
    }

    // Plays an event on as much of the store as it is lent, and the next is lent the whole. Where that is
    // more than there is, zeros follow a copy of the store; what would be written there is lost, but an
    // event leaves a store of a wrong length as it is.
    fn happen(&mut self, event: Event<'_>, report: &mut Report) -> Option<()> {
        if let Some(store) = self.store.get_mut(..self.lent) {
            event.play(&mut self.state, store, report)?;
        } else {
            let mut longer = [0; LONGEST];
            longer[..STORE].copy_from_slice(&self.store);
            event.play(&mut self.state, longer.get_mut(..self.lent)?, report)?;
        }
        self.lent = STORE;
        Some(())
    }
}
