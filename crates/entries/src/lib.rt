// The entries' words, read one after the other: their faults and their number.
#![tactic(auto)]

ghost use Rattle.std.specs.Prelude.{◌≡◌, ◌+◌, [], length, IfOk};
ghost use Rattle.fields.specs.Numbers.{fault_in};
ghost use Rattle.fields.specs.Entries.{entries_from};
ghost use Rattle.reader.specs.Left.{words_left};
ghost use Rattle.entries.specs.Entries.{entries_fault};

use fields::refusals::Fault;
use fields::{MAX_COST, MAX_ENTRIES};
use reader::Reader;
use words::Word;

/// How far the entries are read: the lowest variable that may be bound next, 0 where no entry is open, and how many are
/// closed.
#[derive(Clone, Copy, Debug, PartialEq, Eq)]
pub struct Scan {
    pub from: u32,
    pub count: u32,
}

impl Scan {
    ghost use Rattle.std.specs.Prelude.{◌≡◌, IfErr};
    ghost use Rattle.entries.specs.Entries.{scan_closing, scan_word};
    ghost use Rattle.entries.specs.Scans.{scanned_at, scan_end};

    /// Goes on behind the next word, with the sizes of the variables. A fault leaves the scan where it was.
    #[tactic(auto, using(crate::proofs::Scans::scan_word_said), unfolding(crate::specs::Entries::scan_binding, crate::specs::Entries::scan_cost, crate::specs::Entries::scan_forbidden))]
    pub fn read(&mut self, sizes: &[u8], word: u32) -> Result<(), Fault>
        ensures scanned { scanned_at self.new result ≡ scan_word sizes.now self.old.from self.old.count word }
        ensures kept { IfErr result (λ _. self.new ≡ self.old) }
    {
        match Word::from(word) {
            Word::Binding(variable, value) => {
                let size = sizes.get(variable as usize).copied().unwrap_or(0);
                if variable < self.from || u32::from(size) <= value {
                    return Err(Fault::BadEntry);
                }
                self.from = variable + 1;
                Ok(())
            }
            Word::Cost(cost) if MAX_COST < cost => Err(Fault::CostTooHigh),
            Word::Cost(_) => self.close(),
            Word::Forbidden(0) => self.close(),
            Word::Forbidden(_) => Err(Fault::BadEntry),
            _ => Err(Fault::BadEntry),
        }
    }

    /// Goes on behind a good word that closes an entry.
    #[tactic(auto, unfolding(crate::specs::Entries::scan_closing))]
    fn close(&mut self) -> Result<(), Fault>
        ensures scanned { scanned_at self.new result ≡ scan_closing self.old.count }
        ensures kept { IfErr result (λ _. self.new ≡ self.old) }
    {
        if MAX_ENTRIES <= self.count {
            return Err(Fault::TooManyEntries);
        }
        self.from = 0;
        self.count += 1;
        Ok(())
    }

    /// The number of entries where the words end. An open entry is a fault.
    pub fn end(self) -> Result<u32, Fault>
        ensures { result ≡ scan_end self }
    {
        if self.from != 0 {
            return Err(Fault::BadEntry);
        }
        Ok(self.count)
    }
}

/// The number of entries in the words that are left, those before counted, or the fault nearest the front.
// the loop over an instance's words: put into its callers it gets long jumps, and takes up to a half more time
#[inline(never)]
pub fn scan_entries(reader: Reader, sizes: &[u8], before: u32) -> Result<u32, Fault>
    ensures fault { fault_in result ≡ entries_fault sizes.now 0 before (words_left reader.entry) }
    ensures number { IfOk result (λ k. k ≡ before + length (entries_from [] (words_left reader.entry))) }
{
    let mut state = Scan {
        from: 0,
        count: before,
    };
    for word in reader {
        // in place: a state that is returned is put together and taken apart at each word
        state.read(sizes, word)?;
    }
    state.end()
}
