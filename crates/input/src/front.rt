// The words in front of the entries: the head and station words.
ghost use Rattle.std.specs.Prelude.{◌≡◌, ◌≤◌, cond, [], map, length, take, drop, IfOk, IfErr};
ghost use Rattle.words.specs.Layout.{payload_of};
ghost use Rattle.fields.specs.Limits.{max_variables, max_values};
ghost use Rattle.fields.specs.Front.{good_sizes};
ghost use Rattle.fields.specs.Numbers.{fault_number, fault_in};
ghost use Rattle.reader.specs.Left.{words_left, Within};
ghost use Rattle.entries.specs.Entries.{entries_fault};
ghost use Rattle.input.specs.Instance.{stations_fault};
ghost use Rattle.input.specs.Heads.{head_read, size_read};

use fields::refusals::Fault;
use fields::{MAX_VALUES, MAX_VARIABLES, Sizes};
use reader::Reader;
use words::Word;

/// The number of variables that the next word gives as a head, 0 where there are no words at all.
#[tactic(auto, using(crate::proofs::Heads::head_said, reader::proofs::Within::next_within))]
pub fn read_head(reader: &mut Reader) -> Result<u32, Fault>
    ensures head { result ≡ head_read (words_left reader.old) }
    ensures left { words_left reader.new ≡ drop 1 (words_left reader.old) }
    ensures within { Within reader.old → Within reader.new }
{
    let Some(word) = reader.next() else {
        return Ok(0);
    };
    let Word::Head(n) = Word::from(word) else {
        return Err(Fault::BadHead);
    };
    if n as usize > MAX_VARIABLES {
        return Err(Fault::BadHead);
    }
    Ok(n)
}

/// The size of a variable that the next word gives.
#[tactic(auto, using(crate::proofs::Heads::size_said, reader::proofs::Within::next_within))]
pub fn read_size(reader: &mut Reader) -> Result<u32, Fault>
    ensures size { result ≡ size_read (words_left reader.old) }
    ensures small { IfOk result (λ d. d ≤ max_values) }
    ensures left { words_left reader.new ≡ drop 1 (words_left reader.old) }
    ensures within { Within reader.old → Within reader.new }
{
    let Some(word) = reader.next() else {
        return Err(Fault::BadVariable);
    };
    let Word::Size(size) = Word::from(word) else {
        return Err(Fault::BadVariable);
    };
    if size < 1 || MAX_VALUES < size {
        return Err(Fault::BadVariable);
    }
    Ok(size)
}

/// The sizes of n variables, from the next words.
#[tactic(auto, using(crate::proofs::Heads::sizes_stop, crate::proofs::Heads::sizes_done, crate::proofs::Heads::good_stop, crate::proofs::Heads::good_done))]
pub fn read_sizes(reader: &mut Reader, n: usize) -> Result<Sizes, Fault>
    requires { n ≤ max_variables }
    ensures fault { IfErr result (λ f. fault_number f ≡ stations_fault n [] (words_left reader.old)) }
    ensures sized { fault_in result ≡ cond (good_sizes n (words_left reader.old)) 0 2 }
    ensures good { IfOk result (λ s. stations_fault n [] (words_left reader.old) ≡ entries_fault s.items 0 0 (words_left reader.new)) }
    ensures sizes { IfOk result (λ s. s.items ≡ map payload_of (take n (words_left reader.old))) }
    ensures left { IfOk result (λ s. words_left reader.new ≡ drop n (words_left reader.old)) }
    ensures within { Within reader.old → Within reader.new }
{
    let mut sizes = Sizes::new();
    for _ in 0..n {
        sizes.push(read_size(reader)? as u8);
    }
    Ok(sizes)
}
