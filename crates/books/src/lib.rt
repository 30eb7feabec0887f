// Last season's books: records of eight words turned into records of ten, with the numbers that their tags call for, and back. First all
// refusals, then one pass that writes.
#![tactic(auto)]

ghost use Rattle.std.specs.Prelude.{◌≡◌, ◌&&◌, ◌+◌, ◌*◌, ◌/◌, ◌<◌, ◌≤◌, ltb, length, if◌then◌else◌};
ghost use Rattle.spec.specs.Base.{joined};
ghost use Rattle.spec.specs.Records.{field_size, field_words, record_size, called_for, numbered};
ghost use Rattle.spec.specs.Load.{laid_over};
ghost use Rattle.spec.specs.Check.{records_of};
ghost use Rattle.spec.specs.Books.{misnumbered, new_book, old_book};
ghost use Rattle.records.specs.Steps.{given};
ghost use Rattle.books.specs.Turns.{Turns};

use records::{FIELDS, RECORD};
use spec::{Numbers, Turned, refusals};

// THE REFUSALS

// A refusal at a record: nothing is written.
fn refused(number: u32, index: usize) -> Turned
    ensures { result ≡ record { number = number; index = index; records = 0 } }
{
    Turned {
        number,
        index,
        records: 0,
    }
}

// Whether an output of so many words has room for so many records of a length, or the first that does not fit.
fn check_room(size: usize, count: usize, words: usize) -> Option<usize>
    requires { field_size ≤ size }
    ensures { result ≡ (if ltb (words / size) count then Some (words / size + 1) else None) }
{
    let room = words / size;
    if room < count {
        return Some(room + 1);
    }
    None
}

// Whether each record has the numbers that the tags call for, or the first that has not.
fn check_numbers(new: &[u32], count: usize) -> Option<usize>
    requires count_in_bounds { record_size * count ≤ length new.now }
    requires count_bound { count < 4294967295 }
    ensures { result ≡ misnumbered 1 (called_for (records_of record_size count new.now)) new.now }
{
    let mut begun = Numbers {
        function: 0,
        block: 0,
    };
    for i in 0..count {
        let f = records::record_at(new, i);
        let has = records::numbers_at(new, RECORD * i);
        let step = numbers::count(f.tag, begun);
        if has != step.own {
            return Some(i + 1);
        }
        begun = step.begun;
    }
    None
}

// THE RECORDS

// Records of eight words, written with the numbers that their tags call for.
fn put_new(old: &[u32], count: usize, out: &mut [u32])
    requires count_in_bounds { field_size * count ≤ length old.now }
    requires count_in_bounds_2 { record_size * count ≤ length out.old }
    requires count_bound { count < 4294967295 }
    ensures { out.new ≡ laid_over out.old (numbered (records_of field_size count old.now)) }
{
    let mut begun = Numbers {
        function: 0,
        block: 0,
    };
    for i in 0..count {
        let f = records::fields_at(old, FIELDS * i);
        let step = numbers::count(f.tag, begun);
        records::put_record(out, RECORD * i, f, step.own);
        begun = step.begun;
    }
}

// Records of ten words, written without their numbers.
fn put_old(new: &[u32], count: usize, out: &mut [u32])
    requires count_in_bounds { record_size * count ≤ length new.now }
    requires count_in_bounds_2 { field_size * count ≤ length out.old }
    ensures { out.new ≡ laid_over out.old (joined field_words (records_of record_size count new.now)) }
{
    for i in 0..count {
        let f = records::record_at(new, i);
        records::put_fields(out, FIELDS * i, f);
    }
}

// So many records are written.
fn turned(records: usize) -> Turned
    ensures { result ≡ record { number = 0; index = 0; records = records } }
{
    Turned {
        number: refusals::ACCEPTED,
        index: 0,
        records,
    }
}

// THE BOOKS

// An old book into a new one: 30, judged as parse order judges it, then 25.
pub fn new_book(
    old: &[u32],
    log: &[u8],
    strings: &[u8],
    count: usize,
    log_count: usize,
    string_count: usize,
    out: &mut [u32],
) -> Turned
    ensures { Turns (new_book (given old.now log.now strings.now count log_count string_count) out.old) out.new result }
{
    let checked = records::check_of(
        FIELDS,
        false,
        old,
        log,
        strings,
        count,
        log_count,
        string_count,
    );
    if let Some(index) = checked {
        return refused(refusals::BAD_RECORDS, index);
    }
    let room = check_room(RECORD, count, out.len());
    if let Some(index) = room {
        return refused(refusals::INSTRUCTIONS_FULL, index);
    }
    put_new(old, count, out);
    turned(count)
}

// A new book into an old one: 30, 33 at the first record whose numbers are not those that the tags call for, then 25.
pub fn old_book(
    new: &[u32],
    log: &[u8],
    strings: &[u8],
    count: usize,
    log_count: usize,
    string_count: usize,
    out: &mut [u32],
) -> Turned
    ensures { Turns (old_book (given new.now log.now strings.now count log_count string_count) out.old) out.new result }
{
    let checked = records::check_of(
        RECORD,
        false,
        new,
        log,
        strings,
        count,
        log_count,
        string_count,
    );
    if let Some(index) = checked {
        return refused(refusals::BAD_RECORDS, index);
    }
    let numbers = check_numbers(new, count);
    let room = check_room(FIELDS, count, out.len());
    if let Some(wrong) = numbers {
        return refused(refusals::NUMBERS_WRONG, wrong);
    }
    if let Some(past) = room {
        return refused(refusals::INSTRUCTIONS_FULL, past);
    }
    put_old(new, count, out);
    turned(count)
}
