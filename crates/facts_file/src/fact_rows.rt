//! The loader of `facts.csv`: from the file's bytes to facts, or to the refusal of its first faulty row.
ghost use Rattle.std.specs.Prelude.{◌≡◌, ◌≤◌, [], Ok, OnOk, nat_lt};
ghost use Rattle.rows.specs.Fields.{field_seen, place_of, number_in};
ghost use Rattle.rows.specs.Refusals.{refusal, refused_as};
ghost use Rattle.facts_file.specs.FactRefusals.{fact_refusal, Named};
ghost use Rattle.rows.specs.declared.refusal_types.Layer.TheVariants.{Reader};
ghost use Rattle.std.specs.Option.{option_map};
ghost use Rattle.std.specs.Result.{result_and};
ghost use Rattle.lists.specs.Held.{held};
ghost use Rattle.facts_file.specs.Facts.{words, most_facts, fact_kind, fact_word, facts_file, facts_before, over, FactsLoaded};
ghost use Rattle.facts_file.specs.FactScan.{number_field, words_at, fact_at, fact_step, step_seen};

use crate::fault_types::FactFault;
use facts::{Fact, WORDS, Words, kind_of};
use lists::FixedList;
use rows::{
    Field, FieldFault, Place, Refusal, file_bytes, read_field, read_number, readable, row_of_width,
};

/// How many facts a file may have.
pub const MOST_FACTS: usize = 512;

fn number(field: Field<'_>) -> Result<i64, FieldFault>
    ensures { result ≡ number_field (field_seen field.entry) }
{
    match field {
        Field::Number(text, place) | Field::Quoted(text, place) => {
            readable(read_number(text), place)
        }
        Field::Word(_, place) | Field::Letter(_, place) => Err(FieldFault { place }),
    }
}

fn kind(field: Field<'_>) -> Result<u8, FactFault>
    ensures { refused_as fact_refusal result ≡ fact_kind (place_of (field_seen field.entry)).row (place_of (field_seen field.entry)).field (number_in (field_seen field.entry)) }
{
    kind_of(number(field)?).ok_or(FactFault::Kind(field.place()))
}

fn word<W: Words>(field: Field<'_>) -> Result<i64, FactFault>
    ensures { refused_as fact_refusal result ≡ fact_word W.Words.system.valid (place_of (field_seen field.entry)).row (place_of (field_seen field.entry)).field (number_in (field_seen field.entry)) }
{
    let word = number(field)?;
    if W::valid(word) {
        Ok(word)
    } else {
        Err(FactFault::Word(field.place()))
    }
}

// The bytes and the row's number stay two parameters: the bytes go on from field to field, and the number does not.
// `as`, here and below: fields and rows are counted by `usize` up to 4 and to 513, so that nothing is cut off.
fn read_words<W: Words>(bytes: &[u8], row: u32) -> Result<[i64; WORDS], FactFault>
    ensures { refused_as fact_refusal result ≡ words_at W.Words.system.valid row 2 words bytes.now }
{
    let mut words = [0; WORDS];
    let mut rest = bytes;
    for (i, slot) in words.iter_mut().enumerate() {
        let field = i as u32 + 2;
        let read = read_field(rest, Place { row, field });
        let (field, more) = read.ok_or(FactFault::Malformed(row))?;
        *slot = word::<W>(field)?;
        rest = more;
    }
    Ok(words)
}

fn read_fact<W: Words>(bytes: &[u8], row: u32) -> Result<Fact, FactFault>
    ensures { refused_as fact_refusal result ≡ fact_at W.Words.system.valid row bytes.now }
{
    let read = read_field(bytes, Place { row, field: 1 });
    let (field, rest) = read.ok_or(FactFault::Malformed(row))?;
    let kind = kind(field)?;
    let words = read_words::<W>(rest, row)?;
    Ok(Fact { kind, words })
}

fn one_too_many(row: u32) -> bool
    ensures { result ≡ nat_lt most_facts row }
{
    row as usize > MOST_FACTS
}

fn next_fact<'a, W: Words>(bytes: &'a [u8], row: u32) -> Result<(Fact, &'a [u8]), FactFault>
    ensures step { refused_as fact_refusal (step_seen result) ≡ fact_step W.Words.system.valid row bytes.now }
    ensures bound { OnOk result (row ≤ most_facts) }
{
    let rest = row_of_width(bytes, WORDS + 1).ok_or(FactFault::Malformed(row))?;
    if one_too_many(row) {
        return Err(FactFault::TooMany(row));
    }
    let fact = read_fact::<W>(bytes, row)?;
    Ok((fact, rest))
}

/// A list without facts, for a file to be read into.
pub fn no_facts() -> FixedList<Fact, MOST_FACTS>
    ensures { held result ≡ [] }
{
    let blank = Fact {
        kind: 0,
        words: [0; WORDS],
    };
    FixedList::new(blank)
}

/// Reads the facts of a file into the list, whatever it had; none for the file is a file that is not there.
/// Where the file is refused, the list has the facts of the rows before the one that is refused. In every case the array keeps what it had
/// behind the facts.
// By hand: the list numbers the rows, and an iterator of rows would count them once more.
pub fn load_facts<W: Words>(
    file: Option<&[u8]>,
    facts: &mut FixedList<Fact, MOST_FACTS>,
) -> Result<(), Refusal>
    ensures answer { result_and result (Ok (held facts.new)) ≡ facts_file W.Words.system.valid (option_map (λ x. x.now) file.entry) }
    ensures facts { held facts.new ≡ facts_before W.Words.system.valid (option_map (λ x. x.now) file.entry) }
    ensures items { facts.new.items ≡ over (facts_before W.Words.system.valid (option_map (λ x. x.now) file.entry)) facts.old.items }
    ensures named { Named result }
    ensures loaded { FactsLoaded W.Words.system.valid (option_map (λ x. x.now) file.entry) result (held facts.new) }
{
    facts.clear();
    let mut rest = file_bytes(file)?;
    while !rest.is_empty() {
        let (fact, more) = next_fact::<W>(rest, facts.len() as u32 + 1)?;
        facts.push(fact);
        rest = more;
    }
    Ok(())
}
