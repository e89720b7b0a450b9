//! How a fact is fitted to a head: letters are bound to its words.
ghost use Rattle.std.specs.Prelude.{◌≡◌, None, slice_index_or};
ghost use Rattle.std.specs.Option.{option_map};
ghost use Rattle.machine.specs.Fitting.{fits, fits_word, fits_words};
ghost use Rattle.engine.specs.Letters.{bind_letter, bind_word, bind_words, bind_fact, setting_in};

use facts::{Fact, WORDS};
use rules::{Argument, LETTERS, Pattern};

/// How many letters there are.
// `as`: `usize::from` is no constant function.
pub(crate) const LETTER_COUNT: usize = LETTERS as usize;

/// The word of each letter that is bound.
pub(crate) type Letters = [Option<i64>; LETTER_COUNT];

// Here and below the letters are bound in place: where none is answered, nothing is said of them.
fn bind_letter(letters: &mut Letters, letter: u8, word: i64) -> Option<()>
    ensures { option_map (λ u. letters.new) result ≡ bind_letter (slice_index_or letters.old letter None) letters.old letter word }
{
    let at = usize::from(letter);
    match *letters.get(at)? {
        Some(bound) => (bound == word).then_some(()),
        // By hand: with `get_mut` the proof of what is answered stays open, as it knows no letter after the write.
        None => {
            letters[at] = Some(word);
            Some(())
        }
    }
}

fn bind_word(letters: &mut Letters, argument: Argument, word: i64) -> Option<()>
    ensures { option_map (λ u. letters.new) result ≡ bind_word letters.old argument word }
{
    match argument {
        Argument::Letter(letter) => bind_letter(letters, letter, word),
        Argument::Constant(constant) => (constant == word).then_some(()),
        Argument::Any => Some(()),
    }
}

fn bind_words(letters: &mut Letters, args: &[Argument; WORDS], words: &[i64; WORDS]) -> Option<()>
    ensures { option_map (λ u. letters.new) result ≡ bind_words letters.old args.now words.now }
{
    for (argument, word) in args.iter().zip(words) {
        bind_word(letters, *argument, *word)?;
    }
    Some(())
}

/// Fits a fact to a head and binds the letters that stand in it. None where the fact does not fit.
pub(crate) fn bind_fact(letters: &mut Letters, pattern: &Pattern, fact: &Fact) -> Option<()>
    ensures { option_map (λ u. letters.new) result ≡ bind_fact letters.old pattern.now fact.now }
{
    if pattern.kind != fact.kind {
        return None;
    }
    bind_words(letters, &pattern.args, &fact.words)
}

/// The word of a letter, or 0 where it is not bound.
pub(crate) fn word_of(letters: &Letters, letter: u8) -> i64
    ensures { result ≡ setting_in letters.now letter }
{
    letters
        .get(usize::from(letter))
        .copied()
        .flatten()
        .unwrap_or(0)
}

fn fits_word(letters: &Letters, argument: Argument, word: i64) -> bool
    ensures { result ≡ fits_word (setting_in letters.now) argument word }
{
    match argument {
        Argument::Letter(letter) => word_of(letters, letter) == word,
        Argument::Constant(constant) => constant == word,
        Argument::Any => true,
    }
}

fn fits_words(letters: &Letters, args: &[Argument; WORDS], words: &[i64; WORDS]) -> bool
    ensures { result ≡ fits_words (setting_in letters.now) args.now words.now }
{
    args.iter()
        .zip(words)
        .all(|(argument, word)| fits_word(letters, *argument, *word))
}

/// Whether a fact fits a head under the letters, all of which are bound.
pub(crate) fn fits(letters: &Letters, pattern: &Pattern, fact: &Fact) -> bool
    ensures { result ≡ fits (setting_in letters.now) pattern.now fact.now }
{
    pattern.kind == fact.kind && fits_words(letters, &pattern.args, &fact.words)
}
