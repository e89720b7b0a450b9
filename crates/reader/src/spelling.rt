//! Words by their spelling: those that a row of rules begins with, and the relations.
ghost use Rattle.std.specs.Prelude.{◌≡◌, ℕ, List, find};
ghost use Rattle.std.specs.Str.{bytes_eq};
ghost use Rattle.rules_file.specs.RuleRows.{word_spelled, relation_spelled, word, relation};

use facts::Relation;
use rules::{BodySort, HeadSort};
use rules_file::RowWord;

/// What has one spelling.
pub(crate) trait Spelled: Copy {
    ghost spelling: { Self → List ℕ };

    fn spelled(&self) -> &'static [u8]
        ensures { result.now ≡ spelling self.now };
}

impl Spelled for RowWord {
    ghost spelling = { word_spelled };

    fn spelled(&self) -> &'static [u8] {
        match self {
            RowWord::Rule => b"rule",
            RowWord::Head(HeadSort::Keep) => b"keep",
            RowWord::Head(HeadSort::Drop) => b"drop",
            RowWord::Head(HeadSort::KeepAll) => b"keepall",
            RowWord::Head(HeadSort::DropAll) => b"dropall",
            RowWord::Head(HeadSort::Only) => b"only",
            RowWord::Head(HeadSort::When) => b"when",
            RowWord::Body(BodySort::Give) => b"give",
            RowWord::Body(BodySort::GiveAll) => b"giveall",
        }
    }
}

impl Spelled for Relation {
    ghost spelling = { relation_spelled };

    fn spelled(&self) -> &'static [u8] {
        match self {
            Relation::Equal => b"eq",
            Relation::Unequal => b"ne",
            Relation::AtMost => b"le",
            Relation::Less => b"lt",
        }
    }
}

// The first that is spelled so.
fn find_spelled<T: Spelled>(all: &[T], text: &[u8]) -> Option<T>
    ensures { result ≡ find (λ x. bytes_eq text.now (T.Spelled.spelling x)) all.now }
{
    all.iter().copied().find(|one| text == one.spelled())
}

pub(crate) fn word_written(text: &[u8]) -> Option<RowWord>
    ensures { result ≡ word text.now }
{
    let words = [
        RowWord::Rule,
        RowWord::Head(HeadSort::Keep),
        RowWord::Head(HeadSort::Drop),
        RowWord::Head(HeadSort::KeepAll),
        RowWord::Head(HeadSort::DropAll),
        RowWord::Head(HeadSort::Only),
        RowWord::Head(HeadSort::When),
        RowWord::Body(BodySort::Give),
        RowWord::Body(BodySort::GiveAll),
    ];
    find_spelled(&words, text)
}

pub(crate) fn relation_written(text: &[u8]) -> Option<Relation>
    ensures { result ≡ relation text.now }
{
    let relations = [
        Relation::Equal,
        Relation::Unequal,
        Relation::AtMost,
        Relation::Less,
    ];
    find_spelled(&relations, text)
}
