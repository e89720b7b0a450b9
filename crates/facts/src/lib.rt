//! Facts, and the word systems that give the words of a fact their meaning.
#![tactic(auto)]

mod fact_types;
mod kinds;
mod length_words;
mod tag_words;
mod word_examples;
mod words_trait;

pub use fact_types::{Fact, KINDS, Operator, Relation, WORDS};
pub use kinds::kind_of;
pub use length_words::Lengths;
pub use tag_words::Tags;
pub use word_examples::{
    lengths_end_at_their_range, tags_are_compared_as_sets, tags_are_joined_as_sets,
};
pub use words_trait::{Words, laws_hold};
