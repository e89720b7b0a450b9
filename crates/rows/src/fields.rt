//! What is asked of a field: where it stands, what stands in it, and whether that can be read.
ghost use Rattle.std.specs.Prelude.{◌≡◌};
ghost use Rattle.std.specs.Option.{option_map};
ghost use Rattle.rows.specs.Fields.{field_seen, place_of, text_of, readable};
ghost use Rattle.rows.specs.Refusals.{refusal, whole_row, file_bytes, bytes_seen};
ghost use Rattle.rows.specs.declared.refusal_types.Layer.TheVariants.{Reader};

use crate::field_types::{Field, Place};
use crate::refusal_types::{FieldFault, Layer, Refusal};

/// How many bytes a file may have.
pub const MOST_BYTES: usize = 65_536;

impl<'a> Field<'a> {
    /// Where the field stands.
    pub fn place(self) -> Place
        ensures { result ≡ place_of (field_seen self.entry) }
    {
        match self {
            Field::Number(_, place)
            | Field::Word(_, place)
            | Field::Letter(_, place)
            | Field::Quoted(_, place) => place,
        }
    }

    /// What stands in the field.
    pub fn text(self) -> &'a [u8]
        ensures { result.now ≡ text_of (field_seen self.entry) }
    {
        match self {
            Field::Number(text, _)
            | Field::Word(text, _)
            | Field::Letter(text, _)
            | Field::Quoted(text, _) => text,
        }
    }
}

/// What can be read, or that the field cannot.
pub fn readable<T>(read: Option<T>, place: Place) -> Result<T, FieldFault>
    ensures { result ≡ readable place read }
{
    read.ok_or(FieldFault { place })
}

impl Place {
    /// The place of a row as a whole.
    pub fn whole_row(row: u32) -> Place
        ensures { result ≡ whole_row row }
    {
        Place { row, field: 0 }
    }
}

impl Refusal {
    /// The refusal of this number, which names this place.
    pub fn at(number: u8, place: Place, layer: Layer) -> Refusal
        ensures { result ≡ refusal number place.row place.field layer }
    {
        Refusal {
            number,
            row: place.row,
            field: place.field,
            layer,
        }
    }
}

/// The refusal of a file that is not there or is too long.
pub fn whole_file() -> Refusal
    ensures { result ≡ refusal 7 0 0 Reader }
{
    Refusal::at(7, Place::whole_row(0), Layer::Reader)
}

/// The bytes of a file, or the refusal of one that is not there or is too long.
pub fn file_bytes<'a>(file: Option<&'a [u8]>) -> Result<&'a [u8], Refusal>
    ensures { bytes_seen result ≡ file_bytes (option_map (λ x. x.now) file.entry) }
{
    let short = file.filter(|bytes| bytes.len() <= MOST_BYTES);
    short.ok_or(whole_file())
}
