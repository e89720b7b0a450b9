//! Rows and fields by RFC 4180 with CRLF, read from the file's bytes and borrowed from them.
ghost use Rattle.std.specs.Prelude.{◌≡◌, ℕ, ◌+◌, ◌<◌, ◌≤◌, length, take, drop, MatchOption, ◌==◌, slice_index};
ghost use Rattle.std.specs.List.{prefix_len};
ghost use Rattle.std.specs.Option.{option_map};
ghost use Rattle.rows.specs.Csv.{quote, text, loose, got, broken, read_bare, read_escaped, read_field, next, read_row, counted, of_width, rows, row_count, RowGrammar, FileGrammar, read_separated};
ghost use Rattle.rows.specs.Fields.{part_seen, after_seen, count_seen, field_seen, is_letter, sorted_as, placed, placed_seen, FieldGrammar};

use crate::field_types::{After, Field, Part, Place};
use crate::number_text::read_number;

const QUOTE: u8 = b'"';

fn is_text(byte: u8) -> bool
    ensures { result ≡ text byte }
{
    matches!(byte, 0x20..=0x21 | 0x23..=0x2B | 0x2D..=0x7E)
}

fn is_loose(byte: u8) -> bool
    ensures { result ≡ loose byte }
{
    is_text(byte) || matches!(byte, b',' | b'\r' | b'\n')
}

// The length of the longest front of text.
fn bare_length(bytes: &[u8]) -> usize
    ensures within { result ≤ length bytes.now }
    ensures front { result ≡ prefix_len text bytes.now }
{
    bytes.iter().take_while(|byte| is_text(**byte)).count()
}

fn quote_at(bytes: &[u8], at: usize) -> bool
    ensures { result ≡ (slice_index bytes.now at == quote) }
{
    bytes.get(at) == Some(&QUOTE)
}

// Behind an opening quote: where its closing quote stands.
// Steps are of one byte or two, so the index moves by hand. As a loop over slice patterns it did not close: four goals stayed open.
fn closing_quote(bytes: &[u8]) -> Option<usize>
    ensures { MatchOption result (read_escaped bytes.now ≡ broken) (λ n. (n < length bytes.now) × (read_escaped bytes.now ≡ got (take n bytes.now) (drop (n + 1) bytes.now))) }
{
    let mut at = 0;
    while at < bytes.len() {
        if !quote_at(bytes, at) {
            if !is_loose(bytes[at]) {
                return None;
            }
            at += 1;
        } else if quote_at(bytes, at + 1) {
            at += 2;
        } else {
            return Some(at);
        }
    }
    None
}

fn read_part<'a>(bytes: &'a [u8]) -> Option<(Part<'a>, &'a [u8])>
    ensures { MatchOption result (read_field bytes.now ≡ broken) (λ x. read_field bytes.now ≡ got (part_seen x.0) x.1.now) }
{
    match bytes {
        [b'"', inside @ ..] => {
            let end = closing_quote(inside)?;
            Some((Part::Quoted(&inside[0..end]), &inside[end + 1..]))
        }
        _ => {
            let end = bare_length(bytes);
            Some((Part::Bare(&bytes[0..end]), &bytes[end..]))
        }
    }
}

fn after_field<'a>(bytes: &'a [u8]) -> Option<After<'a>>
    ensures { after_seen result ≡ next bytes.now }
{
    match bytes {
        [] => Some(After::FileEnd),
        [b',', more @ ..] => Some(After::Field(more)),
        [b'\r', b'\n', more @ ..] => Some(After::Row(more)),
        _ => None,
    }
}

/// How many fields the row at the beginning of the bytes has, and the bytes behind its end; none where the bytes begin no row.
pub fn read_row<'a>(bytes: &'a [u8]) -> Option<(usize, &'a [u8])>
    ensures reads { count_seen result ≡ counted (read_row bytes.now) }
    ensures grammar { RowGrammar bytes.now (count_seen result) }
{
    // The count is part of the answer, and each turn goes on with the bytes that it leaves: there is nothing to enumerate.
    let mut fields = 0;
    let mut rest = bytes;
    loop {
        let (_, after) = read_part(rest)?;
        fields += 1;
        match after_field(after)? {
            After::Field(more) => rest = more,
            After::Row(more) => return Some((fields, more)),
            After::FileEnd => return Some((fields, after)),
        }
    }
}

/// The bytes behind the row at the beginning of the bytes, if there is a row there and it has so many fields.
pub fn row_of_width<'a>(bytes: &'a [u8], width: usize) -> Option<&'a [u8]>
    ensures { option_map (λ x. x.now) result ≡ of_width width (counted (read_row bytes.now)) }
{
    let (count, rest) = read_row(bytes)?;
    (count == width).then_some(rest)
}

/// How many rows the bytes have, or the number of the first that is malformed.
pub fn row_count(bytes: &[u8]) -> Result<usize, usize>
    ensures reads { result ≡ row_count (rows bytes.now) }
    ensures grammar { FileGrammar bytes.now result }
{
    // The count is the answer. An iterator of rows would make an item of its number, its bytes, its width and its fault, all of which
    // stand here, for one line less in each of the three loops over the rows of a file.
    let mut rows = 0;
    let mut rest = bytes;
    while !rest.is_empty() {
        rows += 1;
        let (_, more) = read_row(rest).ok_or(rows)?;
        rest = more;
    }
    Ok(rows)
}

fn is_letter(text: &[u8]) -> bool
    ensures { result ≡ is_letter text.now }
{
    matches!(text, [b'A'..=b'Z'])
}

fn sorted<'a>(part: Part<'a>, place: Place) -> Field<'a>
    ensures { field_seen result ≡ sorted_as place (part_seen part.entry) }
{
    match part {
        Part::Bare(text) => {
            if is_letter(text) {
                Field::Letter(text, place)
            } else if read_number(text).is_some() {
                Field::Number(text, place)
            } else {
                Field::Word(text, place)
            }
        }
        Part::Quoted(inside) => Field::Quoted(inside, place),
    }
}

fn field_and_rest<'a>(bytes: &'a [u8], place: Place) -> Option<(Field<'a>, &'a [u8])>
    ensures { placed_seen result ≡ placed place (read_separated bytes.now) }
{
    let (part, behind) = read_part(bytes)?;
    let field = sorted(part, place);
    match after_field(behind)? {
        After::Field(more) | After::Row(more) => Some((field, more)),
        After::FileEnd => Some((field, behind)),
    }
}

/// The field at the beginning of the bytes, and the bytes where the next one begins, or the next row behind the last;
/// none where the bytes begin no field, or neither a comma nor a row's end stands behind it.
pub fn read_field<'a>(bytes: &'a [u8], place: Place) -> Option<(Field<'a>, &'a [u8])>
    ensures reads { placed_seen result ≡ placed place (read_separated bytes.now) }
    ensures grammar { FieldGrammar place bytes.now (placed_seen result) }
{
    field_and_rest(bytes, place)
}

#[cfg(test)]
mod tests {
    use super::*;

    #[test]
    fn rows_are_counted(rt: HostRuntime) {
        assert_eq!(rt; row_count(b""), Ok(0));
        assert_eq!(rt; row_count(b"\r\n"), Ok(1));
        assert_eq!(rt; row_count(b"1,2\r\n3,4"), Ok(2));
        assert_eq!(rt; row_count(b"\"1\r\n2\",3"), Ok(1));
    }

    #[test]
    fn malformed_rows_are_named(rt: HostRuntime) {
        assert_eq!(rt; row_count(b"1,2\n3,4"), Err(1));
        assert_eq!(rt; row_count(b"1,2\r\n3,\"4\r\n5,6"), Err(2));
    }
}
