//! How the rows of the print are made, byte for byte.
ghost use Rattle.std.specs.Prelude.{◌≡◌, ◌+◌, ◌≤◌, [], ◌∷◌, ◌++◌, length};
ghost use Rattle.printing.specs.Print.{comma, shown, print_row, refuse_row, apply_row, fact_row, end_row, line_text};

use crate::line_type::{FIELDS, Line};
use arrayvec::ArrayString;
use facts::Fact;
use itoa::Buffer;
use machine::{Application, End};
use reader::Refusal;

impl Line {
    fn new() -> Line
        ensures { line_text result ≡ [] }
    {
        Line {
            text: ArrayString::new(),
        }
    }

    // By a method, since a line is whole again behind it: a row is made in a loop, at whose turns the type has to hold.
    fn push_text(&mut self, text: &str)
        requires { length (line_text self.old) + length text.now ≤ 128 }
        ensures { line_text self.new ≡ line_text self.old ++ text.now }
    {
        self.text.push_str(text);
    }

    // A comma, and the number where there is one.
    fn push_field(&mut self, field: Option<i64>)
        requires { length (line_text self.old) + 21 ≤ 128 }
        ensures text { line_text self.new ≡ line_text self.old ++ (comma ∷ shown field) }
        ensures bound { length (line_text self.new) ≤ length (line_text self.old) + 21 }
    {
        self.text.push_str(",");
        if let Some(number) = field {
            self.text.push_str(Buffer::new().format(number));
        }
    }

    /// The bytes of the line, at most 128.
    pub fn text(&self) -> &[u8]
        ensures text { result.now ≡ line_text self.now }
        ensures within { length result.now ≤ 128 }
    {
        self.text.as_str().as_bytes()
    }
}

// A row of the print: its word and its fields.
fn print_row(word: &str, fields: &[Option<i64>; FIELDS]) -> Line
    requires { length word.now ≤ 8 }
    ensures { line_text result ≡ print_row word.now fields.now }
{
    let mut line = Line::new();
    line.push_text(word);
    for field in fields {
        line.push_field(*field);
    }
    line.push_text("\r\n");
    line
}

/// The row of a refused file.
pub fn refuse_row(refusal: &Refusal) -> Line
    ensures { line_text result ≡ refuse_row refusal.now }
{
    let number = Some(i64::from(refusal.number));
    let row = Some(i64::from(refusal.row));
    let field = Some(i64::from(refusal.field));
    print_row("refuse", &[number, row, field, None, None])
}

/// The row of an application.
pub fn apply_row(application: &Application) -> Line
    ensures { line_text result ≡ apply_row application.now }
{
    let rule = Some(i64::from(application.rule));
    let active = Some(i64::from(application.active));
    let removed = Some(i64::from(application.removed));
    let added = Some(i64::from(application.added));
    print_row("apply", &[rule, active, removed, added, None])
}

/// The row of a stored fact.
pub fn fact_row(label: u32, fact: &Fact) -> Line
    ensures { line_text result ≡ fact_row label fact.now }
{
    let [first, second, third] = fact.words;
    let label = Some(i64::from(label));
    let kind = Some(i64::from(fact.kind));
    print_row(
        "fact",
        &[label, kind, Some(first), Some(second), Some(third)],
    )
}

/// The row of the end of a run.
pub fn end_row(end: End, steps: u32) -> Line
    ensures { line_text result ≡ end_row end steps }
{
    let steps = Some(i64::from(steps));
    match end {
        End::Quiet => print_row("quiet", &[steps, None, None, None, None]),
        End::Spent => print_row("spent", &[steps, None, None, None, None]),
        End::Stopped(fault) => {
            let number = Some(i64::from(fault.number()));
            print_row("stop", &[steps, number, None, None, None])
        }
    }
}
