// The fields of a line.
ghost use Rattle.std.specs.Prelude.{◌≡◌, ◌<◌, length, map, MatchOption};
ghost use Rattle.script.specs.Pieces.{fields_of};
ghost use Rattle.script.specs.Requests.{field_at};
ghost use Rattle.script.specs.Words.{most_fields};

use std::marker::Model;

// The field of a line that has n fields before it, or nothing if there are no more than n. What stands behind it is not looked at.
pub fn field(line: &[u8], n: usize) -> &[u8]
    ensures { result.now ≡ field_at (fields_of line.now) n }
{
    line.split(|x| *x == b',').nth(n).unwrap_or(&[])
}

// The most fields that a line has.
const MOST_FIELDS: usize = 9;

// The fields of a line that has no more of them than lines may have. They stand in a row on the stack, so that no memory is asked for.
#[derive(Drop)]
pub struct Fields<'a> {
    row: [&'a [u8]; MOST_FIELDS],
    count: usize,
}

impl<'a> Model for Fields<'a> {
    ghost use Rattle.std.specs.Prelude.{ℕ, ◌≤◌, List, length, map, take};

    ghost Value = { List (List ℕ) };

    ghost view = { λ f. map (λ field. field.now) (take f.count f.row) };

    ghost invariant = { λ f. f.count ≤ length f.row };
}

impl<'a> Fields<'a> {
    // The fields of a line, which stand between commas; none where there are too many.
    pub fn of(line: &'a [u8]) -> Option<Fields<'a>>
        ensures { MatchOption result (most_fields < length (fields_of line.now)) (λ fields. fields ≡ fields_of line.now) }
    {
        let mut row = [line; MOST_FIELDS];
        let mut count = 0;
        for field in line.split(|x| *x == b',') {
            if count == MOST_FIELDS {
                return None;
            }
            row[count] = field;
            count += 1;
        }
        Some(Fields { row, count })
    }

    pub fn as_slice(&self) -> &[&'a [u8]]
        ensures { map (λ field. field.now) result.now ≡ self.now }
    {
        &self.row[..self.count]
    }
}
