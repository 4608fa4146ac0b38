// A reader that hands out the fields of a line.
ghost use Rattle.std.specs.Prelude.{◌+◌, ◌≤◌, length};
ghost use Rattle.dayfile.specs.Text.{parts_left};

mod parts;

// What of a line has still to be read, if anything, and the number of fields before it: a field is handed out with its
// number, by a rule of the project. It can be copied, so that a line's fields may be read twice. It has no model, as
// a type that borrows cannot have one and be `Copy`.
#[derive(Clone, Copy)]
pub struct Fields<'a> {
    rest: Option<&'a [u8]>,
    number: usize,
    // a line of 120 bytes has at most 121 fields
    ghost few: { number + length (parts_left rest) ≤ 121 },
}
