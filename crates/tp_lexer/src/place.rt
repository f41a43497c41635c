//! Lines and columns.

ghost use Rattle.std.specs.Prelude.{◌≡◌, fold};
ghost use Rattle.tp_lexer.specs.Places.{moved};

use type_layout::Place;

fn moved(place: Place, byte: u8) -> Place
    ensures { result ≡ moved place byte }
{
    if byte == b'\n' {
        Place {
            text: place.text,
            line: place.line.saturating_add(1),
            column: 1,
        }
    } else {
        Place {
            text: place.text,
            line: place.line,
            column: place.column.saturating_add(1),
        }
    }
}

/// The place behind these bytes, which stand at a place.
pub fn moved_over(place: Place, bytes: &[u8]) -> Place
    ensures { result ≡ fold moved place bytes.now }
{
    let mut after = place;
    for byte in bytes {
        after = moved(after, *byte);
    }
    after
}
