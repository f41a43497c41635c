//! The names, and the feature that each belongs to.

ghost use Rattle.std.specs.Prelude.{◌≡◌, map};
ghost use Rattle.tp_lexer.specs.left_out_names.Names.{feature_in, feature_of};

use crate::Feature;
use type_layout::Name;

// What standard units and the unit System declare in the full language, with the feature that it belongs to.
const LEFT_OUT: [(&[u8], Feature); 48] = [
    (b"REAL", Feature::Reals),
    (b"SINGLE", Feature::Reals),
    (b"DOUBLE", Feature::Reals),
    (b"EXTENDED", Feature::Reals),
    (b"COMP", Feature::Reals),
    (b"TEXT", Feature::Files),
    (b"ASSIGN", Feature::Files),
    (b"RESET", Feature::Files),
    (b"REWRITE", Feature::Files),
    (b"APPEND", Feature::Files),
    (b"CLOSE", Feature::Files),
    (b"INPUT", Feature::Files),
    (b"OUTPUT", Feature::Files),
    (b"IORESULT", Feature::Files),
    (b"POINTER", Feature::Addresses),
    (b"PTR", Feature::Addresses),
    (b"ADDR", Feature::Addresses),
    (b"SEG", Feature::Addresses),
    (b"OFS", Feature::Addresses),
    (b"MEM", Feature::Addresses),
    (b"MEMW", Feature::Addresses),
    (b"MEML", Feature::Addresses),
    (b"GETMEM", Feature::HeapCalls),
    (b"FREEMEM", Feature::HeapCalls),
    (b"MARK", Feature::HeapCalls),
    (b"RELEASE", Feature::HeapCalls),
    (b"MEMAVAIL", Feature::HeapCalls),
    (b"MAXAVAIL", Feature::HeapCalls),
    (b"HEAPERROR", Feature::HeapCalls),
    (b"FILLCHAR", Feature::Blocks),
    (b"MOVE", Feature::Blocks),
    (b"RANDOM", Feature::Randoms),
    (b"RANDOMIZE", Feature::Randoms),
    (b"EXITPROC", Feature::Ends),
    (b"RUNERROR", Feature::Ends),
    (b"PARAMCOUNT", Feature::Params),
    (b"PARAMSTR", Feature::Params),
    (b"SEEKEOF", Feature::Seeks),
    (b"SEEKEOLN", Feature::Seeks),
    (b"TYPEOF", Feature::Objects),
    (b"FAIL", Feature::Objects),
    (b"OVRGETBUF", Feature::Overlays),
    (b"OVRINITEMS", Feature::Overlays),
    (b"OVRSETRETRY", Feature::Overlays),
    (b"CRT", Feature::Units),
    (b"DOS", Feature::Units),
    (b"GRAPH", Feature::Units),
    (b"PRINTER", Feature::Units),
];

// The feature of the first row with the name.
fn feature_in(rows: &[(&[u8], Feature)], name: &Name) -> Option<Feature>
    ensures { result ≡ feature_in (map (λ row. (row.0.now, row.1)) rows.now) name.now }
{
    match rows {
        [] => None,
        [row, rest @ ..] => {
            if name.as_bytes() == row.0 {
                Some(row.1)
            } else {
                feature_in(rest, name)
            }
        }
    }
}

/// The feature that a name belongs to where no source declares it, if this profile leaves that out.
#[tactic(auto, unfolding(crate::specs::left_out_names::Names::left_out))]
pub fn feature_of(name: &Name) -> Option<Feature>
    ensures { result ≡ feature_of name.now }
{
    feature_in(&LEFT_OUT, name)
}
